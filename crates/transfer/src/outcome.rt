// What a host is told of its transfer.
use crate::bytes::ReadBytes;
use std::fmt;
use text::{ArrayString, Decimal, push_bytes};

/// A leg of a transfer, counted from 0.
#[derive(Clone, Copy, PartialEq, Eq, Debug)]
pub struct LegPlace {
    pub leg: u8,
}

/// A byte written by a leg. Both are counted from 0, and the address is none of the bytes.
#[derive(Clone, Copy, PartialEq, Eq, Debug)]
pub struct BytePlace {
    pub leg: u8,
    pub byte: u8,
}

/// Whether a transfer went through, and if not, where it ended: at an address or a byte that was
/// not acknowledged (I2C specification 2.1, section 7.2).
#[derive(Clone, Copy, PartialEq, Eq, Debug)]
pub enum OutcomeKind {
    /// Every address and every byte written was acknowledged, and every byte asked for was read.
    Done,
    /// No port acknowledged the address of this leg.
    NoAnswer(LegPlace),
    /// No port acknowledged this byte.
    Refused(BytePlace),
}

/// The bytes read are those of the first leg, then those of the second. A master reports bytes only
/// with a done outcome.
#[derive(Clone, Copy, Debug)]
pub struct Outcome {
    pub kind: OutcomeKind,
    pub read: ReadBytes,
}

impl Outcome {
    ghost use Rattle.std.specs.Prelude.{◌≡◌, ◌+◌, ◌≤◌, ◌++◌, length};
    ghost use Rattle.transfer.specs.Outcome.{outcome_model, outcome_text};

    /// Puts what came of the transfer at the end of the text, in words: 100 bytes at most, which
    /// are `done` and 32 bytes read. Legs and bytes count from 0, and the bytes read are in base
    /// sixteen.
    pub fn push_to<const N: usize>(&self, text: &mut ArrayString<N>)
        requires { length text.old.bytes + 100 ≤ N }
        ensures text { text.new.bytes ≡ text.old.bytes ++ outcome_text (outcome_model self.now) }
        ensures short { length text.new.bytes ≤ length text.old.bytes + 100 }
    {
        match self.kind {
            OutcomeKind::Done => {
                text.push_str("done");
                push_bytes(text, self.read.as_slice());
            }
            OutcomeKind::NoAnswer(place) => {
                text.push_str("no answer to leg ");
                Decimal(place.leg.into()).push_to(text);
            }
            OutcomeKind::Refused(place) => {
                text.push_str("byte ");
                Decimal(place.byte.into()).push_to(text);
                text.push_str(" of leg ");
                Decimal(place.leg.into()).push_to(text);
                text.push_str(" refused");
            }
        }
    }
}

impl fmt::Display for Outcome {
    ghost use Rattle.std.specs.Prelude.{Some};
    ghost use Rattle.transfer.specs.Outcome.{outcome_model, outcome_text};

    ghost output = { λ o. Some (outcome_text (outcome_model o)) };

    fn fmt<W: fmt::Write>(&self, f: &mut fmt::Formatter<W>) -> fmt::Result {
        let mut text = ArrayString::<100>::new();
        self.push_to(&mut text);
        f.pad(text.as_str())
    }
}

// By hand, as a derive would write it, so that the contract says that two are equal exactly if
// their models are.
impl PartialEq for Outcome {
    ghost use Rattle.std.specs.Bool.{Decides};
    ghost use Rattle.std.specs.Cmp.{and_equiv, on_equiv, partial_equiv_from_equiv};
    ghost use Rattle.std.specs.Cmp.Lexicographic.{nat_list_eq_equiv};
    ghost use Rattle.std.specs.Prelude.{◌≡◌, ◌&&◌};
    ghost use Rattle.transfer.specs.Bytes.{bytes_in};
    ghost use Rattle.transfer.specs.contracts.outcome.OutcomeKindEq.TheImpl.Laws.{laws-law};
    ghost use Rattle.transfer.specs.Outcome.{outcome_model};

    ghost eq = { λ a b. ⟦<OutcomeKind as PartialEq>⟧.eq a.kind b.kind
        && ⟦<ReadBytes as PartialEq>⟧.eq a.read b.read };

    ghost laws = { partial_equiv_from_equiv
        (and_equiv (on_equiv (λ o. o.kind) laws-law)
        (on_equiv (λ o. bytes_in o.read) nat_list_eq_equiv)) };

    fn eq(&self, other: &Outcome) -> bool
        ensures value { result ≡ (⟦<OutcomeKind as PartialEq>⟧.eq self.now.kind other.now.kind
            && ⟦<ReadBytes as PartialEq>⟧.eq self.now.read other.now.read) }
        ensures same { Decides result (outcome_model self.now ≡ outcome_model other.now) }
    {
        self.kind == other.kind && self.read == other.read
    }
}

impl Eq for Outcome {
    ghost use Rattle.std.specs.Cmp.{and_equiv, on_equiv};
    ghost use Rattle.std.specs.Cmp.Lexicographic.{nat_list_eq_equiv};
    ghost use Rattle.transfer.specs.Bytes.{bytes_in};
    ghost use Rattle.transfer.specs.contracts.outcome.OutcomeKindEq.TheImpl.Laws.{laws-law};

    ghost laws = { and_equiv (on_equiv (λ o. o.kind) laws-law)
        (on_equiv (λ o. bytes_in o.read) nat_list_eq_equiv) };
}
