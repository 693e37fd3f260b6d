// A transfer being put together, and the sealed transfer that it becomes.
use crate::address::Address;
use crate::bytes::{MOST_BYTES, WriteBytes};
use crate::leg::{Body, Leg, ReadCount};
use crate::refusal::Refusal;
use std::marker::Model;

/// One leg, or two with a repeated start between them (I2C specification 2.1, section 9).
// It has no `Model`: the model of a copied type gives its fields back, and that of a leg cannot.
// Clauses see it by `transfer_model`.
#[derive(Clone, Copy, Debug)]
pub struct Transfer {
    first: Leg,
    second: Option<Leg>,
}

impl Transfer {
    ghost use Rattle.std.specs.Prelude.{◌≡◌};
    ghost use Rattle.transfer.specs.Limits.{least_address};
    ghost use Rattle.transfer.specs.Refusal.{answer};
    ghost use Rattle.transfer.specs.Transfer.{transfer_model, new_draft, checked_write, checked_read, checked_write_then_read};

    /// One leg: a write of 0 to [`MOST_BYTES`] bytes.
    pub fn write(address: Address, bytes: &[u8]) -> Result<Transfer, Refusal>
        ensures { answer transfer_model result ≡ checked_write address.number bytes.now }
    {
        let mut draft = Draft::new(address);
        draft.write(bytes)?;
        Ok(draft.seal())
    }

    /// One leg: a read of `count` bytes, 1 to [`MOST_BYTES`].
    pub fn read(address: Address, count: u32) -> Result<Transfer, Refusal>
        ensures { answer transfer_model result ≡ checked_read address.number count }
    {
        let mut draft = Draft::new(address);
        draft.read(count)?;
        Ok(draft.seal())
    }

    /// Two legs, both at this address: a write, and then a read of `wanted` bytes. Lengths are as
    /// for one leg.
    pub fn write_then_read(
        address: Address,
        written: &[u8],
        wanted: u32,
    ) -> Result<Transfer, Refusal>
        ensures { answer transfer_model result ≡ checked_write_then_read address.number written.now wanted }
    {
        let mut draft = Draft::new(address);
        draft.write(written)?;
        draft.second_leg(address)?;
        draft.read(wanted)?;
        Ok(draft.seal())
    }

    /// The first leg, and the second if there is one.
    pub fn legs(&self) -> (Leg, Option<Leg>)
        ensures { result ≡ (self.now.first, self.now.second) }
    {
        (self.first, self.second)
    }

    /// What stands where no transfer is meant: an empty write to the least address.
    pub fn filler() -> Transfer
        ensures { transfer_model result ≡ new_draft least_address }
    {
        Draft::new(Address::least()).seal()
    }
}

// By hand, as a derive would write it, so that the contract says that two are equal exactly if
// their models are.
impl PartialEq for Transfer {
    ghost use Rattle.std.specs.Bool.{Decides};
    ghost use Rattle.std.specs.Cmp.{and_equiv, on_equiv, partial_equiv_from_equiv};
    ghost use Rattle.std.specs.Cmp.Lexicographic.{options_equiv};
    ghost use Rattle.std.specs.Prelude.{◌≡◌, ◌&&◌};
    ghost use Rattle.transfer.specs.contracts.leg.LegEq.TheImpl.Laws.{laws-law};
    ghost use Rattle.transfer.specs.Transfer.{transfer_model};

    ghost eq = { λ a b. ⟦<Leg as PartialEq>⟧.eq a.first b.first
        && ⟦<Option<Leg> as PartialEq>⟧.eq a.second b.second };

    ghost laws = { partial_equiv_from_equiv
        (and_equiv (on_equiv (λ t. t.first) laws-law)
        (on_equiv (λ t. t.second) (options_equiv laws-law))) };

    fn eq(&self, other: &Transfer) -> bool
        ensures value { result ≡ (⟦<Leg as PartialEq>⟧.eq self.now.first other.now.first
            && ⟦<Option<Leg> as PartialEq>⟧.eq self.now.second other.now.second) }
        ensures same { Decides result (transfer_model self.now ≡ transfer_model other.now) }
    {
        self.first == other.first && self.second == other.second
    }
}

impl Eq for Transfer {
    ghost use Rattle.std.specs.Cmp.{and_equiv, on_equiv};
    ghost use Rattle.std.specs.Cmp.Lexicographic.{options_equiv};
    ghost use Rattle.transfer.specs.contracts.leg.LegEq.TheImpl.Laws.{laws-law};

    ghost laws = { and_equiv (on_equiv (λ t. t.first) laws-law)
        (on_equiv (λ t. t.second) (options_equiv laws-law)) };
}

/// The transfer so far.
///
/// It cannot be copied, so that nothing can be added to it once it is sealed. A refused call leaves
/// it as it was.
#[derive(Drop, Debug)]
pub struct Draft {
    transfer: Transfer,
}

// Clauses see the transfer that a draft would be sealed into.
impl Model for Draft {
    ghost use Rattle.transfer.specs.Transfer.{TransferModel, transfer_model};

    ghost Value = { TransferModel };

    ghost view = { λ draft. transfer_model draft.transfer };
}

impl Draft {
    ghost use Rattle.std.specs.Prelude.{◌≡◌};
    ghost use Rattle.transfer.specs.Leg.{body_model};
    ghost use Rattle.transfer.specs.Legal.{IsLegal};
    ghost use Rattle.transfer.specs.Refusal.{answer};
    ghost use Rattle.transfer.specs.Transfer.{transfer_model, new_draft, with_last_body};
    ghost use Rattle.transfer.specs.Transfer.{answer_to_write, answer_to_read, answer_to_second_leg};

    /// One leg, an empty write to the address.
    pub fn new(address: Address) -> Draft
        ensures made { result ≡ new_draft address.number }
        ensures legal { IsLegal result }
    {
        Draft {
            transfer: Transfer {
                first: Leg::empty_write(address),
                second: None,
            },
        }
    }

    // The last leg gets this body.
    fn set_body(&mut self, body: Body)
        ensures set { self.new ≡ with_last_body (body_model body) self.old.first self.old.second }
        ensures legal { IsLegal self.new }
    {
        match &mut self.transfer.second {
            Some(leg) => leg.body = body,
            None => self.transfer.first.body = body,
        }
    }

    /// The last leg becomes a write of these bytes, 0 to [`MOST_BYTES`] of them.
    pub fn write(&mut self, bytes: &[u8]) -> Result<(), Refusal>
        ensures answered { (answer (λ u. u) result, self.new) ≡ answer_to_write bytes.now self.old }
        ensures legal { IsLegal self.new }
    {
        // looked at here, so that a refused draft is known to be legal too
        let _before = &self.transfer;
        if bytes.len() > MOST_BYTES {
            return Err(Refusal::LengthOutOfRange);
        }
        self.set_body(Body::Write(WriteBytes::copy_of(bytes)));
        Ok(())
    }

    /// The last leg becomes a read of `count` bytes, 1 to [`MOST_BYTES`].
    pub fn read(&mut self, count: u32) -> Result<(), Refusal>
        ensures answered { (answer (λ u. u) result, self.new) ≡ answer_to_read count self.old }
        ensures legal { IsLegal self.new }
    {
        let _before = &self.transfer;
        if !(1..=MOST_BYTES as u32).contains(&count) {
            return Err(Refusal::LengthOutOfRange);
        }
        self.set_body(Body::Read(ReadCount { count: count as u8 }));
        Ok(())
    }

    /// A second leg, an empty write to the address; it is then the last.
    pub fn second_leg(&mut self, address: Address) -> Result<(), Refusal>
        ensures answered { (answer (λ u. u) result, self.new) ≡ answer_to_second_leg address.number self.old }
        ensures legal { IsLegal self.new }
    {
        if self.transfer.second.is_some() {
            return Err(Refusal::TwoLegsAlready);
        }
        self.transfer.second = Some(Leg::empty_write(address));
        Ok(())
    }

    /// The finished transfer, of the legs added so far.
    pub fn seal(self) -> Transfer
        ensures { transfer_model result ≡ self }
    {
        let Draft { transfer } = self;
        transfer
    }
}
