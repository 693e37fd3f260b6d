// Where a contender is in its transfer, what it shows there, and how it moves on.
ghost use Rattle.std.specs.Prelude.{◌≤◌};
ghost use Rattle.transfer.specs.Leg.{body_model, body_size};
ghost use Rattle.master.specs.CursorBounds.{most_read_at};

use crate::symbol::Symbol;
use transfer::{
    Body, BytePlace, Direction, Leg, LegPlace, Outcome, OutcomeKind, ReadBytes, Transfer,
};
use wire::{ByteProgress, bit_at};

#[derive(Clone, Copy)]
pub enum At {
    InLeg,
    // before the second leg
    Restart,
    End,
}

// Which leg is under way, or was before a repeated start: the first, with the one after it, or the second.
#[derive(Clone, Copy)]
pub enum Rest {
    First(Option<Leg>),
    Second,
}

// Clauses see it by `cursor_model`: the model of a copied type gives its fields back, and that of a leg cannot.
#[derive(Clone, Copy)]
pub struct Cursor {
    at: At,
    leg: Leg,
    rest: Rest,
    // 0 is the address
    byte: u8,
    // the bits of that byte so far, of which the ninth is the acknowledge, and what was read by them
    under_way: ByteProgress,
    read: ReadBytes,
    kind: OutcomeKind,
    ghost in_leg: { byte ≤ body_size (body_model leg.body) },
    ghost room: { read.len ≤ most_read_at at rest byte },
}

impl Rest {
    ghost use Rattle.std.specs.Prelude.{◌≡◌};
    ghost use Rattle.master.specs.CursorBounds.{leg_number, leg_to_come};

    fn leg_number(self) -> u8
        ensures { result ≡ leg_number self }
    {
        match self {
            Rest::First(_) => 0,
            Rest::Second => 1,
        }
    }

    fn leg_to_come(self) -> Option<Leg>
        ensures { result ≡ leg_to_come self }
    {
        match self {
            Rest::First(next) => next,
            Rest::Second => None,
        }
    }
}

impl Cursor {
    ghost use Rattle.std.specs.Prelude.{◌≡◌};
    ghost use Rattle.transfer.specs.Transfer.{transfer_model};
    ghost use Rattle.transfer.specs.Outcome.{outcome_model};
    ghost use Rattle.master.specs.Cursor.{cursor_model, new_cursor, outcome_of};

    pub(crate) fn new(transfer: Transfer) -> Cursor
        ensures { cursor_model result ≡ new_cursor (transfer_model transfer) }
    {
        let (leg, next) = transfer.legs();
        Cursor {
            at: At::InLeg,
            leg,
            rest: Rest::First(next),
            byte: 0,
            under_way: ByteProgress::of(0),
            read: ReadBytes::new(),
            kind: OutcomeKind::Done,
        }
    }

    pub(crate) fn outcome(&self) -> Outcome
        ensures { outcome_model result ≡ outcome_of (cursor_model self.now) }
    {
        Outcome {
            kind: self.kind,
            read: match self.kind {
                OutcomeKind::Done => self.read,
                OutcomeKind::NoAnswer(_) | OutcomeKind::Refused(_) => ReadBytes::new(),
            },
        }
    }
}

// What it shows.
impl Cursor {
    ghost use Rattle.std.specs.Prelude.{◌≡◌};
    ghost use Rattle.transfer.specs.Leg.{leg_model};
    ghost use Rattle.master.specs.Cursor.{cursor_model, master_sends, byte_of_leg, symbol_in_leg, symbol_of};

    pub(crate) fn symbol(&self) -> Symbol
        ensures { result ≡ symbol_of (cursor_model self.now).play }
    {
        match self.at {
            At::End => Symbol::Stop,
            At::Restart => Symbol::RepeatedStart,
            At::InLeg => self.leg_symbol(),
        }
    }

    fn leg_symbol(&self) -> Symbol
        ensures { result ≡
            symbol_in_leg (leg_model self.now.leg) self.now.byte self.now.under_way.bits }
    {
        let bits = self.under_way.bits;
        match (self.sends_byte(), bits < 8) {
            (true, true) => Symbol::from(bit_at(self.sent_byte(), 7 - bits)),
            (true, false) | (false, true) => Symbol::Listen,
            (false, false) => Symbol::from(self.byte >= self.leg.size()),
        }
    }

    // Whether the master sends this byte, and then listens for its acknowledge.
    fn sends_byte(&self) -> bool
        ensures { result ≡ master_sends (leg_model self.now.leg) self.now.byte }
    {
        match self.leg.direction() {
            Direction::Write => true,
            Direction::Read => self.byte == 0,
        }
    }

    fn sent_byte(&self) -> u8
        ensures { result ≡ byte_of_leg (leg_model self.now.leg) self.now.byte }
    {
        let address = self.leg.address.number();
        match self.leg.body {
            Body::Write(_) if self.byte == 0 => address * 2,
            Body::Read(_) if self.byte == 0 => address * 2 + 1,
            Body::Write(write) => write.bytes[self.byte as usize - 1],
            Body::Read(_) => 0,
        }
    }
}

// How it moves on.
impl Cursor {
    ghost use Rattle.std.specs.Prelude.{◌≡◌};
    ghost use Rattle.std.specs.Option.{option_map};
    ghost use Rattle.transfer.specs.Leg.{leg_model};
    ghost use Rattle.master.specs.declared.cursor.At.TheVariants.{InLeg};
    ghost use Rattle.master.specs.CursorBounds.{leg_number, leg_to_come};
    ghost use Rattle.master.specs.Cursor.{cursor_model, master_sends, failure_kind, after_acknowledge, cursor_next};

    // Moves on, once `heard` was the level under the symbol shown.
    pub(crate) fn advance(&mut self, heard: bool)
        ensures { cursor_model self.new ≡ cursor_next (cursor_model self.old) heard }
    {
        match self.at {
            At::End => {}
            At::Restart => {
                self.at = At::InLeg;
                self.rest = Rest::Second;
                self.byte = 0;
                self.under_way.bits = 0;
            }
            At::InLeg => self.advance_in_leg(heard),
        }
    }

    fn advance_in_leg(&mut self, heard: bool)
        requires { self.old.at ≡ InLeg }
        ensures { cursor_model self.new ≡ cursor_next (cursor_model self.old) heard }
    {
        let is_sent = self.sends_byte();
        if self.under_way.bits < 8 {
            self.under_way = if is_sent {
                self.under_way.shown()
            } else {
                self.under_way.received(heard)
            };
        } else if is_sent && heard {
            self.kind = self.failure();
            self.at = At::End;
        } else {
            self.leave_byte(is_sent);
        }
    }

    // What an N for this byte names (I2C specification 2.1, section 7.2).
    fn failure(&self) -> OutcomeKind
        ensures { result ≡ failure_kind (leg_number self.now.rest) self.now.byte }
    {
        let leg = self.rest.leg_number();
        if self.byte == 0 {
            OutcomeKind::NoAnswer(LegPlace { leg })
        } else {
            OutcomeKind::Refused(BytePlace {
                leg,
                byte: self.byte - 1,
            })
        }
    }

    // Goes to the next byte of the leg, or past its end; a byte that was read is kept.
    fn leave_byte(&mut self, is_sent: bool)
        requires in_leg { self.old.at ≡ InLeg }
        requires known { is_sent ≡ master_sends (leg_model self.old.leg) self.old.byte }
        ensures { cursor_model self.new ≡
            after_acknowledge is_sent (leg_model self.old.leg)
            (option_map leg_model (leg_to_come self.old.rest))
            self.old.byte (cursor_model self.old).notes }
    {
        if !is_sent {
            self.read.push(self.under_way.value);
            self.under_way.value = 0;
        }
        self.under_way.bits = 0;
        if self.byte < self.leg.size() {
            self.byte += 1;
            return;
        }
        match self.rest.leg_to_come() {
            Some(leg) => {
                self.at = At::Restart;
                self.leg = leg;
                self.byte = 0;
            }
            None => self.at = At::End,
        }
    }
}
