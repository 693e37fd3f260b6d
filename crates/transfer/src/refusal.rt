// Why a call is refused.
use std::error::Error;
use std::fmt;

/// A call that is refused changes nothing and makes nothing. Where two refusals apply, the upper
/// one is given.
#[derive(Clone, Copy, PartialEq, Eq, Debug)]
pub enum Refusal {
    /// An address is below 8 or above 119.
    AddressOutOfRange,
    /// A count of a clock pair is below 1 or above 255 ticks.
    ClockOutOfRange,
    /// The draft has two legs.
    TwoLegsAlready,
    /// A write has more than 16 bytes, a read has none or more than 16, or a list has more than 8
    /// items.
    LengthOutOfRange,
    /// The bus has no master of this number.
    NoSuchMaster,
    /// The master is armed, so that an outcome is still to come.
    ArmedAlready,
    /// The host of the master wants no transfer.
    NothingWanted,
    /// A run is asked for more than 1,000,000 ticks.
    TooManyTicks,
}

impl Refusal {
    ghost use Rattle.std.specs.Prelude.{◌≡◌};
    ghost use Rattle.transfer.specs.Refusal.{number, message};

    /// A number for programs that report one, from 1 to 8.
    pub fn number(self) -> u8
        ensures { result ≡ number self }
    {
        self as u8 + 1
    }

    /// What was refused, in words, with the limit where there is one. All lengths have one message.
    pub fn message(self) -> &'static str
        ensures { result.now ≡ message self }
    {
        match self {
            Refusal::AddressOutOfRange => "address not from 8 to 119",
            Refusal::ClockOutOfRange => "clock count not from 1 to 255",
            Refusal::TwoLegsAlready => "a transfer has two legs at most",
            Refusal::LengthOutOfRange => {
                "length out of range: a write has at most 16 bytes, a read 1 to 16, a list or a queue at most 8 items"
            }
            Refusal::NoSuchMaster => "no master of this number",
            Refusal::ArmedAlready => "master armed already",
            Refusal::NothingWanted => "host wants nothing",
            Refusal::TooManyTicks => "more than 1000000 ticks asked for",
        }
    }
}

impl fmt::Display for Refusal {
    ghost use Rattle.std.specs.Prelude.{Some};
    ghost use Rattle.transfer.specs.Refusal.{message};

    ghost output = { λ r. Some (message r) };

    fn fmt<W: fmt::Write>(&self, f: &mut fmt::Formatter<W>) -> fmt::Result {
        f.pad(self.message())
    }
}

impl Error for Refusal {}
