// A seven-bit address that a port or a leg may have.
ghost use Rattle.std.specs.Prelude.{◌≤◌};
ghost use Rattle.transfer.specs.Limits.{least_address, most_address};

use crate::refusal::Refusal;

/// A number from [`LEAST`](Address::LEAST) to [`MOST`](Address::MOST): of the seven-bit addresses
/// the eight lowest and the eight highest are reserved (I2C specification 2.1, section 10.1).
#[derive(Clone, Copy, PartialEq, Eq, Debug)]
pub struct Address {
    number: u8,
    ghost least: { least_address ≤ number },
    ghost most: { number ≤ most_address },
}

impl Address {
    ghost use Rattle.std.specs.Prelude.{◌≡◌};
    ghost use Rattle.transfer.specs.Address.{checked_address, answers_to};
    ghost use Rattle.transfer.specs.Refusal.{answer};

    /// The lowest number that is an address; those below it are reserved.
    pub const LEAST: u32 = 8;

    /// The highest number that is an address; those above it are reserved.
    pub const MOST: u32 = 119;

    /// The address of this number; a reserved one is refused, and any above seven bits.
    pub fn new(number: u32) -> Result<Address, Refusal>
        ensures { answer (λ a. a.number) result ≡ checked_address number }
    {
        if !(Address::LEAST..=Address::MOST).contains(&number) {
            return Err(Refusal::AddressOutOfRange);
        }
        Ok(Address {
            number: number as u8,
        })
    }

    /// The address of the lowest number.
    pub fn least() -> Address
        ensures { result.number ≡ least_address }
    {
        Address {
            number: Address::LEAST as u8,
        }
    }

    /// Its seven bits as a number.
    pub fn number(self) -> u8
        ensures { result ≡ self.number }
    {
        self.number
    }

    /// Whether a port of this address answers to the upper seven bits of an address byte
    /// (I2C specification 2.1, section 10.1).
    pub fn answers_to(self, asked: u8) -> bool
        ensures { result ≡ answers_to self.number asked }
    {
        asked == self.number
    }
}
