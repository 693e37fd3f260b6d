// One leg of a transfer: an address, and the bytes to write to it or how many to read from it.
ghost use Rattle.std.specs.Prelude.{◌≤◌};
ghost use Rattle.transfer.specs.Limits.{most_bytes};

use crate::address::Address;
use crate::bytes::WriteBytes;

/// Which way the bytes of a leg go, seen from the master.
#[derive(Clone, Copy, PartialEq, Eq, Debug)]
pub enum Direction {
    Write,
    Read,
}

impl From<bool> for Direction {
    ghost use Rattle.std.specs.Prelude.{◌≡◌};
    ghost use Rattle.transfer.specs.Leg.{direction_of};

    ghost from_gives = { λ bit direction. direction ≡ direction_of bit };

    // Of the bit after an address: I2C specification 2.1, section 10.1.
    fn from(bit: bool) -> Direction {
        if bit {
            Direction::Read
        } else {
            Direction::Write
        }
    }
}

/// How many bytes a leg reads: 1 to [`MOST_BYTES`](crate::MOST_BYTES).
#[derive(Clone, Copy, PartialEq, Eq, Debug)]
pub struct ReadCount {
    pub count: u8,
    ghost some: { 1 ≤ count },
    ghost fits: { count ≤ most_bytes },
}

/// What follows the address.
#[derive(Clone, Copy, PartialEq, Eq, Debug)]
pub enum Body {
    Write(WriteBytes),
    Read(ReadCount),
}

/// From a start or repeated start up to the next: I2C specification 2.1, section 9.
#[derive(Clone, Copy, PartialEq, Eq, Debug)]
pub struct Leg {
    pub address: Address,
    pub body: Body,
}

impl Leg {
    ghost use Rattle.std.specs.Prelude.{◌≡◌};
    ghost use Rattle.transfer.specs.Leg.{body_model, leg_model, empty_write, body_size, body_direction};

    pub(crate) fn empty_write(address: Address) -> Leg
        ensures { leg_model result ≡ empty_write address.number }
    {
        Leg {
            address,
            body: Body::Write(WriteBytes::new()),
        }
    }

    /// Whether it writes or reads.
    pub fn direction(&self) -> Direction
        ensures { result ≡ body_direction (body_model self.now.body) }
    {
        match self.body {
            Body::Write(_) => Direction::Write,
            Body::Read(_) => Direction::Read,
        }
    }

    /// How many bytes follow the address.
    pub fn size(&self) -> u8
        ensures { result ≡ body_size (body_model self.now.body) }
    {
        match self.body {
            Body::Write(write) => write.len as u8,
            Body::Read(read) => read.count,
        }
    }
}
