// What is pulled, and the levels that this gives.
use crate::levels::Levels;

/// Which lines a part, or some parts together, pull low.
// A type apart from `Levels`, which has the same fields: a line that is pulled is low, and one type
// for both would let them be mixed up.
#[derive(Clone, Copy, PartialEq, Eq, Debug)]
pub struct Pulls {
    pub scl: bool,
    pub sda: bool,
}

impl Pulls {
    ghost use Rattle.std.specs.Prelude.{◌≡◌};
    ghost use Rattle.wire.specs.Pulls.{no_pulls, pulls_or, levels_of};

    /// Neither line is pulled.
    pub fn none() -> Pulls
        ensures { result ≡ no_pulls }
    {
        Pulls {
            scl: false,
            sda: false,
        }
    }

    /// The pulls of two parts together.
    pub fn or(self, other: Pulls) -> Pulls
        ensures { result ≡ pulls_or self other }
    {
        Pulls {
            scl: self.scl || other.scl,
            sda: self.sda || other.sda,
        }
    }

    /// A line is high exactly where nobody pulls it: both lines are wired-AND
    /// (I2C specification 2.1, section 5).
    pub fn levels(self) -> Levels
        ensures { result ≡ levels_of self }
    {
        Levels {
            scl: !self.scl,
            sda: !self.sda,
        }
    }
}
