// A byte as bits, the highest first (I2C specification 2.1, section 7.1).
ghost use Rattle.std.specs.Prelude.{◌≡◌, ◌<◌};
ghost use Rattle.wire.specs.ByteProgress.{bit_at, shift_in};

/// A byte under way. One that comes has the value of the bits so far, and one that goes the whole.
#[derive(Clone, Copy, PartialEq, Eq, Debug)]
pub struct ByteProgress {
    /// How many bits have passed.
    pub bits: u8,
    pub value: u8,
}

impl ByteProgress {
    ghost use Rattle.std.specs.Prelude.{suc};
    ghost use Rattle.wire.specs.ByteProgress.{progress};

    /// A byte of this value of which no bit has passed.
    pub fn of(value: u8) -> ByteProgress
        ensures { result ≡ progress 0 value }
    {
        ByteProgress { bits: 0, value }
    }

    /// One bit more of a byte that comes: it becomes the lowest, and the others move up.
    pub fn received(self, bit: bool) -> ByteProgress
        requires { self.bits < 255 }
        ensures { result ≡ progress (suc self.bits) (shift_in self.value bit) }
    {
        ByteProgress {
            bits: self.bits + 1,
            value: shift_in(self.value, bit),
        }
    }

    /// One bit more of a byte that goes.
    pub fn shown(self) -> ByteProgress
        requires { self.bits < 255 }
        ensures { result ≡ progress (suc self.bits) self.value }
    {
        ByteProgress {
            bits: self.bits + 1,
            value: self.value,
        }
    }
}

/// The bit at this place, from 0 for the lowest to 7.
pub fn bit_at(byte: u8, place: u8) -> bool
    requires { place < 8 }
    ensures { result ≡ bit_at byte place }
{
    (byte >> place) % 2 == 1
}

/// The byte with this bit as its lowest: the others move up, and the highest falls out.
pub fn shift_in(byte: u8, bit: bool) -> u8
    ensures { result ≡ shift_in byte bit }
{
    byte % 128 * 2 + u8::from(bit)
}
