// A number as text in base ten.
ghost use Rattle.std.specs.Prelude.{◌≡◌, ℕ, ◌+◌, ◌≤◌, ◌++◌, List, Some, length, decimal};
ghost use Rattle.text.specs.Decimal.{IsDecimal};

use arrayvec::ArrayString;
use itoa::Buffer;
use std::fmt;

/// A number of 64 bits, shown in base ten without leading zeros.
#[derive(Clone, Copy, PartialEq, Eq, Debug)]
pub struct Decimal(pub u64);

impl Decimal {
    /// Puts the digits of the number at the end of the text: 1 to 20 of them. No other text is a
    /// decimal of the number.
    pub fn push_to<const N: usize>(self, text: &mut ArrayString<N>)
        requires { length text.old.bytes + 20 ≤ N }
        ensures text { text.new.bytes ≡ text.old.bytes ++ decimal self.0 }
        ensures short { length text.new.bytes ≤ length text.old.bytes + 20 }
        ensures number { IsDecimal self.0 (decimal self.0) }
        ensures only { (t : List ℕ) → IsDecimal self.0 t → t ≡ decimal self.0 }
    {
        text.push_str(Buffer::new().format(self.0));
    }
}

impl fmt::Display for Decimal {
    ghost output = { λ d. Some (decimal d.0) };

    fn fmt<W: fmt::Write>(&self, f: &mut fmt::Formatter<W>) -> fmt::Result {
        fmt::Display::fmt(&self.0, f)
    }
}
