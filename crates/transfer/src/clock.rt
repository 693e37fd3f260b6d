// The clock of a master, in ticks.
ghost use Rattle.std.specs.Prelude.{◌≤◌};
ghost use Rattle.transfer.specs.Limits.{most_count};

use crate::refusal::Refusal;

/// For how many ticks a master counts a low of SCL, and then a high: 1 to [`MOST`](ClockPair::MOST)
/// each. The clock of a bus follows from those of all masters (I2C specification 2.1, section 8.1).
#[derive(Clone, Copy, PartialEq, Eq, Debug)]
pub struct ClockPair {
    low: u8,
    high: u8,
    ghost low_from: { 1 ≤ low },
    ghost low_to: { low ≤ most_count },
    ghost high_from: { 1 ≤ high },
    ghost high_to: { high ≤ most_count },
}

impl ClockPair {
    ghost use Rattle.std.specs.Prelude.{◌≡◌};
    ghost use Rattle.transfer.specs.ClockPair.{checked_counts};
    ghost use Rattle.transfer.specs.Refusal.{answer};

    /// The highest count; the lowest is 1.
    pub const MOST: u32 = 255;

    /// The pair of these counts; it is refused if either is out of range.
    pub fn new(low: u32, high: u32) -> Result<ClockPair, Refusal>
        ensures { answer (λ c. (c.low, c.high)) result ≡ checked_counts low high }
    {
        let counts = 1..=ClockPair::MOST;
        if !counts.contains(&low) || !counts.contains(&high) {
            return Err(Refusal::ClockOutOfRange);
        }
        Ok(ClockPair {
            low: low as u8,
            high: high as u8,
        })
    }

    /// The count of a low, in ticks.
    pub fn low(self) -> u8
        ensures { result ≡ self.low }
    {
        self.low
    }

    /// The count of a high, in ticks.
    pub fn high(self) -> u8
        ensures { result ≡ self.high }
    {
        self.high
    }
}
