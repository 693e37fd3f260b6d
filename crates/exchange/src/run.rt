// What a run answers.
ghost use Rattle.std.specs.Prelude.{◌≡◌, ◌≤◌};
ghost use Rattle.law.specs.Limits.{most_ticks};
ghost use Rattle.law.specs.RunModel.{load};

/// How many ticks a run may be asked for.
pub const MOST_TICKS: u32 = 1_000_000;

/// What a run answers.
#[derive(Clone, Copy, PartialEq, Eq, Debug)]
pub struct Run {
    /// The ticks made.
    pub ticks: u32,
    /// The outcomes told in them.
    pub outcomes: u32,
    /// How many thousandths of them the bus was busy, rounded, a half up; 0 of no ticks.
    pub load: u32,
}

// Twice the numerator plus the ticks, over twice the ticks, rounds a half up.
pub(crate) fn load(busy: u32, ticks: u32) -> u32
    requires ticks_bound { ticks ≤ most_ticks }
    requires busy_le_ticks { busy ≤ ticks }
    ensures { result ≡ load busy ticks }
{
    if ticks == 0 {
        0
    } else {
        (2000 * busy + ticks) / (2 * ticks)
    }
}
