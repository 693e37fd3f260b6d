// What a tick shows.
ghost use Rattle.std.specs.Prelude.{◌≡◌, ◌≤◌};

use master::Mark;
use wire::{Event, Levels};

/// How many masters a bus has at most.
pub const MOST_MASTERS: usize = 8;

/// What a tick answers: the levels of both lines, the event, and which masters were told or lost.
#[derive(Clone, Copy, PartialEq, Eq, Debug)]
pub struct Tick {
    pub levels: Levels,
    pub event: Event,
    /// By the number of the master; that of a master that the bus does not have is `Quiet`.
    pub marks: [Mark; MOST_MASTERS],
}

impl Tick {
    ghost use Rattle.law.specs.Limits.{most_masters};
    ghost use Rattle.law.specs.RunModel.{told_count};

    /// How many outcomes it told: one for each master with the mark `Told`.
    pub fn outcome_count(&self) -> u32
        ensures few { result ≤ most_masters }
        ensures all { result ≡ told_count self.now.marks }
    {
        self.marks
            .iter()
            .map(|mark| u32::from(*mark == Mark::Told))
            .sum()
    }
}
