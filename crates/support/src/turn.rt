// How long turns last.
ghost use Rattle.std.specs.Prelude.{◌≡◌, ◌*◌};
ghost use Rattle.law.specs.Limits.{most_ticks_of_turn};

// At the slowest clocks and the longest holds a turn ends within so many ticks.
const TURN: u32 = 160_000;

/// So many ticks are enough for this many turns, by the law over every use of a bus.
pub fn ticks_of_turns(turns: u8) -> u32
    ensures { result ≡ turns * most_ticks_of_turn }
{
    u32::from(turns) * TURN
}
