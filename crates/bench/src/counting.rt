// The loop that is measured.
ghost use Rattle.std.specs.Prelude.{◌≡◌};
ghost use Rattle.exchange.specs.Bus.{bus_model};
ghost use Rattle.law.specs.BusModel.{HoldAnswers, tick_at};
ghost use Rattle.law.specs.RunModel.{told_count};
ghost use Rattle.bench.specs.Counting.{count_after, bus_readied, Works};

use exchange::{Bus, Event, Masters, Ports, Tick};
use support::arm_all;

/// Ticks so often, arms the first `masters` masters again whenever the bus is at rest, and counts the outcomes told.
pub fn count_outcomes<M: Masters, P: Ports>(bus: &mut Bus<M, P>, masters: usize, ticks: u64) -> u64
    ensures { Works M.Masters.hosts P.Ports.devices masters ticks
        (bus_model bus.old) result (bus_model bus.new) }
{
    let mut count = 0;
    for _made in 0..ticks {
        ready(bus, masters);
        count = count_after(count, &bus.tick());
    }
    count
}

// Arms the masters at rest.
#[inline]
fn ready<M: Masters, P: Ports>(bus: &mut Bus<M, P>, masters: usize)
    ensures { bus_model bus.new ≡
        bus_readied M.Masters.hosts P.Ports.devices masters (bus_model bus.old) }
{
    if bus.at_rest() {
        arm_all(bus, masters);
    }
}

// Outcomes are told at a stop, and at no other event; the count stays at the highest number.
#[inline]
fn count_after(count: u64, tick: &Tick) -> u64
    ensures { result ≡ count_after tick.now.event count (told_count tick.now.marks) }
{
    if tick.event == Event::Stop {
        count.saturating_add(u64::from(tick.outcome_count()))
    } else {
        count
    }
}
