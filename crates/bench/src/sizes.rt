// A bus of each size.
ghost use Rattle.std.specs.Prelude.{◌≤◌, length};
ghost use Rattle.exchange.specs.Bus.{bus_model};
ghost use Rattle.law.specs.BusModel.{BusModel};
ghost use Rattle.law.specs.Limits.{most_masters};
ghost use Rattle.bench.specs.Counting.{Works};
ghost use Rattle.bench.specs.Sizes.{MeasuredWith, Measured};

use crate::banks::{FIRST, file, four, quick, two};
use crate::counting::count_outcomes;
use crate::work::Work;
use exchange::{Bus, End, Masters, Ports};

// Ticks the bus as often as the work says, and counts the outcomes.
fn count<M: Masters + Drop, P: Ports + Drop>(work: Work, mut bus: Bus<M, P>) -> u64
    ensures { (v : BusModel M.Masters.hosts P.Ports.devices) ×
        Works M.Masters.hosts P.Ports.devices work.masters work.ticks (bus_model bus) result v }
{
    count_outcomes(&mut bus, usize::from(work.masters), work.ticks)
}

// A match on the number, here and below, and no table: each size of a bank is a type of its own.
fn with_ports<M: Masters + Drop>(work: Work, masters: M) -> Option<u64>
    requires some_master { 1 ≤ length M.Masters.hosts }
    requires few_masters { length M.Masters.hosts ≤ most_masters }
    ensures { MeasuredWith M.Masters.hosts (M.Masters.model masters)
        work.masters work.ports work.ticks result }
{
    let count = match work.ports {
        1 => count(work, Bus::new(masters, (file(FIRST).unwrap(), End))),
        4 => count(work, Bus::new(masters, four(0, End).unwrap())),
        16 => {
            let last = four(3, End).unwrap();
            let third = four(2, last).unwrap();
            let second = four(1, third).unwrap();
            let files = four(0, second).unwrap();
            count(work, Bus::new(masters, files))
        }
        _ => return None,
    };
    Some(count)
}

/// The outcomes told; none where there is no bus of this size.
pub fn measure(work: Work) -> Option<u64>
    ensures { Measured work.masters work.ports work.ticks result }
{
    match work.masters {
        1 => with_ports(work, (quick(), End)),
        2 => with_ports(work, two(End)),
        4 => with_ports(work, two(two(End))),
        8 => with_ports(work, two(two(two(two(End))))),
        _ => None,
    }
}

#[cfg(test)]
mod tests {
    use super::measure;
    use crate::work::Work;

    // No clause says how many outcomes come of a number of ticks.
    #[test]
    fn more_masters_and_ports_tell_more(rt: HostRuntime) {
        let two = Work {
            ticks: 1000,
            masters: 2,
            ports: 1,
        };
        let eight = Work {
            ticks: 1000,
            masters: 8,
            ports: 4,
        };
        assert_eq!(rt; measure(two), Some(7));
        assert_eq!(rt; measure(eight), Some(28));
    }
}
