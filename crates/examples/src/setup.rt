// The clocks of the examples, and the bus of two queues.
ghost use Rattle.std.specs.Prelude.{◌≡◌, map};
ghost use Rattle.exchange.specs.Bus.{bus_model};
ghost use Rattle.examples.specs.Setup.{counts, all_counts, IsQueues};

use device::EventQueue;
use exchange::{Bus, End};
use host::ListHost;
use master::Master;
use port::Port;
use support::{Clocks, list_of, queue_of};
use transfer::{Address, ClockPair, Transfer};

/// One master, and two queues.
pub type QueueBus = Bus<(Master<ListHost>, End), (Port<EventQueue>, (Port<EventQueue>, End))>;

// Two queues have this address, and the lines join what they show.
const EVENTS: u32 = 0x51;

/// Alike, nearly alike, each slower in one count, and as far apart as can be: who wins must not depend on them.
pub fn all_clocks() -> [Clocks; 4]
    ensures { map counts result ≡ all_counts }
{
    let quick = ClockPair::new(1, 1).unwrap();
    [
        Clocks {
            first: quick,
            second: quick,
        },
        Clocks {
            first: quick,
            second: ClockPair::new(2, 1).unwrap(),
        },
        Clocks {
            first: ClockPair::new(3, 2).unwrap(),
            second: ClockPair::new(1, 4).unwrap(),
        },
        Clocks {
            first: ClockPair::new(255, 255).unwrap(),
            second: quick,
        },
    ]
}

/// One master reads one byte from two queues.
pub fn queue_bus() -> QueueBus
    ensures { IsQueues (bus_model result) }
{
    let events = Address::new(EVENTS).unwrap();
    let read = Transfer::read(events, 1).unwrap();
    let reader = Master::new(ClockPair::new(1, 1).unwrap(), list_of(&[read]).unwrap());
    let first = Port::new(events, queue_of(&[0x3C]).unwrap());
    let second = Port::new(events, queue_of(&[0x5A]).unwrap());
    Bus::new((reader, End), (first, (second, End)))
}
