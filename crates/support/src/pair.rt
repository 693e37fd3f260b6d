// A bus of two masters, each at a clock of its own, and a register file.
ghost use Rattle.std.specs.Prelude.{◌≡◌};
ghost use Rattle.exchange.specs.Bus.{bus_model};
ghost use Rattle.support.specs.PairBus.{new_pair_bus};

use device::RegisterFile;
use exchange::{Bus, End};
use host::Host;
use master::Master;
use port::Port;
use transfer::{Address, ClockPair};

/// Two masters with hosts of one type, and a register file.
pub type PairBus<H> = Bus<(Master<H>, (Master<H>, End)), (Port<RegisterFile>, End)>;

/// The clock pairs of the two masters, in ticks.
#[derive(Clone, Copy, PartialEq, Eq, Debug)]
pub struct Clocks {
    pub first: ClockPair,
    pub second: ClockPair,
}

/// The masters serve these hosts, and the register file has this address.
pub fn pair_bus<H: Host + Drop>(address: Address, clocks: Clocks, first: H, second: H) -> PairBus<H>
    ensures { bus_model result ≡
        new_pair_bus H.Host.behaviour address.number clocks
        (H.Host.meaning first) (H.Host.meaning second) }
{
    let first = Master::new(clocks.first, first);
    let second = Master::new(clocks.second, second);
    let registers = Port::new(address, RegisterFile::new());
    Bus::new((first, (second, End)), (registers, End))
}
