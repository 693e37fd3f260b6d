// The bus of the run: two masters with a transfer each, and a register file.
ghost use Rattle.std.specs.Prelude.{◌≡◌};
ghost use Rattle.host.specs.ListHost.{ListHostModel};
ghost use Rattle.exchange.specs.Bus.{bus_model};
ghost use Rattle.pairwrite.specs.Setup.{Wants, pair_of};

use host::ListHost;
use support::{Clocks, PairBus, list_of, pair_bus};
use transfer::{Address, ClockPair, Transfer};

const ADDRESS: u32 = 0x50;

const REGISTER: u8 = 3;

/// Each master wants to write its byte, and nothing else.
pub fn bus_of(first: u8, second: u8) -> PairBus<ListHost>
    ensures { (m : ListHostModel) × (n : ListHostModel) × Wants first m × Wants second n ×
        (bus_model result ≡ pair_of m n) }
{
    let address = Address::new(ADDRESS).unwrap();
    let clocks = Clocks {
        first: ClockPair::new(1, 1).unwrap(),
        second: ClockPair::new(2, 1).unwrap(),
    };
    let first = Transfer::write(address, &[REGISTER, first]).unwrap();
    let second = Transfer::write(address, &[REGISTER, second]).unwrap();
    let hosts = (list_of(&[first]).unwrap(), list_of(&[second]).unwrap());
    pair_bus(address, clocks, hosts.0, hosts.1)
}
