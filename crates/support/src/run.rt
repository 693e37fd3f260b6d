// A run that is printed tick by tick.
ghost use Rattle.std.specs.Prelude.{ℕ, ◌<◌, ◌^◌, List, decimal, OnOk, IfErr};
ghost use Rattle.exchange.specs.Bus.{bus_model};
ghost use Rattle.law.specs.BusModel.{NeverHold};
ghost use Rattle.support.specs.Output.{Puts};
ghost use Rattle.support.specs.PrintedRun.{OneHold, Listened, IsRun, PrintsAll, PrintsPart, listened_start, unheld_lines};
ghost use Rattle.text.specs.Decimal.{IsDecimal};

use crate::arming::arm_all;
use crate::output::Output;
use exchange::{Bus, Masters, Ports};
use listing::Listing;
use std::io;

/// Ticks until the bus is at rest, `most_ticks` times at most, and prints what each tick shows. The first `masters`
/// masters are armed at the beginning and after each tick. After a failed write the bus stands, its masters armed, after the
/// tick that was not printed. A line begins with its tick in decimal.
pub fn print_run<M: Masters, P: Ports, O: Output>(
    out: &mut O,
    bus: &mut Bus<M, P>,
    masters: usize,
    most_ticks: u32,
) -> io::Result<()>
    // Whatever the devices answer to hold.
    ensures all { OnOk result (PrintsAll _ _ O.Output.takes
        masters most_ticks (bus_model bus.old) (bus_model bus.new) out.old out.new) }
    ensures part { IfErr result (PrintsPart _ _ O.Output.takes O.Output.fails
        masters most_ticks (bus_model bus.old) (bus_model bus.new) out.old out.new) }

    // Where they leave nothing open there is one text.
    ensures unheld { NeverHold P.Ports.devices →
        Puts O.Output.takes O.Output.fails
        (unheld_lines _ _ masters most_ticks (listened_start _ _ masters (bus_model bus.old)))
        out.old result out.new }
    ensures only { OneHold P.Ports.devices →
        (text : List ℕ) (end : Listened _ _) →
        IsRun _ _ masters most_ticks (bus_model bus.old) text end →
        Puts O.Output.takes O.Output.fails text out.old result out.new }

    ensures numbers { (n : ℕ) → n < 2 ^ 64 → IsDecimal n (decimal n) }
{
    let mut listing = Listing::new();
    arm_all(bus, masters);
    for _made in 0..most_ticks {
        if bus.at_rest() {
            return Ok(());
        }
        let tick = bus.tick();
        arm_all(bus, masters);
        let lines = listing.step(&tick).lines();
        if let Err(error) = out.put(lines.as_str().as_bytes()) {
            return Err(error);
        }
    }
    Ok(())
}
