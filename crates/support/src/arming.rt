// The masters of a bus, armed together.
ghost use Rattle.std.specs.Prelude.{◌≡◌};
ghost use Rattle.exchange.specs.Bus.{bus_model};
ghost use Rattle.support.specs.ArmAll.{all_armed};

use exchange::{Bus, Masters, Ports};

/// Arms the first `masters` masters, the lowest first. One that is armed already, or whose host wants nothing, is left as it
/// is.
// Their number is given, since a bank is reached by number and has no count.
pub fn arm_all<M: Masters, P: Ports>(bus: &mut Bus<M, P>, masters: usize)
    ensures { bus_model bus.new ≡
        all_armed M.Masters.hosts P.Ports.devices masters (bus_model bus.old) }
{
    for master in 0..masters {
        let _ = bus.arm(master);
    }
}
