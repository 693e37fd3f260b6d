// Banks of ports: one port and the rest.
ghost use Rattle.std.specs.Prelude.{◌≡◌, List, [], ◌∷◌};
ghost use Rattle.device.specs.Device.{Behaviour};
ghost use Rattle.law.specs.Bank.{Bank, bank_map, bank_list};
ghost use Rattle.law.specs.BusModel.{all_pulls, HoldAnswers, AllMayAnswer, ports_step};
ghost use Rattle.port.specs.Port.{PortAsked, SameDevice, reset_port, PortModel, port_model, port_pulls};
ghost use Rattle.wire.specs.declared.wire.Signal.{Signal};

use crate::end::End;
use device::Device;
use port::Port;
use wire::{Pulls, Signal};

/// A bank of ports, with a device each.
// Apart from `Masters`: one trait over both would have more ghost members than the methods that read alike have lines.
pub trait Ports {
    // What the devices of the ports mean, in order.
    ghost devices: { List Behaviour };

    // The ports as the rules see them.
    ghost model: { Self → Bank PortModel devices };

    // One bank has the very devices of another.
    ghost same_devices: { Self → Self → Type 0 };

    // What a tick asks of each device, where hold answers so: by these calls it went from one value to the other.
    ghost asked: { Self → Signal → HoldAnswers devices → Self → Type 0 };

    /// Which lines some port pulls low in the tick to come.
    fn pulls(&self) -> Pulls
        ensures { result ≡ all_pulls (bank_list port_pulls devices (model self.now)) };

    /// Each port as at its making: every port is out, and no device is owed a finish.
    fn reset(&mut self)
        ensures same { same_devices self.old self.new }
        ensures after { model self.new ≡ bank_map reset_port devices (model self.old) };

    /// One tick of every port.
    fn step(&mut self, signal: Signal)
        ensures { (h : HoldAnswers devices) ×
            AllMayAnswer devices (model self.old) signal h ×
            (model self.new ≡ ports_step devices (model self.old) signal h) ×
            asked self.old signal h self.new };
}

impl Ports for End {
    ghost devices = { [] };

    ghost model = { λ _. tt };

    ghost same_devices = { λ _ _. Unit {0} };

    ghost asked = { λ _ _ _ _. Unit {0} };

    fn pulls(&self) -> Pulls {
        Pulls::none()
    }

    fn reset(&mut self) {}

    fn step(&mut self, _signal: Signal) {}
}

impl<D: Device, B: Ports> Ports for (Port<D>, B) {
    ghost devices = { D.Device.behaviour ∷ B.Ports.devices };

    ghost model = { λ p. (port_model D.Device p.0, B.Ports.model p.1) };

    ghost same_devices = { λ p q. SameDevice p.0 q.0 × B.Ports.same_devices p.1 q.1 };

    ghost asked = { λ p s h q. PortAsked D.Device p.0 s h.0.0 q.0 × B.Ports.asked p.1 s h.1 q.1 };

    fn pulls(&self) -> Pulls {
        self.0.pulls().or(self.1.pulls())
    }

    fn reset(&mut self) {
        self.0.reset();
        self.1.reset();
    }

    fn step(&mut self, signal: Signal) {
        self.0.step(signal);
        self.1.step(signal);
    }
}
