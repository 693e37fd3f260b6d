// A layer that holds the clock for at least its own number of ticks.
use crate::device::Device;
use transfer::Direction;

/// A device that holds the clock for at least `number` ticks, and longer where the device below
/// does. All else goes to that device.
#[derive(Drop, Debug)]
pub struct Slow<D> {
    number: u8,
    device: D,
}

impl<D: Device> Slow<D> {
    ghost use Rattle.std.specs.Prelude.{◌≡◌};
    ghost use Rattle.device.specs.Slow.{slow_model};

    /// Over this device, as it stands.
    pub fn new(number: u8, device: D) -> Slow<D>
        ensures { result ≡ record { number = number; device = device } }
    {
        Slow { number, device }
    }

    /// For how many ticks it holds the clock at least, from 0 to 255.
    pub fn number(&self) -> u8
        ensures { result ≡ (slow_model D.Device.behaviour D.Device.meaning self.now).number }
    {
        self.number
    }

    /// The device below, as it stands, also in the middle of a selection.
    pub fn device(&self) -> &D
        ensures { result.now ≡ self.now.device }
    {
        &self.device
    }

    /// The device below, as it stands.
    pub fn into_device(self) -> D
        ensures { result ≡ self.device }
    {
        let Slow { number: _, device } = self;
        device
    }
}

impl<D: Device> Device for Slow<D> {
    ghost use Rattle.device.specs.Slow.{slow_over, slow_model, SlowStepsTo, SlowHoldsTo};

    ghost behaviour = { slow_over D.Device.behaviour };

    ghost meaning = { slow_model D.Device.behaviour D.Device.meaning };

    ghost steps_to = { SlowStepsTo D.Device.steps_to };

    ghost holds_to = { SlowHoldsTo D.Device.holds_to };

    fn select(&mut self, direction: Direction) -> bool {
        self.device.select(direction)
    }

    fn put(&mut self, byte: u8) -> bool {
        self.device.put(byte)
    }

    fn take(&mut self) -> u8 {
        self.device.take()
    }

    fn finish(&mut self) {
        self.device.finish();
    }

    fn hold(&mut self) -> u8 {
        self.number.max(self.device.hold())
    }
}
