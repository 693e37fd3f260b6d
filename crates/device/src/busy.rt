// A layer that is busy for some selects after a selection that wrote.
use crate::device::Device;
use crate::selection::Selection;
use transfer::Direction;

/// A device that, after a selection that wrote, answers no to the next selects, without asking the
/// device below. All else goes to that device. A selection lasts from a select that got yes to the
/// next finish, and it wrote if a put got yes in it.
#[derive(Drop, Debug)]
pub struct Busy<D> {
    // how many selects it then refuses
    number: u8,
    // how many of them are to come
    left: u8,
    selection: Selection,
    device: D,
}

impl<D: Device> Busy<D> {
    ghost use Rattle.std.specs.Prelude.{◌≡◌};
    ghost use Rattle.device.specs.Busy.{busy_model, new_busy};

    /// In no selection, and with no select to refuse.
    pub fn new(number: u8, device: D) -> Busy<D>
        ensures made { busy_model D.Device.behaviour D.Device.meaning result
            ≡ new_busy D.Device.behaviour number (D.Device.meaning device) }
        ensures same { result.device ≡ device }
    {
        Busy {
            number,
            left: 0,
            selection: Selection::Closed,
            device,
        }
    }

    /// How many selects it refuses after a selection that wrote.
    pub fn number(&self) -> u8
        ensures { result ≡ (busy_model D.Device.behaviour D.Device.meaning self.now).number }
    {
        self.number
    }

    /// How many selects it still refuses, from 0 to its number.
    pub fn left(&self) -> u8
        ensures { result ≡ (busy_model D.Device.behaviour D.Device.meaning self.now).left }
    {
        self.left
    }

    /// The device below, as it stands, also in the middle of a selection.
    pub fn device(&self) -> &D
        ensures { result.now ≡ self.now.device }
    {
        &self.device
    }

    /// The device below, as it stands.
    pub fn into_device(self) -> D
        ensures { result ≡ self.device }
    {
        let Busy {
            number: _,
            left: _,
            selection: _,
            device,
        } = self;
        device
    }
}

impl<D: Device> Device for Busy<D> {
    ghost use Rattle.device.specs.Busy.{busy_model, busy_over, BusyStepsTo};

    ghost behaviour = { busy_over D.Device.behaviour };

    ghost meaning = { busy_model D.Device.behaviour D.Device.meaning };

    ghost steps_to = { BusyStepsTo D.Device.steps_to };

    ghost holds_to = { λ x h z. D.Device.holds_to x.device h z.device };

    fn select(&mut self, direction: Direction) -> bool {
        if self.left > 0 {
            self.left -= 1;
            return false;
        }
        let yes = self.device.select(direction);
        self.selection = self.selection.after_select(yes);
        yes
    }

    fn put(&mut self, byte: u8) -> bool {
        let yes = self.device.put(byte);
        self.selection = self.selection.after_put(yes);
        yes
    }

    fn take(&mut self) -> u8 {
        self.device.take()
    }

    fn finish(&mut self) {
        self.device.finish();
        if self.selection.is_written() {
            self.left = self.number;
        }
        self.selection = Selection::Closed;
    }

    fn hold(&mut self) -> u8 {
        self.device.hold()
    }
}
