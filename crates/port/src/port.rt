// A port: its address, its device, where it is in a byte, and how it steps.
use device::Device;
use transfer::{Address, Direction};
use wire::{ByteProgress, Event, Pulls, Signal, bit_at, shift_in};

/// Where a port is in what it hears and shows.
#[derive(Clone, Copy)]
pub enum Mode {
    /// Until the next start.
    Out,
    /// The bits so far of the address byte.
    Addressing(ByteProgress),
    /// The bits so far of a byte that is written.
    Writing(ByteProgress),
    /// In the ninth bit of a byte that got yes: it pulls SDA (I2C specification 2.1, section 7.2).
    Acknowledging(Direction),
    /// The bits shown so far of a byte that is read, and its ninth bit too.
    Reading(ByteProgress),
}

impl Mode {
    ghost use Rattle.std.specs.Prelude.{◌≡◌};
    ghost use Rattle.port.specs.Port.{mode_pulls};

    fn pulls_sda(self) -> bool
        ensures { result ≡ mode_pulls self }
    {
        match self {
            Mode::Out | Mode::Addressing(_) | Mode::Writing(_) => false,
            Mode::Acknowledging(_) => true,
            Mode::Reading(byte) => byte.bits < 8 && !bit_at(byte.value, 7 - byte.bits),
        }
    }
}

/// A port of a bus: it answers to its address, for its device.
// Clauses see it by `port_model`: the value of a model cannot name what a device means.
#[derive(Drop)]
pub struct Port<D> {
    address: Address,
    device: D,
    mode: Mode,
    // the device said yes to select and is not finished yet
    owes_finish: bool,
    // how many more steady-low ticks the clock is pulled
    hold: u8,
}

impl<D: Device> Port<D> {
    ghost use Rattle.std.specs.Prelude.{◌≡◌};
    ghost use Rattle.port.specs.Port.{port_model, new_port};

    /// A port that is out until the next start.
    pub fn new(address: Address, device: D) -> Port<D>
        ensures made { port_model D.Device result ≡
            new_port D.Device.behaviour address.number (D.Device.meaning device) }
        ensures same { result.device ≡ device }
    {
        Port {
            address,
            device,
            mode: Mode::Out,
            owes_finish: false,
            hold: 0,
        }
    }

    /// The address that it answers to.
    pub fn address(&self) -> Address
        ensures { result ≡ self.now.address }
    {
        self.address
    }

    /// The device, as it stands, also in the middle of a selection.
    pub fn device(&self) -> &D
        ensures { result.now ≡ self.now.device }
    {
        &self.device
    }

    /// The device, as it stands; an unfinished selection is dropped.
    pub fn into_device(self) -> D
        ensures { result ≡ self.device }
    {
        let Port {
            address: _,
            device,
            mode: _,
            owes_finish: _,
            hold: _,
        } = self;
        device
    }
}

// Its part in a bus.
impl<D: Device> Port<D> {
    ghost use Rattle.std.specs.Prelude.{◌≡◌};
    ghost use Rattle.port.specs.Port.{ForSomeHold, SameDevice, MayAnswer, PortAsked, reset_port, port_model, port_pulls, port_step};

    /// As at its making, with the same address and device; the device is not finished.
    pub fn reset(&mut self)
        ensures same { SameDevice self.old self.new }
        ensures after { port_model D.Device self.new ≡ reset_port _ (port_model D.Device self.old) }
    {
        self.mode = Mode::Out;
        self.owes_finish = false;
        self.hold = 0;
    }

    /// Which lines it pulls low in the tick to come; SCL as long as its device holds the clock (I2C specification 2.1,
    /// section 8.3).
    pub fn pulls(&self) -> Pulls
        ensures { result ≡ port_pulls _ (port_model D.Device self.now) }
    {
        Pulls {
            scl: self.hold > 0,
            sda: self.mode.pulls_sda(),
        }
    }

    /// One tick. What it keeps of hold, in steady-low ticks, is an answer of its device: asked for once, where the rules
    /// ask for it, after every other step.
    pub fn step(&mut self, signal: Signal)
        ensures { ForSomeHold (λ h.
            MayAnswer _ (port_model D.Device self.old) signal h ×
            PortAsked D.Device self.old signal h self.new ×
            (port_model D.Device self.new ≡ port_step _ (port_model D.Device self.old) signal h)) }
    {
        match (self.mode, signal.event, signal.bit) {
            (_, Event::Start, _) => self.settle(Mode::Addressing(ByteProgress::of(0))),
            (_, Event::Stop, _) => self.settle(Mode::Out),
            (_, Event::SteadyLow, _) => self.hold = self.hold.saturating_sub(1),
            (Mode::Addressing(byte), Event::Fall, Some(bit)) => self.address_bit(byte, bit),
            (Mode::Writing(byte), Event::Fall, Some(bit)) => self.write_bit(byte, bit),
            (Mode::Acknowledging(Direction::Write), Event::Fall, Some(_)) => {
                self.mode = Mode::Writing(ByteProgress::of(0));
                self.ask_hold();
            }
            (Mode::Acknowledging(Direction::Read), Event::Fall, Some(bit)) => self.read_on(bit),
            (Mode::Reading(byte), Event::Fall, Some(bit)) => self.read_bit(byte, bit),
            _ => {}
        }
    }
}

// What it makes of the bits that count, and what it asks its device.
impl<D: Device> Port<D> {
    ghost use Rattle.std.specs.Prelude.{◌≡◌, true, false, not};
    ghost use Rattle.port.specs.Port.{ForSomeHold, port_model, port_after_bit, port_after_read_acknowledge};
    ghost use Rattle.port.specs.Port.{port_after_finish, finish_steps, steps_at_bit, take_steps, asks_hold_at_bit};
    ghost use Rattle.port.specs.Port.{AskedBy, HoldAsked};
    ghost use Rattle.port.specs.declared.port.Mode.TheVariants.{Addressing, Writing, Reading};

    // At a start or a stop a device that said yes to select is finished.
    fn settle(&mut self, mode: Mode)
        ensures asked { AskedBy D.Device self.old.device
            (finish_steps _ (port_model D.Device self.old)) false 0 self.new.device }
        ensures after { port_model D.Device self.new ≡
            port_after_finish _ (port_model D.Device self.old) mode }
    {
        if self.owes_finish {
            self.device.finish();
        }
        self.owes_finish = false;
        self.mode = mode;
    }

    // At the eighth bit of the address byte a port that it calls selects its device (I2C specification 2.1, section 10.1).
    fn address_bit(&mut self, byte: ByteProgress, bit: bool)
        requires { self.old.mode ≡ Addressing byte }
        ensures asked { AskedBy D.Device self.old.device
            (steps_at_bit _ (port_model D.Device self.old) (Addressing byte) bit) false 0
            self.new.device }
        ensures after { port_model D.Device self.new ≡
            port_after_bit _ (port_model D.Device self.old) (Addressing byte) bit 0 }
    {
        let value = shift_in(byte.value, bit);
        if byte.bits < 7 {
            self.mode = Mode::Addressing(byte.received(bit));
        } else if self.address.answers_to(value / 2) {
            let direction = Direction::from(value % 2 == 1);
            self.owes_finish = self.device.select(direction);
            self.mode = if self.owes_finish {
                Mode::Acknowledging(direction)
            } else {
                Mode::Out
            };
        } else {
            self.mode = Mode::Out;
        }
    }

    // At the eighth bit of a written byte it is put.
    fn write_bit(&mut self, byte: ByteProgress, bit: bool)
        requires { self.old.mode ≡ Writing byte }
        ensures asked { AskedBy D.Device self.old.device
            (steps_at_bit _ (port_model D.Device self.old) (Writing byte) bit) false 0
            self.new.device }
        ensures after { port_model D.Device self.new ≡
            port_after_bit _ (port_model D.Device self.old) (Writing byte) bit 0 }
    {
        if byte.bits < 7 {
            self.mode = Mode::Writing(byte.received(bit));
        } else if self.device.put(shift_in(byte.value, bit)) {
            self.mode = Mode::Acknowledging(Direction::Write);
        } else {
            self.mode = Mode::Out;
        }
    }

    // At the eighth bit of a byte that it shows it listens for the ninth.
    fn read_bit(&mut self, byte: ByteProgress, bit: bool)
        requires { self.old.mode ≡ Reading byte }
        ensures { ForSomeHold (λ h.
            (asks_hold_at_bit (Reading byte) bit ≡ true →
            D.Device.behaviour.holds (D.Device.meaning self.new.device) h) ×
            AskedBy D.Device self.old.device
            (steps_at_bit _ (port_model D.Device self.old) (Reading byte) bit)
            (asks_hold_at_bit (Reading byte) bit) h self.new.device ×
            (port_model D.Device self.new ≡
            port_after_bit _ (port_model D.Device self.old) (Reading byte) bit h)) }
    {
        if byte.bits < 8 {
            self.mode = Mode::Reading(byte.shown());
        } else {
            self.read_on(bit);
        }
    }

    // At the ninth bit of a read an N puts the port out, and at an A it takes a byte and then asks hold (I2C specification
    // 2.1, section 7.2).
    fn read_on(&mut self, nack: bool)
        ensures { ForSomeHold (λ h.
            (nack ≡ false → D.Device.behaviour.holds (D.Device.meaning self.new.device) h) ×
            AskedBy D.Device self.old.device
            (take_steps _ (port_model D.Device self.old) nack) (not nack) h self.new.device ×
            (port_model D.Device self.new ≡
            port_after_read_acknowledge _ (port_model D.Device self.old) nack
            (D.Device.behaviour.take (D.Device.meaning self.old.device)) h)) }
    {
        if nack {
            self.mode = Mode::Out;
        } else {
            self.mode = Mode::Reading(ByteProgress::of(self.device.take()));
            self.ask_hold();
        }
    }

    // Asks its device for how long to hold the clock, and keeps the answer.
    fn ask_hold(&mut self)
        ensures { HoldAsked D.Device self.old self.new }
    {
        self.hold = self.device.hold();
    }
}
