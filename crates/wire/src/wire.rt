// The two lines in use: what each tick signals, and how it leaves them.
use crate::event::Event;
use crate::latch::Latch;
use crate::levels::Levels;

/// What every part sees of one tick.
#[derive(Clone, Copy, PartialEq, Eq, Debug)]
pub struct Signal {
    /// What happened from the tick before to this one.
    pub event: Event,
    /// The bit that counts in this tick, if one does.
    pub bit: Option<bool>,
    /// The bus was free before this tick, and both lines are high: a master may begin to contend.
    pub free_and_high: bool,
}

/// The lines as the last tick left them.
#[derive(Clone, Copy, PartialEq, Eq, Debug)]
pub struct Wire {
    /// The levels of the last tick.
    pub last: Levels,
    /// The bus is busy from a start to the next stop (I2C specification 2.1, section 6.2).
    pub busy: bool,
    /// The bit that may count at the next fall.
    pub latch: Latch,
}

impl Wire {
    ghost use Rattle.std.specs.Prelude.{◌≡◌};
    ghost use Rattle.wire.specs.Wire.{signal, wire_after, new_wire};

    /// Before the first tick both lines count as high.
    pub fn new() -> Wire
        ensures { result ≡ new_wire }
    {
        Wire {
            last: Levels {
                scl: true,
                sda: true,
            },
            busy: false,
            latch: Latch::new(),
        }
    }

    /// The lines take these levels in the next tick.
    pub fn step(&mut self, levels: Levels) -> Signal
        ensures answer { result ≡ signal self.old levels }
        ensures after { self.new ≡ wire_after self.old levels }
    {
        let event = Event::between(self.last, levels);
        let free_and_high = !self.busy && levels.scl && levels.sda;
        let bit = self.latch.step(event);
        self.last = levels;
        match event {
            Event::Start => self.busy = true,
            Event::Stop => self.busy = false,
            _ => {}
        }
        Signal {
            event,
            bit,
            free_and_high,
        }
    }
}
