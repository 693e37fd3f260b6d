// When a bit counts.
use crate::event::Event;

/// The level of SDA at the last rise, until it counts at a fall or a start or a stop drops it: a
/// bit is stable as long as SCL is high (I2C specification 2.1, section 6.1).
#[derive(Clone, Copy, PartialEq, Eq, Debug)]
pub struct Latch {
    pub level: Option<bool>,
}

impl Latch {
    ghost use Rattle.std.specs.Prelude.{◌≡◌, None};
    ghost use Rattle.wire.specs.Latch.{counted_bit, latch_after};

    /// Before the first event.
    pub fn new() -> Latch
        ensures { result ≡ record { level = None } }
    {
        Latch { level: None }
    }

    /// The bit that counts at this event.
    pub fn step(&mut self, event: Event) -> Option<bool>
        ensures answer { result ≡ counted_bit self.old.level event }
        ensures after { self.new.level ≡ latch_after self.old.level event }
    {
        match event {
            Event::Rise(sda) => {
                self.level = Some(sda);
                None
            }
            Event::Fall => self.level.take(),
            Event::Start | Event::Stop => {
                self.level = None;
                None
            }
            Event::SteadyHigh | Event::SteadyLow => None,
        }
    }
}
