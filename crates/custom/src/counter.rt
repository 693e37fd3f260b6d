// A device that counts the bytes taken from it.
use device::Device;
use transfer::Direction;

/// It is read and not written. Each byte read is how many were read before, modulo 256, and before
/// each it holds the clock for 0 to 3 ticks.
#[derive(Drop, Debug)]
pub struct Counter {
    takes: u8,
}

impl Counter {
    ghost use Rattle.std.specs.Prelude.{◌≡◌};
    ghost use Rattle.custom.specs.Counter.{counter_model};

    /// No byte was taken.
    pub fn new() -> Counter
        ensures { counter_model result ≡ 0 }
    {
        Counter { takes: 0 }
    }

    /// How many bytes were taken, modulo 256.
    pub fn count(&self) -> u8
        ensures { result ≡ counter_model self.now }
    {
        self.takes
    }
}

impl Device for Counter {
    ghost use Rattle.custom.specs.Counter.{counter_model, counter};

    ghost behaviour = { counter };

    ghost meaning = { counter_model };

    fn select(&mut self, direction: Direction) -> bool {
        direction == Direction::Read
    }

    fn put(&mut self, _byte: u8) -> bool {
        false
    }

    fn take(&mut self) -> u8 {
        let takes = self.takes;
        self.takes = takes.wrapping_add(1);
        takes
    }

    fn finish(&mut self) {}

    fn hold(&mut self) -> u8 {
        self.takes % 4
    }
}
