// The trait of every device: four steps, and the question how long to hold the clock.
ghost use Rattle.std.specs.Prelude.{◌≡◌, ℕ};
ghost use Rattle.device.specs.Device.{Behaviour, Step, select, put, take, finish};

use transfer::Direction;

/// What a port carries. The port asks `finish` at a start or a stop, and the other steps at a fall
/// of SCL at which a bit counts. By the answers it acknowledges, shows bits and holds the clock.
///
/// An implementation says by `behaviour` what the steps mean, and by `meaning` what a value of it
/// means. A step may be asked at any time, also where a bus would not ask it.
pub trait Device {
    /// What its steps answer, and what they make of its meaning.
    ghost behaviour: { Behaviour };

    /// What a value of it means. It may leave out what no answer depends on.
    ghost meaning: { Self → behaviour.Meaning };

    /// What a step with its answer makes of the device itself, which may be more than its meaning
    /// tells: a layer says by it what it asks of the device below. By default it says nothing.
    // Generic code says by it which steps took a device from one value to another, and that no
    // others did.
    ghost steps_to: { Self → Step → Self → Type 0 } = { λ _ _ _. Unit {0} };

    /// The same of a hold with its answer.
    ghost holds_to: { Self → ℕ → Self → Type 0 } = { λ _ _ _. Unit {0} };

    /// Whether it answers to the port's address, which was sent after a start. Asked at the eighth
    /// bit of that byte, the direction (I2C specification 2.1, section 10.1); a yes acknowledges it
    /// in the ninth.
    fn select(&mut self, direction: Direction) -> bool
        ensures meaning { (result, meaning self.new)
            ≡ behaviour.select (meaning self.old) direction }
        ensures steps { steps_to self.old (select direction result) self.new };

    /// Whether it takes a byte that was written to it. Asked at the eighth bit of the byte; a yes
    /// acknowledges it in the ninth (I2C specification 2.1, section 7.2). After a no the port waits
    /// for the next start.
    fn put(&mut self, byte: u8) -> bool
        ensures meaning { (result, meaning self.new) ≡ behaviour.put (meaning self.old) byte }
        ensures steps { steps_to self.old (put byte result) self.new };

    /// The next byte that is read from it. Asked when the byte is to be shown: at the ninth bit of
    /// the address, and at that of a byte read which the master acknowledged.
    fn take(&mut self) -> u8
        ensures meaning { (result, meaning self.new) ≡ behaviour.take (meaning self.old) }
        ensures steps { steps_to self.old (take result) self.new };

    /// The end of what a select with a yes began: asked once, at the next start or stop
    /// (I2C specification 2.1, section 6.2).
    fn finish(&mut self)
        ensures meaning { meaning self.new ≡ behaviour.finish (meaning self.old) }
        ensures steps { steps_to self.old finish self.new };

    /// For how many ticks to hold SCL low before the next byte (I2C specification 2.1, section
    /// 8.3): one of the answers that its meaning allows. Asked at each ninth bit that leaves the
    /// port in, after a take if there is one.
    fn hold(&mut self) -> u8
        ensures answer { behaviour.holds (meaning self.old) result }
        ensures same { meaning self.new ≡ meaning self.old }
        ensures holds { holds_to self.old result self.new };
}
