// The event between two ticks in a row.
use crate::levels::Levels;

/// What happened on the lines from one tick to the next. A start and a stop are a change of SDA
/// while SCL is high (I2C specification 2.1, section 6.2).
#[derive(Clone, Copy, PartialEq, Eq, Debug)]
pub enum Event {
    /// SCL rises; carries the new level of SDA.
    Rise(bool),
    /// SCL falls.
    Fall,
    /// SDA falls while SCL stays high.
    Start,
    /// SDA rises while SCL stays high.
    Stop,
    /// SCL stays high, and SDA does not change.
    SteadyHigh,
    /// SCL stays low.
    SteadyLow,
}

impl Event {
    ghost use Rattle.std.specs.Prelude.{◌≡◌};
    ghost use Rattle.wire.specs.Event.{event_between};

    /// The event of a tick with the levels `now` after one with the levels `last`.
    pub fn between(last: Levels, now: Levels) -> Event
        ensures { result ≡ event_between last «now» }
    {
        match (last.scl, now.scl) {
            (false, true) => Event::Rise(now.sda),
            (true, false) => Event::Fall,
            (false, false) => Event::SteadyLow,
            (true, true) => match (last.sda, now.sda) {
                (true, false) => Event::Start,
                (false, true) => Event::Stop,
                _ => Event::SteadyHigh,
            },
        }
    }
}
