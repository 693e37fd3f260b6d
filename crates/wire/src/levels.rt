// The levels of the two lines.

/// The levels of the lines in one tick; `true` is high.
#[derive(Clone, Copy, PartialEq, Eq, Debug)]
pub struct Levels {
    pub scl: bool,
    pub sda: bool,
}
