// Whether a master is armed, and with what.

/// A master that is armed stays so until its host is told an outcome or the master is reset, also while it contends and
/// once it has lost.
#[derive(Clone, Copy, PartialEq, Eq, Debug)]
pub enum Arming<T> {
    Unarmed,
    Armed(T),
}

impl<T> Arming<T> {
    ghost use Rattle.std.specs.Prelude.{◌≡◌};
    ghost use Rattle.master.specs.Arming.{is_armed};

    /// Whatever it is armed with.
    pub fn is_armed(&self) -> bool
        ensures { result ≡ is_armed self.now }
    {
        match self {
            Arming::Unarmed => false,
            Arming::Armed(_) => true,
        }
    }
}
