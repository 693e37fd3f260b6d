// The trait of every host: what it wants sent, and what it is told of it.
ghost use Rattle.std.specs.Prelude.{◌≡◌};
ghost use Rattle.host.specs.Host.{HostBehaviour, wanted_transfer};
ghost use Rattle.transfer.specs.Outcome.{outcome_model};

use transfer::{Outcome, Transfer};

/// What a master serves.
///
/// An implementation says by `behaviour` what its functions mean, and by `meaning` what a value of
/// it means.
pub trait Host {
    /// What it wants, and what being told makes of its meaning.
    ghost behaviour: { HostBehaviour };

    /// What a value of it means. It may leave out what no answer depends on.
    ghost meaning: { Self → behaviour.Meaning };

    /// Whether it wants a transfer, and which. Beside a `false` the transfer says nothing. Asked
    /// when its master is armed, which then sends this transfer until it has an outcome.
    // A flag and not an `Option`: an implementation that keeps its transfer answers without cases.
    fn want(&self) -> (bool, Transfer)
        ensures { wanted_transfer result ≡ behaviour.want (meaning self.now) };

    /// Takes the outcome of the transfer that its master was armed with: told once, at the stop of
    /// the turn in which the master did not lose.
    fn told(&mut self, outcome: &Outcome)
        ensures { meaning self.new
            ≡ behaviour.told (meaning self.old) (outcome_model outcome.now) };
}
