// A host that wants one transfer, once.
use host::Host;
use transfer::{Outcome, Transfer};

/// It wants its transfer until it is told any outcome of it.
#[derive(Drop, Debug)]
pub struct Once {
    transfer: Transfer,
    last: Option<Outcome>,
}

impl Once {
    ghost use Rattle.std.specs.Option.{option_map};
    ghost use Rattle.std.specs.Prelude.{◌≡◌, None};
    ghost use Rattle.transfer.specs.Outcome.{outcome_model};
    ghost use Rattle.custom.specs.Once.{once_model};

    /// It was told no outcome.
    pub fn new(transfer: Transfer) -> Once
        ensures { once_model result ≡ record { transfer = transfer; last = None } }
    {
        Once {
            transfer,
            last: None,
        }
    }

    /// The transfer that it wants, also when it was told its outcome.
    pub fn transfer(&self) -> Transfer
        ensures { result ≡ (once_model self.now).transfer }
    {
        self.transfer
    }

    /// The last outcome that it was told, if any.
    pub fn last(&self) -> Option<Outcome>
        ensures { option_map outcome_model result ≡ (once_model self.now).last }
    {
        self.last
    }
}

impl Host for Once {
    ghost use Rattle.custom.specs.Once.{once_model, once};

    ghost behaviour = { once };

    ghost meaning = { once_model };

    fn want(&self) -> (bool, Transfer) {
        (self.last.is_none(), self.transfer)
    }

    fn told(&mut self, outcome: &Outcome) {
        self.last = Some(*outcome);
    }
}
