// A host that repeats one transfer until the last byte read meets a mask.
use crate::host::Host;
use transfer::{Outcome, OutcomeKind, Transfer};

/// It wants its transfer until a done outcome of it meets the mask: the last byte read has a 1 in
/// some bit where the mask has one. A mask of 0 is never met.
#[derive(Drop, Debug)]
pub struct PollHost {
    transfer: Transfer,
    mask: u8,
    met: bool,
    last: Option<Outcome>,
}

impl PollHost {
    ghost use Rattle.std.specs.Option.{option_map};
    ghost use Rattle.std.specs.Prelude.{◌≡◌};
    ghost use Rattle.transfer.specs.Outcome.{outcome_model};
    ghost use Rattle.host.specs.PollHost.{poll_host_model, new_poll_host, is_met_by};

    /// The mask is not met, and there is no outcome.
    pub fn new(transfer: Transfer, mask: u8) -> PollHost
        ensures { poll_host_model result ≡ new_poll_host transfer mask }
    {
        PollHost {
            transfer,
            mask,
            met: false,
            last: None,
        }
    }

    /// The transfer that it repeats, also once the mask is met.
    pub fn transfer(&self) -> Transfer
        ensures { result ≡ (poll_host_model self.now).transfer }
    {
        self.transfer
    }

    /// A 1 for each bit of which one has to be 1 in the last byte read.
    pub fn mask(&self) -> u8
        ensures { result ≡ (poll_host_model self.now).mask }
    {
        self.mask
    }

    /// Whether the mask was met, so that nothing is wanted any more.
    pub fn is_met(&self) -> bool
        ensures { result ≡ (poll_host_model self.now).met }
    {
        self.met
    }

    /// The last outcome that it was told, if any.
    pub fn last(&self) -> Option<Outcome>
        ensures { option_map outcome_model result ≡ (poll_host_model self.now).last }
    {
        self.last
    }

    // Whether the outcome is one that the host waits for; no byte read counts as 0.
    fn is_met_by(&self, outcome: &Outcome) -> bool
        ensures { result ≡ is_met_by self.now.mask (outcome_model outcome.now) }
    {
        outcome.kind == OutcomeKind::Done && outcome.read.last_or_zero() & self.mask != 0
    }
}

impl Host for PollHost {
    ghost use Rattle.host.specs.PollHost.{poll_host_model, poll_host};

    ghost behaviour = { poll_host };

    ghost meaning = { poll_host_model };

    fn want(&self) -> (bool, Transfer) {
        (!self.met, self.transfer)
    }

    fn told(&mut self, outcome: &Outcome) {
        if self.is_met_by(outcome) {
            self.met = true;
        }
        self.last = Some(*outcome);
    }
}
