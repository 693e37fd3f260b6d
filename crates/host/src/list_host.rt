// A host with a list of up to 8 transfers.
ghost use Rattle.std.specs.Prelude.{◌≤◌, length};
ghost use Rattle.transfer.specs.Limits.{most_items};

use crate::host::Host;
use transfer::{Fifo, Outcome, Refusal, Transfer};

/// It wants the transfers of its list, one after the other, whatever comes of them.
#[derive(Drop)]
pub struct ListHost {
    transfers: Fifo<Transfer>,
    ghost few: { length transfers ≤ most_items },
    last: Option<Outcome>,
}

impl ListHost {
    ghost use Rattle.std.specs.Option.{option_map};
    ghost use Rattle.std.specs.Prelude.{◌≡◌, []};
    ghost use Rattle.transfer.specs.Outcome.{outcome_model};
    ghost use Rattle.transfer.specs.Refusal.{answer};
    ghost use Rattle.host.specs.ListHost.{list_host_model, new_list_host, list_host_answer_to_fill};

    /// An empty list, and no outcome.
    pub fn new() -> ListHost
        ensures { list_host_model result ≡ new_list_host [] }
    {
        ListHost {
            transfers: Fifo::new(Transfer::filler()),
            last: None,
        }
    }

    /// Starts a new list of up to 8 transfers, with no outcome yet. One that is too long is
    /// refused, and changes nothing.
    pub fn fill(&mut self, transfers: &[Transfer]) -> Result<(), Refusal>
        ensures { (answer (λ u. u) result, list_host_model self.new)
            ≡ list_host_answer_to_fill transfers.now (list_host_model self.old) }
    {
        self.transfers.fill(transfers)?;
        self.last = None;
        Ok(())
    }

    /// The transfers that are still to come, the one at its place first.
    pub fn left(&self) -> &[Transfer]
        ensures { result.now ≡ (list_host_model self.now).rest }
    {
        self.transfers.left()
    }

    /// The last outcome that it was told since it was filled, if any.
    pub fn last(&self) -> Option<Outcome>
        ensures { option_map outcome_model result ≡ (list_host_model self.now).last }
    {
        self.last
    }
}

impl Host for ListHost {
    ghost use Rattle.host.specs.ListHost.{list_host_model, list_host};

    ghost behaviour = { list_host };

    ghost meaning = { list_host_model };

    fn want(&self) -> (bool, Transfer) {
        match self.transfers.first() {
            Some(transfer) => (true, transfer),
            None => (false, Transfer::filler()),
        }
    }

    fn told(&mut self, outcome: &Outcome) {
        self.transfers.advance();
        self.last = Some(*outcome);
    }
}
