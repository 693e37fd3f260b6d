// A list host and an event queue, filled as they are made.
ghost use Rattle.std.specs.Prelude.{◌≡◌};
ghost use Rattle.transfer.specs.Refusal.{answer};
ghost use Rattle.device.specs.EventQueue.{queue_model};
ghost use Rattle.host.specs.ListHost.{list_host_model};
ghost use Rattle.support.specs.Filled.{full_list, full_queue};

use device::EventQueue;
use host::ListHost;
use transfer::{Refusal, Transfer};

/// A host that wants these transfers, one after the other; more than 8 are refused.
pub fn list_of(transfers: &[Transfer]) -> Result<ListHost, Refusal>
    ensures { answer list_host_model result ≡ full_list transfers.now }
{
    let mut host = ListHost::new();
    host.fill(transfers)?;
    Ok(host)
}

/// A queue of these bytes, the first the oldest; more than 8 are refused.
pub fn queue_of(bytes: &[u8]) -> Result<EventQueue, Refusal>
    ensures { answer queue_model result ≡ full_queue bytes.now }
{
    let mut queue = EventQueue::new();
    queue.fill(bytes)?;
    Ok(queue)
}
