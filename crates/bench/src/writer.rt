// A host that never has enough.
ghost use Rattle.std.specs.Prelude.{◌≡◌, Ok};
ghost use Rattle.transfer.specs.declared.draft.Transfer.{Transfer};
ghost use Rattle.transfer.specs.Transfer.{transfer_model};
ghost use Rattle.transfer.specs.Refusal.{answer};
ghost use Rattle.host.specs.PollHost.{poll_host_model};
ghost use Rattle.support.specs.Sent.{register_write};
ghost use Rattle.bench.specs.Writer.{writer_of};

use host::PollHost;
use transfer::{Address, Refusal, Transfer};

/// A host that writes 03 and `byte`; it is never refused. A write reads nothing, so no outcome meets the mask, and it wants
/// for ever.
pub fn writer(address: Address, byte: u8) -> Result<PollHost, Refusal>
    ensures { (t : Transfer) × (transfer_model t ≡ register_write address.number byte) ×
        (answer poll_host_model result ≡ Ok (writer_of t)) }
{
    let write = Transfer::write(address, &[0x03, byte])?;
    Ok(PollHost::new(write, 0xFF))
}
