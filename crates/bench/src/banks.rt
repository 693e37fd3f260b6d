// Banks of each size. A bank is one part and the rest, so each size is a type of its own.
ghost use Rattle.std.specs.Prelude.{◌≡◌, ◌+◌, ◌*◌, ◌≤◌, IsOk, IfOk, IfErr};
ghost use Rattle.transfer.specs.Limits.{least_address, most_address};
ghost use Rattle.transfer.specs.declared.refusal.Refusal.TheVariants.{AddressOutOfRange};
ghost use Rattle.master.specs.Master.{hosted_master};
ghost use Rattle.port.specs.Port.{port_model};
ghost use Rattle.support.specs.Sent.{registers_address};
ghost use Rattle.bench.specs.Sizes.{WritesQuick, WritesSlow, file_at};
ghost use Rattle.bench.specs.Writer.{WritesForEver};

use crate::writer::writer;
use device::{Device, RegisterFile};
use host::{Host, PollHost};
use master::Master;
use port::Port;
use transfer::{Address, ClockPair, Refusal};

/// Two masters and the rest of a bank.
pub type Two<B> = (Master<PollHost>, (Master<PollHost>, B));

/// Four ports and the rest of a bank.
pub type Four<B> = (
    Port<RegisterFile>,
    (
        Port<RegisterFile>,
        (Port<RegisterFile>, (Port<RegisterFile>, B)),
    ),
);

/// The address of the first register file, to which all masters write.
pub const FIRST: u32 = 0x50;

// A master at this clock that writes the byte for ever.
fn master(clock: ClockPair, byte: u8) -> Master<PollHost>
    ensures { WritesForEver clock.low clock.high registers_address byte
        (hosted_master ⟦<PollHost as Host>⟧ result) }
{
    let first = Address::new(FIRST).unwrap();
    Master::new(clock, writer(first, byte).unwrap())
}

/// A master at a quick clock.
pub fn quick() -> Master<PollHost>
    ensures { WritesQuick (hosted_master ⟦<PollHost as Host>⟧ result) }
{
    master(ClockPair::new(1, 1).unwrap(), 0x12)
}

// One at a slower clock, whose byte is less and so wins.
fn slow() -> Master<PollHost>
    ensures { WritesSlow (hosted_master ⟦<PollHost as Host>⟧ result) }
{
    master(ClockPair::new(2, 1).unwrap(), 0x10)
}

/// A register file at this address.
pub fn file(address: u32) -> Result<Port<RegisterFile>, Refusal>
    ensures made { IfOk result (λ p. port_model ⟦<RegisterFile as Device>⟧ p ≡ file_at address) }
    ensures fits { least_address ≤ address → address ≤ most_address → IsOk result }
    ensures refused { IfErr result (λ e. e ≡ AddressOutOfRange) }
{
    Ok(Port::new(Address::new(address)?, RegisterFile::new()))
}

/// Two masters at odds.
pub fn two<B: Drop>(rest: B) -> Two<B>
    ensures { WritesQuick (hosted_master ⟦<PollHost as Host>⟧ result.0) ×
        WritesSlow (hosted_master ⟦<PollHost as Host>⟧ result.1.0) ×
        (result.1.1 ≡ rest) }
{
    (quick(), (slow(), rest))
}

/// Four files, at the addresses of this block of four; a bus has at most 16 ports, so there are four blocks.
pub fn four<B: Drop>(block: u8, rest: B) -> Result<Four<B>, Refusal>
    ensures made { IfOk result (λ b.
        (port_model ⟦<RegisterFile as Device>⟧ b.0 ≡ file_at (registers_address + 4 * block)) ×
        (port_model ⟦<RegisterFile as Device>⟧ b.1.0 ≡
        file_at (registers_address + 1 + 4 * block)) ×
        (port_model ⟦<RegisterFile as Device>⟧ b.1.1.0 ≡
        file_at (registers_address + 2 + 4 * block)) ×
        (port_model ⟦<RegisterFile as Device>⟧ b.1.1.1.0 ≡
        file_at (registers_address + 3 + 4 * block)) ×
        (b.1.1.1.1 ≡ rest)) }
    ensures fits { block ≤ 3 → IsOk result }
    ensures refused { IfErr result (λ e. e ≡ AddressOutOfRange) }
{
    let address = FIRST + 4 * u32::from(block);
    let first = file(address)?;
    let second = file(address + 1)?;
    let third = file(address + 2)?;
    let fourth = file(address + 3)?;
    Ok((first, (second, (third, (fourth, rest)))))
}
