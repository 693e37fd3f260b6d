//! A bus from scratch: two masters contend for a register file, and the run and their outcomes are printed.
#![tactic(auto)]

use device::RegisterFile;
use exchange::{Bus, End, Master, Port};
use host::ListHost;
use transfer::{Address, ClockPair, Transfer};

fn main(rt: HostRuntime) -> anyhow::Result<()> {
    // What is sent: one master writes 7F to register 3, the other reads that register back.
    let registers = Address::new(0x50)?;
    let write = Transfer::write(registers, &[0x03, 0x7F])?;
    let read = Transfer::write_then_read(registers, &[0x03], 1)?;

    // Each master serves a host, which wants transfers and is told what came of them.
    let mut logger = ListHost::new();
    logger.fill(&[write])?;
    let mut reader = ListHost::new();
    reader.fill(&[read])?;

    // A bus is a bank of masters and a bank of ports: one part and the rest, down to `End`.
    let logger = Master::new(ClockPair::new(2, 1)?, logger);
    let reader = Master::new(ClockPair::new(1, 3)?, reader);
    let port = Port::new(registers, RegisterFile::new());
    let mut bus = Bus::new((logger, (reader, End)), (port, End));

    // Both are armed with what they want, and the bus is ticked until it is at rest.
    bus.arm(0)?;
    bus.arm(1)?;
    let run = bus.run(100_000)?;
    println!(rt; "{} ticks, {} outcomes", run.ticks, run.outcomes)?;

    // The bus lends its parts, so that outcomes can be read as it goes on.
    let (logger, (reader, End)) = bus.masters();
    for (name, host) in [("logger", logger.host()), ("reader", reader.host())] {
        if let Some(outcome) = host.last() {
            println!(rt; "{name}: {outcome}")?;
        }
    }
    Ok(())
}
