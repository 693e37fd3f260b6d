//! Ticks a bus of 1, 2, 4 or 8 masters and 1, 4 or 16 ports as often as a line of standard input says, and counts the
//! outcomes told. The masters write for ever, and all are armed again whenever the bus is at rest.
#![tactic(auto)]

mod banks;
mod counting;
mod sizes;
mod work;
mod writer;

use sizes::measure;
use work::Work;

fn main(rt: HostRuntime) -> anyhow::Result<()> {
    let mut line = String::new(rt.alloc());
    rt.read_line(&mut line)?;
    let work = line.as_str().parse::<Work>()?;
    match measure(work) {
        Some(count) => println!(rt; "{} ticks, {count} outcomes", work.ticks)?,
        None => println!(rt; "no bus of this size")?,
    }
    Ok(())
}
