//! Two masters write to one register at the same time, each a byte of standard input, and the listing of their bus is
//! printed.
#![tactic(auto)]

mod input;
mod run;
mod setup;

fn main(rt: HostRuntime) -> anyhow::Result<()> {
    Ok(run::run(&mut rt.stdin(), &mut rt.stdout())?)
}
