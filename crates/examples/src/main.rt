//! Arbitration by example: two masters at odds, under several clock pairs, and who was told at the first stop.
#![tactic(auto)]

mod run;
mod setup;

fn main(rt: HostRuntime) -> anyhow::Result<()> {
    Ok(run::run(&mut rt.stdout())?)
}
