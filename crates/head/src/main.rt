//! Three masters of one sensor head: the listing of their run, what each was told last, and the registers.
#![tactic(auto)]

mod run;
mod setup;

fn main(rt: HostRuntime) -> anyhow::Result<()> {
    Ok(run::run(&mut rt.stdout())?)
}
