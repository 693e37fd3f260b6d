//! What a bus does, apart from the code that does it: what a tick shows, and the law over every use of a bus.
#![tactic(auto)]

mod promises;
mod tick;

pub use promises::{restart_over_one, worked_examples};
pub use tick::{MOST_MASTERS, Tick};
