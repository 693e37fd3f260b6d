//! What several programs share: hosts and devices filled in one call, a bus of two masters and a register file, masters
//! armed together, and a run printed tick by tick.
#![tactic(auto)]

mod arming;
mod filled;
mod output;
mod pair;
mod run;
mod turn;

pub use arming::arm_all;
pub use filled::{list_of, queue_of};
pub use output::Output;
pub use pair::{Clocks, PairBus, pair_bus};
pub use run::print_run;
pub use turn::ticks_of_turns;
