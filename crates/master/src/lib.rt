//! A master: it plays a transfer symbol by symbol, in step with whoever else contends, until it is done or has lost. All
//! times are in ticks; a clock count is from 1 to 255 of them.
#![tactic(auto)]

mod arming;
mod cursor;
mod mark;
mod master;
mod state;
mod symbol;

pub use arming::Arming;
pub use mark::Mark;
pub use master::Master;
pub use symbol::Symbol;
