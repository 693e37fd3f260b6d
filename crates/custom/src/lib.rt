//! A device and a host as somebody else would write them: the example for new implementations.
//!
//! Neither needs a change or a proof elsewhere; the bus takes any implementation of the two traits.
#![tactic(auto)]

mod counter;
mod once;
#[cfg(test)]
mod tests;

pub use counter::Counter;
pub use once::Once;
