//! A port: it hears the bytes of the bus for its device, and answers for it. A hold is counted in steady-low ticks, 0 to
//! 255 of them.
#![tactic(auto)]

mod port;

pub use port::{Mode, Port};
