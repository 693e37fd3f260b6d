//! A bus in ticks: what all parts pull gives the levels, the levels give the event, and every master and port steps on it.
//! It has 1 to 8 masters and 0 to 16 ports.
#![tactic(auto)]

mod bus;
mod end;
mod masters;
mod ports;
mod run;

pub use bus::Bus;
pub use end::End;
pub use law::{MOST_MASTERS, Tick};
pub use master::{Mark, Master};
pub use masters::Masters;
pub use port::Port;
pub use ports::Ports;
pub use run::{MOST_TICKS, Run};
pub use wire::{Event, Levels};
