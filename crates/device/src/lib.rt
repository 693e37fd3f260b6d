//! Devices: what a port carries. A register file, an event queue, and two layers over any device.
//!
//! Each implementation of [`Device`] says by its behaviour what it means, and is proved to keep to
//! it. Its `hold` answers in ticks of the bus.
#![tactic(auto)]

mod busy;
mod device;
mod event_queue;
mod register_file;
mod selection;
mod slow;
#[cfg(test)]
mod tests;

pub use busy::Busy;
pub use device::Device;
pub use event_queue::EventQueue;
pub use register_file::RegisterFile;
pub use slow::Slow;
