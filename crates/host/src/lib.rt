//! Hosts: what a master serves. One works through a list of transfers, and one repeats a transfer.
//!
//! Each implementation of [`Host`] says by its behaviour what it means, and is proved to keep to
//! it.
#![tactic(auto)]

mod host;
mod list_host;
mod poll_host;

pub use host::Host;
pub use list_host::ListHost;
pub use poll_host::PollHost;
