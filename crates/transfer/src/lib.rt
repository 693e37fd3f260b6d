//! What is sent over the bus and what comes of it: addresses, clock counts, legs, drafts, transfers
//! and outcomes.
//!
//! Times are in ticks of the bus, lengths in bytes; masters, legs and bytes are numbered from 0.
//! Numbers are checked where a value is made: one outside the limits is refused with a [`Refusal`].
#![tactic(auto)]

mod address;
mod bytes;
mod clock;
mod draft;
mod fifo;
mod leg;
mod outcome;
mod refusal;
#[cfg(test)]
mod tests;

pub use address::Address;
pub use bytes::{Bytes, MOST_BYTES, MOST_READ, ReadBytes, WriteBytes};
pub use clock::ClockPair;
pub use draft::{Draft, Transfer};
pub use fifo::{Fifo, MOST_ITEMS};
pub use leg::{Body, Direction, Leg, ReadCount};
pub use outcome::{BytePlace, LegPlace, Outcome, OutcomeKind};
pub use refusal::Refusal;
