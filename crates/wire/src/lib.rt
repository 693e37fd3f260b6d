//! The two lines, SCL and SDA, and what passes over them: pulls, levels, events, bits and bytes.
//!
//! All of it goes tick by tick: what the parts pull in one tick gives its levels, and these with
//! the levels of the tick before give its event. Bytes come with the highest bit first.
#![tactic(auto)]

mod byte_progress;
mod decoder;
mod event;
mod latch;
mod levels;
mod pulls;
#[cfg(test)]
mod tests;
mod wire;

pub use byte_progress::{ByteProgress, bit_at, shift_in};
pub use decoder::{Acknowledge, Decoded, DecodedByte, Decoder};
pub use event::Event;
pub use latch::Latch;
pub use levels::Levels;
pub use pulls::Pulls;
pub use wire::{Signal, Wire};
