//! The text of a run: what each tick shows, by its number from 1 on, one line for each mark.
#![tactic(auto)]

mod listing;
mod marks;

pub use listing::Listing;
pub use marks::{Marks, push_numbers};
