//! Numbers and bytes as text: decimals, and bytes in two capital hexadecimal digits.
//!
//! Each function puts ASCII at the end of a text of fixed size. It cannot fail: it requires the
//! room that it needs, in bytes.
#![tactic(auto)]

mod decimal;
mod digits;
#[cfg(test)]
mod tests;

pub use arrayvec::ArrayString;
pub use decimal::Decimal;
pub use digits::{digit, push_bytes, push_hex};
