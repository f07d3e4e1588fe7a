//! Replay's comparison: whether replay takes two messages for one, and else the first field in which they aren't the same.
#![tactic(auto)]

mod field;
mod header_equality;

pub use field::Field;
pub use header_equality::{difference, header_eq};
