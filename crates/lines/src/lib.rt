//! Lines that people read and write: words, numbers, durations and byte strings on them, fields with their names, and the hint for a line that is
//! refused.
#![tactic(auto)]

pub mod atoms;
pub mod durations;
pub mod fields;
pub mod forms;
pub mod hint;
pub mod law;
pub mod line;
pub mod note;
pub mod pieces;
pub mod place;
pub mod text;
pub mod words;
