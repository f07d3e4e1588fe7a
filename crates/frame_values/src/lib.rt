//! The values of messages' fields as they are written on a line: numbers, texts, lists, choices and futures.
#![tactic(auto)]

pub mod bracketed;
pub mod choices;
pub mod fields;
pub mod future;
pub mod nested;
pub mod value;
mod words;
