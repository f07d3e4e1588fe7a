//! A frame as a line that people read, and such a line as a frame.
#![tactic(auto)]

pub mod entry;
pub mod forms;
pub mod message;
pub mod type_names;
