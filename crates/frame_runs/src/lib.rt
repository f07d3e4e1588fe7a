//! A stream of frames as lines that people read, and such lines as a stream of frames: what the program `frames` does. And the laws of a
//! frame's line: what is printed of a frame is read back.
#![tactic(auto)]

pub mod laws;
pub mod refusal;
pub mod round_trip;
pub mod run;
