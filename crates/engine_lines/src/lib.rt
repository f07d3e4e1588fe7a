//! Scripts of many invocations as text: what their lines say, a whole script, the lines of frames in a report and its other parts that name no
//! engine, and how a run of the program ends.
#![tactic(auto)]

pub mod did;
pub mod frames;
pub mod orders;
pub mod parse;
pub mod parts;
pub mod run_end;
pub mod said;
pub mod script;
pub mod targets;
