//! Calls as lines of a script: what a line asks for, the one text that each reply is printed as, and plans, which are handlers whose steps are
//! said in such lines.
#![tactic(auto)]

mod alone;
pub mod answer;
pub mod callees;
pub mod copies;
pub mod parse;
pub mod plan;
pub mod reading;
pub mod reply;
pub mod request;
pub mod shown;
pub mod values;
pub mod verb;

pub use shown::Shown;
