//! Engines and their events as scripts: a script played over an engine without invocations, the report of it, and one run of the program
//! `vmengine`.
#![tactic(auto)]

pub mod happen;
pub mod play;
pub mod report;
pub mod run;
