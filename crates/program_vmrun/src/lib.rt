//! One run of the program `vmrun`: an attempt of a handler over what a reader gives, and its output into a writer.
#![tactic(auto)]

pub mod run;
pub mod run_end;
