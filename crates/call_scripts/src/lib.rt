//! Scripts that drive one VM by hand: the call that a line asks for is made, and its answer is printed.
#![tactic(auto)]

pub mod perform;
pub mod run;
pub mod run_end;
