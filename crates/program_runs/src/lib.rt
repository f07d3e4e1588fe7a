//! What the runs of all programs have in common: what one reads from and writes to, how one ends that reads all of its input and then
//! writes, the exit statuses, and the argument that asks for help.
#![tactic(auto)]

pub mod command_line;
pub mod exit_status;
pub mod run_end;
pub mod streams;
