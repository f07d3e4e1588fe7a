//! The machine of the VM: its record, the error rule and the event of all commands; and in `specs/` the outcome of each event.
#![tactic(auto)]

pub mod fault;
pub mod issue;
pub mod machine;
pub mod phase;
pub mod queries;
pub mod settle;

pub use fault::{Fault, refuse};
pub use machine::Machine;
pub use phase::Phase;
