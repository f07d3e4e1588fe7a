//! What a step of a handler asks of the machine: a command without its numbers, a read of the state, or what has no command.
#![tactic(auto)]

pub mod asks;
pub mod command;
pub mod laws;
pub mod request;
pub mod state_read;

pub use asks::Ask;
pub use command::Command;
pub use state_read::StateRead;
