//! The machine's events that the VM alone calls and that await nothing: messages that come in, the handler's input and its end, its reads,
//! calls of two commands, and reported errors.
#![tactic(auto)]

mod input;
mod messages;
mod reads;
mod recorded_reads;
mod reports;
mod several;
mod skips;

pub use input::{end, read_input};
pub use messages::{close_input, receive, receive_malformed};
pub use reads::make_read;
pub use reports::report;
pub use several::command_before;
pub use skips::skips_replay;
