//! The messages of an attempt's own course: what it begins with, does by itself, waits for and ends with; and their bytes.
#![tactic(auto)]

mod commands;
mod control;
mod future;
mod runs;
mod same;
mod start;

pub use commands::{InputCommand, OutputCommand, SleepCommand};
pub use control::{AwaitingOn, Suspension};
pub use future::{Future, FutureKind, FutureNode};
pub use runs::{ProposeRunCompletion, ProposeRunCompletionAck, RunCommand};
pub use start::Start;
