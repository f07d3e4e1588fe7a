//! The public types of the VM, which need no frame and no machine: options, values, results of runs, calls as values and their replies, and what
//! a handler is. A handler's step (`Step`) says what it asks for, and an `Answer` what it gets. So handlers, lines of scripts and the VM
//! depend on this crate beside each other.
#![tactic(auto)]

pub mod boxed;
mod call;
pub mod command_type;
mod content_type;
pub mod handler;
pub mod options;
mod reply;
pub mod runs;
mod same;
pub mod steps;
pub mod types;
pub mod values;

pub use boxed::Boxed;
pub use call::Call;
pub use command_type::{CommandRelationship, CommandType};
pub use content_type::ContentType;
pub use handler::Handler;
pub use options::{
    AwaitingOnPolicy, ImplicitCancellationOption, JournalMismatchRetryBehavior, JournalReplay,
    NonDeterministicChecksOption, PayloadOptions, VMOptions,
};
pub use reply::Reply;
pub use runs::{RunExitResult, RunHandle};
pub use steps::{Answer, Step};
pub use types::{
    AwaitResponse, AwakeableHandle, CallHandle, DeadlineCallHandle, EphemeralCompletionId,
    SendHandle, State,
};
pub use values::{Input, NonEmptyValue, ResponseHead, Target, TerminalFailure, Value};

/// What a call of the VM answers.
pub type VMResult<T> = Result<T, journal_errors::Error>;
