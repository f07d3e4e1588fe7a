//! The reply to a call of the VM, as a value.
use crate::runs::RunHandle;
use crate::steps::Answer;
use crate::types::{AwaitResponse, EphemeralCompletionId, State};
use crate::values::ResponseHead;
use bytes::Bytes;
use journal_errors::{Error, Version};

/// The reply to a call, or to a line that makes none.
#[derive(Debug, Drop)]
pub enum Reply {
    /// There was nothing to reply to.
    Nothing,
    /// The line has no meaning.
    Bad,
    /// There is no VM.
    NoVm,
    /// The call returned that error.
    Refused(Error),
    /// The call returned, without a value.
    Done,
    Made(Version),
    Head(ResponseHead),
    Output(Bytes),
    Ready(bool),
    State(State),
    Index(i64),
    Awaited(AwaitResponse),
    Run(RunHandle),
    Ephemeral(EphemeralCompletionId),
    /// The call of a handler was answered.
    Answer(Answer),
}
