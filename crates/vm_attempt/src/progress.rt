//! What a step of an attempt did, and what an attempt keeps of its input.

use await_trees::NotificationHandle;
use bytes::Bytes;
use vm_types::Answer;

/// What a step of an attempt did.
#[derive(Clone, Copy, Debug, PartialEq, Eq)]
pub enum Progress {
    /// The VM waits for the known entries.
    NotReady,
    /// The handler was given one answer.
    Stepped,
    /// The handler's await waits: for input, for a run's result, or for both.
    Waiting { input: bool, run: bool },
    /// The handler's await waits for the run of this handle, which is to be executed now, outside the attempt.
    ExecuteRun(NotificationHandle),
    /// The invocation is suspended; the attempt is over.
    Suspended,
    /// The handler has ended; the attempt is over.
    Ended,
}

/// A piece of input, with the numbers of answers and of output bytes that stood when it came.
#[derive(Drop)]
pub struct Fed {
    pub piece: Bytes,
    pub answers: usize,
    /// As far as a `usize` goes.
    pub output: usize,
}

/// What the VM replied to a step.
#[derive(Drop)]
pub enum Reply {
    Answer(Answer),
    Waiting { input: bool, run: bool },
    Execute(NotificationHandle),
    Suspended,
    Ended,
}
