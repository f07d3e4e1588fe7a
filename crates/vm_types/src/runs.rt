//! The handle of a run, and the result of executing it.
ghost use Rattle.std.specs.Prelude.{◌≡◌};
ghost use Rattle.vm_types.specs.Exits.{exit_has_metadata, exit_of_value};

use crate::values::{NonEmptyValue, TerminalFailure};
use await_trees::NotificationHandle;
use bytes::Bytes;
use journal_errors::Error;
use std::time::Duration;

/// A run that was called.
#[derive(Clone, Debug, Drop, PartialEq, Eq)]
pub struct RunHandle {
    /// Its result is already there, so it needn't be executed.
    pub replayed: bool,
    pub handle: NotificationHandle,
}

/// The result of executing a run.
#[derive(Clone, Debug, Drop)]
pub enum RunExitResult {
    Success(Bytes),
    TerminalFailure(TerminalFailure),
    /// It failed after so long, and may be tried again.
    RetryableFailure {
        attempt_duration: Duration,
        error: Error,
    },
}

impl RunExitResult {
    /// The result that a value is.
    pub fn of_value(value: NonEmptyValue) -> RunExitResult
        ensures { result ≡ exit_of_value value }
    {
        match value {
            NonEmptyValue::Success(bytes) => RunExitResult::Success(bytes),
            NonEmptyValue::Failure(failure) => RunExitResult::TerminalFailure(failure),
        }
    }

    /// Whether it is a failure with metadata.
    pub fn has_metadata(&self) -> bool
        ensures { result ≡ exit_has_metadata self.now }
    {
        match self {
            RunExitResult::TerminalFailure(failure) => !failure.metadata.is_empty(),
            RunExitResult::Success(_) | RunExitResult::RetryableFailure { .. } => false,
        }
    }
}
