//! What becomes of a run's result: it is proposed, or an error ends the attempt.
ghost use Rattle.std.specs.Prelude.{◌≡◌, ◌∷◌, IfOk, Some};
ghost use Rattle.std.specs.Duration.{as_nanos};
ghost use Rattle.journal_errors.specs.declared.error.ErrorBehavior.TheVariants as behavior;
ghost use Rattle.vm_retries.specs.Policies.{in_nanos};
ghost use Rattle.vm_runs.specs.Settling.{SettlesRun, FailsAs, count_with, nanos_with, run_as_related, as_terminal_failure};

use crate::pending::PendingRun;
use journal_errors::{Error, ErrorBehavior, MessageType, RelatedCommand};
use journal_values::{Failure, ValueOrFailure};
use plain::{Items, Text};
use std::alloc::{AllocError, Global};
use std::time::Duration;
use vm_retries::{EntryRetryInfo, NextRetry, RetryPolicy};
use vm_types::RunExitResult;
use vm_types::values::write_failure;

/// What becomes of a run's result.
#[derive(Drop)]
pub enum Settlement {
    /// It is proposed as the run's result.
    Proposed(ValueOrFailure),
    /// The attempt fails with this error.
    Failed(Error),
}

/// The command that the run's errors relate to.
fn run_command(run: PendingRun) -> RelatedCommand
    ensures { result ≡ run_as_related run }
{
    RelatedCommand {
        index: run.command_index,
        ty: MessageType::RunCommand,
        name: run.name,
    }
}

fn retried(mut error: Error, delay: Option<Duration>, run: PendingRun) -> Error
    ensures { result ≡ record error {
      next_retry_delay = delay;
      related_command = Some (run_as_related run);
    } }
{
    error.next_retry_delay = delay;
    error.related_command = Some(run_command(run));
    error
}

fn paused(mut error: Error, run: PendingRun) -> Error
    ensures { result ≡ record error {
      behavior = behavior.Pause;
      related_command = Some (run_as_related run);
    } }
{
    error.behavior = ErrorBehavior::Pause;
    error.related_command = Some(run_command(run));
    error
}

/// The error as a failure that isn't retried.
fn terminal(alloc: Global, error: &Error) -> Result<Failure, AllocError>
    ensures { IfOk result (λ failure. failure ≡ as_terminal_failure error.now) }
{
    Ok(Failure {
        code: u32::from(error.code()),
        message: Text::from_str(alloc, error.message())?,
        metadata: Items::new(alloc),
    })
}

/// How often and for how long the run has been tried, with an attempt that failed after this duration.
fn tried(earlier: EntryRetryInfo, attempt_duration: Duration) -> EntryRetryInfo
    ensures count { result.retry_count ≡ count_with earlier.retry_count }
    ensures nanos { as_nanos result.retry_loop_duration
        ≡ nanos_with (as_nanos earlier.retry_loop_duration) attempt_duration }
{
    EntryRetryInfo {
        retry_count: earlier.retry_count.saturating_add(1),
        retry_loop_duration: earlier.retry_loop_duration.saturating_add(attempt_duration),
    }
}

/// A failure with what the policy says of it.
fn settle_failure(
    alloc: Global,
    run: PendingRun,
    error: Error,
    next: NextRetry,
) -> Result<Settlement, AllocError>
    ensures { IfOk result (FailsAs run error (in_nanos next)) }
{
    match next {
        NextRetry::Retry(delay) => Ok(Settlement::Failed(retried(error, delay, run))),
        NextRetry::Pause => Ok(Settlement::Failed(paused(error, run))),
        NextRetry::FailAsTerminal => {
            drop(run);
            let failure = terminal(alloc, &error)?;
            drop(error);
            Ok(Settlement::Proposed(ValueOrFailure::Failure(failure)))
        }
    }
}

/// What becomes of a run's result. A failure that may be retried is decided by the policy, by all the run's failures: those of
/// earlier attempts, and this one. It takes memory only if such a failure becomes the run's result.
pub fn settle(
    alloc: Global,
    run: PendingRun,
    exit: RunExitResult,
    policy: &RetryPolicy,
    earlier: EntryRetryInfo,
) -> Result<Settlement, AllocError>
    ensures { IfOk result (SettlesRun run exit policy.now earlier.retry_count
        (as_nanos earlier.retry_loop_duration)) }
{
    match exit {
        RunExitResult::Success(value) => {
            drop(run);
            Ok(Settlement::Proposed(ValueOrFailure::Value(value)))
        }
        RunExitResult::TerminalFailure(failure) => {
            drop(run);
            Ok(Settlement::Proposed(ValueOrFailure::Failure(write_failure(failure))))
        }
        RunExitResult::RetryableFailure {
            attempt_duration,
            error,
        } => settle_failure(
            alloc,
            run,
            error,
            policy.next_retry(tried(earlier, attempt_duration)),
        ),
    }
}
