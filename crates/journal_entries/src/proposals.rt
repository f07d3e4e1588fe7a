//! The completion that the proposed result of a run becomes.
ghost use Rattle.std.specs.Prelude.{◌≡◌};
ghost use Rattle.journal_entries.specs.Proposals.{completion_result};

use journal_protocol::{NotificationResult, ValueOrFailure};

/// A proposed result, as the run's completion brings it.
pub fn completion_result(proposed: ValueOrFailure) -> NotificationResult
    ensures { result ≡ completion_result proposed }
{
    match proposed {
        ValueOrFailure::Value(value) => NotificationResult::Value(value),
        ValueOrFailure::Failure(failure) => NotificationResult::Failure(failure),
    }
}
