//! What completes an id that a command carries.
ghost use Rattle.std.specs.Prelude.{◌≡◌};
ghost use Rattle.journal_entries.specs.Arrivals.{is_invocation_id};

use journal_protocol::NotificationResult;

/// What completes an id that a command carries.
#[derive(Clone, Copy)]
pub enum Completes {
    /// The result of a call, of any kind.
    AnyResult,
    /// The id of the invocation that a call has made.
    InvocationId,
    /// The result of a run, which the attempt that ran it proposes.
    Proposal,
}

pub fn is_invocation_id(brings: &NotificationResult) -> bool
    ensures { result ≡ is_invocation_id brings.now }
{
    matches!(brings, NotificationResult::InvocationId(_))
}
