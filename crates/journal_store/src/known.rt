//! What a journal says of a completion id.
ghost use Rattle.std.specs.Prelude.{◌≡◌, None, Some, false, true};
ghost use Rattle.journal_entries.specs.Arrivals.{completion_fault, is_invocation_id, proposed_fault};
ghost use Rattle.journal_entries.specs.Given.{as_given};

use journal_entries::JournalFault;
use journal_entries::completions::{Completes, is_invocation_id};
use journal_protocol::NotificationResult;

/// What a journal says of an id.
#[derive(Clone, Copy)]
pub struct Known {
    /// What completes it, if a command carries it.
    pub kind: Option<Completes>,
    /// Whether it was completed.
    pub done: bool,
}

/// The fault of what completes an id of this kind that wasn't completed.
fn kind_fault(
    kind: Completes,
    brings: &NotificationResult,
    room: Option<JournalFault>,
) -> Option<JournalFault>
    ensures { result ≡ completion_fault (Some kind) false brings.now room }
{
    match kind {
        Completes::AnyResult => room,
        Completes::Proposal => Some(JournalFault::RunIsProposed),
        Completes::InvocationId => {
            if is_invocation_id(brings) {
                room
            } else {
                Some(JournalFault::WrongKind)
            }
        }
    }
}

/// In a journal that is given the result of a run completes its id as any other result does.
fn as_given(kind: Completes) -> Completes
    ensures { Some result ≡ as_given (Some kind) }
{
    match kind {
        Completes::InvocationId => Completes::InvocationId,
        Completes::AnyResult | Completes::Proposal => Completes::AnyResult,
    }
}

impl Known {
    /// The fault of a completion.
    pub(crate) fn completion_fault(
        self,
        brings: &NotificationResult,
        room: Option<JournalFault>,
    ) -> Option<JournalFault>
        ensures { result ≡ completion_fault self.kind self.done brings.now
            room }
    {
        match (self.kind, self.done) {
            (None, _) => Some(JournalFault::NoSuchId),
            (Some(_), true) => Some(JournalFault::SecondCompletion),
            (Some(kind), false) => kind_fault(kind, brings, room),
        }
    }

    /// The fault of a completion in a journal that is given.
    pub(crate) fn given_fault(
        self,
        brings: &NotificationResult,
        room: Option<JournalFault>,
    ) -> Option<JournalFault>
        ensures { result ≡ completion_fault (as_given self.kind) self.done
            brings.now room }
    {
        match (self.kind, self.done) {
            (None, _) => Some(JournalFault::NoSuchId),
            (Some(_), true) => Some(JournalFault::SecondCompletion),
            (Some(kind), false) => kind_fault(as_given(kind), brings, room),
        }
    }

    /// The fault of a proposal.
    pub(crate) fn proposed_fault(self, room: Option<JournalFault>) -> Option<JournalFault>
        ensures { result ≡ proposed_fault self.kind self.done room }
    {
        match (self.kind, self.done) {
            (None, _) => Some(JournalFault::NoSuchId),
            (Some(_), true) => Some(JournalFault::SecondCompletion),
            (Some(Completes::InvocationId), false) => Some(JournalFault::WrongKind),
            (Some(Completes::Proposal), false) => room,
            (Some(Completes::AnyResult), false) => room,
        }
    }
}
