//! The completion ids that a command carries.
ghost use Rattle.std.specs.Prelude.{◌≡◌, ℕ, Option};
ghost use Rattle.journal_entries.specs.declared.completions.Completes.{Completes};
ghost use Rattle.journal_entries.specs.declared.completions.Completes.TheVariants as completes;
ghost use Rattle.journal_entries.specs.Arrivals.{completes_by};
ghost use Rattle.journal_store.specs.Known.{with_called, with_result_id};

use journal_entries::completions::Completes;
use journal_protocol::Message;

/// The completion ids of a command.
pub(crate) struct Carried {
    /// The one that the id of the called invocation completes.
    pub(crate) called: Option<u32>,
    /// The one of its result, and what completes it.
    pub(crate) result: Option<(u32, Completes)>,
}

/// The ids of a command that has one, which any result completes.
fn one(id: u32) -> Carried
    ensures called { result.called ≡ None }
    ensures result_id { result.result ≡ Some (id, completes.AnyResult) }
{
    Carried {
        called: None,
        result: Some((id, Completes::AnyResult)),
    }
}

/// The completion ids that a command carries.
pub(crate) fn ids_in(command: &Message) -> Carried
    ensures { (id : ℕ) (before : Option Completes) → completes_by id command.now before
        ≡ with_result_id id result.result (with_called id result.called before) }
{
    match command {
        Message::Sleep(c) => one(c.result_completion_id),
        Message::GetLazyState(c) => one(c.result_completion_id),
        Message::GetLazyStateKeys(c) => one(c.result_completion_id),
        Message::GetPromise(c) => one(c.result_completion_id),
        Message::PeekPromise(c) => one(c.result_completion_id),
        Message::CompletePromise(c) => one(c.result_completion_id),
        Message::AttachInvocation(c) => one(c.result_completion_id),
        Message::GetInvocationOutput(c) => one(c.result_completion_id),
        Message::Call(c) => Carried {
            called: Some(c.request.invocation_id_notification_idx),
            result: Some((c.result_completion_id, Completes::AnyResult)),
        },
        Message::OneWayCall(c) => Carried {
            called: Some(c.request.invocation_id_notification_idx),
            result: None,
        },
        Message::Run(c) => Carried {
            called: None,
            result: Some((c.result_completion_id, Completes::Proposal)),
        },
        _ => Carried {
            called: None,
            result: None,
        },
    }
}
