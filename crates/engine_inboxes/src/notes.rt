//! The notification that something which waits becomes.
ghost use Rattle.std.specs.Prelude.{◌≡◌, IfOk};
ghost use Rattle.journal_store.specs.Effects.{completing_result};
ghost use Rattle.engine_inboxes.specs.Notes.{completion, note_by, signal_id, signal_note};

use crate::types::{Brought, Waiting};
use journal_protocol::{Notification, NotificationId, NotificationResult, Signal, ValueOrFailure};
use std::alloc::AllocError;

/// A result, as what completes an id.
fn outcome(ends: ValueOrFailure) -> NotificationResult
    ensures { result ≡ completing_result ends }
{
    match ends {
        ValueOrFailure::Value(value) => NotificationResult::Value(value),
        ValueOrFailure::Failure(failure) => NotificationResult::Failure(failure),
    }
}

fn copy_result(from: &NotificationResult) -> Result<NotificationResult, AllocError>
    ensures { IfOk result (λ copy. copy ≡ from.now) }
{
    match from {
        NotificationResult::Void => Ok(NotificationResult::Void),
        NotificationResult::Value(value) => Ok(NotificationResult::Value(value.clone()?)),
        NotificationResult::Failure(failure) => Ok(NotificationResult::Failure(failure.clone()?)),
        NotificationResult::StateKeys(keys) => Ok(NotificationResult::StateKeys(keys.clone()?)),
        NotificationResult::InvocationId(id) => Ok(NotificationResult::InvocationId(id.clone()?)),
    }
}

fn signal_id(signal: &Signal) -> Result<NotificationId, AllocError>
    ensures { IfOk result (λ id. id ≡ signal_id signal.now) }
{
    match signal {
        Signal::Index(index) => Ok(NotificationId::SignalId(*index)),
        Signal::Name(name) => Ok(NotificationId::SignalName(name.clone()?)),
    }
}

fn completion(id: u32, brings: NotificationResult) -> Notification
    ensures { result ≡ completion id brings }
{
    Notification {
        id: NotificationId::CompletionId(id),
        result: brings,
    }
}

fn signalled(signal: &Signal, brings: &NotificationResult) -> Result<Notification, AllocError>
    ensures { IfOk result (λ n. n ≡ signal_note signal.now brings.now) }
{
    let id = signal_id(signal)?;
    let brings = copy_result(brings)?;
    Ok(Notification { id, result: brings })
}

/// The notification that this becomes by what is there for it, if it is what it waits for.
pub fn note_by(waiting: &Waiting, brought: Brought) -> Result<Option<Notification>, AllocError>
    ensures { IfOk result (λ n. n ≡ note_by waiting.now brought) }
{
    match (waiting, brought) {
        (Waiting::Id(id), Brought::Id(text)) => {
            Ok(Some(completion(*id, NotificationResult::InvocationId(text))))
        }
        (Waiting::Outcome { completes, .. }, Brought::Outcome(ends)) => {
            Ok(Some(completion(*completes, outcome(ends))))
        }
        (Waiting::Clock(timer), Brought::Time(now)) => {
            if timer.due <= now {
                Ok(Some(completion(timer.completes, NotificationResult::Void)))
            } else {
                Ok(None)
            }
        }
        (Waiting::Signal(signal, brings), Brought::Time(_)) => {
            Ok(Some(signalled(signal, brings)?))
        }
        _ => Ok(None),
    }
}
