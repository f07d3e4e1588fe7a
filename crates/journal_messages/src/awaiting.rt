//! What an await says that waits for one id, written from the id itself: no message is made, so no memory is taken for lists.
ghost use Rattle.std.specs.Prelude.{◌≡◌, ◌++◌, ◌∷◌, OnOk};
ghost use Rattle.wire.specs.Format.{bytes, list, u32s};
ghost use Rattle.wire.specs.Forms.{list_format, text_format, u32_format};
ghost use Rattle.journal_attempt.specs.Bodies.{awaiting_on_format};
ghost use Rattle.journal_attempt.specs.Encoding.{awaiting_on};
ghost use Rattle.journal_messages.specs.Awaiting.{awaiting_id, completions_in, other_signals, signals_awaited, names_in};

use journal_attempt::FutureKind;
use journal_values::NotificationId;
use std::alloc::AllocError;
use wire::Wire;

/// Writes the completion ids that an id is.
#[tactic(auto, unfolding(wire::specs::Format::list))]
fn put_completions(id: &NotificationId, out: &mut Vec<u8>) -> Result<(), AllocError>
    ensures written { OnOk result (out.new.items
        ≡ out.old.items ++ list u32s (completions_in id.now)) }
    ensures valid { OnOk result ((list_format u32_format).valid (completions_in id.now)) }
{
    match id {
        NotificationId::CompletionId(id) => {
            1u64.put(out)?;
            id.put(out)
        }
        _ => 0u64.put(out),
    }
}

/// Writes a signal alone, or none.
#[tactic(auto, unfolding(wire::specs::Format::list))]
fn put_other(other: Option<u32>, out: &mut Vec<u8>) -> Result<(), AllocError>
    ensures written { OnOk result (out.new.items
        ≡ out.old.items ++ list u32s (other_signals other)) }
    ensures valid { OnOk result ((list_format u32_format).valid (other_signals other)) }
{
    match other {
        None => 0u64.put(out),
        Some(signal) => {
            1u64.put(out)?;
            signal.put(out)
        }
    }
}

/// Writes a signal, and the other one after it.
#[tactic(auto, unfolding(wire::specs::Format::list))]
fn put_both(signal: u32, other: Option<u32>, out: &mut Vec<u8>) -> Result<(), AllocError>
    ensures written { OnOk result (out.new.items
        ≡ out.old.items ++ list u32s (signal ∷ other_signals other)) }
    ensures valid { OnOk result ((list_format u32_format).valid (signal ∷ other_signals other)) }
{
    match other {
        None => {
            1u64.put(out)?;
            signal.put(out)
        }
        Some(other) => {
            2u64.put(out)?;
            signal.put(out)?;
            other.put(out)
        }
    }
}

/// Writes the signals that an id is, and the other signal.
fn put_signals(id: &NotificationId, other: Option<u32>, out: &mut Vec<u8>) -> Result<(), AllocError>
    ensures written { OnOk result (out.new.items
        ≡ out.old.items ++ list u32s (signals_awaited id.now other)) }
    ensures valid { OnOk result ((list_format u32_format).valid (signals_awaited id.now other)) }
{
    match id {
        NotificationId::SignalId(id) => put_both(*id, other, out),
        _ => put_other(other, out),
    }
}

/// Writes the names of signals that an id is.
#[tactic(auto, unfolding(wire::specs::Format::list))]
fn put_names(id: &NotificationId, out: &mut Vec<u8>) -> Result<(), AllocError>
    ensures written { OnOk result (out.new.items
        ≡ out.old.items ++ list bytes (names_in id.now)) }
    ensures valid { OnOk result ((list_format text_format).valid (names_in id.now)) }
{
    match id {
        NotificationId::SignalName(name) => {
            1u64.put(out)?;
            name.put(out)
        }
        _ => 0u64.put(out),
    }
}

/// Writes the body of an `AwaitingOn` on an id, or on the first of it and the other signal.
#[tactic(auto, unfolding(journal_attempt::specs::Encoding::awaiting_on, journal_attempt::specs::Futures::future, journal_attempt::specs::Futures::future_valid))]
pub(crate) fn put_awaiting(
    id: &NotificationId,
    other: Option<u32>,
    out: &mut Vec<u8>,
) -> Result<(), AllocError>
    ensures written { OnOk result (out.new.items
        ≡ out.old.items ++ awaiting_on (awaiting_id id.now other)) }
    ensures valid { OnOk result (awaiting_on_format.valid (awaiting_id id.now other)) }
{
    FutureKind::FirstCompleted.put(out)?;
    put_completions(id, out)?;
    put_signals(id, other, out)?;
    put_names(id, out)?;
    0u64.put(out)?;
    false.put(out)
}
