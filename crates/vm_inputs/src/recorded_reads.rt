//! What a recorded command brings where the handler reads its state, or why it doesn't fit.
ghost use Rattle.std.specs.Prelude.{◌≡◌, true, Some, IfOk};
ghost use Rattle.journal_protocol.specs.Bodies.{message_in};
ghost use Rattle.vm_asks.specs.StateReads.{read_by, recorded_as};

use journal_protocol::{Message, NamedFault, NotificationResult, RawMessage};
use journal_replay::header_eq;
use plain::Fault;
use std::alloc::{AllocError, Global};
use vm_asks::StateRead;
use vm_asks::state_read::result_in;

/// What a recorded command brings that has to be header-equal to this form except in its result; or why it doesn't fit.
fn compared(
    form: &Message,
    recorded: &Message,
) -> Result<Result<Option<NotificationResult>, NamedFault>, AllocError>
    ensures { IfOk result (λ given. given ≡ read_by form.now (Some recorded.now)) }
{
    if header_eq(recorded, form, true) {
        result_in(recorded)
    } else {
        Ok(Err(NamedFault::CommandMismatch))
    }
}

/// As `compared`, of a command that isn't read yet.
fn read_by(
    alloc: Global,
    form: &Message,
    raw: &RawMessage,
) -> Result<Result<Option<NotificationResult>, NamedFault>, AllocError>
    ensures { IfOk result (λ given. given ≡ read_by form.now (message_in raw.now.ty raw.now.body)) }
{
    match raw.read(alloc) {
        Ok(recorded) => compared(form, &recorded),
        Err(Fault::Memory) => Err(AllocError),
        Err(Fault::Malformed) => Ok(Err(NamedFault::BadMessage)),
    }
}

/// What a recorded command brings where the handler makes this read, or why it doesn't fit.
pub fn recorded_as(
    read: &StateRead,
    alloc: Global,
    id: u32,
    raw: &RawMessage,
) -> Result<Result<Option<NotificationResult>, NamedFault>, AllocError>
    ensures { IfOk result (λ given. given ≡ recorded_as read.now id raw.now) }
{
    let Some(form) = read.form_of(id, raw)? else {
        return Ok(Err(NamedFault::CommandTypeMismatch));
    };
    read_by(alloc, &form, raw)
}
