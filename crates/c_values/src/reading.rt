//! What is read from the bytes that C gives.
ghost use Rattle.std.specs.Prelude.{◌≡◌, IfOk};
ghost use Rattle.journal_protocol.specs.Bodies.{message_in};
ghost use Rattle.c_values.specs.Reading.{frame_at, id_named, name_id};

use crate::Status;
use bytes::Bytes;
use journal_entries::entry::frame_in;
use journal_protocol::{Message, NotificationId, RawMessage};
use plain::{Fault, Text};
use std::alloc::{AllocError, Global};

/// The one whole frame that bytes are.
pub fn frame_at(alloc: Global, bytes: &[u8]) -> Result<Result<RawMessage, Status>, AllocError>
    ensures { IfOk result (λ found. found ≡ frame_at bytes.now) }
{
    let bytes = Bytes::copy_from_slice(alloc, bytes)?;
    match frame_in(alloc, &bytes) {
        Ok(Some(raw)) => Ok(Ok(raw)),
        Ok(None) => Ok(Err(Status::NotAFrame)),
        Err(error) => Err(error),
    }
}

/// The message of a frame, if it can be read.
pub(crate) fn message_in(alloc: Global, raw: &RawMessage) -> Result<Option<Message>, AllocError>
    ensures { IfOk result (λ message. message ≡ message_in raw.now.ty raw.now.body) }
{
    match raw.read(alloc) {
        Ok(message) => Ok(Some(message)),
        Err(Fault::Malformed) => Ok(None),
        Err(Fault::Memory) => Err(AllocError),
    }
}

/// The id that a name is.
#[tactic(auto, using(crate::proofs::Names::name_is, crate::proofs::Names::no_name))]
fn name_id(alloc: Global, name: &[u8]) -> Result<Result<NotificationId, Status>, AllocError>
    ensures { IfOk result (λ found. found ≡ name_id name.now) }
{
    match std::str::from_utf8(name) {
        Ok(text) => match String::from_str(alloc, text) {
            Ok(text) => Ok(Ok(NotificationId::SignalName(Text::from_string(text)))),
            Err(error) => Err(error),
        },
        Err(_) => Ok(Err(Status::BadText)),
    }
}

/// The id that a kind, a number and a name are.
pub(crate) fn id_named(
    alloc: Global,
    kind: u32,
    number: u32,
    name: &[u8],
) -> Result<Result<NotificationId, Status>, AllocError>
    ensures { IfOk result (λ found. found ≡ id_named kind number name.now) }
{
    match kind {
        0 => Ok(Ok(NotificationId::CompletionId(number))),
        1 => Ok(Ok(NotificationId::SignalId(number))),
        2 => name_id(alloc, name),
        _ => Ok(Err(Status::BadNumber)),
    }
}
