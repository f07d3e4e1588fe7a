//! Frames with a value as it is given.
ghost use Rattle.std.specs.Prelude.{◌≡◌, IfOk};
ghost use Rattle.journal_entries.specs.Journal.{input_read_from};
ghost use Rattle.c_values.specs.Making.{input_with, value_frame, with_value};

use crate::Status;
use bytes::Bytes;
use journal_entries::entry::frame_in;
use journal_protocol::{
    Encoder, InputCommand, Message, MessageType, Notification, NotificationId, NotificationResult,
    RawMessage,
};
use plain::Fault;
use std::alloc::{AllocError, Global};

/// A frame that has a value as its result.
pub fn value_frame(alloc: Global, value: &[u8]) -> Result<Bytes, AllocError>
    ensures { IfOk result (λ frame. frame ≡ value_frame value.now) }
{
    let value = Bytes::copy_from_slice(alloc, value)?;
    let message = Message::Notification(Notification {
        id: NotificationId::CompletionId(0),
        result: NotificationResult::Value(value),
    });
    Encoder::new(alloc).encode(&message)
}

/// The input that a frame is, if it is one.
fn input_of(alloc: Global, raw: &RawMessage) -> Result<Option<InputCommand>, AllocError>
    ensures { IfOk result (λ input. input ≡ input_read_from raw.now) }
{
    if !raw.has_type(MessageType::InputCommand) {
        return Ok(None);
    }
    match raw.read_input(alloc) {
        Ok(input) => Ok(Some(input)),
        Err(Fault::Memory) => Err(AllocError),
        Err(Fault::Malformed) => Ok(None),
    }
}

/// The frame of an input with this value.
fn with_value(alloc: Global, input: InputCommand, value: &[u8]) -> Result<Bytes, AllocError>
    ensures { IfOk result (λ frame. frame ≡ with_value input value.now) }
{
    let mut input = input;
    input.value = Bytes::copy_from_slice(alloc, value)?;
    let message = Message::Input(input);
    Encoder::new(alloc).encode(&message)
}

/// The frame of an input, with this value instead of its own.
pub fn input_with(
    alloc: Global,
    frame: &[u8],
    value: &[u8],
) -> Result<Result<Bytes, Status>, AllocError>
    ensures { IfOk result (λ found. found ≡ input_with frame.now value.now) }
{
    let bytes = Bytes::copy_from_slice(alloc, frame)?;
    let Some(raw) = frame_in(alloc, &bytes)? else {
        return Ok(Err(Status::NotAFrame));
    };
    let Some(input) = input_of(alloc, &raw)? else {
        return Ok(Err(Status::NotAFrame));
    };
    let made = with_value(alloc, input, value)?;
    Ok(Ok(made))
}
