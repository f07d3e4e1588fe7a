//! The entries of a journal, which are stored as frames.
ghost use Rattle.std.specs.Prelude.{◌≡◌, IfOk, is_some};
ghost use Rattle.journal_entries.specs.Journal.{input_read_from};
ghost use Rattle.journal_entries.specs.JournalFrames.{is_command_frame, is_notification};
ghost use Rattle.journal_entries.specs.Entries.{frame_in, frame_of, note_in, note_of, said_at, said_by};

use bytes::Bytes;
use journal_protocol::{Decoder, Message, MessageType, Notification, RawMessage};
use plain::Fault;
use std::alloc::{AllocError, Global};

/// Whether the frame is one of a command.
pub fn is_command_frame(raw: &RawMessage) -> bool
    ensures { result ≡ is_command_frame raw.now }
{
    let number = raw.ty.number();
    10 <= number && number < 30
}

/// Whether the frame is one of a notification.
pub fn is_notification(raw: &RawMessage) -> bool
    ensures { result ≡ is_notification raw.now }
{
    raw.ty.number() == 30
}

/// The frame's bytes.
pub fn frame_bytes(alloc: Global, raw: &RawMessage) -> Result<Bytes, AllocError>
    ensures { IfOk result (λ b. b ≡ frame_of raw.now) }
{
    raw.encode(alloc)
}

/// The frame that some bytes are, if they are one whole frame and nothing more.
pub fn frame_in(alloc: Global, bytes: &Bytes) -> Result<Option<RawMessage>, AllocError>
    ensures { IfOk result (λ raw. raw ≡ frame_in bytes.now) }
{
    let mut decoder = Decoder::new(alloc);
    decoder.push(bytes.clone()?)?;
    match decoder.next_frame() {
        Err(Fault::Memory) => Err(AllocError),
        Err(Fault::Malformed) => Ok(None),
        Ok(None) => Ok(None),
        Ok(Some(raw)) => {
            if decoder.waiting().is_empty() {
                Ok(Some(raw))
            } else {
                Ok(None)
            }
        }
    }
}

/// The notification that a frame is, if it is one and can be read.
pub fn note_of(alloc: Global, raw: &RawMessage) -> Result<Option<Notification>, AllocError>
    ensures { IfOk result (λ note. note ≡ note_of raw.now) }
{
    if !is_notification(raw) {
        return Ok(None);
    }
    match raw.read_notification(alloc) {
        Ok(note) => Ok(Some(note)),
        Err(Fault::Memory) => Err(AllocError),
        Err(Fault::Malformed) => Ok(None),
    }
}

/// What a frame says, if it is one of a command and can be read.
pub fn said_by(alloc: Global, raw: &RawMessage) -> Result<Option<Message>, AllocError>
    ensures { IfOk result (λ message. message ≡ said_by raw.now) }
{
    if !is_command_frame(raw) {
        return Ok(None);
    }
    match raw.read(alloc) {
        Ok(message) => Ok(Some(message)),
        Err(Fault::Memory) => Err(AllocError),
        Err(Fault::Malformed) => Ok(None),
    }
}

/// Whether a frame is an input that can be read.
pub fn is_input(alloc: Global, raw: &RawMessage) -> Result<bool, AllocError>
    ensures { IfOk result (λ is. is ≡ is_some (input_read_from raw.now)) }
{
    if !raw.has_type(MessageType::InputCommand) {
        return Ok(false);
    }
    match raw.read_input(alloc) {
        Ok(_) => Ok(true),
        Err(Fault::Memory) => Err(AllocError),
        Err(Fault::Malformed) => Ok(false),
    }
}

/// The notification that an entry is, if it is one.
pub fn note_in(alloc: Global, entry: &Bytes) -> Result<Option<Notification>, AllocError>
    ensures { IfOk result (λ note. note ≡ note_in entry.now) }
{
    match frame_in(alloc, entry) {
        Err(error) => Err(error),
        Ok(None) => Ok(None),
        Ok(Some(raw)) => note_of(alloc, &raw),
    }
}

/// What an entry says, if it is a command.
pub fn said_at(alloc: Global, entry: &Bytes) -> Result<Option<Message>, AllocError>
    ensures { IfOk result (λ message. message ≡ said_at entry.now) }
{
    match frame_in(alloc, entry) {
        Err(error) => Err(error),
        Ok(None) => Ok(None),
        Ok(Some(raw)) => said_by(alloc, &raw),
    }
}
