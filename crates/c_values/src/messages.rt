//! The message that bytes are.
ghost use Rattle.std.specs.Prelude.{◌≡◌, IfOk};
ghost use Rattle.c_values.specs.Statuses.{IsStatus, status_by};
ghost use Rattle.c_values.specs.Written.{WrittenOrWhy};
ghost use Rattle.c_values.specs.Messages.{message_at, message_row, named_difference, part_behind};

use crate::numbers::{FrameRow, message_numbers, unread_row};
use crate::parts::message_part;
use crate::reading::message_in;
use crate::{Status, Told, tell, written};
use bytes::Bytes;
use journal_entries::entry::frame_in;
use journal_protocol::Message;
use journal_replay::difference;
use std::alloc::{AllocError, Global};

/// The message of the one whole frame that bytes are.
pub fn message_at(alloc: Global, bytes: &[u8]) -> Result<Option<Message>, AllocError>
    ensures { IfOk result (λ message. message ≡ message_at bytes.now) }
{
    let bytes = Bytes::copy_from_slice(alloc, bytes)?;
    match frame_in(alloc, &bytes) {
        Ok(Some(raw)) => message_in(alloc, &raw),
        Ok(None) => Ok(None),
        Err(error) => Err(error),
    }
}

/// The row of a message, if there is one.
pub fn message_row(message: &Option<Message>) -> FrameRow
    ensures { result ≡ message_row message.now }
{
    match message {
        Some(message) => {
            let mut row = message_numbers(message);
            row.ty = u32::from(message.ty().number());
            row
        }
        None => unread_row(Status::NotAFrame),
    }
}

/// Writes the part of a message at this place, or says why there is none.
pub fn write_part(message: &Option<Message>, at: usize, out: &mut [u8]) -> Told
    ensures written { WrittenOrWhy (status_by result.status) (part_behind message.now at) result.len
        out.old out.new }
    ensures known { IsStatus result.status }
{
    match message {
        None => tell(Status::NotAFrame, 0),
        Some(message) => match message_part(message, at) {
            Some(part) => written(part, out),
            None => tell(Status::NoPart, 0),
        },
    }
}

/// Writes the name of the first field in which a call's command isn't as the recorded one, or says why there is none.
fn write_field(
    recorded: &Option<Message>,
    asked: &Option<Message>,
    ignore_payloads: bool,
    out: &mut [u8],
) -> Told
    ensures written { WrittenOrWhy (status_by result.status)
        (named_difference ignore_payloads recorded.now asked.now) result.len out.old out.new }
    ensures known { IsStatus result.status }
{
    match (recorded, asked) {
        (Some(recorded), Some(asked)) => match difference(recorded, asked, ignore_payloads) {
            Some(field) => written(field.name().as_bytes(), out),
            None => tell(Status::NoPart, 0),
        },
        _ => tell(Status::NotAFrame, 0),
    }
}

/// The same of a call's command that is a frame.
pub fn write_difference(
    alloc: Global,
    recorded: &Option<Message>,
    asked: &[u8],
    ignore_payloads: bool,
    out: &mut [u8],
) -> Told
    ensures written { WrittenOrWhy (status_by result.status)
        (named_difference ignore_payloads recorded.now (message_at asked.now)) result.len out.old
        out.new }
    ensures known { IsStatus result.status }
{
    match message_at(alloc, asked) {
        Ok(asked) => write_field(recorded, &asked, ignore_payloads, out),
        Err(_) => tell(Status::NoMemory, 0),
    }
}
