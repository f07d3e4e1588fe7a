//! The calls on frames: what one says, one with a value, the notification of a result, whether a suspension is awake, and in which
//! field two commands differ.
ghost use Rattle.std.specs.Prelude.{Ok};
ghost use Rattle.c_values.specs.Answers.{IsJudged};
ghost use Rattle.c_values.specs.Making.{input_with, value_frame};
ghost use Rattle.c_values.specs.Messages.{RowRead, message_at, named_difference, part_behind};
ghost use Rattle.c_values.specs.Reading.{awake_at, notification_at};
ghost use Rattle.c_values.specs.Statuses.{IsStatus, status_by};
ghost use Rattle.c_values.specs.Written.{WrittenOrWhy};

use c_values::{
    FrameRow, Judged, Status, Told, answer, awake_at, input_with, judge, message_at, message_row,
    notification_at, tell, unjudged, unread_row, value_frame, write_difference, write_part,
    written,
};
use std::alloc::Global;

/// The row of a frame: the type of its message, and its numbers.
#[unsafe(no_mangle)]
pub extern "C" fn proved_frame_read(alloc: Global, frame: &[u8]) -> FrameRow
    ensures { RowRead frame.now result }
{
    match message_at(alloc, frame) {
        Ok(message) => message_row(&message),
        Err(_) => unread_row(Status::NoMemory),
    }
}

/// Writes the part of a frame's message at this place to the front of `out`, if there is room for it, and says how long it is.
#[unsafe(no_mangle)]
pub extern "C" fn proved_frame_part(alloc: Global, frame: &[u8], at: usize, out: &mut [u8]) -> Told
    ensures written { WrittenOrWhy (status_by result.status) (part_behind (message_at frame.now) at)
        result.len out.old out.new }
    ensures known { IsStatus result.status }
{
    match message_at(alloc, frame) {
        Ok(message) => write_part(&message, at, out),
        Err(_) => tell(Status::NoMemory, 0),
    }
}

/// Writes a frame that has a value as its result to the front of `out`, if there is room for it, and says how long it is.
#[unsafe(no_mangle)]
pub extern "C" fn proved_value_frame(alloc: Global, value: &[u8], out: &mut [u8]) -> Told
    ensures written { WrittenOrWhy (status_by result.status) (Ok (value_frame value.now)) result.len
        out.old out.new }
    ensures known { IsStatus result.status }
{
    match value_frame(alloc, value) {
        Ok(frame) => written(frame.as_slice(), out),
        Err(_) => tell(Status::NoMemory, 0),
    }
}

/// Writes the frame of an input, with this value instead of its own, to the front of `out`, if there is room for it, and says how
/// long it is.
#[unsafe(no_mangle)]
pub extern "C" fn proved_input_frame(
    alloc: Global,
    frame: &[u8],
    value: &[u8],
    out: &mut [u8],
) -> Told
    ensures written { WrittenOrWhy (status_by result.status) (input_with frame.now value.now)
        result.len out.old out.new }
    ensures known { IsStatus result.status }
{
    match input_with(alloc, frame, value) {
        Ok(found) => answer(found, out),
        Err(_) => tell(Status::NoMemory, 0),
    }
}

/// Writes the notification of an id, with the result that a frame has, to the front of `out`, if there is room for it, and says how long
/// it is.
#[unsafe(no_mangle)]
pub extern "C" fn proved_notification(
    alloc: Global,
    kind: u32,
    id: u32,
    name: &[u8],
    frame: &[u8],
    out: &mut [u8],
) -> Told
    ensures written { WrittenOrWhy (status_by result.status)
        (notification_at kind id name.now frame.now) result.len out.old out.new }
    ensures known { IsStatus result.status }
{
    match notification_at(alloc, kind, id, name, frame) {
        Ok(found) => answer(found, out),
        Err(_) => tell(Status::NoMemory, 0),
    }
}

/// Whether the future of a suspension is awake by the notifications of a stream.
#[unsafe(no_mangle)]
pub extern "C" fn proved_is_awake(alloc: Global, suspension: &[u8], notifications: &[u8]) -> Judged
    ensures answered { IsJudged (status_by result.status)
        (awake_at suspension.now notifications.now) result.is_awake }
    ensures known { IsStatus result.status }
{
    match awake_at(alloc, suspension, notifications) {
        Ok(found) => judge(found),
        Err(_) => unjudged(Status::NoMemory),
    }
}

/// Writes the name of the first field in which the command of a call isn't as the recorded one to the front of `out`, if there is room for
/// it, and says how long it is.
#[unsafe(no_mangle)]
pub extern "C" fn proved_difference(
    alloc: Global,
    recorded: &[u8],
    asked: &[u8],
    ignore_payloads: bool,
    out: &mut [u8],
) -> Told
    ensures written { WrittenOrWhy (status_by result.status)
        (named_difference ignore_payloads (message_at recorded.now) (message_at asked.now))
        result.len out.old out.new }
    ensures known { IsStatus result.status }
{
    match message_at(alloc, recorded) {
        Ok(recorded) => write_difference(alloc, &recorded, asked, ignore_payloads, out),
        Err(_) => tell(Status::NoMemory, 0),
    }
}
