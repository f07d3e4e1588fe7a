// Every cut, and every change of one byte, of each frame of the table: what is no frame is refused or waited for, and
// what is read is written as the same bytes again.
ghost use Rattle.std.specs.Prelude.{◌<◌, length};

use crate::frame_rows::{control_rows, expect, frame_rows, other_rows, parts_of, state_rows};
use crate::reading::{encoded, frame_in, whole_in};
use bytes::Bytes;
use journal_protocol::{Message, RawMessage};
use plain::Fault;
use std::alloc::Global;
use std::test::Fail;

/// What the front of a stream is read as.
#[derive(Clone, Copy, PartialEq)]
enum Seen {
    /// No whole frame yet.
    Waits,
    /// A number that is no type's, or a body that is no message's.
    Refused,
    /// A frame, whose message is written as these bytes again.
    Again,
    /// A frame, whose message is written in another way; or there was no memory.
    Wrong,
}

/// A frame's message, as the only one.
fn message_in(alloc: Global, raw: &RawMessage) -> Result<Vec<Message>, Fault> {
    let mut messages = Vec::new(alloc);
    messages.push(raw.read(alloc)?)?;
    Ok(messages)
}

/// A frame's message, as a frame again.
fn written(alloc: Global, raw: &RawMessage) -> Result<Bytes, Fault> {
    let messages = message_in(alloc, raw)?;
    let frame = encoded(alloc, messages.as_slice());
    drop(messages);
    frame
}

/// Whether a frame's message is written as the front of the stream again.
fn seen_again(alloc: Global, raw: &RawMessage, stream: &[u8]) -> Seen {
    match written(alloc, raw) {
        Ok(frame) if stream.starts_with(frame.as_slice()) => Seen::Again,
        Err(Fault::Malformed) => Seen::Refused,
        _ => Seen::Wrong,
    }
}

/// What the front of this stream is read as.
fn seen_in(alloc: Global, stream: &[u8]) -> Result<Seen, Fail> {
    let stream_again = Bytes::copy_from_slice(alloc, stream)?;
    Ok(match frame_in(alloc, stream_again) {
        Ok(None) => Seen::Waits,
        Ok(Some(raw)) => seen_again(alloc, &raw, stream),
        Err(Fault::Malformed) => Seen::Refused,
        Err(Fault::Memory) => Seen::Wrong,
    })
}

/// Whether all is well with each change of the byte at this place. A changed number or body is refused, or another
/// message; a greater length waits; a smaller one leaves a body that is no message's.
fn changes_at(alloc: Global, frame: &[u8], at: usize) -> Result<bool, Fail>
    requires { at < length frame.now }
{
    let mut changed = Vec::from_slice(alloc, frame)?;
    for change in 1..=u8::MAX {
        changed[at] = frame[at] ^ change;
        let is_well = match seen_in(alloc, changed.as_slice())? {
            Seen::Waits => 2 <= at && at < 10 && frame[at] < changed[at],
            Seen::Refused => at < 10 || 10 < frame.len(),
            Seen::Again => at < 2 || 10 <= at,
            Seen::Wrong => false,
        };
        if !is_well {
            return Ok(false);
        }
    }
    Ok(true)
}

/// Each change of one byte of a frame.
fn are_changes_seen(alloc: Global, frame: &[u8]) -> Result<bool, Fail> {
    for at in 0..frame.len() {
        if !changes_at(alloc, frame, at)? {
            return Ok(false);
        }
    }
    Ok(true)
}

fn is_row_changed(alloc: Global, row: &str) -> Result<bool, Fail> {
    let (_, frame) = parts_of(alloc, row)?;
    are_changes_seen(alloc, frame.as_slice())
}

/// Each change of one byte of each of these frames.
fn expect_changes(alloc: Global, rows: &str) -> Result<(), Fail> {
    for row in rows.lines() {
        expect(row, is_row_changed(alloc, row)?)?;
    }
    Ok(())
}

#[test]
fn each_change_of_control_frames(rt: HostRuntime) -> Result<(), Fail> {
    expect_changes(rt.alloc(), control_rows())
}

#[test]
fn each_change_of_state_frames(rt: HostRuntime) -> Result<(), Fail> {
    expect_changes(rt.alloc(), state_rows())
}

#[test]
fn each_change_of_other_frames(rt: HostRuntime) -> Result<(), Fail> {
    expect_changes(rt.alloc(), other_rows())
}

/// The front of a frame waits for the rest.
fn is_front_waiting(alloc: Global, frame: &[u8], at: usize) -> Result<bool, Fail>
    requires { at < length frame.now }
{
    Ok(seen_in(alloc, &frame[..at])? == Seen::Waits)
}

/// Each part of a frame waits for the rest.
fn do_cuts_wait(alloc: Global, frame: &[u8]) -> Result<bool, Fail> {
    for at in 0..frame.len() {
        if !is_front_waiting(alloc, frame, at)? {
            return Ok(false);
        }
    }
    Ok(true)
}

/// The part of a body, with the length that it has, is no message's.
fn is_part_refused(alloc: Global, whole: &RawMessage, at: usize) -> Result<bool, Fail>
    requires { at < length whole.now.body }
{
    let part = RawMessage {
        ty: whole.ty,
        body: Bytes::copy_from_slice(alloc, &whole.body.as_slice()[..at])?,
    };
    Ok(seen_again(alloc, &part, b"") == Seen::Refused)
}

/// Each part of the body is no message's.
fn are_parts_refused(alloc: Global, whole: &RawMessage) -> Result<bool, Fail> {
    for at in 0..whole.body.len() {
        if !is_part_refused(alloc, whole, at)? {
            return Ok(false);
        }
    }
    Ok(true)
}

fn is_body_cut(alloc: Global, frame: &[u8]) -> Result<bool, Fail> {
    let whole = whole_in(alloc, Bytes::copy_from_slice(alloc, frame)?)?;
    are_parts_refused(alloc, &whole)
}

fn are_cuts_seen(alloc: Global, frame: &[u8]) -> Result<bool, Fail> {
    Ok(do_cuts_wait(alloc, frame)? && is_body_cut(alloc, frame)?)
}

fn is_row_cut(alloc: Global, row: &str) -> Result<bool, Fail> {
    let (_, frame) = parts_of(alloc, row)?;
    are_cuts_seen(alloc, frame.as_slice())
}

fn expect_cuts(alloc: Global, rows: &str) -> Result<(), Fail> {
    for row in rows.lines() {
        expect(row, is_row_cut(alloc, row)?)?;
    }
    Ok(())
}

/// A part of a frame waits for the rest; a part of its body, with the length that it has, is no message's.
#[test]
fn each_cut_of_each_frame(rt: HostRuntime) -> Result<(), Fail> {
    for rows in &frame_rows() {
        expect_cuts(rt.alloc(), rows)?;
    }
    Ok(())
}
