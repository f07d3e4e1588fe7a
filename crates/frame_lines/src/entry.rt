//! A frame as a line, and a line as a frame.
ghost use Rattle.std.specs.Prelude.{◌≡◌, ◌++◌, IfErr, IfOk, OnOk};
ghost use Rattle.journal_protocol.specs.Frames.{numbered_frame};
ghost use Rattle.lines.specs.Atoms.{IsAtom};
ghost use Rattle.lines.specs.Readings.{Blames};
ghost use Rattle.frame_lines.specs.Printed.{frame_text, raw_text, rest_text};
ghost use Rattle.frame_lines.specs.FrameLines.{Encodes, IsRaw, LineShows, ShowAsIs, Shows};

use crate::message::{parse_message, print_message};
use crate::type_names::type_named;
use bytes::Bytes;
use journal_protocol::{Encoder, MessageType, RawMessage};
use lines::atoms::{bytes_of, number_of};
use lines::line::Line;
use lines::pieces::words;
use plain::Fault;
use std::alloc::{AllocError, Global};

/// Writes the type's number and the body of a frame.
fn print_raw(raw: &RawMessage, line: &mut Line) -> Result<(), AllocError>
    ensures { OnOk result (line.new ≡ line.old ++ raw_text raw.now) }
{
    line.word("raw ")?;
    line.number(u64::from(raw.ty.number()))?;
    line.word(" ")?;
    line.hex(raw.body.as_slice())
}

/// Writes the message of a frame, or the frame as it is where its body doesn't decode.
pub fn print_frame(alloc: Global, raw: &RawMessage, line: &mut Line) -> Result<(), AllocError>
    ensures { OnOk result (line.new ≡ line.old ++ frame_text raw.now) }
{
    match raw.read(alloc) {
        Ok(message) => print_message(&message, line),
        Err(Fault::Malformed) => print_raw(raw, line),
        Err(Fault::Memory) => Err(AllocError),
    }
}

/// Writes bytes that are no whole frame.
pub fn print_rest(rest: &[u8], line: &mut Line) -> Result<(), AllocError>
    ensures { OnOk result (line.new ≡ line.old ++ rest_text rest.now) }
{
    line.word("rest ")?;
    line.hex(rest)
}

#[tactic(auto, using(crate::proofs::Typing::encodes_blamed))]
fn frame_of_message(alloc: Global, ty: MessageType, words: &[&[u8]]) -> Result<Bytes, Fault>
    ensures value { IfOk result (Encodes ty words.now) }
    ensures none { IfErr result (Blames (Encodes ty words.now)) }
{
    let message = parse_message(alloc, ty, words)?;
    Ok(Encoder::new(alloc).encode(&message)?)
}

/// A frame of any type and any body.
fn raw_frame(alloc: Global, number: u16, body: &Bytes) -> Result<Bytes, AllocError>
    ensures { IfOk result (λ frame. frame ≡ numbered_frame number body.now) }
{
    Encoder::new(alloc).encode_raw(number, body)
}

/// The bytes of an atom, shared.
fn shared(alloc: Global, text: &[u8]) -> Result<Bytes, Fault>
    ensures value { IfOk result (IsAtom text.now) }
    ensures none { IfErr result (Blames (IsAtom text.now)) }
{
    Ok(Bytes::from_vec(bytes_of(alloc, text)?)?)
}

#[tactic(auto, using(crate::proofs::Showing::body_blamed))]
fn frame_of_raw(alloc: Global, number: &[u8], body: &[u8]) -> Result<Bytes, Fault>
    ensures value { IfOk result (IsRaw number.now body.now) }
    ensures none { IfErr result (Blames (IsRaw number.now body.now)) }
{
    let Some(number) = number_of(number) else {
        return Err(Fault::Malformed);
    };
    let Ok(number) = u16::try_from(number) else {
        return Err(Fault::Malformed);
    };
    let body = shared(alloc, body)?;
    Ok(raw_frame(alloc, number, &body)?)
}

/// The bytes that words show as they are: a frame of any type, or a stream's rest.
fn bytes_as_is(alloc: Global, words: &[&[u8]]) -> Result<Bytes, Fault>
    ensures value { IfOk result (ShowAsIs words.now) }
    ensures none { IfErr result (Blames (ShowAsIs words.now)) }
{
    match words {
        [b"raw", number, body] => frame_of_raw(alloc, *number, *body),
        [b"rest", rest] => shared(alloc, *rest),
        _ => Err(Fault::Malformed),
    }
}

/// The bytes that the words of a line show. They are refused only if they show none, or memory ran out.
#[tactic(auto, using(crate::proofs::Unshown::as_is_shows))]
pub fn frame_of_words(alloc: Global, words: &[&[u8]]) -> Result<Bytes, Fault>
    ensures value { IfOk result (Shows words.now) }
    ensures none { IfErr result (Blames (Shows words.now)) }
{
    let [name, fields @ ..] = words else {
        return Err(Fault::Malformed);
    };
    match type_named(*name) {
        Some(ty) => frame_of_message(alloc, ty, fields),
        None => bytes_as_is(alloc, words),
    }
}

/// The bytes that a line shows.
#[tactic(auto, using(crate::proofs::Unshown::line_blamed, crate::proofs::Unshown::unclosed_line_blamed))]
pub fn frame_of(alloc: Global, line: &[u8]) -> Result<Bytes, Fault>
    ensures value { IfOk result (LineShows line.now) }
    ensures none { IfErr result (Blames (LineShows line.now)) }
{
    let words = words(alloc, line)?;
    frame_of_words(alloc, words.as_slice())
}
