//! The two runs of the program: a stream of frames to lines, and lines to a stream of frames.
ghost use Rattle.std.specs.Prelude.{◌≡◌, ◌++◌, IfErr, IfOk, IfSome, IfNone, IsTrue, ◌↔◌, OnErr, OnOk};
ghost use Rattle.std.specs.Io.KnownBytes.{IsAtEnd};
ghost use Rattle.journal_protocol.specs.Frames.{Whole, next_of, frame};
ghost use Rattle.plain.specs.declared.fault.Fault.TheVariants.{Malformed};
ghost use Rattle.frame_lines.specs.Printed.{frame_text, HasNoFrame};
ghost use Rattle.frame_runs.specs.Runs.{AddsToOutput, AreShown, ArePrinted, IsBadFor, IsBadLine, IsComment, IsShownBy, IsShownInside, IsUnshown, IsUnshownInside, NoneIsBad, Tells, line_text, rest_lines};

use crate::refusal::{Refusal, RunEnd};
use bytes::Bytes;
use frame_lines::entry::{frame_of, print_frame, print_rest};
use journal_protocol::{Decoder, RawMessage};
use lines::line::Line;
use lines::place::copy_of_line;
use lines::text::first_line;
use plain::Fault;
use program_runs::streams::{Sink, Source};
use std::alloc::{AllocError, Global};

/// Adds the line of a frame.
fn add_frame_line(alloc: Global, raw: &RawMessage, text: &mut Line) -> Result<(), AllocError>
    ensures { OnOk result (text.new ≡ text.old ++ line_text (frame_text raw.now)) }
{
    print_frame(alloc, raw, text)?;
    text.word("\n")
}

/// Adds the line of bytes that are no whole frame, if there are any.
fn add_rest_line(rest: &[u8], text: &mut Line) -> Result<(), AllocError>
    ensures { OnOk result (text.new ≡ text.old ++ rest_lines rest.now) }
{
    if rest.is_empty() {
        return Ok(());
    }
    print_rest(rest, text)?;
    text.word("\n")
}

/// The next frame, if a whole one of a known type waits. An `Err` changes nothing.
fn next_whole(decoder: &mut Decoder) -> Result<Option<RawMessage>, AllocError>
    ensures none { IfOk result
        (λ next. IfNone next ((decoder.new ≡ decoder.old) × HasNoFrame decoder.old)) }
    ensures some { IfOk result
        (λ next. IfSome next (λ raw. next_of decoder.old ≡ Whole raw decoder.new)) }
    ensures spelled { IfOk result
        (λ next. IfSome next (λ raw. decoder.old ≡ frame raw.ty raw.body ++ decoder.new)) }
    ensures err { OnErr result (decoder.new ≡ decoder.old) }
{
    match decoder.next_frame() {
        Ok(frame) => Ok(frame),
        Err(Fault::Malformed) => Ok(None),
        Err(Fault::Memory) => Err(AllocError),
    }
}

/// A line for each whole frame that waits in the decoder, and one for the bytes after them, if there are any.
#[tactic(auto, using(crate::proofs::Streaming::none_printed, crate::proofs::Streaming::frame_printed, crate::proofs::Streaming::all_printed))]
fn lines_of(alloc: Global, mut decoder: Decoder) -> Result<Line, AllocError>
    ensures { IfOk result (λ text. ArePrinted decoder text) }
{
    let mut text = Line::new(alloc);
    while let Some(raw) = next_whole(&mut decoder)? {
        add_frame_line(alloc, &raw, &mut text)?;
    }
    add_rest_line(decoder.waiting(), &mut text)?;
    Ok(text)
}

/// The lines of a stream of frames.
fn lines_of_stream(alloc: Global, stream: Vec<u8>) -> Result<Line, AllocError>
    ensures { IfOk result (λ text. ArePrinted stream.items text) }
{
    let stream = Bytes::from_vec(stream)?;
    let mut decoder = Decoder::new(alloc);
    decoder.push(stream)?;
    lines_of(alloc, decoder)
}

/// Reads a stream of frames to its end, and writes a line a frame. Bytes that are no whole frame are the last line.
pub fn decode<R: Source, W: Sink>(alloc: Global, reader: &mut R, writer: &mut W) -> RunEnd
    // If reading has failed or the run is out of memory, nothing is written. Each other run has read the whole input. It has written a
    // line for each whole frame, in order, and one for the rest, if there is one; or only a beginning of them, if writing has failed.
    ensures { Tells ArePrinted NoneIsBad (R.remaining reader.old) (W.contents writer.old)
        (W.contents writer.new) (R.fails reader.old) (W.fails writer.old)
        (IsAtEnd (R.remaining reader.new)) (writer.new ≡ writer.old) result }
{
    let mut stream = Vec::new(alloc);
    if let Err(error) = reader.read_whole(&mut stream) {
        return RunEnd::ReadFailed(error);
    }
    let Ok(text) = lines_of_stream(alloc, stream) else {
        return RunEnd::NoMemory;
    };
    match writer.write_whole(text.as_str().as_bytes()) {
        Ok(()) => RunEnd::Written(()),
        Err(error) => RunEnd::WriteFailed((), error),
    }
}

/// Why lines aren't frames.
#[derive(Clone, Copy)]
pub enum Unread {
    Memory,
    /// The line of this number, counted from 1, has no meaning.
    Line(u64),
}

/// Whether a line is empty, or begins with `#`.
fn is_comment(line: &[u8]) -> bool
    ensures { IsTrue result ↔ IsComment line.now }
{
    match line {
        [] => true,
        [first, ..] => *first == b'#',
    }
}

/// Adds what a line shows that has no blanks around it.
fn add_shown(alloc: Global, line: &[u8], frames: &mut Vec<u8>) -> Result<(), Fault>
    ensures value { OnOk result
        (AddsToOutput (IsShownInside line.now) frames.old.items frames.new.items) }
    ensures none { IfErr result (λ fault. fault ≡ Malformed → IsUnshownInside line.now) }
{
    if is_comment(line) {
        return Ok(());
    }
    if std::str::from_utf8(line).is_err() {
        return Err(Fault::Malformed);
    }
    let frame = match frame_of(alloc, line) {
        Ok(frame) => frame,
        Err(fault) => return Err(fault),
    };
    frames.extend_from_slice(frame.as_slice())?;
    Ok(())
}

/// Adds what a line shows.
fn add_line(alloc: Global, line: &[u8], frames: &mut Vec<u8>) -> Result<(), Fault>
    ensures value { OnOk result
        (AddsToOutput (IsShownBy line.now) frames.old.items frames.new.items) }
    ensures none { IfErr result (λ fault. fault ≡ Malformed → IsUnshown line.now) }
{
    add_shown(alloc, line.trim_ascii(), frames)
}

/// What lines show, one after another.
#[tactic(auto, using(crate::proofs::Streaming::none_read, crate::proofs::Streaming::line_read, crate::proofs::Streaming::all_read, crate::proofs::Streaming::stops))]
pub fn frames_of(alloc: Global, text: &[u8]) -> Result<Vec<u8>, Unread>
    ensures value { IfOk result (λ frames. AreShown text.now frames.items) }
    ensures none { IfErr result (IsBadFor text.now) }
{
    let mut frames = Vec::new(alloc);
    let mut number = 0u64;
    let mut rest = text;
    while !rest.is_empty() {
        let (line, behind) = first_line(rest);
        number += 1;
        match add_line(alloc, line, &mut frames) {
            Ok(()) => {}
            Err(Fault::Memory) => return Err(Unread::Memory),
            Err(Fault::Malformed) => return Err(Unread::Line(number)),
        }
        rest = behind;
    }
    Ok(frames)
}

/// Reads lines to their end, and writes the frames that they show. If a line has no meaning, nothing is written.
pub fn encode<R: Source, W: Sink>(alloc: Global, reader: &mut R, writer: &mut W) -> RunEnd
    // As for `decode`, but what is written are the bytes that the lines show, one line after another. If a line has no meaning, nothing
    // is written, and the result has the number of the first such line.
    ensures { Tells AreShown IsBadLine (R.remaining reader.old) (W.contents writer.old)
        (W.contents writer.new) (R.fails reader.old) (W.fails writer.old)
        (IsAtEnd (R.remaining reader.new)) (writer.new ≡ writer.old) result }
{
    let mut text = Vec::new(alloc);
    if let Err(error) = reader.read_whole(&mut text) {
        return RunEnd::ReadFailed(error);
    }
    match frames_of(alloc, text.as_slice()) {
        Ok(frames) => match writer.write_whole(frames.as_slice()) {
            Ok(()) => RunEnd::Written(()),
            Err(error) => RunEnd::WriteFailed((), error),
        },
        Err(Unread::Memory) => RunEnd::NoMemory,
        Err(Unread::Line(number)) => {
            let line = copy_of_line(alloc, text.as_slice(), number);
            RunEnd::Refused(Refusal::BadLine(number, line))
        }
    }
}
