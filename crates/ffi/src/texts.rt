//! Frames as lines, and lines as frames.
ghost use Rattle.std.specs.Prelude.{◌≡◌, IfErr, IfOk};
ghost use Rattle.c_values.specs.Statuses.{IsStatus, status_by};
ghost use Rattle.c_values.specs.Written.{WrittenOrWhy};
ghost use Rattle.frame_lines.specs.FrameLines.{LineShows};
ghost use Rattle.frame_lines.specs.Printed.{frame_text};
ghost use Rattle.ffi.specs.Texts.{IsRefusedLine, LineRead, line_at};

use bytes::Bytes;
use c_values::{Status, Told, answer, frame_at, tell, written};
use frame_lines::entry::{frame_of, print_frame};
use journal_protocol::RawMessage;
use lines::line::Line;
use plain::Fault;
use std::alloc::{AllocError, Global};

/// The line of a frame.
fn line_of(alloc: Global, raw: &RawMessage) -> Result<Bytes, AllocError>
    ensures { IfOk result (λ line. line ≡ frame_text raw.now) }
{
    let mut line = Line::new(alloc);
    print_frame(alloc, raw, &mut line)?;
    Bytes::copy_from_slice(alloc, line.as_str().as_bytes())
}

/// The line of the frame that bytes are.
fn line_at(alloc: Global, bytes: &[u8]) -> Result<Result<Bytes, Status>, AllocError>
    ensures { IfOk result (λ found. found ≡ line_at bytes.now) }
{
    match frame_at(alloc, bytes) {
        Ok(Ok(raw)) => match line_of(alloc, &raw) {
            Ok(line) => Ok(Ok(line)),
            Err(error) => Err(error),
        },
        Ok(Err(why)) => Ok(Err(why)),
        Err(error) => Err(error),
    }
}

/// The bytes that a line shows.
#[tactic(auto, using(crate::proofs::LineReadings::no_text, crate::proofs::LineReadings::no_meaning, crate::proofs::LineReadings::no_memory))]
fn shown_at(alloc: Global, line: &[u8]) -> Result<Bytes, Status>
    ensures shown { IfOk result (LineShows line.now) }
    ensures refused { IfErr result (IsRefusedLine line.now) }
{
    let Ok(_text) = std::str::from_utf8(line) else {
        return Err(Status::BadText);
    };
    match frame_of(alloc, line) {
        Ok(frame) => Ok(frame),
        Err(Fault::Malformed) => Err(Status::BadLine),
        Err(Fault::Memory) => Err(Status::NoMemory),
    }
}

/// Writes the line of a frame to the front of `out`, if there is room for it, and says how long it is.
#[unsafe(no_mangle)]
pub extern "C" fn proved_frame_line(alloc: Global, frame: &[u8], out: &mut [u8]) -> Told
    ensures written { WrittenOrWhy (status_by result.status) (line_at frame.now) result.len
        out.old out.new }
    ensures known { IsStatus result.status }
{
    match line_at(alloc, frame) {
        Ok(found) => answer(found, out),
        Err(_) => tell(Status::NoMemory, 0),
    }
}

/// Writes the frame that a line shows to the front of `out`, if there is room for it, and says how long it is.
#[tactic(auto, using(crate::proofs::LineReadings::line_read, crate::proofs::LineReadings::line_refused))]
#[unsafe(no_mangle)]
pub extern "C" fn proved_line_frame(alloc: Global, line: &[u8], out: &mut [u8]) -> Told
    ensures read { LineRead (status_by result.status) line.now result.len out.old out.new }
    ensures known { IsStatus result.status }
{
    match shown_at(alloc, line) {
        Ok(frame) => written(frame.as_slice(), out),
        Err(why) => tell(why, 0),
    }
}
