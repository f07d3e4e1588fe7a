//! The line of an entry of a journal in a report.
ghost use Rattle.std.specs.Prelude.{OnOk};
ghost use Rattle.engine_lines.specs.Printed.{AddsText};

use bytes::Bytes;
use frame_lines::entry::{print_frame, print_rest};
use journal_protocol::{Decoder, RawMessage};
use lines::line::Line;
use plain::Fault;
use std::alloc::{AllocError, Global};

/// The frame that an entry is, if it is one.
fn frame_in(alloc: Global, entry: &Bytes) -> Result<Option<RawMessage>, AllocError> {
    let mut decoder = Decoder::new(alloc);
    decoder.push(entry.clone()?)?;
    match decoder.next_frame() {
        Ok(frame) => Ok(frame),
        Err(Fault::Malformed) => Ok(None),
        Err(Fault::Memory) => Err(AllocError),
    }
}

/// A word, and the entry: its frame, or its bytes if it is none.
pub fn print_entry(
    alloc: Global,
    word: &str,
    entry: &Bytes,
    report: &mut Line,
) -> Result<(), AllocError>
    ensures { OnOk result (AddsText report.old report.new) }
{
    let mut line = Line::new(alloc);
    match frame_in(alloc, entry)? {
        Some(raw) => print_frame(alloc, &raw, &mut line)?,
        None => print_rest(entry.as_slice(), &mut line)?,
    }
    report.word(word)?;
    report.word(line.as_str())?;
    report.word("\n")?;
    Ok(())
}
