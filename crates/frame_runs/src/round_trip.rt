//! A frame that is printed as a line and read back from it.
ghost use Rattle.std.specs.Prelude.{◌≡◌};
ghost use Rattle.journal_protocol.specs.Frames.{frame};
ghost use Rattle.frame_runs.specs.ReadBack.{GivesJust};

use crate::laws::printed_frames_are_read_back;
use bytes::Bytes;
use frame_lines::entry::{frame_of, print_frame};
use journal_protocol::RawMessage;
use lines::line::Line;
use plain::Fault;
use std::alloc::Global;

/// Prints a frame as a line and reads the line. It gives the frame's bytes, or memory ran out.
#[tactic(auto, using(crate::proofs::ReadingBack::read_gives))]
pub fn print_and_read(alloc: Global, raw: &RawMessage) -> Result<Bytes, Fault>
    ensures { GivesJust (frame raw.now.ty raw.now.body) result }
{
    printed_frames_are_read_back(raw.ty, raw.body.as_slice());
    let mut line = Line::new(alloc);
    print_frame(alloc, raw, &mut line)?;
    frame_of(alloc, line.as_str().as_bytes())
}
