//! Laws of the lines of frames, as functions that do nothing.
ghost use Rattle.std.specs.Prelude.{◌≡◌, List, ℕ};
ghost use Rattle.frame_lines.specs.FrameLines.{LineShows};
ghost use Rattle.frame_lines.specs.Printed.{rest_text};
ghost use Rattle.frame_runs.specs.ReadBack.{FrameIsReadBack, IsReadBackAs};

use journal_protocol::MessageType;

/// What is printed of a frame is read back as just the frame's bytes, for each type and each body.
pub fn printed_frames_are_read_back(_ty: MessageType, _body: &[u8])
    ensures { FrameIsReadBack (record { ty = _ty; body = _body.now }) }
{}

/// What is printed of the rest of a stream is read back as just that rest.
pub fn printed_rests_are_read_back(_rest: &[u8])
    ensures { IsReadBackAs (rest_text _rest.now) _rest.now }
{}

/// A line shows the bytes of one frame, or of one rest, at most.
pub fn lines_show_one_frame()
    ensures { (line some others : List ℕ) → LineShows line some → LineShows line others
        → some ≡ others }
{}
