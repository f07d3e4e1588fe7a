//! One run of the program: a script is read, its events happen, and their report goes to a writer.
ghost use Rattle.std.specs.Prelude.{◌≡◌, IfSome, None};
ghost use Rattle.std.specs.Io.KnownBytes.{IsAtEnd};
ghost use Rattle.journal_protocol.specs.Versions.{version_of};
ghost use Rattle.engine_scripts.specs.Runs.{IsLineRefused, PlaysWholeScript, EngineReportEnds, RunSays};
ghost use Rattle.engine_lines.specs.declared.run_end.Refusal.TheVariants as refusal;
ghost use Rattle.program_runs.specs.declared.run_end.RunEnd.TheVariants.{Refused};

use crate::play::{Played, play_text};
use engine_lines::run_end::{Ending, Refusal, RunEnd};
use engine_lines::script::Unread;
use journal_protocol::Version;
use lines::place::copy_of_line;
use program_runs::streams::{Sink, Source};
use std::alloc::Global;

/// Writes the report.
fn write_report<W: Sink>(played: Played, writer: &mut W) -> RunEnd
    ensures { EngineReportEnds (W.fails writer.old) (W.contents writer.old) (W.contents writer.new)
        played.stop played.report result }
{
    let Played { report, stop } = played;
    let ending = Ending { stopped_by: stop };
    match writer.write_whole(report.as_str().as_bytes()) {
        Ok(()) => RunEnd::Written(ending),
        Err(error) => RunEnd::WriteFailed(ending, error),
    }
}

/// Plays a script. What is read is a script, wholly before anything happens; what is written is its report.
pub fn run<R: Source, W: Sink>(
    alloc: Global,
    content_type: &str,
    reader: &mut R,
    writer: &mut W,
) -> RunEnd
    // A text that is no content type is found before anything is read.
    ensures refused { version_of content_type.now ≡ None
        → (result ≡ Refused refusal.UnknownContentType)
        × (reader.new ≡ reader.old) × (writer.new ≡ writer.old) }
    // Each other run ends in one of two ways. It has read the whole input as a script and its events have happened; then all of the report
    // is written, or only a beginning, if writing has failed. Or nothing is written: reading has failed, the run is out of memory, or a line
    // has no meaning.
    ensures runs { IfSome (version_of content_type.now)
        (λ version. RunSays (PlaysWholeScript version (R.remaining reader.old))
        (IsLineRefused (R.remaining reader.old)) (W.contents writer.old) (W.contents writer.new)
        (R.fails reader.old) (W.fails writer.old) (IsAtEnd (R.remaining reader.new)) (writer.new
        ≡ writer.old) result) }
{
    let Some(version) = Version::of_content_type(content_type) else {
        return RunEnd::Refused(Refusal::UnknownContentType);
    };
    let mut text = Vec::new(alloc);
    if let Err(error) = reader.read_whole(&mut text) {
        return RunEnd::ReadFailed(error);
    }
    match play_text(alloc, version, text.as_slice()) {
        Ok(played) => write_report(played, writer),
        Err(Unread::Line(number)) => {
            let line = copy_of_line(alloc, text.as_slice(), number);
            RunEnd::Refused(Refusal::NoMeaning(number, line))
        }
        Err(Unread::Memory) => RunEnd::NoMemory,
    }
}
