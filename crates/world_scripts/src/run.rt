//! One run of the program: what a reader gives is a script, and its report goes to a writer.
ghost use Rattle.std.specs.Prelude.{◌≡◌, ◌≢◌, ◌↔◌, IfSome, None, Some};
ghost use Rattle.std.specs.Io.KnownBytes.{IsAtEnd};
ghost use Rattle.handlers.specs.Named.{step_in_rounds};
ghost use Rattle.journal_protocol.specs.Versions.{version_of};
ghost use Rattle.world_scripts.specs.Runs.{ReportEnds, PlaysAll, StopsThere, RoundsSay};
ghost use Rattle.world_scripts.specs.declared.run_end.Refusal.TheVariants as refusal;
ghost use Rattle.program_runs.specs.declared.run_end.RunEnd.TheVariants.{Refused};

use crate::play::{Played, play_text};
use crate::run_end::{Ending, Refusal, RunEnd};
use crate::script::Unread;
use handlers::named::Named;
use journal_protocol::Version;
use lines::place::copy_of_line;
use program_runs::streams::{Sink, Source};
use std::alloc::Global;
use vm_types::Handler;

/// Writes the report.
fn write_report<W: Sink>(played: Played, writer: &mut W) -> RunEnd
    ensures { ReportEnds (W.fails writer.old) (W.contents writer.old) (W.contents writer.new)
        played.stop played.report result }
{
    let Played { report, stop } = played;
    let ending = Ending { stopped_by: stop };
    match writer.write_whole(report.as_str().as_bytes()) {
        Ok(()) => RunEnd::Written(ending),
        Err(error) => RunEnd::WriteFailed(ending, error),
    }
}

/// Plays rounds of a handler, as `run` does of a named one.
pub fn run_handler<H: Handler, R: Source, W: Sink>(
    alloc: Global,
    content_type: &str,
    handler: &H,
    reader: &mut R,
    writer: &mut W,
) -> RunEnd
    ensures known { result ≢ Refused refusal.UnknownHandler }
    // A text that is no content type is found before anything is read.
    ensures refused { version_of content_type.now ≡ None
        → (result ≡ Refused refusal.UnknownContentType)
        × (reader.new ≡ reader.old) × (writer.new ≡ writer.old) }
    ensures runs { IfSome (version_of content_type.now)
        (λ version. RoundsSay (PlaysAll (H.meaning handler.now) version (R.remaining reader.old))
        (StopsThere (R.remaining reader.old)) (W.contents writer.old) (W.contents writer.new)
        (R.fails reader.old) (W.fails writer.old) (IsAtEnd (R.remaining reader.new)) (writer.new
        ≡ writer.old) result) }
{
    let Some(version) = Version::of_content_type(content_type) else {
        return RunEnd::Refused(Refusal::UnknownContentType);
    };
    let mut text = Vec::new(alloc);
    if let Err(error) = reader.read_whole(&mut text) {
        return RunEnd::ReadFailed(error);
    }
    match play_text(alloc, version, handler, text.as_slice()) {
        Ok(played) => write_report(played, writer),
        Err(Unread::Line(number)) => {
            let line = copy_of_line(alloc, text.as_slice(), number);
            RunEnd::Refused(Refusal::NoMeaning(number, line))
        }
        Err(Unread::Memory) => RunEnd::NoMemory,
    }
}

/// Plays rounds of the named handler. What is read is a script, wholly before anything runs; what is written is its report.
pub fn run<R: Source, W: Sink>(
    alloc: Global,
    content_type: &str,
    handler: &str,
    reader: &mut R,
    writer: &mut W,
) -> RunEnd
    // An unknown handler is found before anything is read.
    ensures usage { (result ≡ Refused refusal.UnknownHandler)
        ↔ (step_in_rounds handler.now ≡ None) }
    ensures unread { result ≡ Refused refusal.UnknownHandler → reader.new ≡ reader.old }
    ensures unwritten { result ≡ Refused refusal.UnknownHandler → writer.new ≡ writer.old }
    // So is a text that is no content type.
    ensures refused { IfSome (step_in_rounds handler.now) (λ _. version_of content_type.now ≡ None
        → (result ≡ Refused refusal.UnknownContentType) × (reader.new ≡ reader.old)
        × (writer.new ≡ writer.old)) }
    // Each other run ends in one of two ways. It has read the whole input as a script and played its rounds; then all of the report is
    // written, or only a beginning, if writing has failed. Or nothing is written: reading has failed, the run is out of memory, or a line
    // has no meaning. Then the result has the number of the first such line.
    ensures runs { IfSome (step_in_rounds handler.now)
        (λ meaning. IfSome (version_of content_type.now)
        (λ version. RoundsSay (PlaysAll meaning version (R.remaining reader.old))
        (StopsThere (R.remaining reader.old)) (W.contents writer.old) (W.contents writer.new)
        (R.fails reader.old) (W.fails writer.old) (IsAtEnd (R.remaining reader.new)) (writer.new
        ≡ writer.old) result)) }
{
    match Named::in_rounds(alloc, handler) {
        Some(handler) => run_handler(alloc, content_type, &handler, reader, writer),
        None => RunEnd::Refused(Refusal::UnknownHandler),
    }
}
