//! One run of the program: what a reader gives is fed to an attempt, and what the attempt sends goes to a writer.
ghost use Rattle.std.specs.Prelude.{◌≡◌, ◌↔◌, ◌≢◌, IfErr, IfOk, IfSome, None, Ok, Result, Some};
ghost use Rattle.std.specs.Io.KnownBytes.{IsAtEnd};
ghost use Rattle.journal_protocol.specs.Error.{Error};
ghost use Rattle.invocation_vm.specs.Making.{IsSupported, version_in};
ghost use Rattle.vm_attempt.specs.Stepping.{StepDoes};
ghost use Rattle.vm_attempt.specs.declared.progress.Progress.{Progress};
ghost use Rattle.program_vmrun.specs.Runs.{SendsWhole, end_after, IsFed, Drives, IsDriven, ServesAnew, AttemptSays};
ghost use Rattle.handlers.specs.Named.{step_named};
ghost use Rattle.program_runs.specs.declared.run_end.RunEnd.TheVariants.{Refused};
ghost use Rattle.program_vmrun.specs.declared.run_end.Refusal.TheVariants as refusal;

use crate::run_end::{AttemptEnd, Refusal, RunEnd};
use bytes::Bytes;
use handlers::named::Named;
use invocation_vm::version_named;
use journal_protocol::Version;
use program_runs::streams::{Sink, Source};
use std::alloc::{AllocError, Global};
use vm_attempt::{Attempt, Progress};
use vm_types::{Handler, VMOptions};

/// Makes a step. Returns how the attempt ends, if it is the last one.
fn step_of<H: Handler>(attempt: &mut Attempt<H>) -> Option<AttemptEnd>
    ensures does { (last : Result Progress Error)
        × StepDoes (H.meaning attempt.old.handler) attempt.old.record_of last attempt.new.record_of
        × (result ≡ end_after last) }
    ensures handler { attempt.new.handler ≡ attempt.old.handler }
{
    match attempt.step() {
        Ok(Progress::Stepped) => None,
        Ok(Progress::Ended) => Some(AttemptEnd::Ended),
        Ok(Progress::Suspended) => Some(AttemptEnd::Suspended),
        Ok(Progress::NotReady) => Some(AttemptEnd::Stalled),
        Ok(Progress::Waiting { .. } | Progress::ExecuteRun(_)) => Some(AttemptEnd::Stalled),
        Err(error) => Some(AttemptEnd::Failed(error)),
    }
}

/// Makes steps until one gives the handler no answer.
fn drive<H: Handler>(attempt: &mut Attempt<H>) -> AttemptEnd
    ensures { Drives (H.meaning attempt.old.handler) attempt.old.record_of result
        attempt.new.record_of }
{
    for _ in 0..u64::MAX {
        if let Some(ending) = step_of(attempt) {
            return ending;
        }
    }
    AttemptEnd::Stalled
}

/// Feeds an attempt all of its input. If memory runs out, the attempt keeps that, and its next step reports it.
fn feed_all<H: Handler>(attempt: &mut Attempt<H>, input: Bytes)
    ensures fed { IsFed input attempt.old.record_of attempt.new.record_of }
    ensures handler { attempt.new.handler ≡ attempt.old.handler }
{
    let _ = attempt.feed(input);
    let _ = attempt.close();
}

/// Feeds an attempt all of its input, drives it, and takes all that it sends.
fn serve<H: Handler>(
    attempt: &mut Attempt<H>,
    input: Bytes,
) -> Result<(AttemptEnd, Bytes), AllocError>
    ensures { IfOk result (λ served. IsDriven SendsWhole (H.meaning attempt.old.handler)
        attempt.old.record_of input served.0 served.1) }
{
    feed_all(attempt, input);
    let ending = drive(attempt);
    let output = attempt.take_output()?;
    Ok((ending, output))
}

/// Serves a new attempt of this handler.
fn serve_anew<H: Handler + Drop>(
    alloc: Global,
    version: Version,
    handler: H,
    input: Vec<u8>,
) -> Result<(AttemptEnd, Bytes), AllocError>
    requires { IsSupported version }
    ensures { IfOk result (λ served. ServesAnew alloc (Ok version) (H.meaning handler)
        (Some input.items) (λ output. output ≡ served.1) served.0) }
{
    let input = Bytes::from_vec(input)?;
    let mut attempt = Attempt::for_version(alloc, version, VMOptions::default(), handler)?;
    serve(&mut attempt, input)
}

/// Runs a handler.
fn run_handler<H: Handler + Drop, R: Source, W: Sink>(
    alloc: Global,
    content_type: &str,
    handler: H,
    reader: &mut R,
    writer: &mut W,
) -> RunEnd
    ensures known { result ≢ Refused refusal.UnknownHandler }
    // A refused content type is found before anything is read.
    ensures refused { IfErr (version_in (Some (Some content_type.now)))
        (λ why. (result ≡ Refused (refusal.ContentType why)) × (reader.new ≡ reader.old)
        × (writer.new ≡ writer.old)) }
    ensures runs { AttemptSays (version_in (Some (Some content_type.now)))
        (ServesAnew alloc (version_in (Some (Some content_type.now))) (H.meaning handler)
        (R.remaining reader.old)) (W.contents writer.old) (W.contents writer.new)
        (R.fails reader.old) (W.fails writer.old) (IsAtEnd (R.remaining reader.new)) (writer.new
        ≡ writer.old) result }
{
    let version = match version_named(content_type) {
        Ok(version) => version,
        Err(refusal) => return RunEnd::Refused(Refusal::ContentType(refusal)),
    };
    let mut input = Vec::new(alloc);
    if let Err(error) = reader.read_whole(&mut input) {
        return RunEnd::ReadFailed(error);
    }
    let Ok((ending, output)) = serve_anew(alloc, version, handler, input) else {
        return RunEnd::NoMemory;
    };
    match writer.write_whole(output.as_slice()) {
        Ok(()) => RunEnd::Written(ending),
        Err(error) => RunEnd::WriteFailed(ending, error),
    }
}

/// Runs one attempt of the named handler. What is read is a journal with its Start in front, in the version that the content type names;
/// what is written is all that the attempt sends, also if the VM failed.
pub fn run<R: Source, W: Sink>(
    alloc: Global,
    content_type: &str,
    handler: &str,
    reader: &mut R,
    writer: &mut W,
) -> RunEnd
    // An unknown handler is found before anything is read.
    ensures usage { (result ≡ Refused refusal.UnknownHandler) ↔ (step_named handler.now ≡ None) }
    ensures unread { result ≡ Refused refusal.UnknownHandler → reader.new ≡ reader.old }
    ensures unwritten { result ≡ Refused refusal.UnknownHandler → writer.new ≡ writer.old }
    // So is a refused content type.
    ensures refused { IfSome (step_named handler.now)
        (λ _. IfErr (version_in (Some (Some content_type.now)))
        (λ why. (result ≡ Refused (refusal.ContentType why)) × (reader.new ≡ reader.old)
        × (writer.new ≡ writer.old))) }
    // Each other run has read all that there was and served it to an attempt, whose answers follow from that journal and from what it
    // wrote; or reading has failed, or memory ran out after it, and nothing is written. All that the attempt sends is written, or a
    // beginning if writing has failed.
    ensures runs { IfSome (step_named handler.now)
        (λ meaning. AttemptSays (version_in (Some (Some content_type.now)))
        (ServesAnew alloc (version_in (Some (Some content_type.now))) meaning
        (R.remaining reader.old)) (W.contents writer.old) (W.contents writer.new)
        (R.fails reader.old) (W.fails writer.old) (IsAtEnd (R.remaining reader.new)) (writer.new
        ≡ writer.old) result) }
{
    match Named::of_name(alloc, handler) {
        Some(handler) => run_handler(alloc, content_type, handler, reader, writer),
        None => RunEnd::Refused(Refusal::UnknownHandler),
    }
}
