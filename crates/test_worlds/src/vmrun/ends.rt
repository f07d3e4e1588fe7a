// Runs over readers and writers in memory: how each ends, and what it read and wrote.
use crate::vmrun::bench::V7;
use program_runs::exit_status::ExitStatus;
use program_runs::streams::{Plain, Sink, Source};
use program_vmrun::run::run;
use program_vmrun::run_end::{AttemptEnd, Refusal, RunEnd};
use std::alloc::Global;
use std::io::{self, Cursor, ErrorKind, Read, Write};
use std::process::Abort;
use std::test::Fail;
use test_support::frames::{
    COMPLETION_1, END, ERROR_INPUT_CLOSED, INPUT_TILL, OUTPUT_EMPTY, SLEEP_TO_1000, SLEEP_TO_2024,
    START_1, START_2, START_3, SUSPENSION_ON_1, TYPE_MISMATCH, UNCOMPLETED,
};
use test_support::transports::Pipe;

/// The sleeper's first attempt, which is suspended.
const FIRST: &[&[u8]] = &[START_1, INPUT_TILL];

const SLEPT: &[&[u8]] = &[SLEEP_TO_1000, SUSPENSION_ON_1];

/// The attempt in which its sleep is over, and it ends.
const COMPLETED: &[&[u8]] = &[START_3, INPUT_TILL, SLEEP_TO_2024, COMPLETION_1];

const ENDED: &[&[u8]] = &[OUTPUT_EMPTY, END];

/// How a run ends, as a row has it.
#[derive(Clone, Copy, Debug)]
enum Told {
    UnknownHandler,
    Refused(&'static str),
    ReadFailed(ErrorKind),
    WriteFailed(ErrorKind),
    Ended,
    Suspended,
    Failed(&'static str),
}

fn is_told(end: &RunEnd, told: Told) -> bool {
    match (end, told) {
        (RunEnd::Refused(Refusal::UnknownHandler), Told::UnknownHandler) => true,
        (RunEnd::Refused(Refusal::ContentType(refusal)), Told::Refused(text)) => {
            refusal.message() == text
        }
        (RunEnd::ReadFailed(error), Told::ReadFailed(kind)) => error.kind() == kind,
        (RunEnd::WriteFailed(AttemptEnd::Ended, error), Told::WriteFailed(kind)) => {
            error.kind() == kind
        }
        (RunEnd::Written(AttemptEnd::Ended), Told::Ended) => true,
        (RunEnd::Written(AttemptEnd::Suspended), Told::Suspended) => true,
        (RunEnd::Written(AttemptEnd::Failed(error)), Told::Failed(text)) => error.message() == text,
        _ => false,
    }
}

/// The status of each end, and the process's code.
fn status_of(told: Told) -> (ExitStatus, u8) {
    match told {
        Told::Ended => (ExitStatus::Done, 0),
        Told::UnknownHandler => (ExitStatus::Usage, 2),
        Told::Suspended => (ExitStatus::Suspended, 3),
        _ => (ExitStatus::Failed, 1),
    }
}

/// The run ends so, and the program with its status.
fn assert_ends<R: Source, W: Sink>(
    rt: &impl Abort,
    alloc: Global,
    content_type: &str,
    handler: &str,
    reader: &mut R,
    writer: &mut W,
    told: Told,
) {
    let end = run(alloc, content_type, handler, reader, writer);
    assert!(rt; is_told(&end, told), "{end:?} is not {told:?}");
    let (status, code) = status_of(told);
    assert_eq!(rt; end.status(), status);
    assert_eq!(rt; status.code(), code);
}

/// The sleeper's run from this reader ends so, and writes this.
fn assert_writes<R: Source>(
    rt: &impl Abort,
    alloc: Global,
    reader: &mut R,
    wanted: &[u8],
    told: Told,
) {
    let mut writer = Plain(Vec::new(alloc));
    assert_ends(rt, alloc, V7, "sleeper", reader, &mut writer, told);
    assert!(rt; writer.0.as_slice() == wanted);
}

/// What comes to the sleeper, what it writes, and how its run ends.
static RUNS: [(&[&[u8]], &[&[u8]], Told); 5] = [
    (FIRST, SLEPT, Told::Suspended),
    (COMPLETED, ENDED, Told::Ended),
    (
        &[START_3, INPUT_TILL, SLEEP_TO_1000, OUTPUT_EMPTY],
        &[UNCOMPLETED],
        Told::Failed("UncompletedDoProgressDuringReplay"),
    ),
    (
        &[START_2, INPUT_TILL, OUTPUT_EMPTY],
        &[TYPE_MISMATCH],
        Told::Failed("CommandTypeMismatchError"),
    ),
    (
        &[START_2, INPUT_TILL],
        &[ERROR_INPUT_CLOSED],
        Told::Failed("INPUT_CLOSED_WHILE_WAITING_ENTRIES"),
    ),
];

#[test]
fn runs_write_what_their_attempt_sends(rt: HostRuntime) -> Result<(), Fail> {
    for (journal, frames, told) in &RUNS {
        let input = journal.concat(rt.alloc())?;
        let wanted = frames.concat(rt.alloc())?;
        let mut reader = Plain(Cursor::new(input.as_slice()));
        assert_writes(&rt, rt.alloc(), &mut reader, wanted.as_slice(), *told);
    }
    Ok(())
}

/// Arguments, and how they are refused.
static ARGUMENTS: [(&str, &str, Told); 5] = [
    ("", V7, Told::UnknownHandler),
    ("Sleeper", V7, Told::UnknownHandler),
    ("sleeper ", "text/plain", Told::UnknownHandler),
    ("sleeper", "text/plain", Told::Refused("BadContentType")),
    (
        "sleeper",
        "application/vnd.restate.invocation.v4",
        Told::Refused("UNSUPPORTED_MEDIA_TYPE"),
    ),
];

/// With these arguments nothing is read and nothing is written.
fn assert_untouched(rt: &impl Abort, alloc: Global, handler: &str, content_type: &str, told: Told) {
    let mut reader = Plain(Cursor::new(START_1));
    let mut writer = Plain(Vec::new(alloc));
    assert_ends(
        rt,
        alloc,
        content_type,
        handler,
        &mut reader,
        &mut writer,
        told,
    );
    assert_eq!(rt; reader.0.position(), 0);
    assert!(rt; writer.0.is_empty());
}

#[test]
fn refused_arguments_read_and_write_nothing(rt: HostRuntime) {
    for (handler, content_type, told) in &ARGUMENTS {
        assert_untouched(&rt, rt.alloc(), *handler, *content_type, *told);
    }
}

/// A connection that is reset after these bytes.
#[derive(Drop)]
struct Reset<'a>(&'a [u8]);

impl Source for Reset<'_> {
    ghost use Rattle.std.specs.Prelude.{◌≡◌, None};
    ghost use Rattle.std.specs.IoError.{error_kind};
    ghost use Rattle.std.specs.declared.io.ErrorKind.TheVariants.{ConnectionReset};

    ghost remaining = { λ _. None };

    ghost fails = { λ _ e. error_kind e ≡ ConnectionReset };

    fn read_whole(&mut self, input: &mut Vec<u8>) -> io::Result<()> {
        let _ = input.extend_from_slice(self.0);
        Err(io::Error::from(ErrorKind::ConnectionReset))
    }
}

/// A file that is out of memory for its bytes.
#[derive(Drop)]
struct Starved;

impl Read for Starved {
    fn read(&mut self, _buf: &mut [u8]) -> io::Result<usize> {
        Err(io::Error::from(ErrorKind::OutOfMemory))
    }
}

/// The input is reset after each byte.
fn assert_resets(rt: &impl Abort, alloc: Global, journal: &[u8]) -> Result<(), Fail> {
    for place in 0..=journal.len() {
        let front = journal.get(..place).ok_or("no such place")?;
        let told = Told::ReadFailed(ErrorKind::ConnectionReset);
        assert_writes(rt, alloc, &mut Reset(front), b"", told);
    }
    Ok(())
}

#[test]
fn failed_reads_write_nothing(rt: HostRuntime) -> Result<(), Fail> {
    let journal = FIRST.concat(rt.alloc())?;
    let reset = assert_resets(&rt, rt.alloc(), journal.as_slice());
    let told = Told::ReadFailed(ErrorKind::OutOfMemory);
    assert_writes(&rt, rt.alloc(), &mut Plain(Starved), b"", told);
    reset
}

/// The sleeper's last run into a pipe with so much room, that can be flushed so often, ends so, and this is in it.
fn assert_piped(
    rt: &impl Abort,
    alloc: Global,
    input: &[u8],
    wanted: &[u8],
    flushes: usize,
    told: Told,
) {
    let mut reader = Plain(Cursor::new(input));
    let mut writer = Plain(Pipe::new(alloc, wanted.len(), flushes));
    assert_ends(rt, alloc, V7, "sleeper", &mut reader, &mut writer, told);
    assert!(rt; writer.0.taken.as_slice() == wanted);
}

/// The pipe has room for less than is written, for just that, or can't be flushed.
fn assert_pipes(rt: &impl Abort, alloc: Global, input: &[u8], wanted: &[u8]) -> Result<(), Fail> {
    let broken = Told::WriteFailed(ErrorKind::BrokenPipe);
    for room in 0..wanted.len() {
        let front = wanted.get(..room).ok_or("no such place")?;
        assert_piped(rt, alloc, input, front, 1, broken);
    }
    assert_piped(rt, alloc, input, wanted, 1, Told::Ended);
    assert_piped(rt, alloc, input, wanted, 0, broken);
    Ok(())
}

#[test]
fn failed_writes_leave_a_beginning(rt: HostRuntime) -> Result<(), Fail> {
    let input = COMPLETED.concat(rt.alloc())?;
    let wanted = ENDED.concat(rt.alloc())?;
    assert_pipes(&rt, rt.alloc(), input.as_slice(), wanted.as_slice())
}

/// A writer that takes nothing.
#[derive(Drop)]
struct Full;

impl Write for Full {
    fn write(&mut self, _buf: &[u8]) -> io::Result<usize> {
        Ok(0)
    }

    fn flush(&mut self) -> io::Result<()> {
        Ok(())
    }
}

#[test]
fn writer_that_takes_nothing_fails(rt: HostRuntime) -> Result<(), Fail> {
    let input = COMPLETED.concat(rt.alloc())?;
    let mut reader = Plain(Cursor::new(input.as_slice()));
    let told = Told::WriteFailed(ErrorKind::WriteZero);
    assert_ends(
        &rt,
        rt.alloc(),
        V7,
        "sleeper",
        &mut reader,
        &mut Plain(Full),
        told,
    );
    Ok(())
}
