// A run of the program's library: how it ends, and what it has written then.
use call_scripts::run::run;
use call_scripts::run_end::RunEnd;
use program_runs::exit_status::ExitStatus;
use program_runs::streams::{Plain, Sink, Source};
use std::alloc::Global;
use std::io::{Cursor, ErrorKind};
use std::process::Abort;
use std::test::Fail;
use test_support::transports::{Breaking, Pipe};

/// How a run ends, as a row has it.
#[derive(Clone, Copy, Debug)]
enum Told {
    ReadFailed(ErrorKind),
    WriteFailed(ErrorKind),
    Done,
}

fn is_told(end: &RunEnd, told: Told) -> bool {
    match (end, told) {
        (RunEnd::ReadFailed(error), Told::ReadFailed(kind)) => error.kind() == kind,
        (RunEnd::WriteFailed(error), Told::WriteFailed(kind)) => error.kind() == kind,
        (RunEnd::Done, Told::Done) => true,
        _ => false,
    }
}

/// The status of each end, and the process's code.
fn status_of(told: Told) -> (ExitStatus, u8) {
    match told {
        Told::Done => (ExitStatus::Done, 0),
        _ => (ExitStatus::Failed, 1),
    }
}

/// The run ends so, and the program with its status.
fn assert_ends<R: Source, W: Sink>(
    rt: &impl Abort,
    alloc: Global,
    reader: &mut R,
    writer: &mut W,
    told: Told,
) {
    let end = run(alloc, reader, writer);
    assert!(rt; is_told(&end, told), "{end:?} is not {told:?}");
    let (status, code) = status_of(told);
    assert_eq!(rt; end.status(), status);
    assert_eq!(rt; status.code(), code);
}

/// The run of what comes from this reader ends so, and writes this.
fn assert_writes<R: Source>(
    rt: &impl Abort,
    alloc: Global,
    reader: &mut R,
    transcript: &str,
    told: Told,
) {
    let mut writer = Plain(Vec::new(alloc));
    assert_ends(rt, alloc, reader, &mut writer, told);
    assert!(rt; writer.0.as_slice() == transcript.as_bytes());
}

#[test]
fn failed_read_writes_nothing(rt: HostRuntime) {
    let mut reader = Plain(Breaking {
        front: Cursor::new(b"state\n"),
    });
    let told = Told::ReadFailed(ErrorKind::ConnectionReset);
    assert_writes(&rt, rt.alloc(), &mut reader, "", told);
}

const SCRIPT: &[u8] = b"state\n\ncall\nstate";

const TRANSCRIPT: &str = "none\n\nbad\nnone\n";

/// A run into a pipe with so much room, that can be flushed so often, ends so, and leaves this there.
fn assert_piped(
    rt: &impl Abort,
    alloc: Global,
    room: usize,
    flushes: usize,
    front: &str,
    told: Told,
) {
    let mut reader = Plain(Cursor::new(SCRIPT));
    let mut writer = Plain(Pipe::new(alloc, room, flushes));
    assert_ends(rt, alloc, &mut reader, &mut writer, told);
    assert!(rt; writer.0.taken.as_slice() == front.as_bytes());
}

#[test]
fn failed_writes_leave_a_beginning(rt: HostRuntime) -> Result<(), Fail> {
    let broken = Told::WriteFailed(ErrorKind::BrokenPipe);
    for room in 0..TRANSCRIPT.len() {
        let front = TRANSCRIPT.get(..room).ok_or("no such place")?;
        assert_piped(&rt, rt.alloc(), room, 4, front, broken);
    }
    // Each answer is flushed.
    for (flushes, count) in [(0, 5), (1, 6), (2, 10), (3, 15)] {
        let front = TRANSCRIPT.get(..count).ok_or("no such place")?;
        assert_piped(&rt, rt.alloc(), 100, flushes, front, broken);
    }
    assert_piped(&rt, rt.alloc(), 100, 4, TRANSCRIPT, Told::Done);
    Ok(())
}
