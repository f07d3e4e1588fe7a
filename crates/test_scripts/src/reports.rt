// Arguments that are refused, and readers and writers that fail.
use program_runs::streams::{Plain, Sink, Source};
use std::alloc::Global;
use std::io::Cursor;
use std::process::Abort;
use std::test::Fail;
use test_support::transports::{Breaking, Pipe};
use world_scripts::run::run;
use world_scripts::run_end::{Ending, Refusal, RunEnd};

const V7: &str = "application/vnd.restate.invocation.v7";

/// How a run ends, as a row has it.
#[derive(Clone, Copy, Debug, PartialEq, Eq)]
enum Told {
    Reported,
    Stopped,
    NoMeaning(u64),
    ReadFailed,
    WriteFailed,
    UnknownHandler,
    UnknownContentType,
    NoMemory,
}

fn told_of(end: &RunEnd) -> Told {
    match end {
        RunEnd::Written(Ending { stopped_by: None }) => Told::Reported,
        RunEnd::Written(
            Ending {
                stopped_by: Some(_),
            },
        ) => Told::Stopped,
        RunEnd::Refused(Refusal::NoMeaning(line, _)) => Told::NoMeaning(*line),
        RunEnd::ReadFailed(_) => Told::ReadFailed,
        RunEnd::WriteFailed(_, _) => Told::WriteFailed,
        RunEnd::Refused(Refusal::UnknownHandler) => Told::UnknownHandler,
        RunEnd::Refused(Refusal::UnknownContentType) => Told::UnknownContentType,
        RunEnd::NoMemory => Told::NoMemory,
    }
}

/// The status of the process that each end has.
fn code(told: Told) -> u8 {
    match told {
        Told::Reported => 0,
        Told::NoMeaning(_) | Told::UnknownHandler => 2,
        _ => 1,
    }
}

/// The run ends so, and the process with its status.
fn assert_ends<R: Source, W: Sink>(
    rt: &impl Abort,
    alloc: Global,
    content_type: &str,
    handler: &str,
    reader: &mut R,
    writer: &mut W,
    wanted: Told,
) {
    let end = run(alloc, content_type, handler, reader, writer);
    assert_eq!(rt; told_of(&end), wanted);
    assert_eq!(rt; end.code(), code(wanted));
}

const SCRIPT: &[u8] = b"world input=\"a\"\nround\npiece all\nstep 2\nstore all\n";

const REPORT: &str = r#"round 1
answer input id="abc" seed=0 key="" headers=[] value="a" scope=- limit=- idem=-
answer handle 17
output Sleep wake_up_time=1000 result_completion_id=1
entries 2
journal
Input value="a"
Sleep wake_up_time=1000 result_completion_id=1
"#;

/// Arguments, and how they are refused.
static ARGUMENTS: [(&str, &str, Told); 6] = [
    (V7, "", Told::UnknownHandler),
    (V7, "Sleeper", Told::UnknownHandler),
    ("text/plain", "sleeper ", Told::UnknownHandler),
    ("text/plain", "sleeper", Told::UnknownContentType),
    ("", "counter", Told::UnknownContentType),
    (
        "application/vnd.restate.invocation.v9",
        "counter",
        Told::UnknownContentType,
    ),
];

/// With these arguments nothing is read and nothing is written.
fn assert_untouched(
    rt: &impl Abort,
    alloc: Global,
    content_type: &str,
    handler: &str,
    wanted: Told,
) {
    let mut reader = Plain(Cursor::new(SCRIPT));
    let mut writer = Plain(Vec::new(alloc));
    assert_ends(
        rt,
        alloc,
        content_type,
        handler,
        &mut reader,
        &mut writer,
        wanted,
    );
    assert_eq!(rt; reader.0.position(), 0);
    assert!(rt; writer.0.is_empty());
}

#[test]
fn refused_arguments_read_and_write_nothing(rt: HostRuntime) {
    for (content_type, handler, wanted) in &ARGUMENTS {
        assert_untouched(&rt, rt.alloc(), *content_type, *handler, *wanted);
    }
}

/// A read that fails after this beginning of the script writes nothing.
fn assert_broken(rt: &impl Abort, alloc: Global, front: &[u8]) {
    let mut reader = Plain(Breaking {
        front: Cursor::new(front),
    });
    let mut writer = Plain(Vec::new(alloc));
    let wanted = Told::ReadFailed;
    assert_ends(rt, alloc, V7, "sleeper", &mut reader, &mut writer, wanted);
    assert!(rt; writer.0.is_empty());
}

#[test]
fn failed_reads_write_nothing(rt: HostRuntime) -> Result<(), Fail> {
    for place in 0..=SCRIPT.len() {
        let front = SCRIPT.get(..place).ok_or("no such place")?;
        assert_broken(&rt, rt.alloc(), front);
    }
    Ok(())
}

/// A run into a pipe with room for this beginning of the report, that can be flushed so often, ends so, and leaves it there.
fn assert_piped(rt: &impl Abort, alloc: Global, front: &str, flushes: usize, wanted: Told) {
    let mut writer = Plain(Pipe::new(alloc, front.len(), flushes));
    let mut reader = Plain(Cursor::new(SCRIPT));
    assert_ends(rt, alloc, V7, "sleeper", &mut reader, &mut writer, wanted);
    assert!(rt; writer.0.taken.as_slice() == front.as_bytes());
}

#[test]
fn failed_writes_leave_a_beginning(rt: HostRuntime) -> Result<(), Fail> {
    for room in 0..REPORT.len() {
        let front = REPORT.get(..room).ok_or("no such place")?;
        assert_piped(&rt, rt.alloc(), front, 1, Told::WriteFailed);
    }
    assert_piped(&rt, rt.alloc(), REPORT, 0, Told::WriteFailed);
    assert_piped(&rt, rt.alloc(), REPORT, 1, Told::Reported);
    Ok(())
}
