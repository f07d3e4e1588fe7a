// One attempt of a handler, from the bytes of its journal to the bytes of its commands.
// Rows say what happens to it in turn.
use crate::asker::Asker;
use crate::frames::AWAITING_ON_SIGNAL_17;
use crate::napper::Napper;
use crate::told::{Told, attempt_of, expect_answers, expect_error, expect_frames, feed_copy};
use bytes::Bytes;
use std::alloc::Global;
use std::process::Abort;
use std::test::Fail;
use test_support::frames::{
    AWAITING_ON_1, COMPLETION_1, END, ERROR_INPUT_CLOSED, ERROR_KNOWN_ENTRIES, INPUT_TILL,
    OUTPUT_EMPTY, SIGNAL_17, SLEEP_TO_1000, SLEEP_TO_2024, START_0, START_1, START_2, START_3,
    SUSPENSION_ON_1, TYPE_MISMATCH, UNCOMPLETED,
};
use vm_attempt::{Attempt, Progress};
use vm_types::Handler;

/// One thing that happens to an attempt, and its answer.
#[derive(Clone, Copy)]
enum Act {
    /// Bytes come at once.
    Feed(&'static [u8]),
    /// Bytes come one at a time, and the attempt isn't ready before any of them.
    Trickle(&'static [u8]),
    /// No more bytes come.
    Close,
    /// This number of steps is made, each with this answer.
    Step(usize, Progress),
    /// A step is answered with an error of this code and text.
    Fails(u16, &'static str),
    /// The handler's answers so far are these.
    Answers(&'static [Told]),
    /// These frames are sent, and nothing more.
    Sends(&'static [&'static [u8]]),
}

const WAITING: Progress = Progress::Waiting {
    input: true,
    run: false,
};

fn assert_step<H: Handler>(
    rt: &impl Abort,
    attempt: &mut Attempt<H>,
    progress: Progress,
) -> Result<(), Fail> {
    let made = attempt.step()?;
    assert!(rt; made == progress, "{made:?} is not {progress:?}");
    Ok(())
}

fn trickle<H: Handler>(
    rt: &impl Abort,
    alloc: Global,
    attempt: &mut Attempt<H>,
    bytes: &[u8],
) -> Result<(), Fail> {
    for byte in bytes.chunks(1) {
        assert_step(rt, attempt, Progress::NotReady)?;
        feed_copy(alloc, attempt, byte)?;
    }
    Ok(())
}

fn assert_steps<H: Handler>(
    rt: &impl Abort,
    attempt: &mut Attempt<H>,
    count: usize,
    progress: Progress,
) -> Result<(), Fail> {
    for _ in 0..count {
        assert_step(rt, attempt, progress)?;
    }
    Ok(())
}

fn play<H: Handler>(
    rt: &impl Abort,
    alloc: Global,
    attempt: &mut Attempt<H>,
    act: Act,
) -> Result<(), Fail> {
    match act {
        Act::Feed(bytes) => attempt.feed(Bytes::from_static(bytes))?,
        Act::Trickle(bytes) => trickle(rt, alloc, attempt, bytes)?,
        Act::Close => attempt.close()?,
        Act::Step(count, progress) => assert_steps(rt, attempt, count, progress)?,
        Act::Fails(code, text) => expect_error(attempt, code, text)?,
        Act::Answers(answers) => expect_answers(attempt.answers(), answers)?,
        Act::Sends(frames) => expect_frames(alloc, attempt, frames)?,
    }
    Ok(())
}

/// Plays a row on an attempt.
fn play_all<H: Handler>(
    rt: &impl Abort,
    alloc: Global,
    attempt: &mut Attempt<H>,
    acts: &[Act],
) -> Result<(), Fail> {
    for act in acts {
        play(rt, alloc, attempt, *act)?;
    }
    Ok(())
}

/// Plays a row on an attempt of this handler.
fn assert_row<H: Handler + Drop>(
    rt: &impl Abort,
    alloc: Global,
    handler: H,
    acts: &[Act],
) -> Result<(), Fail> {
    let mut attempt = attempt_of(alloc, handler)?;
    let played = play_all(rt, alloc, &mut attempt, acts);
    drop(attempt);
    played
}

/// The answers of a sleep that is over.
const SLEPT: &[Told] = &[
    Told::Input,
    Told::Handle(17),
    Told::Awake,
    Told::Completed(true),
    Told::Void,
    Told::Unit,
];

const FIRST: &[Act] = &[
    Act::Step(1, Progress::NotReady),
    Act::Feed(START_1),
    Act::Step(1, Progress::NotReady),
    Act::Feed(INPUT_TILL),
    Act::Close,
    Act::Step(2, Progress::Stepped),
    Act::Step(2, Progress::Suspended),
    Act::Sends(&[SLEEP_TO_1000, SUSPENSION_ON_1]),
];

const CLOSED_LATE: &[Act] = &[
    Act::Feed(START_1),
    Act::Feed(INPUT_TILL),
    Act::Step(2, Progress::Stepped),
    Act::Step(2, WAITING),
    Act::Close,
    Act::Step(2, Progress::Suspended),
    Act::Sends(&[SLEEP_TO_1000, AWAITING_ON_1, AWAITING_ON_1, SUSPENSION_ON_1]),
];

const COMPLETED_LATE: &[Act] = &[
    Act::Feed(START_1),
    Act::Feed(INPUT_TILL),
    Act::Step(2, Progress::Stepped),
    Act::Step(1, WAITING),
    Act::Sends(&[SLEEP_TO_1000, AWAITING_ON_1]),
    Act::Feed(COMPLETION_1),
    Act::Step(4, Progress::Stepped),
    Act::Answers(SLEPT),
    Act::Step(2, Progress::Ended),
    Act::Sends(&[OUTPUT_EMPTY, END]),
];

const REPLAYED: &[Act] = &[
    Act::Feed(START_3),
    Act::Feed(INPUT_TILL),
    Act::Feed(SLEEP_TO_2024),
    Act::Feed(COMPLETION_1),
    Act::Close,
    Act::Step(6, Progress::Stepped),
    Act::Answers(SLEPT),
    Act::Step(2, Progress::Ended),
    Act::Sends(&[OUTPUT_EMPTY, END]),
];

/// The journal of `REPLAYED`, one byte at a time.
const TRICKLED: &[Act] = &[
    Act::Trickle(START_3),
    Act::Trickle(INPUT_TILL),
    Act::Trickle(SLEEP_TO_2024),
    Act::Trickle(COMPLETION_1),
    Act::Close,
    Act::Step(6, Progress::Stepped),
    Act::Answers(SLEPT),
    Act::Step(1, Progress::Ended),
    Act::Sends(&[OUTPUT_EMPTY, END]),
];

/// The same journal, cut inside its last frame.
const CUT: &[Act] = &[
    Act::Trickle(START_3),
    Act::Trickle(INPUT_TILL),
    Act::Trickle(SLEEP_TO_2024),
    Act::Trickle(b"\0\x1e\0\0\0\0\0\0\0\x06\0\0\0\0\x01"),
    Act::Step(1, Progress::NotReady),
    Act::Close,
    Act::Fails(571, "INPUT_CLOSED_WHILE_WAITING_ENTRIES"),
    Act::Fails(571, "INPUT_CLOSED_WHILE_WAITING_ENTRIES"),
    Act::Sends(&[ERROR_INPUT_CLOSED]),
];

const REFUSED: &[Act] = &[
    Act::Feed(START_0),
    Act::Fails(571, "KNOWN_ENTRIES_IS_ZERO"),
    Act::Feed(START_1),
    Act::Fails(571, "KNOWN_ENTRIES_IS_ZERO"),
    Act::Sends(&[ERROR_KNOWN_ENTRIES]),
];

const NOT_COMPLETED: &[Act] = &[
    Act::Feed(START_3),
    Act::Feed(INPUT_TILL),
    Act::Feed(SLEEP_TO_1000),
    Act::Feed(OUTPUT_EMPTY),
    Act::Step(2, Progress::Stepped),
    Act::Fails(570, "UncompletedDoProgressDuringReplay"),
    Act::Fails(570, "UncompletedDoProgressDuringReplay"),
    Act::Sends(&[UNCOMPLETED]),
];

const MISMATCHED: &[Act] = &[
    Act::Feed(START_2),
    Act::Feed(INPUT_TILL),
    Act::Feed(OUTPUT_EMPTY),
    Act::Step(1, Progress::Stepped),
    Act::Fails(570, "CommandTypeMismatchError"),
    Act::Fails(570, "CommandTypeMismatchError"),
    Act::Sends(&[TYPE_MISMATCH]),
];

const ASKED: &[Act] = &[
    Act::Feed(START_1),
    Act::Feed(INPUT_TILL),
    Act::Step(2, Progress::Stepped),
    Act::Step(1, WAITING),
    Act::Feed(SIGNAL_17),
    Act::Step(2, Progress::Stepped),
    Act::Answers(&[
        Told::Input,
        Told::Awakeable("sign_1YWJjAAAAEQ", 17),
        Told::Awake,
        Told::Void,
    ]),
    Act::Step(1, Progress::Ended),
    Act::Sends(&[AWAITING_ON_SIGNAL_17, END]),
];

#[test]
fn awakeable_is_awaited(rt: HostRuntime) -> Result<(), Fail> {
    assert_row(&rt, rt.alloc(), Asker, ASKED)
}

#[test]
fn sleep_that_is_not_over_suspends(rt: HostRuntime) -> Result<(), Fail> {
    let alloc = rt.alloc();
    assert_row(&rt, alloc, Napper { alloc }, FIRST)?;
    assert_row(&rt, alloc, Napper { alloc }, CLOSED_LATE)
}

#[test]
fn sleep_that_is_over_ends(rt: HostRuntime) -> Result<(), Fail> {
    let alloc = rt.alloc();
    assert_row(&rt, alloc, Napper { alloc }, COMPLETED_LATE)?;
    assert_row(&rt, alloc, Napper { alloc }, REPLAYED)
}

#[test]
fn bytes_come_one_at_a_time(rt: HostRuntime) -> Result<(), Fail> {
    let alloc = rt.alloc();
    assert_row(&rt, alloc, Napper { alloc }, TRICKLED)
}

#[test]
fn cut_journal_is_refused_at_its_close(rt: HostRuntime) -> Result<(), Fail> {
    let alloc = rt.alloc();
    assert_row(&rt, alloc, Napper { alloc }, CUT)
}

#[test]
fn failed_vm_fails_each_step(rt: HostRuntime) -> Result<(), Fail> {
    let alloc = rt.alloc();
    assert_row(&rt, alloc, Napper { alloc }, REFUSED)?;
    assert_row(&rt, alloc, Napper { alloc }, NOT_COMPLETED)?;
    assert_row(&rt, alloc, Napper { alloc }, MISMATCHED)
}

#[test]
fn handler_is_lent(rt: HostRuntime) -> Result<(), Fail> {
    let napper = Napper { alloc: rt.alloc() };
    assert_row(&rt, rt.alloc(), &napper, REPLAYED)
}
