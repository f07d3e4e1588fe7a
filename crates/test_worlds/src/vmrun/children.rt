// Runs with the handlers that call others: their first attempts, what wakes them, and how they are cancelled.
use crate::vmrun::bench::assert_written;
use crate::vmrun::frames::{
    CALL_A, CALL_B, CALL_GREET, CANCEL, CANCEL_INV_1, CANCEL_INV_2, FAILURE_2, FAILURE_3,
    INVOCATION_1, INVOCATION_2, INVOCATION_3, OUTPUT_CANCELLED, OUTPUT_DONE, OUTPUT_HI, OUTPUT_NO,
    OUTPUT_TIMEOUT, PARENT_WAITS, PARENT_WAITS_FOR_4, RACE_WAITS, RESULT_2, RESULT_3, RESULT_4,
    START_5, START_6, START_7, SUSPENSION_FOR_1, SUSPENSION_FOR_2, SUSPENSION_FOR_3, VOID_3,
};
use program_runs::exit_status::ExitStatus;
use std::alloc::Global;
use std::process::Abort;
use std::test::Fail;
use test_support::frames::{
    COMPLETION_1, END, ERROR_INPUT_CLOSED, INPUT_TILL, OUTPUT_EMPTY, SLEEP_TO_1000, START_1,
    START_2, START_3,
};

/// What came to a race, what it wrote, and how the run ended.
static RACES: [Row; 17] = [
    // a first attempt
    (
        &[START_1, INPUT_TILL],
        &[SLEEP_TO_1000, CALL_GREET, RACE_WAITS],
        ExitStatus::Suspended,
    ),
    // lost after its sleep: the call alone is sent
    (
        &[START_2, INPUT_TILL, SLEEP_TO_1000],
        &[CALL_GREET, RACE_WAITS],
        ExitStatus::Suspended,
    ),
    // nothing came
    (
        &[START_3, INPUT_TILL, SLEEP_TO_1000, CALL_GREET],
        &[RACE_WAITS],
        ExitStatus::Suspended,
    ),
    // the id of the called invocation wakes nothing
    (
        &[START_3, INPUT_TILL, SLEEP_TO_1000, CALL_GREET, INVOCATION_2],
        &[RACE_WAITS],
        ExitStatus::Suspended,
    ),
    // the call is first
    (
        &[START_3, INPUT_TILL, SLEEP_TO_1000, CALL_GREET, RESULT_3],
        &[OUTPUT_HI, END],
        ExitStatus::Done,
    ),
    // the sleep is first
    (
        &[START_3, INPUT_TILL, SLEEP_TO_1000, CALL_GREET, COMPLETION_1],
        &[OUTPUT_TIMEOUT, END],
        ExitStatus::Done,
    ),
    // the call is first, and the sleep is over after it
    (
        &[
            START_3,
            INPUT_TILL,
            SLEEP_TO_1000,
            CALL_GREET,
            RESULT_3,
            COMPLETION_1,
        ],
        &[OUTPUT_HI, END],
        ExitStatus::Done,
    ),
    // the sleep is first: what came after it isn't used, so the call isn't completed
    (
        &[
            START_3,
            INPUT_TILL,
            SLEEP_TO_1000,
            CALL_GREET,
            COMPLETION_1,
            RESULT_3,
        ],
        &[OUTPUT_TIMEOUT, END],
        ExitStatus::Done,
    ),
    // the call gave nothing: an empty output
    (
        &[START_3, INPUT_TILL, SLEEP_TO_1000, CALL_GREET, VOID_3],
        &[OUTPUT_EMPTY, END],
        ExitStatus::Done,
    ),
    // the call failed
    (
        &[START_3, INPUT_TILL, SLEEP_TO_1000, CALL_GREET, FAILURE_3],
        &[OUTPUT_NO, END],
        ExitStatus::Done,
    ),
    // the output is recorded
    (
        &[
            START_5,
            INPUT_TILL,
            SLEEP_TO_1000,
            CALL_GREET,
            RESULT_3,
            OUTPUT_HI,
        ],
        &[END],
        ExitStatus::Done,
    ),
    // cancelled while it waits
    (
        &[
            START_3,
            INPUT_TILL,
            SLEEP_TO_1000,
            CALL_GREET,
            INVOCATION_2,
            CANCEL,
        ],
        &[CANCEL_INV_1, OUTPUT_CANCELLED, END],
        ExitStatus::Done,
    ),
    // cancelled before the called invocation has an id that is known
    (
        &[
            START_3,
            INPUT_TILL,
            SLEEP_TO_1000,
            CALL_GREET,
            CANCEL,
            INVOCATION_2,
        ],
        &[CANCEL_INV_1, OUTPUT_CANCELLED, END],
        ExitStatus::Done,
    ),
    // cancelled, and the id of the called invocation isn't known yet
    (
        &[START_3, INPUT_TILL, SLEEP_TO_1000, CALL_GREET, CANCEL],
        &[SUSPENSION_FOR_2],
        ExitStatus::Suspended,
    ),
    // cancelled after the result of the call: the call is first
    (
        &[
            START_3,
            INPUT_TILL,
            SLEEP_TO_1000,
            CALL_GREET,
            INVOCATION_2,
            RESULT_3,
            CANCEL,
        ],
        &[OUTPUT_HI, END],
        ExitStatus::Done,
    ),
    // cancelled before the result of the call
    (
        &[
            START_3,
            INPUT_TILL,
            SLEEP_TO_1000,
            CALL_GREET,
            INVOCATION_2,
            CANCEL,
            RESULT_3,
        ],
        &[CANCEL_INV_1, OUTPUT_CANCELLED, END],
        ExitStatus::Done,
    ),
    // the cancelled await is replayed: the signal to the call is recorded
    (
        &[
            START_6,
            INPUT_TILL,
            SLEEP_TO_1000,
            CALL_GREET,
            INVOCATION_2,
            CANCEL,
            CANCEL_INV_1,
        ],
        &[OUTPUT_CANCELLED, END],
        ExitStatus::Done,
    ),
];

/// The same of a parent.
static PARENTS: [Row; 16] = [
    // a first attempt
    (
        &[START_1, INPUT_TILL],
        &[CALL_A, CALL_B, PARENT_WAITS],
        ExitStatus::Suspended,
    ),
    // lost after its first call
    (
        &[START_2, INPUT_TILL, CALL_A],
        &[CALL_B, PARENT_WAITS],
        ExitStatus::Suspended,
    ),
    // nothing came
    (
        &[START_3, INPUT_TILL, CALL_A, CALL_B],
        &[PARENT_WAITS],
        ExitStatus::Suspended,
    ),
    // one result came: the other is waited for
    (
        &[START_3, INPUT_TILL, CALL_A, CALL_B, RESULT_2],
        &[PARENT_WAITS_FOR_4],
        ExitStatus::Suspended,
    ),
    // both results came
    (
        &[START_3, INPUT_TILL, CALL_A, CALL_B, RESULT_2, RESULT_4],
        &[OUTPUT_DONE, END],
        ExitStatus::Done,
    ),
    // both came, the second first
    (
        &[START_3, INPUT_TILL, CALL_A, CALL_B, RESULT_4, RESULT_2],
        &[OUTPUT_DONE, END],
        ExitStatus::Done,
    ),
    // a call failed: both are waited for all the same
    (
        &[START_3, INPUT_TILL, CALL_A, CALL_B, FAILURE_2],
        &[PARENT_WAITS_FOR_4],
        ExitStatus::Suspended,
    ),
    // a call failed, and the other didn't
    (
        &[START_3, INPUT_TILL, CALL_A, CALL_B, FAILURE_2, RESULT_4],
        &[OUTPUT_DONE, END],
        ExitStatus::Done,
    ),
    // the output is recorded
    (
        &[
            START_6,
            INPUT_TILL,
            CALL_A,
            CALL_B,
            RESULT_2,
            RESULT_4,
            OUTPUT_DONE,
        ],
        &[END],
        ExitStatus::Done,
    ),
    // cancelled while it waits: both calls are cancelled
    (
        &[
            START_3,
            INPUT_TILL,
            CALL_A,
            CALL_B,
            INVOCATION_1,
            INVOCATION_3,
            CANCEL,
        ],
        &[CANCEL_INV_1, CANCEL_INV_2, OUTPUT_CANCELLED, END],
        ExitStatus::Done,
    ),
    // cancelled, and no id is known yet
    (
        &[START_3, INPUT_TILL, CALL_A, CALL_B, CANCEL],
        &[SUSPENSION_FOR_1],
        ExitStatus::Suspended,
    ),
    // cancelled, and the second id isn't known yet: no signal is sent
    (
        &[START_3, INPUT_TILL, CALL_A, CALL_B, CANCEL, INVOCATION_1],
        &[SUSPENSION_FOR_3],
        ExitStatus::Suspended,
    ),
    // cancelled, and the ids come in the other order
    (
        &[
            START_3,
            INPUT_TILL,
            CALL_A,
            CALL_B,
            CANCEL,
            INVOCATION_3,
            INVOCATION_1,
        ],
        &[CANCEL_INV_1, CANCEL_INV_2, OUTPUT_CANCELLED, END],
        ExitStatus::Done,
    ),
    // cancelled when one result came: both calls are cancelled
    (
        &[
            START_3,
            INPUT_TILL,
            CALL_A,
            CALL_B,
            INVOCATION_1,
            INVOCATION_3,
            RESULT_2,
            CANCEL,
        ],
        &[CANCEL_INV_1, CANCEL_INV_2, OUTPUT_CANCELLED, END],
        ExitStatus::Done,
    ),
    // cancelled after both results: it is done
    (
        &[
            START_3, INPUT_TILL, CALL_A, CALL_B, RESULT_2, RESULT_4, CANCEL,
        ],
        &[OUTPUT_DONE, END],
        ExitStatus::Done,
    ),
    // lost after the first of the two signals
    (
        &[
            START_7,
            INPUT_TILL,
            CALL_A,
            CALL_B,
            INVOCATION_1,
            INVOCATION_3,
            CANCEL,
            CANCEL_INV_1,
        ],
        &[CANCEL_INV_2, OUTPUT_CANCELLED, END],
        ExitStatus::Done,
    ),
];

/// The run of this handler over these frames writes those, and ends so.
fn assert_run(
    rt: &impl Abort,
    alloc: Global,
    handler: &str,
    journal: &[&[u8]],
    frames: &[&[u8]],
    status: ExitStatus,
) -> Result<(), Fail> {
    let input = journal.concat(alloc)?;
    let wanted = frames.concat(alloc)?;
    assert_written(
        rt,
        alloc,
        handler,
        input.as_slice(),
        wanted.as_slice(),
        status,
    );
    Ok(())
}

/// What comes to a run, what it writes, and how it ends.
type Row = (
    &'static [&'static [u8]],
    &'static [&'static [u8]],
    ExitStatus,
);

fn assert_runs(rt: &impl Abort, alloc: Global, handler: &str, rows: &[Row]) -> Result<(), Fail> {
    for (journal, frames, status) in rows {
        assert_run(rt, alloc, handler, journal, frames, *status)?;
    }
    Ok(())
}

#[test]
fn races_end_by_what_is_first(rt: HostRuntime) -> Result<(), Fail> {
    assert_runs(&rt, rt.alloc(), "race", &RACES)
}

#[test]
fn parents_wait_for_both_children(rt: HostRuntime) -> Result<(), Fail> {
    assert_runs(&rt, rt.alloc(), "parent", &PARENTS)
}

/// A cancelled parent, up to the known entries, which lack the second child's id.
const CANCELLED: &[&[u8]] = &[START_5, INPUT_TILL, CALL_A, CALL_B, INVOCATION_1, CANCEL];

/// What it writes if the first `place` bytes of its known entries and of the second child's id came, and how it ends.
fn cut_at(place: usize, known: usize, whole: usize) -> (&'static [&'static [u8]], ExitStatus) {
    if place < known {
        (&[ERROR_INPUT_CLOSED], ExitStatus::Failed)
    } else if place < whole {
        (&[SUSPENSION_FOR_3], ExitStatus::Suspended)
    } else {
        (
            &[CANCEL_INV_1, CANCEL_INV_2, OUTPUT_CANCELLED, END],
            ExitStatus::Done,
        )
    }
}

/// Its input is cut at each byte, and closed: an entry is missing, or the second child's id is, or none is.
fn assert_cuts(rt: &impl Abort, alloc: Global, known: usize, whole: &[u8]) -> Result<(), Fail> {
    for place in 0..=whole.len() {
        let (frames, status) = cut_at(place, known, whole.len());
        let front = whole.get(..place).ok_or("no such place")?;
        assert_run(rt, alloc, "parent", &[front], frames, status)?;
    }
    Ok(())
}

#[test]
fn cancelled_parents_wait_for_the_whole_id(rt: HostRuntime) -> Result<(), Fail> {
    let known = CANCELLED.concat(rt.alloc())?;
    let whole = [known.as_slice(), INVOCATION_3].concat(rt.alloc())?;
    assert_cuts(&rt, rt.alloc(), known.len(), whole.as_slice())
}

#[test]
fn cancelled_sleeper_fails(rt: HostRuntime) -> Result<(), Fail> {
    let journal: &[&[u8]] = &[START_3, INPUT_TILL, SLEEP_TO_1000, CANCEL];
    let frames: &[&[u8]] = &[OUTPUT_CANCELLED, END];
    assert_run(
        &rt,
        rt.alloc(),
        "sleeper",
        journal,
        frames,
        ExitStatus::Done,
    )
}
