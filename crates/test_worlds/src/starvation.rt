// A handler that is out of memory: the attempt answers that to each further step, and does nothing more.
// What was written before stays, and no Error frame is added.
use crate::chooser::Chooser;
use crate::frames::{CLEAR_A, COMPLETE_1, SET_B};
use crate::histories::{CHOSE_SUCCESS, KEPT};
use crate::keeper::Keeper;
use crate::starving::Starving;
use crate::told::{
    Told, attempt_of, drive, expect_answers, expect_error, expect_frames, feed_copy,
};
use crate::whole_runs::Run;
use bytes::Bytes;
use std::alloc::Global;
use std::process::Abort;
use std::test::Fail;
use test_support::frames::{CLEAR_ALL, OUTPUT_EMPTY, OUTPUT_X, SLEEP_TO_1000};
use vm_attempt::Attempt;
use vm_types::Handler;

/// The attempt answers a step with out of memory, has these answers, and sends these frames.
fn assert_starved<H: Handler>(
    alloc: Global,
    attempt: &mut Attempt<H>,
    answers: &[Told],
    frames: &[&[u8]],
) -> Result<(), Fail> {
    expect_error(attempt, 500, "")?;
    expect_answers(attempt.answers(), answers)?;
    expect_frames(alloc, attempt, frames)
}

/// A command that comes now, which the VM would refuse, and the end of the input change nothing.
fn assert_stays<H: Handler>(
    alloc: Global,
    attempt: &mut Attempt<H>,
    answers: &[Told],
) -> Result<(), Fail> {
    attempt.feed(Bytes::from_static(CLEAR_ALL))?;
    assert_starved(alloc, attempt, answers, &[])?;
    attempt.close()?;
    assert_starved(alloc, attempt, answers, &[])
}

/// An attempt that has this journal fails.
fn assert_fails_on<H: Handler>(
    rt: &impl Abort,
    alloc: Global,
    attempt: &mut Attempt<H>,
    journal: &[u8],
) -> Result<(), Fail> {
    feed_copy(alloc, attempt, journal)?;
    assert!(rt; drive(attempt).is_err());
    Ok(())
}

/// An attempt that has this journal sends these frames, and fails for good.
fn assert_starved_on<H: Handler>(
    rt: &impl Abort,
    alloc: Global,
    attempt: &mut Attempt<H>,
    journal: &[u8],
    answers: &[Told],
    frames: &[&[u8]],
) -> Result<(), Fail> {
    assert_fails_on(rt, alloc, attempt, journal)?;
    assert_starved(alloc, attempt, answers, frames)?;
    assert_stays(alloc, attempt, answers)
}

/// The handler is out of memory after these answers: its attempt sends these frames, and fails for good.
fn assert_starves<H: Handler>(
    rt: &impl Abort,
    alloc: Global,
    handler: &H,
    journal: &[u8],
    answers: &[Told],
    frames: &[&[u8]],
) -> Result<(), Fail> {
    let starving = Starving {
        handler,
        answers: answers.len(),
    };
    let mut attempt = attempt_of(alloc, starving)?;
    let starved = assert_starved_on(rt, alloc, &mut attempt, journal, answers, frames);
    drop(attempt);
    starved
}

/// The handler is out of memory after each answer of the run in turn, when these frames were written.
fn assert_starves_everywhere<H: Handler>(
    rt: &impl Abort,
    alloc: Global,
    handler: &H,
    run: &Run,
    known: usize,
    written: &[&[&[u8]]],
) -> Result<(), Fail> {
    assert_eq!(rt; written.len(), run.answers.len());
    let journal = run.journal(alloc, known)?;
    for (place, frames) in written.iter().enumerate() {
        let answers = run.answers.get(..=place).ok_or("no answers")?;
        assert_starves(rt, alloc, handler, journal.as_slice(), answers, frames)?;
    }
    Ok(())
}

const NOTHING: &[&[u8]] = &[];

/// The frames that the keeper has written after each answer.
const BY_KEEPER: &[&[&[u8]]] = &[
    NOTHING,
    &[CLEAR_A],
    &[CLEAR_A, SET_B],
    &[CLEAR_A, SET_B, SLEEP_TO_1000],
    &[CLEAR_A, SET_B, SLEEP_TO_1000],
    &[CLEAR_A, SET_B, SLEEP_TO_1000],
    &[CLEAR_A, SET_B, SLEEP_TO_1000, OUTPUT_EMPTY],
];

/// The frames that the chooser has written after each answer.
const BY_CHOOSER: &[&[&[u8]]] = &[
    NOTHING,
    &[COMPLETE_1],
    &[COMPLETE_1],
    &[COMPLETE_1],
    &[COMPLETE_1],
    &[COMPLETE_1, OUTPUT_X],
];

#[test]
fn memory_wants_behind_each_answer(rt: HostRuntime) -> Result<(), Fail> {
    let alloc = rt.alloc();
    let keeper = Keeper { alloc };
    assert_starves_everywhere(&rt, alloc, &keeper, &KEPT, 1, BY_KEEPER)?;
    let chooser = Chooser { alloc };
    assert_starves_everywhere(&rt, alloc, &chooser, &CHOSE_SUCCESS, 1, BY_CHOOSER)
}

#[test]
fn memory_wants_in_replay(rt: HostRuntime) -> Result<(), Fail> {
    let alloc = rt.alloc();
    let keeper = Keeper { alloc };
    assert_starves_everywhere(&rt, alloc, &keeper, &KEPT, 6, &[NOTHING; 7])?;
    let chooser = Chooser { alloc };
    assert_starves_everywhere(&rt, alloc, &chooser, &CHOSE_SUCCESS, 4, &[NOTHING; 6])
}
