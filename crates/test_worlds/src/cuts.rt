// Journals of whole runs, cut at each byte, and one byte at a time.
// However a journal is cut, an attempt is ready when the known entries are there, and makes the same run.
use crate::told::{
    drives_to, expect_answers, expect_error, expect_frames, feed_copy, quiet_attempt_of,
};
use crate::whole_runs::{Ending, Replay, Run};
use std::alloc::{AllocError, Global};
use std::process::Abort;
use std::test::Fail;
use vm_attempt::{Attempt, Progress};
use vm_types::Handler;

/// Feeds these pieces, and drives the attempt after each. It is ready as soon as the known entries are there.
fn feed_pieces<H: Handler>(
    rt: &impl Abort,
    alloc: Global,
    attempt: &mut Attempt<H>,
    pieces: &[&[u8]],
    recorded: usize,
) -> Result<(), Fail> {
    let mut fed = 0usize;
    for piece in pieces {
        feed_copy(alloc, attempt, piece)?;
        fed = fed.saturating_add(piece.len());
        assert!(rt; drives_to(attempt, Progress::NotReady) == (fed < recorded));
    }
    Ok(())
}

/// The run is over in this way.
fn assert_over<H: Handler>(
    rt: &impl Abort,
    attempt: &mut Attempt<H>,
    ending: Ending,
) -> Result<(), Fail> {
    match ending {
        Ending::Ended => assert!(rt; drives_to(attempt, Progress::Ended)),
        Ending::Suspended(_) => assert!(rt; drives_to(attempt, Progress::Suspended)),
        Ending::Refused(code, text, _) => {
            expect_error(attempt, code, text)?;
            expect_error(attempt, code, text)?;
        }
    }
    Ok(())
}

/// A new attempt that is fed these pieces of the journal makes the run.
fn assert_run<H: Handler>(
    rt: &impl Abort,
    alloc: Global,
    attempt: &mut Attempt<H>,
    run: &Run,
    replay: &Replay,
    pieces: &[&[u8]],
) -> Result<(), Fail> {
    feed_pieces(rt, alloc, attempt, pieces, replay.recorded.len())?;
    attempt.close()?;
    assert_over(rt, attempt, run.ending)?;
    expect_answers(attempt.answers(), run.answers)?;
    expect_frames(alloc, attempt, &[replay.written.as_slice()])
}

/// An attempt that is fed these pieces of the journal makes the run.
fn assert_makes<H: Handler>(
    rt: &impl Abort,
    alloc: Global,
    handler: &H,
    run: &Run,
    replay: &Replay,
    pieces: &[&[u8]],
) -> Result<(), Fail> {
    let mut attempt = quiet_attempt_of(alloc, handler)?;
    let made = assert_run(rt, alloc, &mut attempt, run, replay, pieces);
    drop(attempt);
    made
}

/// Each byte on its own.
fn single_bytes(alloc: Global, bytes: &[u8]) -> Result<Vec<&[u8]>, AllocError> {
    let mut single = Vec::new(alloc);
    for byte in bytes.chunks(1) {
        single.push(byte)?;
    }
    Ok(single)
}

/// The journal, if its first `known` entries are known, makes the run: cut at each byte, and one byte at a time.
fn assert_each_cut<H: Handler>(
    rt: &impl Abort,
    alloc: Global,
    handler: &H,
    run: &Run,
    known: usize,
) -> Result<(), Fail> {
    let replay = run.replay(alloc, known)?;
    let journal = run.journal(alloc, known)?;
    for place in 0..=journal.len() {
        let (front, back) = journal.as_slice().split_at(place);
        assert_makes(rt, alloc, handler, run, &replay, &[front, back])?;
    }
    let single = single_bytes(alloc, journal.as_slice())?;
    assert_makes(rt, alloc, handler, run, &replay, single.as_slice())
}

/// The journal of which all entries are known makes the run, however it is cut.
pub fn assert_recorded<H: Handler>(
    rt: &impl Abort,
    alloc: Global,
    handler: &H,
    run: &Run,
) -> Result<(), Fail> {
    assert_each_cut(rt, alloc, handler, run, run.entries.len())
}

/// So does each journal of which a beginning of the entries is known.
pub fn assert_replays<H: Handler>(
    rt: &impl Abort,
    alloc: Global,
    handler: &H,
    run: &Run,
) -> Result<(), Fail> {
    for known in 1..=run.entries.len() {
        assert_each_cut(rt, alloc, handler, run, known)?;
    }
    Ok(())
}
