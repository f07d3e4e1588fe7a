// A round that is stopped after each of its events in turn, and then one to the end: the commands are those of a run that
// nothing stops, each once.
use crate::bench::Happens::{self, Arrive, Feed, Step, Store};
use crate::bench::{assert_journal, played};
use crate::chooser::Chooser;
use crate::frames::{CLEAR_A, COMPLETE_1, SET_B, SIGNAL_17_X};
use crate::keeper::Keeper;
use std::alloc::Global;
use std::process::Abort;
use std::test::Fail;
use test_support::frames::{COMPLETION_1, INPUT_TILL, OUTPUT_EMPTY, OUTPUT_X, SLEEP_TO_1000};
use vm_types::Handler;

/// The first round stops after each of its events, the second goes on to the end of the handler and leaves this journal.
struct Stops {
    first: &'static [Happens],
    second: &'static [Happens],
    journal: &'static [&'static [u8]],
}

/// It ends once its sleep is over.
const KEEPER: Stops = Stops {
    first: &[
        Feed,
        Step,
        Step,
        Store(1),
        Step,
        Step,
        Store(1),
        Step,
        Store(9),
    ],
    second: &[
        Feed,
        Step,
        Step,
        Step,
        Step,
        Store(9),
        Arrive(COMPLETION_1),
        Feed,
        Step,
        Step,
        Step,
        Step,
        Store(9),
    ],
    journal: &[
        INPUT_TILL,
        CLEAR_A,
        SET_B,
        SLEEP_TO_1000,
        COMPLETION_1,
        OUTPUT_EMPTY,
    ],
};

/// It writes what its awakeable was completed with.
const CHOOSER: Stops = Stops {
    first: &[Feed, Step, Step, Store(1), Step, Step],
    second: &[
        Feed,
        Step,
        Step,
        Step,
        Store(9),
        Arrive(SIGNAL_17_X),
        Feed,
        Step,
        Step,
        Step,
        Step,
        Store(9),
    ],
    journal: &[INPUT_TILL, COMPLETE_1, SIGNAL_17_X, OUTPUT_X],
};

fn assert_leaves_no_trace<H: Handler>(
    rt: &impl Abort,
    alloc: Global,
    handler: &H,
    stops: &Stops,
) -> Result<(), Fail> {
    for at in 0..stops.first.len() + 1 {
        let first = stops.first.get(..at).ok_or("no such event")?;
        let (world, _) = played(alloc, handler, Vec::new(alloc), &[first, stops.second])?;
        assert_journal(rt, world.journal(), stops.journal);
    }
    Ok(())
}

#[test]
fn where_changes_of_the_state_stop_leaves_no_trace(rt: HostRuntime) -> Result<(), Fail> {
    let alloc = rt.alloc();
    assert_leaves_no_trace(&rt, alloc, &Keeper { alloc }, &KEEPER)
}

#[test]
fn where_an_awakeable_stops_leaves_no_trace(rt: HostRuntime) -> Result<(), Fail> {
    let alloc = rt.alloc();
    assert_leaves_no_trace(&rt, alloc, &Chooser { alloc }, &CHOOSER)
}
