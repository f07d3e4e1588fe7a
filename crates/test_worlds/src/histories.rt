// Whole runs of handlers, replayed from each beginning of their entries.
// Recorded and written commands together are those of the uncut run, and the answers are the same.
use crate::chooser::Chooser;
use crate::cuts::assert_replays;
use crate::frames::{
    CLEAR_A, COMPLETE_1, SET_B, SIGNAL_17_EMPTY, SIGNAL_17_FAILURE, SIGNAL_17_X,
    SUSPENSION_ON_SIGNAL_17,
};
use crate::keeper::Keeper;
use crate::told::Told;
use crate::whole_runs::{Ending, Entry, Run};
use std::test::Fail;
use test_support::frames::{
    COMPLETION_1, INPUT_TILL, OUTPUT_EMPTY, OUTPUT_X, SIGNAL_17, SLEEP_TO_1000, SUSPENSION_ON_1,
};

pub const KEPT: Run = Run {
    entries: &[
        Entry::Command(INPUT_TILL),
        Entry::Command(CLEAR_A),
        Entry::Command(SET_B),
        Entry::Command(SLEEP_TO_1000),
        Entry::Notification(COMPLETION_1),
        Entry::Command(OUTPUT_EMPTY),
    ],
    answers: &[
        Told::Input,
        Told::Unit,
        Told::Unit,
        Told::Handle(17),
        Told::Awake,
        Told::Void,
        Told::Unit,
    ],
    ending: Ending::Ended,
};

/// The sleep isn't over.
const KEPT_ASLEEP: Run = Run {
    entries: &[
        Entry::Command(INPUT_TILL),
        Entry::Command(CLEAR_A),
        Entry::Command(SET_B),
        Entry::Command(SLEEP_TO_1000),
    ],
    answers: &[Told::Input, Told::Unit, Told::Unit, Told::Handle(17)],
    ending: Ending::Suspended(SUSPENSION_ON_1),
};

pub const CHOSE_SUCCESS: Run = Run {
    entries: &[
        Entry::Command(INPUT_TILL),
        Entry::Command(COMPLETE_1),
        Entry::Notification(SIGNAL_17_X),
        Entry::Command(OUTPUT_X),
    ],
    answers: &[
        Told::Input,
        Told::Unit,
        Told::Awakeable("sign_1YWJjAAAAEQ", 17),
        Told::Awake,
        Told::Success(b"x"),
        Told::Unit,
    ],
    ending: Ending::Ended,
};

const CHOSE_EMPTY_SUCCESS: Run = Run {
    entries: &[
        Entry::Command(INPUT_TILL),
        Entry::Command(COMPLETE_1),
        Entry::Notification(SIGNAL_17_EMPTY),
        Entry::Command(OUTPUT_EMPTY),
    ],
    answers: &[
        Told::Input,
        Told::Unit,
        Told::Awakeable("sign_1YWJjAAAAEQ", 17),
        Told::Awake,
        Told::Success(b""),
        Told::Unit,
    ],
    ending: Ending::Ended,
};

const CHOSE_FAILURE: Run = Run {
    entries: &[
        Entry::Command(INPUT_TILL),
        Entry::Command(COMPLETE_1),
        Entry::Notification(SIGNAL_17_FAILURE),
        Entry::Command(SLEEP_TO_1000),
        Entry::Notification(COMPLETION_1),
        Entry::Command(OUTPUT_EMPTY),
    ],
    answers: &[
        Told::Input,
        Told::Unit,
        Told::Awakeable("sign_1YWJjAAAAEQ", 17),
        Told::Awake,
        Told::Failure(409, "no"),
        Told::Handle(18),
        Told::Awake,
        Told::Unit,
    ],
    ending: Ending::Ended,
};

/// The signal brings nothing, and the sleep isn't over.
const CHOSE_NOTHING: Run = Run {
    entries: &[
        Entry::Command(INPUT_TILL),
        Entry::Command(COMPLETE_1),
        Entry::Notification(SIGNAL_17),
        Entry::Command(SLEEP_TO_1000),
    ],
    answers: &[
        Told::Input,
        Told::Unit,
        Told::Awakeable("sign_1YWJjAAAAEQ", 17),
        Told::Awake,
        Told::Void,
        Told::Handle(18),
    ],
    ending: Ending::Suspended(SUSPENSION_ON_1),
};

/// No signal comes.
const CHOSE_NOT: Run = Run {
    entries: &[Entry::Command(INPUT_TILL), Entry::Command(COMPLETE_1)],
    answers: &[
        Told::Input,
        Told::Unit,
        Told::Awakeable("sign_1YWJjAAAAEQ", 17),
    ],
    ending: Ending::Suspended(SUSPENSION_ON_SIGNAL_17),
};

#[test]
fn changed_state_is_replayed(rt: HostRuntime) -> Result<(), Fail> {
    let keeper = Keeper { alloc: rt.alloc() };
    for run in [KEPT, KEPT_ASLEEP] {
        assert_replays(&rt, rt.alloc(), &keeper, &run)?;
    }
    Ok(())
}

#[test]
fn success_that_was_taken_is_the_output(rt: HostRuntime) -> Result<(), Fail> {
    let chooser = Chooser { alloc: rt.alloc() };
    for run in [CHOSE_SUCCESS, CHOSE_EMPTY_SUCCESS] {
        assert_replays(&rt, rt.alloc(), &chooser, &run)?;
    }
    Ok(())
}

#[test]
fn handler_sleeps_where_no_success_was_taken(rt: HostRuntime) -> Result<(), Fail> {
    let chooser = Chooser { alloc: rt.alloc() };
    for run in [CHOSE_FAILURE, CHOSE_NOTHING] {
        assert_replays(&rt, rt.alloc(), &chooser, &run)?;
    }
    Ok(())
}

#[test]
fn awakeable_that_is_not_completed_suspends(rt: HostRuntime) -> Result<(), Fail> {
    let chooser = Chooser { alloc: rt.alloc() };
    assert_replays(&rt, rt.alloc(), &chooser, &CHOSE_NOT)
}
