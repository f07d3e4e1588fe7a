// Journals of another handler: at each of its commands a handler makes another call than the journal has.
// It is refused there with one Error frame, and the answers so far stay.
use crate::chooser::Chooser;
use crate::cuts::assert_recorded;
use crate::frames::{
    ANOTHER_CLEAR_AT_1, ANOTHER_COMPLETE_AT_1, ANOTHER_OUTPUT_AT_2, ANOTHER_SET_AT_2, CLEAR_A,
    CLEAR_C, COMPLETE_1, COMPLETE_2, NO_CLEAR_AT_1, NO_OUTPUT_AT_2, NO_OUTPUT_AT_4, NO_SET_AT_2,
    NO_SLEEP_AT_2, NO_SLEEP_AT_3, OUTPUT_Y, SET_B, SET_B_TO_Y, SIGNAL_17_X,
};
use crate::keeper::Keeper;
use crate::told::Told;
use crate::whole_runs::{Ending, Entry, Run};
use std::test::Fail;
use test_support::frames::{
    COMPLETION_1, ERROR_STATE, INPUT_TILL, OUTPUT_EMPTY, OUTPUT_X, SIGNAL_17, SLEEP_TO_1000,
};

static KEEPER: [Run; 7] = [
    Run {
        entries: &[Entry::Command(INPUT_TILL), Entry::Command(SET_B)],
        answers: &[Told::Input],
        ending: Ending::Refused(570, "CommandTypeMismatchError", NO_CLEAR_AT_1),
    },
    Run {
        entries: &[Entry::Command(INPUT_TILL), Entry::Command(CLEAR_C)],
        answers: &[Told::Input],
        ending: Ending::Refused(570, "CommandMismatchError", ANOTHER_CLEAR_AT_1),
    },
    Run {
        entries: &[
            Entry::Command(INPUT_TILL),
            Entry::Command(CLEAR_A),
            Entry::Command(CLEAR_A),
        ],
        answers: &[Told::Input, Told::Unit],
        ending: Ending::Refused(570, "CommandTypeMismatchError", NO_SET_AT_2),
    },
    Run {
        entries: &[
            Entry::Command(INPUT_TILL),
            Entry::Command(CLEAR_A),
            Entry::Command(SET_B_TO_Y),
        ],
        answers: &[Told::Input, Told::Unit],
        ending: Ending::Refused(570, "CommandMismatchError", ANOTHER_SET_AT_2),
    },
    Run {
        entries: &[
            Entry::Command(INPUT_TILL),
            Entry::Command(CLEAR_A),
            Entry::Command(SET_B),
            Entry::Command(OUTPUT_EMPTY),
        ],
        answers: &[Told::Input, Told::Unit, Told::Unit],
        ending: Ending::Refused(570, "CommandTypeMismatchError", NO_SLEEP_AT_3),
    },
    Run {
        entries: &[
            Entry::Command(INPUT_TILL),
            Entry::Command(CLEAR_A),
            Entry::Command(SET_B),
            Entry::Command(SLEEP_TO_1000),
            Entry::Notification(COMPLETION_1),
            Entry::Command(SLEEP_TO_1000),
        ],
        answers: &[
            Told::Input,
            Told::Unit,
            Told::Unit,
            Told::Handle(17),
            Told::Awake,
            Told::Void,
        ],
        ending: Ending::Refused(570, "CommandTypeMismatchError", NO_OUTPUT_AT_4),
    },
    // The journal goes on where the handler ends.
    Run {
        entries: &[
            Entry::Command(INPUT_TILL),
            Entry::Command(CLEAR_A),
            Entry::Command(SET_B),
            Entry::Command(SLEEP_TO_1000),
            Entry::Notification(COMPLETION_1),
            Entry::Command(OUTPUT_EMPTY),
            Entry::Command(OUTPUT_EMPTY),
        ],
        answers: &[
            Told::Input,
            Told::Unit,
            Told::Unit,
            Told::Handle(17),
            Told::Awake,
            Told::Void,
            Told::Unit,
        ],
        ending: Ending::Refused(571, "UnexpectedStateError", ERROR_STATE),
    },
];

static CHOOSER: [Run; 4] = [
    Run {
        entries: &[Entry::Command(INPUT_TILL), Entry::Command(COMPLETE_2)],
        answers: &[Told::Input],
        ending: Ending::Refused(570, "CommandMismatchError", ANOTHER_COMPLETE_AT_1),
    },
    // The journal sleeps, and the handler took a success.
    Run {
        entries: &[
            Entry::Command(INPUT_TILL),
            Entry::Command(COMPLETE_1),
            Entry::Notification(SIGNAL_17_X),
            Entry::Command(SLEEP_TO_1000),
        ],
        answers: &[
            Told::Input,
            Told::Unit,
            Told::Awakeable("sign_1YWJjAAAAEQ", 17),
            Told::Awake,
            Told::Success(b"x"),
        ],
        ending: Ending::Refused(570, "CommandTypeMismatchError", NO_OUTPUT_AT_2),
    },
    // The journal has an output, and the handler took nothing.
    Run {
        entries: &[
            Entry::Command(INPUT_TILL),
            Entry::Command(COMPLETE_1),
            Entry::Notification(SIGNAL_17),
            Entry::Command(OUTPUT_X),
        ],
        answers: &[
            Told::Input,
            Told::Unit,
            Told::Awakeable("sign_1YWJjAAAAEQ", 17),
            Told::Awake,
            Told::Void,
        ],
        ending: Ending::Refused(570, "CommandTypeMismatchError", NO_SLEEP_AT_2),
    },
    // The journal's output isn't what the handler took.
    Run {
        entries: &[
            Entry::Command(INPUT_TILL),
            Entry::Command(COMPLETE_1),
            Entry::Notification(SIGNAL_17_X),
            Entry::Command(OUTPUT_Y),
        ],
        answers: &[
            Told::Input,
            Told::Unit,
            Told::Awakeable("sign_1YWJjAAAAEQ", 17),
            Told::Awake,
            Told::Success(b"x"),
        ],
        ending: Ending::Refused(570, "CommandMismatchError", ANOTHER_OUTPUT_AT_2),
    },
];

#[test]
fn other_calls_of_the_state_are_refused(rt: HostRuntime) -> Result<(), Fail> {
    let keeper = Keeper { alloc: rt.alloc() };
    for run in &KEEPER {
        assert_recorded(&rt, rt.alloc(), &keeper, run)?;
    }
    Ok(())
}

#[test]
fn other_branches_are_refused(rt: HostRuntime) -> Result<(), Fail> {
    let chooser = Chooser { alloc: rt.alloc() };
    for run in &CHOOSER {
        assert_recorded(&rt, rt.alloc(), &chooser, run)?;
    }
    Ok(())
}
