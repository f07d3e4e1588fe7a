// Worked rounds, as a test of a handler of one's own is written: a sleep that is over in the second round.
use crate::bench::Happens::{self, Arrive, Feed, Step, Store};
use crate::bench::{assert_journal, played};
use crate::told::{Told, expect_answers};
use handlers::sleeper::Sleeper;
use std::alloc::Global;
use std::process::Abort;
use std::test::Fail;
use test_support::frames::{
    AWAITING_ON_1, COMPLETION_1, END, INPUT_TILL, OUTPUT_EMPTY, SLEEP_TO_1000,
};
use world_rounds::Report;

/// The report has these answers, this output and this many entries, and no error.
fn assert_report(
    rt: &impl Abort,
    report: &Report,
    answers: &[Told],
    output: &[u8],
    entries: u32,
) -> Result<(), Fail> {
    assert!(rt; report.output.as_slice() == output);
    assert!(rt; report.error.is_none());
    assert_eq!(rt; report.entries, entries);
    expect_answers(report.answers.as_slice(), answers)
}

const SLEEPS: &[Happens] = &[Feed, Step, Step, Store(1)];

/// The first three steps end at an await that waits.
const WAKES: &[Happens] = &[
    Feed,
    Step,
    Step,
    Step,
    Arrive(COMPLETION_1),
    Feed,
    Step,
    Step,
    Step,
    Step,
    Store(1),
];

const TOLD: &[Told] = &[
    Told::Input,
    Told::Handle(17),
    Told::Awake,
    Told::Void,
    Told::Unit,
];

/// What the first round reports, and the second.
fn assert_reports(rt: &impl Abort, alloc: Global, reports: &[Report]) -> Result<(), Fail> {
    let [first, second] = reports else {
        return Err(Fail::from("not two reports"));
    };
    let asleep: &[Told] = &[Told::Input, Told::Handle(17)];
    assert_report(rt, first, asleep, SLEEP_TO_1000, 2)?;
    let output = [AWAITING_ON_1, OUTPUT_EMPTY, END].concat(alloc)?;
    assert_report(rt, second, TOLD, output.as_slice(), 4)
}

#[test]
fn a_sleep_is_over_in_the_second_round(rt: HostRuntime) -> Result<(), Fail> {
    let alloc = rt.alloc();
    let handler = Sleeper { alloc };
    let (world, reports) = played(alloc, &handler, Vec::new(alloc), &[SLEEPS, WAKES])?;
    assert_journal(
        &rt,
        world.journal(),
        &[INPUT_TILL, SLEEP_TO_1000, COMPLETION_1, OUTPUT_EMPTY],
    );
    assert_reports(&rt, alloc, reports.as_slice())
}
