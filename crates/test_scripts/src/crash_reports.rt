// What a report answers: how its attempt ended, which commands it has sent, and its error.
use handlers::sleeper::Sleeper;
use palqytun::testing::{
    Ending, Report, Round, WorldBuilder, expect_answers, expect_commands, expect_ending,
    expect_error, output, play, round, sleep, void, world_of,
};
use std::alloc::{AllocError, Global};
use std::test::Fail;

/// It crashes after its sleep was stored, is suspended in its sleep, and ends once the sleep is over.
fn rounds(alloc: Global) -> Result<[Round; 3], AllocError> {
    let first = round(alloc).feed()?.step(2)?.store_all()?;
    let second = round(alloc).feed()?.close()?.step(3)?;
    let third = round(alloc).arrive(void(alloc, 1)?)?.feed()?;
    Ok([first.crash(), second.crash(), third.step(6)?.crash()])
}

fn expect_sleep(alloc: Global, reports: &[Report]) -> Result<(), Fail> {
    let [first, second, third] = reports else {
        return Err(Fail::from("not three reports"));
    };
    expect_ending(first, Ending::Crashed)?;
    expect_commands(first, &[sleep(alloc, 1000, 1)?])?;
    expect_ending(second, Ending::Suspended)?;
    // It sends no second sleep: it was answered its input and the sleep's handle from the journal.
    expect_answers(second, 2)?;
    expect_commands(second, &[])?;
    expect_ending(third, Ending::Ended)?;
    expect_commands(third, &[output(alloc, b"")?])
}

#[test]
fn the_sleeper_crashes_is_suspended_and_ends(rt: HostRuntime) -> Result<(), Fail> {
    let alloc = rt.alloc();
    let world = world_of(alloc, b"Till")?;
    let (_, reports) = play(&Sleeper { alloc }, world, &rounds(alloc)?)?;
    expect_sleep(alloc, reports.as_slice())
}

#[test]
fn another_handlers_journal_fails_the_attempt(rt: HostRuntime) -> Result<(), Fail> {
    let alloc = rt.alloc();
    // Where the sleeper sleeps, the journal has an output.
    let world = WorldBuilder::new(alloc, b"Till")?.stored(output(alloc, b"Hello")?)?;
    let rounds = [round(alloc).feed()?.step(2)?.crash()];
    let (_, reports) = play(&Sleeper { alloc }, world.build()?, &rounds)?;
    let [report] = reports.as_slice() else {
        return Err(Fail::from("not one report"));
    };
    expect_ending(report, Ending::Failed)?;
    expect_error(report, 570, "CommandTypeMismatchError")?;
    expect_answers(report, 1)?;
    expect_commands(report, &[])
}
