// Worlds that a test describes: a key, a state, a seed, a version, and entries that are stored already.
use handlers::counter::Counter;
use handlers::sleeper::Sleeper;
use palqytun::handler::Answer;
use palqytun::testing::{
    JournalFault, Report, WorldBuilder, expect_end, input, output, play, round, sleep, void,
};
use palqytun::vm::{Input, VMOptions, Version};
use std::test::Fail;

/// The input that the one attempt was answered.
fn input_of(reports: &[Report]) -> Result<&Input, Fail> {
    let [report] = reports else {
        return Err(Fail::from("not one report"));
    };
    match report.answers.first() {
        Some(Answer::Input(input)) => Ok(input),
        _ => Err(Fail::from("no input")),
    }
}

#[test]
fn the_count_goes_on_from_the_state(rt: HostRuntime) -> Result<(), Fail> {
    let alloc = rt.alloc();
    let world = WorldBuilder::new(alloc, b"Till")?.key("visits")?;
    // Of two values of one key the last counts.
    let world = world.state("count", b"7")?.state("count", b"41")?;
    let rounds = [round(alloc).feed()?.step(7)?.store_all()?.crash()];
    let (world, reports) = play(&Counter { alloc }, world.build()?, &rounds)?;
    expect_end(&world, &output(alloc, b"42")?)?;
    let input = input_of(reports.as_slice())?;
    assert_eq!(rt; input.key.as_str(), "visits");
    assert!(rt; input.input.as_slice() == b"Till".as_slice());
    Ok(())
}

#[test]
fn a_seed_is_the_identitys_or_the_options(rt: HostRuntime) -> Result<(), Fail> {
    let alloc = rt.alloc();
    let handler = Sleeper { alloc };
    let mut options = VMOptions::default();
    options.fallback_random_seed = 9;
    // Before version 6 a Start has no seed.
    for (version, seed) in [(Version::V5, 9), (Version::V7, 3)] {
        let world = WorldBuilder::new(alloc, b"")?.options(options);
        let world = world.version(version).random_seed(3).build()?;
        let rounds = [round(alloc).feed()?.step(1)?.crash()];
        let (_, reports) = play(&handler, world, &rounds)?;
        assert_eq!(rt; input_of(reports.as_slice())?.random_seed, seed);
    }
    Ok(())
}

#[test]
fn a_stored_sleep_is_not_slept_again(rt: HostRuntime) -> Result<(), Fail> {
    let alloc = rt.alloc();
    let handler = Sleeper { alloc };
    let world = WorldBuilder::new(alloc, b"Till")?.stored(sleep(alloc, 1000, 1)?)?;
    let rounds = [round(alloc).feed()?.step(6)?.store_all()?.crash()];
    let (world, _) = play(&handler, world.stored(void(alloc, 1)?)?.build()?, &rounds)?;
    // Input, Sleep, its completion, Output.
    assert_eq!(rt; world.journal().len(), 4);
    expect_end(&world, &output(alloc, b"")?)?;
    Ok(())
}

#[test]
fn a_journal_from_elsewhere_begins_with_its_input(rt: HostRuntime) -> Result<(), Fail> {
    let alloc = rt.alloc();
    let mut entries = Vec::new(alloc);
    entries.push(input(alloc, b"Till")?)?;
    let world = WorldBuilder::with_journal(alloc, entries)?.build()?;
    assert_eq!(rt; world.journal().len(), 1);
    let mut entries = Vec::new(alloc);
    entries.push(sleep(alloc, 1000, 1)?)?;
    let refused = WorldBuilder::with_journal(alloc, entries)?.build();
    assert!(rt; matches!(refused, Err(JournalFault::BadJournal)));
    Ok(())
}
