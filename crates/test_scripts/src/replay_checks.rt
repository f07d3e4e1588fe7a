// The check before a new version of a handler takes over, by the front door, on journals that crash tests have left; and handlers that are
// another one in each attempt: one that is of a family, and one that isn't.
use bytes::Bytes;
use call_lines::plan::Plan;
use call_lines::reading::plan_of;
use examples::nap::Nap;
use examples::retry::Retry;
use examples::sleeper::Sleeper;
use palqytun::handler::{Answer, Durable, Handler};
use palqytun::replay::{ReplayOutcome, Setting, check_replay};
use palqytun::testing::{
    Identity, JournalFault, World, crash_at_each_step, expect_end, expect_entry, output, play,
    round, sleep, void, world_of,
};
use palqytun::vm::{Items, Text, VMOptions, Value, Version};
use std::alloc::{AllocError, Global};
use std::test::Fail;
use std::time::Duration;

fn setting(alloc: Global) -> Result<Setting, AllocError> {
    Ok(Setting {
        identity: Identity {
            debug_id: Text::from_str(alloc, "test")?,
            id: Bytes::from_static(b"test"),
            key: Text::empty(alloc),
            idempotency_key: None,
            limit_key: None,
            scope: None,
            random_seed: 0,
        },
        options: VMOptions::default(),
        version: Version::V7,
        base: Items::new(alloc),
    })
}

/// What the check of a world's journal shows for a handler.
fn checked<H: Handler>(
    alloc: Global,
    handler: &H,
    world: &World,
    steps: u64,
) -> Result<Result<ReplayOutcome, JournalFault>, AllocError> {
    let mut entries = Vec::new(alloc);
    for entry in world.journal() {
        entries.push(entry.clone()?)?;
    }
    Ok(check_replay(alloc, handler, &setting(alloc)?, entries, steps))
}

/// The sleeper's answers up to its last command: the input, the sleep, the await, the take and the output.
const ANSWERS: u64 = 5;

#[test]
fn a_handler_goes_on_with_a_step_for_each_answer(rt: HostRuntime) -> Result<(), Fail> {
    let alloc = rt.alloc();
    let handler = Durable {
        alloc,
        flow: Sleeper,
    };
    let arrivals = [(2, void(alloc, 1)?)];
    let world = crash_at_each_step(alloc, &handler, world_of(alloc, b"Till")?, 6, &arrivals)?;
    for steps in 0..2 * ANSWERS {
        let shown = checked(alloc, &handler, &world, steps)?;
        if steps < ANSWERS {
            assert!(rt; matches!(shown, Ok(ReplayOutcome::TooFewSteps)));
        } else {
            assert!(rt; matches!(shown, Ok(ReplayOutcome::GoesOn)));
        }
    }
    Ok(())
}

#[test]
fn another_handler_doesnt_take_over(rt: HostRuntime) -> Result<(), Fail> {
    let alloc = rt.alloc();
    let handler = Durable {
        alloc,
        flow: Sleeper,
    };
    let arrivals = [(2, void(alloc, 1)?)];
    let world = crash_at_each_step(alloc, &handler, world_of(alloc, b"Till")?, 6, &arrivals)?;
    let other = Durable { alloc, flow: Retry };
    let Ok(ReplayOutcome::Differs(error)) = checked(alloc, &other, &world, 99)? else {
        return Err(Fail::from("it doesn't differ"));
    };
    assert_eq!(rt; error.code(), 570);
    Ok(())
}

/// A nap of this many seconds since the Unix epoch.
fn nap(alloc: Global, until: u64) -> Nap {
    Nap {
        alloc,
        until: Duration::from_secs(until),
    }
}

#[test]
fn a_nap_keeps_its_first_time(rt: HostRuntime) -> Result<(), Fail> {
    let alloc = rt.alloc();
    let sleeps = [round(alloc).feed()?.step(3)?.store_all()?.crash()];
    let (world, _) = play(&nap(alloc, 5), world_of(alloc, b"Till")?, &sleeps)?;
    // The second attempt would sleep until 9.
    let later = nap(alloc, 9);
    assert!(rt;
        matches!(
            checked(alloc, &later, &world, 9)?,
            Ok(ReplayOutcome::GoesOn)
        )
    );
    let wakes = [
        round(alloc).arrive(void(alloc, 1)?)?.crash(),
        round(alloc).feed()?.step(6)?.store_all()?.crash(),
    ];
    let (world, _) = play(&later, world, &wakes)?;
    expect_entry(&world, 1, &sleep(alloc, 5000, 1)?)?;
    expect_end(&world, &output(alloc, b"")?)?;
    Ok(())
}

/// It sets the key "k" to this value, whose bytes aren't compared in replay, and reads it twice.
fn setter(alloc: Global, value: &str) -> Result<Plan, Fail> {
    let mut lines = Vec::new(alloc);
    lines.push(format!(in alloc; "set \"k\" \"{value}\" unstable")?)?;
    for line in ["get \"k\"", "take 17", "get \"k\"", "take 18", "end"] {
        lines.push(String::from_str(alloc, line)?)?;
    }
    Ok(plan_of(alloc, lines.as_slice()).ok().ok_or("no plan")?)
}

/// The value that was taken as this answer.
fn taken(answers: &[Answer], at: usize) -> Result<&[u8], Fail> {
    match answers.get(at) {
        Some(Answer::Taken(Some(Value::Success(bytes)))) => Ok(bytes.as_slice()),
        _ => Err(Fail::from("no value")),
    }
}

// Why two handlers that set a key to different values are no family, although replay can't tell them apart: an eager read that the second
// records has its own value, and the state that the next attempt is handed has the recorded one. So a later read of the same key has another
// value, with no call between them that sets it.
#[test]
fn a_value_that_is_set_otherwise_leaves_another_state(rt: HostRuntime) -> Result<(), Fail> {
    let alloc = rt.alloc();
    let (one, other) = (setter(alloc, "a")?, setter(alloc, "b")?);
    let sets = [round(alloc).feed()?.step(2)?.store_all()?.crash()];
    let (world, _) = play(&one, world_of(alloc, b"Till")?, &sets)?;
    let reads = [round(alloc).feed()?.step(4)?.store_all()?.crash()];
    let (world, reports) = play(&other, world, &reads)?;
    let report = reports.first().ok_or("no report")?;
    assert!(rt; taken(report.answers.as_slice(), 3)? == b"b".as_slice());
    let again = [round(alloc).feed()?.step(6)?.store_all()?.crash()];
    let (_, reports) = play(&one, world, &again)?;
    let report = reports.first().ok_or("no report")?;
    assert!(rt; taken(report.answers.as_slice(), 3)? == b"b".as_slice());
    assert!(rt; taken(report.answers.as_slice(), 5)? == b"a".as_slice());
    Ok(())
}
