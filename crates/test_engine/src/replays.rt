// The check before a new version of a handler takes over, on a journal that an engine has stored, with each of its outcomes.
use crate::bench::{Loss, member_at, played, targets, with_loss};
use bytes::Bytes;
use call_lines::plan::Plan;
use engine_inboxes::Target;
use journal_entries::JournalFault;
use journal_protocol::Version;
use plain::{Items, Text};
use std::alloc::{AllocError, Global};
use std::process::Abort;
use std::test::Fail;
use vm_types::VMOptions;
use world_laws::{ReplayOutcome, check_replay};
use world_rounds::{Identity, Setting};

const PARENT: usize = 0;

const CHILD: usize = 1;

fn setting(alloc: Global, version: Version) -> Result<Setting, AllocError> {
    Ok(Setting {
        identity: Identity {
            debug_id: Text::from_str(alloc, "inv_0")?,
            id: Bytes::from_static(b"inv_0"),
            key: Text::empty(alloc),
            idempotency_key: None,
            limit_key: None,
            scope: None,
            random_seed: 7,
        },
        options: VMOptions::default(),
        version,
        base: Items::new(alloc),
    })
}

/// The entries of the parent's journal from this place to that one, once all has ended.
fn stored(
    alloc: Global,
    targets: &[Target<Plan>],
    from: usize,
    to: usize,
) -> Result<Vec<Bytes>, Fail> {
    let mut course = with_loss(usize::MAX, Loss::Crash);
    let engine = played(alloc, targets, &mut course, "run")?;
    let Some(member) = member_at(&engine, 0) else {
        return Err(Fail::from("no member"));
    };
    let mut entries = Vec::new(alloc);
    for (place, entry) in member.journal().iter().enumerate() {
        if from <= place && place < to {
            entries.push(entry.clone()?)?;
        }
    }
    Ok(entries)
}

/// What the check of these entries shows for the handler at this place.
fn checked(
    alloc: Global,
    targets: &[Target<Plan>],
    place: usize,
    version: Version,
    entries: Vec<Bytes>,
    steps: u64,
) -> Result<Result<ReplayOutcome, JournalFault>, Fail> {
    let Some(target) = targets.get(place) else {
        return Err(Fail::from("no handler"));
    };
    let setting = setting(alloc, version)?;
    Ok(check_replay(alloc, &target.code, &setting, entries, steps))
}

#[test]
fn the_handler_goes_on_with_each_journal_that_was_stored(rt: HostRuntime) -> Result<(), Fail> {
    let alloc = rt.alloc();
    let targets = targets(alloc)?;
    let targets = targets.as_slice();
    let whole = stored(alloc, targets, 0, usize::MAX)?.len();
    println!(rt; "{whole} entries")?;
    for missing in 0..whole {
        let entries = stored(alloc, targets, 0, whole.saturating_sub(missing))?;
        let shown = checked(alloc, targets, PARENT, Version::V7, entries, 99)?;
        assert!(rt; matches!(shown, Ok(ReplayOutcome::GoesOn)));
    }
    Ok(())
}

#[test]
fn another_handler_differs(rt: HostRuntime) -> Result<(), Fail> {
    let alloc = rt.alloc();
    let targets = targets(alloc)?;
    let targets = targets.as_slice();
    let entries = stored(alloc, targets, 0, usize::MAX)?;
    let shown = checked(alloc, targets, CHILD, Version::V7, entries, 99)?;
    let Ok(ReplayOutcome::Differs(error)) = shown else {
        return Err(Fail::from("it doesn't differ"));
    };
    assert_eq!(rt; error.code(), 570);
    assert_eq!(rt;
        error.related_command.as_ref().ok_or("no command")?.index,
        1
    );
    Ok(())
}

#[test]
fn a_version_may_be_unsupported(rt: HostRuntime) -> Result<(), Fail> {
    let alloc = rt.alloc();
    let targets = targets(alloc)?;
    let targets = targets.as_slice();
    let entries = stored(alloc, targets, 0, usize::MAX)?;
    let shown = checked(alloc, targets, PARENT, Version::V4, entries, 99)?;
    let Ok(ReplayOutcome::UnsupportedVersion(error)) = shown else {
        return Err(Fail::from("it is supported"));
    };
    assert_eq!(rt; error.code(), 415);
    Ok(())
}

#[test]
fn steps_may_be_too_few(rt: HostRuntime) -> Result<(), Fail> {
    let alloc = rt.alloc();
    let targets = targets(alloc)?;
    let targets = targets.as_slice();
    let entries = stored(alloc, targets, 0, usize::MAX)?;
    let shown = checked(alloc, targets, PARENT, Version::V7, entries, 1)?;
    assert!(rt; matches!(shown, Ok(ReplayOutcome::TooFewSteps)));
    Ok(())
}

#[test]
fn entries_that_are_no_journal_have_a_fault(rt: HostRuntime) -> Result<(), Fail> {
    let alloc = rt.alloc();
    let targets = targets(alloc)?;
    let targets = targets.as_slice();
    let entries = stored(alloc, targets, 1, usize::MAX)?;
    let shown = checked(alloc, targets, PARENT, Version::V7, entries, 99)?;
    assert!(rt; matches!(shown, Err(JournalFault::BadJournal)));
    Ok(())
}

/// The parent's answers up to its last command: the input, and one for each of its lines but the end.
const ANSWERS: u64 = 9;

#[test]
fn a_step_for_each_answer_is_enough(rt: HostRuntime) -> Result<(), Fail> {
    let alloc = rt.alloc();
    let targets = targets(alloc)?;
    let targets = targets.as_slice();
    for steps in 0..2 * ANSWERS {
        let entries = stored(alloc, targets, 0, usize::MAX)?;
        let shown = checked(alloc, targets, PARENT, Version::V7, entries, steps)?;
        if steps < ANSWERS {
            assert!(rt; matches!(shown, Ok(ReplayOutcome::TooFewSteps)));
        } else {
            assert!(rt; matches!(shown, Ok(ReplayOutcome::GoesOn)));
        }
    }
    Ok(())
}
