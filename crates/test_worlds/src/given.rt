// Worlds whose journal is given, as a runtime makes one. Worked journals and their faults stand as text in `crates/vmrounds/rows`.
use crate::bench::{assert_journal, identity};
use bytes::Bytes;
use journal_entries::JournalFault;
use journal_protocol::Version;
use std::alloc::Global;
use std::test::Fail;
use test_support::frames::{COMPLETION_1, INPUT_TILL, SLEEP_TO_1000};
use vm_types::VMOptions;
use world_rounds::World;

/// The world of the invocation "abc" with these entries.
fn given(alloc: Global, entries: Vec<Bytes>) -> Result<World, JournalFault> {
    let Ok(identity) = identity(alloc) else {
        return Err(JournalFault::Memory);
    };
    World::with_journal(
        alloc,
        identity,
        VMOptions::default(),
        Version::V7,
        Vec::new(alloc),
        entries,
    )
}

#[test]
fn entries_are_the_journal(rt: HostRuntime) -> Result<(), Fail> {
    let alloc = rt.alloc();
    let mut entries = Vec::new(alloc);
    for frame in [INPUT_TILL, SLEEP_TO_1000, COMPLETION_1] {
        entries.push(Bytes::from_static(frame))?;
    }
    let world = given(alloc, entries).ok().ok_or("no world")?;
    assert_journal(
        &rt,
        world.journal(),
        &[INPUT_TILL, SLEEP_TO_1000, COMPLETION_1],
    );
    Ok(())
}

#[test]
fn no_entries_make_no_world(rt: HostRuntime) {
    let made = given(rt.alloc(), Vec::new(rt.alloc()));
    assert!(rt; matches!(made, Err(JournalFault::BadJournal)));
}
