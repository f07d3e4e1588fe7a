// A journal that is loaded, and what comes to it.
use bytes::{Bytes, BytesMut};
use journal_entries::JournalFault;
use journal_protocol::{Decoder, Version};
use journal_store::{StoredJournal, store_from};
use std::alloc::Global;
use std::test::Fail;
use test_support::frames::{COMPLETION_1, COMPLETION_9, INPUT_TILL, SIGNAL_17, SLEEP_TO_1000};

/// A run with the name "a", completed under id 2.
const RUN_2: &[u8] = b"\0\x1a\0\0\0\0\0\0\0\x0d\
    \0\0\0\0\0\0\0\x01a\
    \0\0\0\x02";

/// Id 2 is completed, with nothing.
const COMPLETION_2: &[u8] = b"\0\x1e\0\0\0\0\0\0\0\x06\
    \0\0\0\0\x02\
    \0";

/// The run under id 2 gave "x".
const PROPOSAL_2: &[u8] = b"\0\x05\0\0\0\0\0\0\0\x0e\
    \0\0\0\x02\
    \0\
    \0\0\0\0\0\0\0\x01x";

/// Id 2 is completed, with "x".
const COMPLETION_2_X: &[u8] = b"\0\x1e\0\0\0\0\0\0\0\x0f\
    \0\0\0\0\x02\
    \x01\
    \0\0\0\0\0\0\0\x01x";

/// The proposal for the run under id 2 is stored.
const ACKNOWLEDGEMENT_2: &[u8] = b"\0\x06\0\0\0\0\0\0\0\x04\
    \0\0\0\x02";

/// A journal of these entries.
fn loaded(alloc: Global, entries: &[&'static [u8]]) -> Result<StoredJournal, JournalFault> {
    let mut journal = StoredJournal::new(alloc);
    for entry in entries {
        journal.entry(alloc, &Bytes::from_static(entry))?;
    }
    if journal.keep().is_err() {
        return Err(JournalFault::Memory);
    }
    Ok(journal)
}

/// What a frame's arrival answers.
fn arrives(
    alloc: Global,
    journal: &mut StoredJournal,
    frame: &'static [u8],
) -> Option<JournalFault> {
    match journal.arrive(alloc, &Bytes::from_static(frame)) {
        Ok(_) => None,
        Err(fault) => Some(fault),
    }
}

#[test]
fn an_id_is_completed_once(rt: HostRuntime) -> Result<(), Fail> {
    let alloc = rt.alloc();
    let mut journal = loaded(alloc, &[INPUT_TILL, SLEEP_TO_1000])
        .ok()
        .ok_or("not loaded")?;
    assert!(rt; arrives(alloc, &mut journal, COMPLETION_9) == Some(JournalFault::NoSuchId));
    assert!(rt; arrives(alloc, &mut journal, INPUT_TILL) == Some(JournalFault::NotANotification));
    assert!(rt; arrives(alloc, &mut journal, COMPLETION_1).is_none());
    assert!(rt; arrives(alloc, &mut journal, COMPLETION_1) == Some(JournalFault::SecondCompletion));
    assert!(rt; journal.entries() == 3);
    Ok(())
}

#[test]
fn a_signal_arrives_as_often_as_it_comes(rt: HostRuntime) -> Result<(), Fail> {
    let alloc = rt.alloc();
    let mut journal = loaded(alloc, &[INPUT_TILL]).ok().ok_or("not loaded")?;
    assert!(rt; arrives(alloc, &mut journal, SIGNAL_17).is_none());
    assert!(rt; arrives(alloc, &mut journal, SIGNAL_17).is_none());
    assert!(rt; journal.entries() == 3);
    Ok(())
}

#[test]
fn what_was_not_committed_is_undone(rt: HostRuntime) -> Result<(), Fail> {
    let alloc = rt.alloc();
    let mut journal = loaded(alloc, &[INPUT_TILL, SLEEP_TO_1000])
        .ok()
        .ok_or("not loaded")?;
    assert!(rt; arrives(alloc, &mut journal, COMPLETION_1).is_none());
    journal.undo();
    assert!(rt; journal.entries() == 2);
    assert!(rt; arrives(alloc, &mut journal, COMPLETION_1).is_none());
    journal.keep()?;
    journal.undo();
    assert!(rt; journal.entries() == 3);
    assert!(rt; arrives(alloc, &mut journal, COMPLETION_1) == Some(JournalFault::SecondCompletion));
    Ok(())
}

#[test]
fn a_journal_begins_with_an_input(rt: HostRuntime) {
    let alloc = rt.alloc();
    assert!(rt;
        matches!(
            loaded(alloc, &[SLEEP_TO_1000]),
            Err(JournalFault::BadJournal)
        )
    );
    assert!(rt;
        matches!(
            loaded(alloc, &[INPUT_TILL, COMPLETION_1]),
            Err(JournalFault::NoSuchId)
        )
    );
}

#[test]
fn a_run_is_completed_by_its_proposal(rt: HostRuntime) -> Result<(), Fail> {
    let alloc = rt.alloc();
    let mut journal = loaded(alloc, &[INPUT_TILL]).ok().ok_or("not loaded")?;
    let mut output = Decoder::new(alloc);
    output.push(Bytes::from_static(RUN_2))?;
    let mut entries = Vec::new(alloc);
    let mut feed = BytesMut::new(alloc);
    let stored = store_from(
        alloc,
        Version::V7,
        &mut journal,
        &mut entries,
        &mut feed,
        &mut output,
        9,
    );
    assert!(rt; stored.is_ok() && entries.len() == 1 && entries[0].as_slice() == RUN_2);
    assert!(rt; arrives(alloc, &mut journal, COMPLETION_2) == Some(JournalFault::RunIsProposed));
    output.push(Bytes::from_static(PROPOSAL_2))?;
    let stored = store_from(
        alloc,
        Version::V7,
        &mut journal,
        &mut entries,
        &mut feed,
        &mut output,
        9,
    );
    assert!(rt; stored.is_ok() && entries.len() == 2 && entries[1].as_slice() == COMPLETION_2_X);
    assert!(rt; feed.as_slice() == ACKNOWLEDGEMENT_2);
    output.push(Bytes::from_static(PROPOSAL_2))?;
    let stored = store_from(
        alloc,
        Version::V7,
        &mut journal,
        &mut entries,
        &mut feed,
        &mut output,
        9,
    );
    assert!(rt; stored == Err(JournalFault::SecondCompletion));
    Ok(())
}
