// What the tests of rounds share: worlds of the invocation "abc" in version 7, rounds as constants, and what they leave.
use bytes::Bytes;
use journal_protocol::Version;
use plain::{Items, Text};
use std::alloc::{AllocError, Global};
use std::process::Abort;
use std::test::Fail;
use vm_types::{Handler, VMOptions};
use world_rounds::{Event, Identity, Report, Round, World, run_rounds};

/// What happens in a round.
#[derive(Clone, Copy, Debug)]
pub enum Happens {
    /// All that waits is fed.
    Feed,
    Step,
    Arrive(&'static [u8]),
    Store(usize),
}

fn event(happens: Happens) -> Event {
    match happens {
        Happens::Feed => Event::Piece(usize::MAX),
        Happens::Step => Event::Step,
        Happens::Arrive(frame) => Event::Arrive(Bytes::from_static(frame)),
        Happens::Store(n) => Event::Store(n),
    }
}

pub fn identity(alloc: Global) -> Result<Identity, AllocError> {
    Ok(Identity {
        id: Bytes::from_static(b"abc"),
        debug_id: Text::from_str(alloc, "abc")?,
        key: Text::empty(alloc),
        random_seed: 0,
        scope: None,
        limit_key: None,
        idempotency_key: None,
    })
}

/// A new world with the input "Till" and this state.
pub fn world(alloc: Global, state: Vec<(String, Bytes)>) -> Result<World, Fail> {
    let identity = identity(alloc)?;
    let input = Bytes::from_static(b"Till");
    let made = World::new(
        alloc,
        identity,
        VMOptions::default(),
        Version::V7,
        input,
        state,
    );
    Ok(made.ok().ok_or("no world")?)
}

fn events(alloc: Global, all: &[Happens]) -> Result<Items<Event>, AllocError> {
    let mut events = Items::new(alloc);
    for happens in all {
        events.push(event(*happens))?;
    }
    Ok(events)
}

/// A round in which this happens, one after another; the whole state is handed out.
fn round(alloc: Global, all: &[Happens]) -> Result<Round, AllocError> {
    let events = events(alloc, all)?;
    Ok(Round {
        partial: false,
        keys: Items::new(alloc),
        retry_count: 0,
        duration: 0,
        events,
    })
}

/// Rounds in which this happens.
fn rounds(alloc: Global, all: &[&[Happens]]) -> Result<Vec<Round>, AllocError> {
    let mut rounds = Vec::new(alloc);
    for events in all {
        rounds.push(round(alloc, *events)?)?;
    }
    Ok(rounds)
}

/// The world and the reports after these rounds of a new world.
pub fn played<H: Handler>(
    alloc: Global,
    handler: &H,
    state: Vec<(String, Bytes)>,
    all: &[&[Happens]],
) -> Result<(World, Vec<Report>), Fail> {
    let rounds = rounds(alloc, all)?;
    let world = world(alloc, state)?;
    match run_rounds(handler, world, rounds.as_slice()) {
        Ok(played) => Ok(played),
        Err(fault) => Err(Fail::new(format_args!("{fault:?}"))),
    }
}

/// The journal has these entries.
pub fn assert_journal(rt: &impl Abort, journal: &[Bytes], wanted: &[&[u8]]) {
    assert_eq!(rt; journal.len(), wanted.len());
    for (entry, frame) in journal.iter().zip(wanted) {
        assert!(rt; entry.as_slice() == *frame);
    }
}
