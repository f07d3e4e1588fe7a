//! Tries of deep trees, and what is sent of them.
use crate::trees::deep::deep_of_all_kinds;
use crate::trees::rows::{arrive, map, mapped};
use await_trees::UnresolvedFuture;
use await_tries::{Residue, Resolution, future_of, list_handles, try_future};
use bytes::Bytes;
use journal_protocol::{Future, SignalDelivery};
use plain::Fault;
use std::alloc::{AllocError, Global};
use std::process::Abort;
use std::test::Fail;
use vm_parts::AsyncResults;
use wire::Wire;

/// What a try leaves: its only handle, if it has one, and what is sent: how many nodes, in how many bytes, and how
/// many nodes are read from them.
#[derive(Clone, Copy)]
struct Sent {
    handle: Option<u32>,
    measures: [usize; 3],
}

fn spelled(alloc: Global, future: &Future) -> Result<Vec<u8>, AllocError> {
    let mut bytes = Vec::new(alloc);
    future.put(&mut bytes)?;
    Ok(bytes)
}

/// How many nodes the future has that is read from these bytes.
fn nodes_read(alloc: Global, bytes: Vec<u8>) -> Result<usize, Fault> {
    let mut bytes = Bytes::from_vec(bytes)?;
    let read = Future::get(alloc, &mut bytes);
    drop(bytes);
    Ok(read?.nodes().len())
}

fn measured(alloc: Global, future: &Future) -> Result<[usize; 3], Fault> {
    let bytes = spelled(alloc, future)?;
    let len = bytes.len();
    Ok([future.nodes().len(), len, nodes_read(alloc, bytes)?])
}

fn future_measured(
    alloc: Global,
    results: &AsyncResults,
    left: &Residue,
) -> Result<[usize; 3], Fault> {
    let future = future_of(alloc, results, left)?;
    measured(alloc, &future)
}

fn lone_handle(alloc: Global, left: &Residue) -> Result<Option<u32>, AllocError> {
    let handles = list_handles(alloc, left)?;
    Ok(match handles.as_slice() {
        [handle] => Some(*handle),
        _ => None,
    })
}

fn sent_of(alloc: Global, results: &AsyncResults, left: &Residue) -> Result<Sent, Fault> {
    Ok(Sent {
        handle: lone_handle(alloc, left)?,
        measures: future_measured(alloc, results, left)?,
    })
}

/// What a try leaves; none if the tree is awake.
fn asked(
    alloc: Global,
    results: &mut AsyncResults,
    tree: &UnresolvedFuture,
) -> Result<Option<Sent>, Fail> {
    match try_future(alloc, results, SignalDelivery::Queued, tree)? {
        Resolution::AnyCompleted => Ok(None),
        Resolution::Pending(left) => Ok(Some(sent_of(alloc, results, &left)?)),
    }
}

/// Fails unless the tree waits for its leaf, which stands for completion 1, and is awake once that is completed.
fn assert_waits_and_wakes(
    rt: &impl Abort,
    alloc: Global,
    results: &mut AsyncResults,
    tree: &UnresolvedFuture,
) -> Result<(), Fail> {
    map(alloc, results, "17 1")?;
    let left = asked(alloc, results, tree)?.ok_or("it is awake")?;
    assert!(rt; left.handle == Some(17));
    // Each node is its kind and four counts, and the innermost lists one completion.
    assert!(rt; left.measures == [1_000_000, 33_000_004, 1_000_000]);
    arrive(alloc, results, "s1")?;
    assert!(rt; asked(alloc, results, tree)?.is_none());
    Ok(())
}

fn assert_tried(rt: &impl Abort, alloc: Global, tree: &UnresolvedFuture) -> Result<(), Fail> {
    let mut results = mapped(alloc, "")?;
    let held = assert_waits_and_wakes(rt, alloc, &mut results, tree);
    drop(results);
    held
}

/// One tree that has all kinds of nodes: each try of a million nodes takes seconds.
#[test]
fn deep_trees_are_tried_and_sent(rt: HostRuntime) -> Result<(), Fail> {
    let tree = deep_of_all_kinds(rt.alloc())?;
    let held = assert_tried(&rt, rt.alloc(), &tree);
    drop(tree);
    held
}
