//! Trees that are as deep as is asked.
use await_trees::{NotificationHandle, UnresolvedFuture, node_over};
use journal_protocol::FutureKind;
use plain::Items;
use std::alloc::{AllocError, Global};

/// How deep.
pub const DEPTH: usize = 1_000_000;

/// A node of this kind with one child.
fn around(
    alloc: Global,
    kind: FutureKind,
    tree: UnresolvedFuture,
) -> Result<UnresolvedFuture, AllocError> {
    let mut children = Items::new(alloc);
    children.push(tree)?;
    Ok(node_over(kind, children))
}

/// `DEPTH` nodes of this kind, one around the other, around handle 17.
pub fn deep(alloc: Global, kind: FutureKind) -> Result<UnresolvedFuture, AllocError> {
    let mut tree = UnresolvedFuture::Single(NotificationHandle(17));
    for _ in 0..DEPTH {
        tree = around(alloc, kind, tree)?;
    }
    Ok(tree)
}

/// Each kind in its turn.
fn kind_at(level: usize) -> FutureKind {
    match level % 5 {
        0 => FutureKind::FirstCompleted,
        1 => FutureKind::AllCompleted,
        2 => FutureKind::FirstSucceededOrAllFailed,
        3 => FutureKind::AllSucceededOrFirstFailed,
        _ => FutureKind::Unknown,
    }
}

/// The same of all kinds in turn.
pub fn deep_of_all_kinds(alloc: Global) -> Result<UnresolvedFuture, AllocError> {
    let mut tree = UnresolvedFuture::Single(NotificationHandle(17));
    for level in 0..DEPTH {
        tree = around(alloc, kind_at(level), tree)?;
    }
    Ok(tree)
}
