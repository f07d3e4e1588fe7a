//! Notifications are used until a tree is awake.
ghost use Rattle.std.specs.Prelude.{◌≡◌, IfOk, OnErr};
ghost use Rattle.await_trees.specs.Tree.{leaf, tree_of};
ghost use Rattle.await_tries.specs.Resolved.{Resolved};

use crate::following::list_courses;
use crate::linking::link;
use crate::pruning::prune;
use crate::residue::{Residue, Resolution};
use crate::using::{use_all, use_first};
use await_trees::{Label, Node, UnresolvedFuture, list_nodes};
use journal_values::SignalDelivery;
use std::alloc::{AllocError, Global};
use vm_parts::AsyncResults;

/// As `try_future`, of the leaf of a handle: there is nothing to walk over.
fn try_leaf(
    alloc: Global,
    results: &mut AsyncResults,
    delivery: SignalDelivery,
    handle: u32,
) -> Result<Resolution, AllocError>
    ensures ok { IfOk result
        (λ answer. Resolved delivery results.old (leaf handle) results.new answer) }
    ensures err { OnErr result (results.new ≡ results.old) }
{
    if let Some(enough) = results.uses_until(handle) {
        use_first(results, enough);
        return Ok(Resolution::AnyCompleted);
    }
    let mut nodes = Vec::with_capacity(alloc, 1)?;
    nodes.push(Node {
        label: Label::Leaf(handle),
        first: 0,
        count: 0,
    })?;
    use_all(results);
    Ok(Resolution::Pending(Residue::new(nodes, Vec::new(alloc))))
}

/// Uses notifications in order of arrival until the future is awake, and no further. If none wakes it, all are used and what is
/// left of it is answered. All memory is taken before the first notification is used: if it runs out, nothing has changed.
pub fn try_future(
    alloc: Global,
    results: &mut AsyncResults,
    delivery: SignalDelivery,
    future: &UnresolvedFuture,
) -> Result<Resolution, AllocError>
    ensures ok { IfOk result
        (λ answer. Resolved delivery results.old (tree_of future.now) results.new answer) }
    ensures err { OnErr result (results.new ≡ results.old) }
{
    if let UnresolvedFuture::Single(handle) = future {
        return try_leaf(alloc, results, delivery, handle.0);
    }
    let mut nodes = list_nodes(alloc, future)?;
    let mut kids = link(alloc, &mut nodes)?;
    let courses = list_courses(alloc, results, delivery, &nodes, &kids)?;
    if let Some(enough) = courses[0].awake() {
        use_first(results, enough);
        return Ok(Resolution::AnyCompleted);
    }
    prune(alloc, &mut nodes, &mut kids, &courses)?;
    use_all(results);
    Ok(Resolution::Pending(Residue::new(nodes, kids)))
}
