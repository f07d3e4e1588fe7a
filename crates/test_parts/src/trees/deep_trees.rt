//! Deep trees alone: made, printed, copied and dropped.
use crate::trees::deep::deep;
use crate::trees::shown::tree_shown;
use await_trees::{UnresolvedFuture, list_nodes};
use journal_protocol::FutureKind;
use std::alloc::Global;
use std::test::Fail;

/// How many nodes the tree has, and how long its text is.
fn measured(alloc: Global, tree: &UnresolvedFuture) -> Result<(usize, usize), Fail> {
    let nodes = list_nodes(alloc, tree)?.len();
    let text = tree_shown(alloc, tree)?;
    Ok((nodes, text.len()))
}

#[test]
fn deep_trees_are_made_printed_copied_and_let_go(rt: HostRuntime) -> Result<(), Fail> {
    let alloc = rt.alloc();
    let tree = deep(alloc, FutureKind::Unknown)?;
    let copy = tree.clone()?;
    drop(tree);
    let found = measured(alloc, &copy)?;
    drop(copy);
    // Each node is `unknown(` and `)`, and the leaf two digits.
    assert!(rt; found == (1_000_001, 9_000_002), "{found:?}");
    Ok(())
}
