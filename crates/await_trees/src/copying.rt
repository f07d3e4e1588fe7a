//! A copy of a tree, by a loop: from its nodes, the last one first, with a stack of the trees that were copied.
ghost use Rattle.std.specs.Prelude.{◌≡◌, ◌≤◌, ◌++◌, IfOk, length, take, drop, reverse, Some};
ghost use Rattle.await_trees.specs.Copies.{future_node, future_at};
ghost use Rattle.await_trees.specs.Preorder.{preorder};
ghost use Rattle.await_trees.specs.Tree.{Tree};

use crate::handle::NotificationHandle;
use crate::listing::list_nodes;
use crate::nodes::{Label, Node};
use crate::tree::UnresolvedFuture;
use journal_attempt::FutureKind;
use plain::Items;
use std::alloc::{AllocError, Global};

/// A node of a kind over children.
pub fn node_over(kind: FutureKind, children: Items<UnresolvedFuture>) -> UnresolvedFuture
    ensures { result ≡ future_node kind children }
{
    match kind {
        FutureKind::FirstCompleted => UnresolvedFuture::FirstCompleted(children),
        FutureKind::AllCompleted => UnresolvedFuture::AllCompleted(children),
        FutureKind::FirstSucceededOrAllFailed => {
            UnresolvedFuture::FirstSucceededOrAllFailed(children)
        }
        FutureKind::AllSucceededOrFirstFailed => {
            UnresolvedFuture::AllSucceededOrFirstFailed(children)
        }
        FutureKind::Unknown => UnresolvedFuture::Unknown(children),
    }
}

/// Pops `count` trees from a stack into a row, the top first.
fn take_trees(
    alloc: Global,
    trees: &mut Vec<UnresolvedFuture>,
    count: usize,
) -> Result<Items<UnresolvedFuture>, AllocError>
    ensures taken { IfOk result (λ row. count ≤ length trees.old.items → row
        ≡ take count (reverse trees.old.items)) }
    ensures left { IfOk result (λ _. count ≤ length trees.old.items → reverse trees.new.items
        ≡ drop count (reverse trees.old.items)) }
{
    let mut row = Items::new(alloc);
    for i in 0..count {
        match trees.pop() {
            None => return Ok(row),
            Some(tree) => row.push(tree)?,
        }
    }
    Ok(row)
}

/// A copy of the tree that has these nodes.
fn copy_nodes(alloc: Global, nodes: &[Node]) -> Result<Option<UnresolvedFuture>, AllocError>
    ensures { IfOk result (λ copy. (t : Tree) → nodes.now ≡ preorder t → copy
        ≡ Some (future_at t)) }
{
    let mut trees = Vec::new(alloc);
    let mut i = nodes.len();
    while i > 0 {
        i -= 1;
        let Node {
            label,
            first: _,
            count,
        } = nodes[i];
        match label {
            Label::Leaf(handle) => {
                trees.push(UnresolvedFuture::Single(NotificationHandle(handle)))?;
            }
            Label::Inner(kind) => {
                let children = take_trees(alloc, &mut trees, count)?;
                trees.push(node_over(kind, children))?;
            }
        }
    }
    Ok(trees.pop())
}

/// An equal tree.
pub fn copy_of(alloc: Global, future: &UnresolvedFuture) -> Result<UnresolvedFuture, AllocError>
    ensures { IfOk result (λ copy. copy ≡ future.now) }
{
    let nodes = list_nodes(alloc, future)?;
    let copy = copy_nodes(alloc, nodes.as_slice())?;
    Ok(copy.unwrap())
}
