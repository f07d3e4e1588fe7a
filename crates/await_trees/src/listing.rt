//! The nodes of a tree in preorder: one walk, with a stack of the rows of children that are still to be read.
ghost use Rattle.std.specs.Prelude.{◌≡◌, ◌∷◌, IfOk, length};
ghost use Rattle.await_trees.specs.declared.nodes.Label.TheVariants.{Inner};
ghost use Rattle.await_trees.specs.Tree.{tree_of, forest_of};
ghost use Rattle.await_trees.specs.Preorder.{preorder, preorders};

use crate::nodes::{Label, Node};
use crate::tree::UnresolvedFuture;
use journal_attempt::FutureKind;
use plain::Items;
use std::alloc::{AllocError, Global};

fn inner(kind: FutureKind, children: &Items<UnresolvedFuture>) -> (Node, &[UnresolvedFuture])
    ensures node { result.0 ≡ record {
      label = Inner kind;
      first = 0;
      count = length children.now;
    } }
    ensures children { result.1.now ≡ children.now }
{
    (
        Node {
            label: Label::Inner(kind),
            first: 0,
            count: children.len(),
        },
        children.as_slice(),
    )
}

/// A tree's root, and its children.
fn open(future: &UnresolvedFuture) -> (Node, &[UnresolvedFuture])
    ensures { preorder (tree_of future.now) ≡ result.0 ∷ preorders (forest_of result.1.now) }
{
    match future {
        UnresolvedFuture::Single(handle) => (
            Node {
                label: Label::Leaf(handle.0),
                first: 0,
                count: 0,
            },
            &[],
        ),
        UnresolvedFuture::FirstCompleted(children) => inner(FutureKind::FirstCompleted, children),
        UnresolvedFuture::AllCompleted(children) => inner(FutureKind::AllCompleted, children),
        UnresolvedFuture::FirstSucceededOrAllFailed(children) => {
            inner(FutureKind::FirstSucceededOrAllFailed, children)
        }
        UnresolvedFuture::AllSucceededOrFirstFailed(children) => {
            inner(FutureKind::AllSucceededOrFirstFailed, children)
        }
        UnresolvedFuture::Unknown(children) => inner(FutureKind::Unknown, children),
    }
}

/// The nodes of a tree in preorder, each with the number of its children and no range yet.
pub fn list_nodes(alloc: Global, future: &UnresolvedFuture) -> Result<Vec<Node>, AllocError>
    ensures { IfOk result (λ nodes. nodes.items ≡ preorder (tree_of future.now)) }
{
    let mut nodes = Vec::new(alloc);
    let mut rows: Vec<&[UnresolvedFuture]> = Vec::new(alloc);
    let (root, children) = open(future);
    nodes.push(root)?;
    rows.push(children)?;
    while let Some(row) = rows.pop() {
        if let Some((child, others)) = row.split_first() {
            rows.push(others)?;
            let (node, children) = open(child);
            nodes.push(node)?;
            rows.push(children)?;
        }
    }
    Ok(nodes)
}
