//! Trees of awaits as a row of nodes.
ghost use Rattle.std.specs.Prelude.{◌≡◌, ◌≢◌, ◌++◌, ◌∷◌, [], length, IfErr, IfOk, IfSome};
ghost use Rattle.await_trees.specs.Tree.{tree_of};
ghost use Rattle.c_calls.specs.Nodes.{CantStand, FailsAsTree, kind_at, node_code, nodes_of, row_of};

use await_trees::{NotificationHandle, UnresolvedFuture, node_over};
use c_values::Status;
use journal_protocol::FutureKind;
use plain::Items;
use std::alloc::Global;

/// A node of a tree that is awaited: a handle, or a node over as many of the trees that stand in front of it.
#[repr(C)]
#[derive(Clone, Copy)]
pub struct Node {
    /// 0 for a handle.
    pub kind: u32,
    /// The handle, or how many children there are.
    pub number: u32,
}

/// The kind of this number.
fn kind_of(code: u32) -> Option<FutureKind>
    ensures found { result ≡ kind_at code }
    ensures numbered { IfSome result (λ kind. node_code kind ≡ code) }
{
    match code {
        1 => Some(FutureKind::FirstCompleted),
        2 => Some(FutureKind::AllCompleted),
        3 => Some(FutureKind::FirstSucceededOrAllFailed),
        4 => Some(FutureKind::AllSucceededOrFirstFailed),
        5 => Some(FutureKind::Unknown),
        _ => None,
    }
}

/// The tree of a node over the last of the trees that stand in front of it, which are taken.
fn tree_over(trees: &mut Vec<UnresolvedFuture>, node: Node) -> Result<UnresolvedFuture, Status>
    requires { node.kind ≢ 0 }
    ensures ok { IfOk result (λ tree. row_of trees.new.items ++ nodes_of (tree_of tree)
        ≡ row_of trees.old.items ++ node ∷ []) }
    ensures err { IfErr result (CantStand node (length trees.old.items)) }
{
    let Some(kind) = kind_of(node.kind) else {
        return Err(Status::BadNumber);
    };
    let Some(at) = trees.len().checked_sub(node.number as usize) else {
        return Err(Status::BadTree);
    };
    match trees.split_off(at) {
        Ok(children) => Ok(node_over(kind, Items::from_vec(children))),
        Err(_) => Err(Status::NoMemory),
    }
}

/// Puts a node after the trees in front of it, over the last of them.
fn put_node(trees: &mut Vec<UnresolvedFuture>, node: Node) -> Result<(), Status>
    ensures ok { IfOk result (λ _. row_of trees.new.items ≡ row_of trees.old.items ++ node ∷ []) }
    ensures err { IfErr result (CantStand node (length trees.old.items)) }
{
    let tree = if node.kind == 0 {
        UnresolvedFuture::Single(NotificationHandle(node.number))
    } else {
        tree_over(trees, node)?
    };
    match trees.push(tree) {
        Ok(()) => Ok(()),
        Err(_) => Err(Status::NoMemory),
    }
}

/// The tree that a row of nodes is.
pub(crate) fn future_of(alloc: Global, nodes: &[Node]) -> Result<UnresolvedFuture, Status>
    ensures ok { IfOk result (λ future. nodes_of (tree_of future) ≡ nodes.now) }
    ensures err { IfErr result (FailsAsTree nodes.now) }
{
    let mut trees = Vec::new(alloc);
    for node in nodes {
        put_node(&mut trees, *node)?;
    }
    match trees.pop() {
        Some(tree) if trees.is_empty() => Ok(tree),
        _ => Err(Status::BadTree),
    }
}
