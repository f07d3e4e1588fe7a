//! What an await waits for, as it is sent: the nodes of what is left that are no leaves, each with the ids of its leaves.
ghost use Rattle.std.specs.Prelude.{◌≡◌, ◌<◌, ◌∷◌, ◌++◌, [], ℕ, List, IfOk, length, slice_index_or};
ghost use Rattle.std.specs.Option.{option_copied};
ghost use Rattle.await_trees.specs.Tree.{leaf};
ghost use Rattle.await_trees.specs.Wires.{sent, head_of};
ghost use Rattle.await_tries.specs.Heads.{bare, with_leaf_id};
ghost use Rattle.await_tries.specs.Left.{tree_left};
ghost use Rattle.await_tries.specs.Message.{ids};
ghost use Rattle.await_tries.specs.Pairs.{first_of_two};
ghost use Rattle.await_tries.specs.Spells.{children};
ghost use Rattle.await_tries.specs.Walks.{reads};

use crate::residue::Residue;
use crate::walk::{Row, next_node};
use await_trees::{Label, Node};
use journal_attempt::{Future, FutureKind, FutureNode};
use journal_values::NotificationId;
use plain::{Items, copy_of};
use std::alloc::{AllocError, Global};
use vm_parts::AsyncResults;

/// A node that waits for nothing yet.
fn bare(alloc: Global, kind: FutureKind) -> FutureNode
    ensures { result ≡ bare kind }
{
    FutureNode {
        kind,
        waiting_completions: Items::new(alloc),
        waiting_signals: Items::new(alloc),
        waiting_named_signals: Items::new(alloc),
        nested: 0,
    }
}

/// Puts an id last in the list of its kind.
fn put_id(head: &mut FutureNode, id: Option<&NotificationId>) -> Result<(), AllocError>
    ensures { IfOk result (λ _. head.new ≡ with_leaf_id (option_copied id.entry) head.old) }
{
    match id {
        None => Ok(()),
        Some(NotificationId::CompletionId(id)) => head.waiting_completions.push(*id),
        Some(NotificationId::SignalId(id)) => head.waiting_signals.push(*id),
        Some(NotificationId::SignalName(name)) => head.waiting_named_signals.push(copy_of(name)?),
    }
}

/// A node over children of these numbers, without those that nest in it.
fn head_over(
    alloc: Global,
    results: &AsyncResults,
    nodes: &[Node],
    kind: FutureKind,
    children: &[usize],
) -> Result<FutureNode, AllocError>
    requires { (k : ℕ) → k < length children.now
        → slice_index_or children.now k 0 < length nodes.now }
    ensures { IfOk result (λ head. (kids : List ℕ) → head
        ≡ head_of (ids results.now) kind (reads nodes.now kids children.now)) }
{
    let mut head = bare(alloc, kind);
    for child in children {
        match nodes[*child].label {
            Label::Leaf(handle) => put_id(&mut head, results.find(handle))?,
            Label::Inner(_) => head.nested += 1,
        }
    }
    Ok(head)
}

/// The node of this number, without those that nest in it.
fn head_at(
    alloc: Global,
    results: &AsyncResults,
    left: &Residue,
    kind: FutureKind,
    number: usize,
) -> Result<FutureNode, AllocError>
    requires { number < length left.now.nodes }
    ensures { IfOk result (λ head. head
        ≡ head_of (ids results.now) kind
        (reads left.now.nodes left.now.kids (children left.now.nodes left.now.kids number))) }
{
    let nodes = left.nodes();
    let kids = left.kids();
    let Node {
        label: _,
        first,
        count,
    } = nodes[number];
    head_over(alloc, results, nodes, kind, &kids[first..first + count])
}

/// Adds the node of this number, without those that nest in it.
fn send_head(
    alloc: Global,
    results: &AsyncResults,
    left: &Residue,
    kind: FutureKind,
    number: usize,
    sent: &mut Items<FutureNode>,
) -> Result<(), AllocError>
    requires { number < length left.now.nodes }
    ensures { IfOk result (λ _. sent.new
        ≡ sent.old ++ head_of (ids results.now) kind
        (reads left.now.nodes left.now.kids (children left.now.nodes left.now.kids number)) ∷ []) }
{
    let head = head_at(alloc, results, left, kind, number)?;
    sent.push(head)
}

/// A leaf alone is the first of one.
fn leaf_sent(
    alloc: Global,
    results: &AsyncResults,
    handle: u32,
) -> Result<Items<FutureNode>, AllocError>
    ensures { IfOk result (λ nodes. nodes ≡ sent (ids results.now) (leaf handle)) }
{
    let mut head = bare(alloc, FutureKind::FirstCompleted);
    put_id(&mut head, results.find(handle))?;
    let mut sent = Items::new(alloc);
    sent.push(head)?;
    Ok(sent)
}

/// The wire future's nodes, in preorder.
fn nodes_sent(
    alloc: Global,
    results: &AsyncResults,
    left: &Residue,
) -> Result<Items<FutureNode>, AllocError>
    ensures { IfOk result (λ nodes. nodes ≡ sent (ids results.now) (tree_left left.now)) }
{
    let nodes = left.nodes();
    let kids = left.kids();
    let Node {
        label,
        first,
        count,
    } = nodes[0];
    let kind = match label {
        Label::Leaf(handle) => return leaf_sent(alloc, results, handle),
        Label::Inner(kind) => kind,
    };
    let mut sent = Items::new(alloc);
    send_head(alloc, results, left, kind, 0, &mut sent)?;
    let mut rows = Vec::new(alloc);
    rows.push(Row {
        place: first,
        end: first + count,
    })?;
    while let Some(number) = next_node(nodes, kids, &mut rows)? {
        if let Label::Inner(kind) = nodes[number].label {
            send_head(alloc, results, left, kind, number, &mut sent)?;
        }
    }
    Ok(sent)
}

/// What is left as a message's future. A leaf at the root is the first of one; leaves whose handle stands for no id are left
/// out.
pub fn future_of(
    alloc: Global,
    results: &AsyncResults,
    left: &Residue,
) -> Result<Future, AllocError>
    ensures { IfOk result (λ future. future ≡ sent (ids results.now) (tree_left left.now)) }
{
    let nodes = nodes_sent(alloc, results, left)?;
    Ok(Future::from_nodes(nodes).unwrap())
}

/// The node of the first of two leaves, as `future_of` sends it.
fn two_sent(
    alloc: Global,
    results: &AsyncResults,
    one: u32,
    other: u32,
) -> Result<Items<FutureNode>, AllocError>
    ensures { IfOk result (λ nodes. nodes ≡ sent (ids results.now) (first_of_two one other)) }
{
    let mut head = bare(alloc, FutureKind::FirstCompleted);
    put_id(&mut head, results.find(one))?;
    put_id(&mut head, results.find(other))?;
    let mut sent = Items::new(alloc);
    sent.push(head)?;
    Ok(sent)
}

/// As `future_of`, of the first of two leaves.
pub fn future_of_two(
    alloc: Global,
    results: &AsyncResults,
    one: u32,
    other: u32,
) -> Result<Future, AllocError>
    ensures { IfOk result
        (λ future. future ≡ sent (ids results.now) (first_of_two one other)) }
{
    let nodes = two_sent(alloc, results, one, other)?;
    Ok(Future::from_nodes(nodes).unwrap())
}
