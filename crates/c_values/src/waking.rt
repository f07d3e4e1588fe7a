//! Trees judged from the last node of a future to the first: its children come before each node.
ghost use Rattle.std.specs.Prelude.{◌≡◌, ◌-◌, IfOk};
ghost use Rattle.std.specs.List.{list_all, list_any};
ghost use Rattle.journal_protocol.specs.NotificationId.{NotificationId};
ghost use Rattle.await_trees.specs.declared.outcome.Outcome.{Outcome};
ghost use Rattle.await_trees.specs.Outcomes.{awake, fires_on, waits_for};
ghost use Rattle.await_trees.specs.Tree.{ForestOver};
ghost use Rattle.await_trees.specs.Wires.{first_tree, read_node, tree_of_nodes};
ghost use Rattle.c_values.specs.Children.{judged, judged_by, stacked, wakes};
ghost use Rattle.c_values.specs.Waking.{outcome_in};

use crate::judged::JudgedTree;
use crate::leaves::listed_outcomes;
use await_arrivals::Arrivals;
use await_trees::Outcome;
use await_trees::outcome::{fires_on, outcome_of, waits_for};
use journal_protocol::{FutureKind, FutureNode};
use std::alloc::{AllocError, Global};

/// Whether a node waits for each of these.
fn each_waits(kind: FutureKind, outcomes: &[Outcome]) -> bool
    ensures { result ≡ list_all (waits_for kind) outcomes.now }
{
    outcomes.iter().all(|outcome| waits_for(kind, *outcome))
}

/// Whether a child of one of these outcomes wakes the attempt.
fn any_fires(kind: FutureKind, outcomes: &[Outcome]) -> bool
    ensures { result ≡ list_any (fires_on kind) outcomes.now }
{
    outcomes.iter().any(|outcome| fires_on(kind, *outcome))
}

/// Whether a node waits for each of these trees.
fn each_tree_waits(kind: FutureKind, trees: &[JudgedTree]) -> bool
    ensures { result ≡ list_all (λ child. waits_for kind child.outcome) trees.now }
{
    trees.iter().all(|child| waits_for(kind, child.outcome))
}

/// Whether one of these trees wakes the attempt.
fn any_tree_wakes(kind: FutureKind, trees: &[JudgedTree]) -> bool
    ensures { result ≡ list_any (wakes kind) trees.now }
{
    trees
        .iter()
        .any(|child| fires_on(kind, child.outcome) || child.fires)
}

/// The outcome of a node by its children.
fn judge_by(kind: FutureKind, leaves: &[Outcome], trees: &[JudgedTree]) -> JudgedTree
    ensures { result ≡ judged_by kind leaves.now trees.now }
{
    let waits = each_waits(kind, leaves) && each_tree_waits(kind, trees);
    let fires = any_fires(kind, leaves) || any_tree_wakes(kind, trees);
    JudgedTree {
        outcome: if waits {
            outcome_of(kind)
        } else {
            Outcome::Pending
        },
        fires,
    }
}

/// A node over the trees that nest in it, of which the first is last.

fn judge(
    alloc: Global,
    came: &Arrivals,
    node: &FutureNode,
    trees: &[JudgedTree],
) -> Result<JudgedTree, AllocError>
    ensures { IfOk result (λ found. (ts : ForestOver NotificationId)
        → trees.now ≡ stacked (outcome_in came.now) ts
        → found ≡ judged (outcome_in came.now) (read_node node.now ts)) }
{
    let leaves = listed_outcomes(alloc, came, node)?;
    Ok(judge_by(node.kind, leaves.as_slice(), trees))
}

/// Whether the tree on the top of a stack is awake.
fn is_top_awake(stack: &[JudgedTree]) -> bool
    ensures { (at : NotificationId → Outcome) (ts : ForestOver NotificationId)
        → stack.now ≡ stacked at ts → result ≡ awake at (first_tree ts) }
{
    match stack.last() {
        None => false,
        Some(tree) => tree.outcome.is_done() || tree.fires,
    }
}

/// Where the trees begin that nest in a node, on a stack of this length.
fn nested_from(len: usize, nested: u64) -> usize
    ensures { result ≡ len - nested }
{
    (len as u64).saturating_sub(nested) as usize
}

/// Whether the future of these nodes is awake by what came. Each step judges a node, and takes the trees that nest in it off a stack.
pub fn is_awake(alloc: Global, came: &Arrivals, nodes: &[FutureNode]) -> Result<bool, AllocError>
    ensures { IfOk result (λ is. is ≡ awake (outcome_in came.now) (tree_of_nodes nodes.now)) }
{
    let mut stack = Vec::new(alloc);
    let mut i = nodes.len();
    while i > 0 {
        i -= 1;
        let node = &nodes[i];
        let from = nested_from(stack.len(), node.nested);
        let found = judge(alloc, came, node, &stack[from..])?;
        stack.truncate(from);
        stack.push(found)?;
    }
    Ok(is_top_awake(stack.as_slice()))
}
