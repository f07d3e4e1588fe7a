//! What an attempt waits for, as it is written on a line.
ghost use Rattle.std.specs.Prelude.{◌≡◌, ◌∷◌, ◌++◌, ◌==◌, if◌then◌else◌, List, OnOk, codes, reverse};
ghost use Rattle.journal_protocol.specs.FutureNode.{FutureNode};
ghost use Rattle.frame_values.specs.Futures.{ends_text, future_notation, future_text, node_head_text, left_then, node_fields, nodes_text};

use crate::bracketed::Bracketed;
use crate::fields::{print_field, values_of};
use crate::nested::nodes_of;
use crate::value::Value;
use journal_protocol::{Future, FutureKind, FutureNode};
use lines::line::Line;
use plain::{Fault, Items, Text};
use std::alloc::{AllocError, Global};

/// What a future waits for itself, without those that nest in it.
impl Bracketed for FutureNode {
    ghost fields = { node_fields };

    fn print(&self, line: &mut Line, is_first: bool) -> Result<bool, AllocError> {
        let is_first = print_field(line, is_first, "kind", &self.kind)?;
        let is_first = print_field(line, is_first, "completions", &self.waiting_completions)?;
        let is_first = print_field(line, is_first, "signals", &self.waiting_signals)?;
        print_field(line, is_first, "named", &self.waiting_named_signals)
    }

    fn read(alloc: Global, words: &[&[u8]]) -> Result<FutureNode, Fault> {
        let names = ["kind=", "completions=", "signals=", "named="];
        let (kind, (waiting_completions, (waiting_signals, (waiting_named_signals, ())))) =
            values_of::<(FutureKind, (Items<u32>, (Items<u32>, (Items<Text>, ()))))>(
                alloc, words, &names,
            )?;
        Ok(FutureNode {
            kind,
            waiting_completions,
            waiting_signals,
            waiting_named_signals,
            nested: 0,
        })
    }
}

/// What follows a future's own fields: its closing bracket, or the front of the list of its nested futures.
fn behind_fields(nested: u64) -> &'static str
    ensures { result.now ≡ (if nested == 0 then codes ")" else codes " nested=[") }
{
    if nested == 0 { ")" } else { " nested=[" }
}

/// Writes a future as far as those that nest in it.
fn print_head(node: &FutureNode, line: &mut Line) -> Result<(), AllocError>
    ensures { OnOk result (line.new ≡ line.old ++ node_head_text node.now) }
{
    line.word("(")?;
    node.print(line, true)?;
    line.word(behind_fields(node.nested))?;
    Ok(())
}

/// Ends each open future whose nested futures are all written. `left` counts, for each open future, its nested ones that haven't ended,
/// with the one that was just written. The innermost is last.
#[tactic(auto, using(crate::proofs::Nesting::ends_begun, crate::proofs::Nesting::ends_more, crate::proofs::Nesting::another_comes, crate::proofs::Nesting::one_less_left, crate::proofs::Nesting::all_ended, crate::proofs::Nesting::none_left))]
fn print_ends(left: &mut Vec<u64>, line: &mut Line) -> Result<(), AllocError>
    ensures text { OnOk result (line.new ≡ line.old ++ ends_text (reverse left.old.items)) }
    ensures left { OnOk result (reverse left.new.items ≡ left_then (reverse left.old.items)) }
{
    while let Some(count) = left.pop() {
        if count > 1 {
            left.push(count - 1)?;
            return line.word(", ");
        }
        line.word("])")?;
    }
    Ok(())
}

/// Writes a future as far as those that nest in it, and ends what is whole by it.
fn print_node(node: &FutureNode, left: &mut Vec<u64>, line: &mut Line) -> Result<(), AllocError>
    ensures { OnOk result ((others : List FutureNode) → line.new
        ++ nodes_text (reverse left.new.items) others ≡ line.old
        ++ nodes_text (reverse left.old.items) (node.now ∷ others)) }
{
    print_head(node, line)?;
    if node.nested == 0 {
        print_ends(left, line)?;
        return Ok(());
    }
    left.push(node.nested)?;
    Ok(())
}

/// Writes a future, by its nodes.
fn print_nodes(alloc: Global, nodes: &[FutureNode], line: &mut Line) -> Result<(), AllocError>
    ensures { OnOk result (line.new ≡ line.old ++ future_text nodes.now) }
{
    // How many futures are still to be written at each level, the innermost last.
    let mut left = Vec::new(alloc);
    for node in nodes {
        print_node(node, &mut left, line)?;
    }
    Ok(())
}

#[tactic(auto, using(crate::proofs::Wholes::says_whole))]
impl Value for Future {
    ghost notation = { future_notation };

    fn is_left_out(&self) -> bool {
        false
    }

    fn print(&self, line: &mut Line) -> Result<(), AllocError> {
        print_nodes(self.alloc(), self.nodes(), line)
    }

    fn parse(alloc: Global, text: &[u8]) -> Result<Future, Fault> {
        let nodes = Items::from_vec(nodes_of(alloc, text)?);
        Future::from_nodes(nodes).ok_or(Fault::Malformed)
    }

    fn missing(_alloc: Global) -> Option<Future> {
        None
    }
}
