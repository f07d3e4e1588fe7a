//! The text of a tree: a leaf is its number, a node its name and its children in round brackets. It is written by a loop, from
//! the tree's nodes; if there is no memory for them, it is an error of the writer.
use crate::listing::list_nodes;
use crate::nodes::{Label, Node};
use crate::tree::UnresolvedFuture;
use journal_attempt::FutureKind;
use std::alloc::Global;
use std::fmt;

fn name_of(kind: FutureKind) -> &'static str {
    match kind {
        FutureKind::FirstCompleted => "first_completed(",
        FutureKind::AllCompleted => "all_completed(",
        FutureKind::FirstSucceededOrAllFailed => "first_succeeded_or_all_failed(",
        FutureKind::AllSucceededOrFirstFailed => "all_succeeded_or_first_failed(",
        FutureKind::Unknown => "unknown(",
    }
}

/// Closes the nodes that have no child left after this one, and writes a comma if another comes.
fn close<W: fmt::Write>(f: &mut fmt::Formatter<W>, left: &mut Vec<usize>) -> fmt::Result {
    while let Some(children) = left.pop() {
        if children > 1 {
            left.push(children - 1).map_err(|_| fmt::Error)?;
            return f.write_str(", ");
        }
        f.write_str(")")?;
    }
    Ok(())
}

/// Opens a node that has children, of which all are still to be written.
fn open(left: &mut Vec<usize>, children: usize) -> fmt::Result {
    left.push(children).map_err(|_| fmt::Error)
}

/// Writes one node; `left` has for each open node how many of its children are still to be written, this one too.
fn show_node<W: fmt::Write>(
    f: &mut fmt::Formatter<W>,
    node: Node,
    left: &mut Vec<usize>,
) -> fmt::Result {
    match node.label {
        Label::Leaf(handle) => write!(f, "{handle}")?,
        Label::Inner(kind) => {
            f.write_str(name_of(kind))?;
            if node.count > 0 {
                return open(left, node.count);
            }
            f.write_str(")")?;
        }
    }
    close(f, left)
}

/// Writes a tree, with memory for its nodes from here.
pub fn show<W: fmt::Write>(
    alloc: Global,
    f: &mut fmt::Formatter<W>,
    future: &UnresolvedFuture,
) -> fmt::Result {
    let nodes = list_nodes(alloc, future).map_err(|_| fmt::Error)?;
    let mut left = Vec::new(alloc);
    for node in nodes.as_slice() {
        show_node(f, *node, &mut left)?;
    }
    Ok(())
}
