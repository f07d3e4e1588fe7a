//! A walk over the nodes of what is left, in preorder: children in the order of their ranges.
ghost use Rattle.std.specs.Prelude.{◌≡◌, ◌<◌, ◌∷◌, [], IfOk, length, reverse};
ghost use Rattle.await_tries.specs.Ranges.{Ranged};
ghost use Rattle.await_tries.specs.Walks.{coming, Sound, Steps};

use await_trees::{Label, Node};
use std::alloc::AllocError;

/// Children that are still to be read: a range of their numbers.
#[derive(Clone, Copy)]
pub struct Row {
    pub place: usize,
    pub end: usize,
}

/// The next node, if one is left; its children come after it.
pub fn next_node(
    nodes: &[Node],
    kids: &[usize],
    rows: &mut Vec<Row>,
) -> Result<Option<usize>, AllocError>
    requires ranged { Ranged nodes.now kids.now }
    requires sound { Sound nodes.now kids.now (reverse rows.old.items) }
    ensures { IfOk result (λ found. Steps nodes.now kids.now (reverse rows.old.items) found
        (reverse rows.new.items)) }
{
    while let Some(row) = rows.pop() {
        if row.place < row.end {
            let child = kids[row.place];
            rows.push(Row {
                place: row.place + 1,
                end: row.end,
            })?;
            let Node {
                label,
                first,
                count,
            } = nodes[child];
            if let Label::Inner(_) = label {
                rows.push(Row {
                    place: first,
                    end: first + count,
                })?;
            }
            return Ok(Some(child));
        }
    }
    Ok(None)
}
