//! The handles that a tree still awaits.
ghost use Rattle.std.specs.Prelude.{◌≡◌, IfOk};
ghost use Rattle.await_trees.specs.Handles.{handles_of, has_leaf};
ghost use Rattle.await_tries.specs.Left.{lone_handle, tree_left};

use crate::residue::Residue;
use crate::walk::{Row, next_node};
use await_trees::{Label, Node};
use std::alloc::{AllocError, Global};

/// The handles of what is left, in its order: the last is that of the last leaf. A handle that stands in several leaves
/// comes with each.
pub fn list_handles(alloc: Global, left: &Residue) -> Result<Vec<u32>, AllocError>
    ensures { IfOk result (λ handles. handles.items ≡ handles_of (tree_left left.now)) }
{
    let nodes = left.nodes();
    let kids = left.kids();
    let Node {
        label,
        first,
        count,
    } = nodes[0];
    let mut handles = Vec::new(alloc);
    if let Label::Leaf(handle) = label {
        handles.push(handle)?;
        return Ok(handles);
    }
    let mut rows = Vec::new(alloc);
    rows.push(Row {
        place: first,
        end: first + count,
    })?;
    while let Some(number) = next_node(nodes, kids, &mut rows)? {
        if let Label::Leaf(handle) = nodes[number].label {
            handles.push(handle)?;
        }
    }
    Ok(handles)
}

/// The handle of what is left, if that is a leaf alone.
#[tactic(auto, using(crate::proofs::Lone::lone_leaf, crate::proofs::Lone::lone_inner))]
pub fn lone_handle(left: &Residue) -> Option<u32>
    ensures { result ≡ lone_handle (tree_left left.now) }
{
    match left.nodes()[0].label {
        Label::Leaf(handle) => Some(handle),
        Label::Inner(_) => None,
    }
}

/// Whether a leaf is left. The walk ends at the first.
pub fn has_leaf(alloc: Global, left: &Residue) -> Result<bool, AllocError>
    ensures { IfOk result (λ answer. answer ≡ has_leaf (tree_left left.now)) }
{
    let nodes = left.nodes();
    let kids = left.kids();
    let Node {
        label,
        first,
        count,
    } = nodes[0];
    if let Label::Leaf(_) = label {
        return Ok(true);
    }
    let mut rows = Vec::new(alloc);
    rows.push(Row {
        place: first,
        end: first + count,
    })?;
    while let Some(number) = next_node(nodes, kids, &mut rows)? {
        if let Label::Leaf(_) = nodes[number].label {
            return Ok(true);
        }
    }
    Ok(false)
}
