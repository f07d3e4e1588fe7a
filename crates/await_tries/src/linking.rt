//! Nodes in preorder get their ranges of children: one pass from the last node to the first.
ghost use Rattle.std.specs.Prelude.{◌≡◌, ◌≤◌, ◌++◌, IfOk, length, take, drop, reverse};
ghost use Rattle.await_trees.specs.Tree.{Tree};
ghost use Rattle.await_trees.specs.Preorder.{preorder};
ghost use Rattle.await_tries.specs.Link.{Linked};

use await_trees::Node;
use std::alloc::{AllocError, Global};

/// Pops `count` numbers from a stack and pushes them to the end of the children, the top first.
fn take_roots(roots: &mut Vec<usize>, kids: &mut Vec<usize>, count: usize) -> Result<(), AllocError>
    ensures kids { IfOk result (λ _. count ≤ length roots.old.items → kids.new.items
        ≡ kids.old.items ++ take count (reverse roots.old.items)) }
    ensures roots { IfOk result (λ _. count ≤ length roots.old.items → reverse roots.new.items
        ≡ drop count (reverse roots.old.items)) }
{
    for i in 0..count {
        match roots.pop() {
            None => return Ok(()),
            Some(root) => kids.push(root)?,
        }
    }
    Ok(())
}

/// Gives each node its range of children: on the stack are the roots of what was read, the first on top.
pub fn link(alloc: Global, nodes: &mut Vec<Node>) -> Result<Vec<usize>, AllocError>
    ensures { IfOk result (λ kids. (t : Tree) → nodes.old.items ≡ preorder t
        → Linked nodes.new.items kids.items t) }
{
    let mut kids = Vec::new(alloc);
    let mut roots = Vec::new(alloc);
    let mut i = nodes.len();
    while i > 0 {
        i -= 1;
        let count = nodes[i].count;
        nodes[i].first = kids.len();
        take_roots(&mut roots, &mut kids, count)?;
        roots.push(i)?;
    }
    Ok(kids)
}
