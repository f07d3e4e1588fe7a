//! A tree is dropped by a loop: however deep it is, its nodes are taken off one by one, and it takes no memory.
ghost use Rattle.std.specs.Prelude.{◌≡◌, ◌+◌, MatchOption};
ghost use Rattle.await_trees.specs.Counts.{count, in_row, in_some, Fewer};

use crate::tree::UnresolvedFuture;
use plain::Items;
use std::mem;

/// The last tree of a row, if one is left.
fn last_of(row: Option<Vec<UnresolvedFuture>>) -> Option<(UnresolvedFuture, Vec<UnresolvedFuture>)>
    ensures { MatchOption result (in_some row
        ≡ 0) (λ next. Fewer 0 (in_some row) (count next.0) (in_row next.1.items)) }
{
    let mut row = row?;
    match row.pop() {
        Some(tree) => Some((tree, row)),
        None => {
            row.destroy_empty();
            None
        }
    }
}

/// The next tree to be taken apart, and the trees that are then left, by the trees that are left now and the children of the
/// tree that was taken apart. One of two rows goes into the other, in the place of the next tree; an empty one never does, so
/// each node is put below another once at most, and the whole drop takes time in proportion to the nodes. None if no tree is
/// left.
pub fn turn(
    row: Option<Vec<UnresolvedFuture>>,
    found: Option<Vec<UnresolvedFuture>>,
) -> Option<(UnresolvedFuture, Vec<UnresolvedFuture>)>
    ensures { MatchOption result (in_some found + in_some row
        ≡ 0) (λ next. Fewer (in_some found) (in_some row) (count next.0) (in_row next.1.items)) }
{
    let Some(mut children) = found else {
        return last_of(row);
    };
    if children.is_empty() {
        children.destroy_empty();
        return last_of(row);
    }
    let Some(row) = row else {
        return last_of(Some(children));
    };
    if row.is_empty() {
        row.destroy_empty();
        return last_of(Some(children));
    }
    let others = UnresolvedFuture::Unknown(Items::from_vec(row));
    let tree = mem::replace(&mut children[0], others);
    Some((tree, children))
}
