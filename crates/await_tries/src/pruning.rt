//! What is left of a tree: its nodes without the children that have got an outcome.
ghost use Rattle.std.specs.Prelude.{◌≡◌, ◌≢◌, ◌≤◌, ◌<◌, ◌+◌, ℕ, take, drop, length, slice_index_or, IfOk};
ghost use Rattle.std.specs.BinaryHeap.{heap_items};
ghost use Rattle.await_tries.specs.Courses.{course_at, end_of, ends_at};
ghost use Rattle.await_tries.specs.Due.{Listed};
ghost use Rattle.await_tries.specs.Pruned.{Swept, Pruned};
ghost use Rattle.await_tries.specs.Ranges.{Ranged};
ghost use Rattle.await_tries.specs.Spells.{node_at, children};

use crate::course::Course;
use await_trees::Node;
use std::alloc::{AllocError, Global};
use std::cmp::Reverse;
use std::collections::BinaryHeap;

/// How many notifications it takes until a child has its outcome, and its place: the least is the greatest of a heap.
type Due = Reverse<(usize, usize)>;

/// When each child that gets an outcome has it.
fn list_due(
    alloc: Global,
    children: &[usize],
    courses: &[Course],
) -> Result<BinaryHeap<Due>, AllocError>
    requires { (k : ℕ) → k < length children.now
        → slice_index_or children.now k 0 < length courses.now }
    ensures { IfOk result (λ due. Listed (λ it. it.0)
        (λ child. end_of (course_at courses.now child)) (heap_items due) children.now
        (length children.now)) }
{
    let mut due = BinaryHeap::new(alloc);
    for (place, child) in children.iter().enumerate() {
        if let Some(by) = courses[*child].end() {
            due.push(Reverse((by, place)))?;
        }
    }
    Ok(due)
}

/// Removes the children that get an outcome, each when it has it: the last child takes the place of one that is removed.
/// Answers how many are left.
fn sweep(alloc: Global, children: &mut [usize], courses: &[Course]) -> Result<usize, AllocError>
    requires { (k : ℕ) → k < length children.old
        → slice_index_or children.old k 0 < length courses.now }
    ensures { IfOk result (λ count. (count ≤ length children.new)
        × Swept (ends_at courses.now) children.old (take count children.new)
        × ((k : ℕ) → k < length children.new
        → slice_index_or children.new k 0 < length courses.now)) }
{
    let mut due = list_due(alloc, children, courses)?;
    let mut count = children.len();
    while let Some(Reverse((by, place))) = due.pop() {
        if place < count && courses[children[place]].ends_by(by) {
            count -= 1;
            children[place] = children[count];
            if let Some(by) = courses[children[place]].end() {
                due.push(Reverse((by, place)))?;
            }
        }
    }
    Ok(count)
}

/// Sweeps a range of the children.
fn sweep_range(
    alloc: Global,
    kids: &mut Vec<usize>,
    courses: &[Course],
    first: usize,
    count: usize,
) -> Result<usize, AllocError>
    requires fits { first + count ≤ length kids.old.items }
    requires numbers { (k : ℕ) → k < length kids.old.items
        → slice_index_or kids.old.items k 0 < length courses.now }
    ensures len { length kids.new.items ≡ length kids.old.items }
    ensures before { (k : ℕ) → k < first → slice_index_or kids.new.items k 0
        ≡ slice_index_or kids.old.items k 0 }
    ensures behind { (k : ℕ) → first + count ≤ k → slice_index_or kids.new.items k 0
        ≡ slice_index_or kids.old.items k 0 }
    ensures numbers { IfOk result (λ _. (k : ℕ) → k < length kids.new.items
        → slice_index_or kids.new.items k 0 < length courses.now) }
    ensures swept { IfOk result (λ left. (left ≤ count)
        × Swept (ends_at courses.now) (take count (drop first kids.old.items))
        (take left (drop first kids.new.items))) }
{
    let range = &mut kids[first..first + count];
    sweep(alloc, range, courses)
}

/// Removes the children of one node that get an outcome.
fn prune_node(
    alloc: Global,
    nodes: &mut Vec<Node>,
    kids: &mut Vec<usize>,
    courses: &[Course],
    i: usize,
) -> Result<(), AllocError>
    requires within { i < length nodes.old.items }
    requires ranged { Ranged nodes.old.items kids.old.items }
    requires each { length courses.now ≡ length nodes.old.items }
    ensures len { length nodes.new.items ≡ length nodes.old.items }
    ensures ranged { IfOk result (λ _. Ranged nodes.new.items kids.new.items) }
    ensures label { IfOk result (λ _. (node_at nodes.new.items i).label
        ≡ (node_at nodes.old.items i).label) }
    ensures swept { IfOk result
        (λ _. Swept (ends_at courses.now) (children nodes.old.items kids.old.items i)
        (children nodes.new.items kids.new.items i)) }
    ensures others { IfOk result (λ _. (m : ℕ) → m < length nodes.old.items → m ≢ i
        → (node_at nodes.new.items m ≡ node_at nodes.old.items m)
        × (children nodes.new.items kids.new.items m ≡ children nodes.old.items kids.old.items m)) }
{
    let Node { first, count, .. } = nodes[i];
    let left = sweep_range(alloc, kids, courses, first, count)?;
    nodes[i].count = left;
    Ok(())
}

/// Removes all children that get an outcome.
pub fn prune(
    alloc: Global,
    nodes: &mut Vec<Node>,
    kids: &mut Vec<usize>,
    courses: &[Course],
) -> Result<(), AllocError>
    requires ranged { Ranged nodes.old.items kids.old.items }
    requires each { length courses.now ≡ length nodes.old.items }
    ensures ranged { IfOk result (λ _. Ranged nodes.new.items kids.new.items) }
    ensures pruned { IfOk result (λ _. (length nodes.new.items ≡ length nodes.old.items)
        × Pruned (ends_at courses.now) nodes.old.items kids.old.items nodes.new.items
        kids.new.items) }
{
    for i in 0..nodes.len() {
        prune_node(alloc, nodes, kids, courses, i)?;
    }
    Ok(())
}
