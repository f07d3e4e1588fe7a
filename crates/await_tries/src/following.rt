//! The courses of the nodes of a tree, children before their parents.
ghost use Rattle.std.specs.Prelude.{◌≡◌, ◌<◌, ℕ, length, IfOk};
ghost use Rattle.std.specs.Option.{option_copied};
ghost use Rattle.await_trees.specs.Tree.{Tree, leaf};
ghost use Rattle.await_tries.specs.Await.{outcomes};
ghost use Rattle.await_tries.specs.Courses.{FollowsCourse, course_at};
ghost use Rattle.await_tries.specs.Leaves.{result_outcome};
ghost use Rattle.await_tries.specs.Ranges.{Ranged};
ghost use Rattle.await_tries.specs.Spells.{node_at, Spells};

use crate::course::{Course, course_of};
use await_trees::{Label, Node, Outcome};
use journal_values::{NotificationResult, SignalDelivery};
use std::alloc::{AllocError, Global};
use vm_parts::AsyncResults;

/// The outcome of a leaf, by the result that its handle has.
fn outcome_with(given: Option<&NotificationResult>) -> Outcome
    ensures { result ≡ result_outcome (option_copied given.entry) }
{
    match given {
        None => Outcome::Pending,
        Some(NotificationResult::Failure(_)) => Outcome::Failed,
        Some(
            NotificationResult::Void
            | NotificationResult::Value(_)
            | NotificationResult::StateKeys(_)
            | NotificationResult::InvocationId(_),
        ) => Outcome::Succeeded,
    }
}

/// The course of the leaf of a handle.
fn leaf_course(results: &AsyncResults, delivery: SignalDelivery, handle: u32) -> Course
    ensures { FollowsCourse (outcomes delivery results.now) (leaf handle) result }
{
    Course {
        outcome: outcome_with(results.first_result(delivery, handle)),
        done: results.uses_until(handle),
        fired: None,
    }
}

/// The course of a node, by those of the nodes after it.
fn node_course(
    results: &AsyncResults,
    delivery: SignalDelivery,
    nodes: &[Node],
    kids: &[usize],
    courses: &[Course],
    i: usize,
) -> Course
    requires within { i < length nodes.now }
    requires ranged { Ranged nodes.now kids.now }
    requires each { length courses.now ≡ length nodes.now }
    ensures { ((m : ℕ) (u : Tree) → i < m → Spells nodes.now kids.now m u
        → FollowsCourse (outcomes delivery results.now) u (course_at courses.now m))
        → (t : Tree) → Spells nodes.now kids.now i t
        → FollowsCourse (outcomes delivery results.now) t result }
{
    let Node {
        label,
        first,
        count,
    } = nodes[i];
    match label {
        Label::Leaf(handle) => leaf_course(results, delivery, handle),
        Label::Inner(kind) => course_of(kind, &kids[first..first + count], courses),
    }
}

fn no_courses(alloc: Global, len: usize) -> Result<Vec<Course>, AllocError>
    ensures { IfOk result (λ courses. length courses.items ≡ len) }
{
    let mut courses = Vec::with_capacity(alloc, len)?;
    for _ in 0..len {
        courses.push(Course {
            outcome: Outcome::Pending,
            done: None,
            fired: None,
        })?;
    }
    Ok(courses)
}

/// The course of each node.
pub fn list_courses(
    alloc: Global,
    results: &AsyncResults,
    delivery: SignalDelivery,
    nodes: &[Node],
    kids: &[usize],
) -> Result<Vec<Course>, AllocError>
    requires { Ranged nodes.now kids.now }
    ensures { IfOk result (λ courses. (length courses.items ≡ length nodes.now)
        × ((n : ℕ) (t : Tree) → Spells nodes.now kids.now n t
        → FollowsCourse (outcomes delivery results.now) t (course_at courses.items n))) }
{
    let mut courses = no_courses(alloc, nodes.len())?;
    let mut i = nodes.len();
    while i > 0 {
        i -= 1;
        let course = node_course(results, delivery, nodes, kids, &courses, i);
        courses[i] = course;
    }
    Ok(courses)
}
