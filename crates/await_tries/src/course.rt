//! The outcome of a tree as notifications are used, and how many it takes.
ghost use Rattle.std.specs.Prelude.{◌≡◌, ◌≢◌, ◌<◌, ℕ, ◌&&◌, ◌||◌, true, false, Some, length, slice_index_or};
ghost use Rattle.await_arrivals.specs.Came.{enough};
ghost use Rattle.await_trees.specs.Outcomes.{outcome_of, is_done, fires_on, waits_for};
ghost use Rattle.await_tries.specs.Courses.{outcome_by, course_at, any_fires_by, all_wait_by, end_of};

use await_trees::Outcome;
use await_trees::outcome::{fires_on, outcome_of, waits_for};
use journal_attempt::FutureKind;

/// A tree's outcome; how many notifications it takes until the tree has it; and how many until the await that it stands in
/// wakes on its account. None: all that came are too few.
#[derive(Clone, Copy)]
pub struct Course {
    pub outcome: Outcome,
    pub done: Option<usize>,
    pub fired: Option<usize>,
}

/// How many it takes until the one or the other is so.
pub fn sooner(a: Option<usize>, b: Option<usize>) -> Option<usize>
    ensures { (n : ℕ) → enough result n ≡ (enough a n || enough b n) }
{
    match (a, b) {
        (Some(a), Some(b)) => Some(a.min(b)),
        (Some(a), None) => Some(a),
        (None, b) => b,
    }
}

/// How many it takes until both are so.
fn later(a: Option<usize>, b: Option<usize>) -> Option<usize>
    ensures { (n : ℕ) → enough result n ≡ (enough a n && enough b n) }
{
    match (a, b) {
        (Some(a), Some(b)) => Some(a.max(b)),
        _ => None,
    }
}

impl Course {
    /// How many notifications it takes until the tree has an outcome, if it gets one.
    pub fn end(self) -> Option<usize>
        ensures { result ≡ end_of self }
    {
        if self.outcome.is_done() {
            self.done
        } else {
            None
        }
    }

    /// Whether that many, and no fewer, give it an outcome.
    pub fn ends_by(self, by: usize) -> bool
        ensures yes { result ≡ true → end_of self ≡ Some by }
        ensures no { result ≡ false → end_of self ≢ Some by }
    {
        match self.end() {
            None => false,
            Some(end) => end == by,
        }
    }

    /// How many notifications it takes until the tree is awake.
    pub fn awake(self) -> Option<usize>
        ensures { (n : ℕ) → enough result n ≡ (is_done (outcome_by self n) || enough self.fired n) }
    {
        sooner(self.end(), self.fired)
    }

    /// A node's course, with one more child before those that are in it.
    fn with_child(self, kind: FutureKind, child: Course) -> Course
        ensures outcome { result.outcome ≡ self.outcome }
        ensures done { (n : ℕ) → enough result.done n
            ≡ (waits_for kind (outcome_by child n) && enough self.done n) }
        ensures fired { (n : ℕ) → enough result.fired n
            ≡ ((fires_on kind (outcome_by child n) || enough child.fired n)
            || enough self.fired n) }
    {
        let waits = if waits_for(kind, child.outcome) {
            child.done
        } else {
            None
        };
        let fires = if fires_on(kind, child.outcome) {
            child.done
        } else {
            None
        };
        Course {
            outcome: self.outcome,
            done: later(waits, self.done),
            fired: sooner(sooner(fires, child.fired), self.fired),
        }
    }
}

/// The course of a node of this kind, by those of its children.
pub fn course_of(kind: FutureKind, children: &[usize], courses: &[Course]) -> Course
    requires { (k : ℕ) → k < length children.now
        → slice_index_or children.now k 0 < length courses.now }
    ensures outcome { result.outcome ≡ outcome_of kind }
    ensures done { (n : ℕ) → enough result.done n
        ≡ all_wait_by (course_at courses.now) kind n children.now }
    ensures fired { (n : ℕ) → enough result.fired n
        ≡ any_fires_by (course_at courses.now) kind n children.now }
{
    let mut course = Course {
        outcome: outcome_of(kind),
        done: Some(0),
        fired: None,
    };
    let mut i = children.len();
    while i > 0 {
        i -= 1;
        course = course.with_child(kind, courses[children[i]]);
    }
    course
}
