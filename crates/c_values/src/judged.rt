//! The outcome of a tree.
use await_trees::Outcome;

/// The outcome of a tree, and whether a part of it wakes the attempt.
#[derive(Clone, Copy)]
pub struct JudgedTree {
    pub outcome: Outcome,
    pub fires: bool,
}
