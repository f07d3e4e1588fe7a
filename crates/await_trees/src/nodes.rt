//! A tree as a flat list of nodes in preorder, and their children as ranges of a second list.
use journal_attempt::FutureKind;

/// What stands at a node: a handle's number, or a kind over children.
#[derive(Clone, Copy)]
pub enum Label {
    Leaf(u32),
    Inner(FutureKind),
}

/// A node; the numbers of its children are `count` entries of the second list, from `first` on.
#[derive(Clone, Copy)]
pub struct Node {
    pub label: Label,
    pub first: usize,
    pub count: usize,
}
