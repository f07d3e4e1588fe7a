//! What a try leaves of a tree.
ghost use Rattle.std.specs.Prelude.{◌≡◌};
ghost use Rattle.await_tries.specs.Left.{IsTreeLeft};

use await_trees::Node;
use std::marker::Model;

/// A tree that a try left pending: its nodes, and the numbers of their children. The first node is the root.
#[derive(Drop)]
pub struct Residue {
    nodes: Vec<Node>,
    kids: Vec<usize>,
}

impl Model for Residue {
    ghost use Rattle.await_tries.specs.Left.{Left, IsTreeLeft};

    ghost Value = { Left };

    ghost view = { λ r. record { nodes = r.nodes.items; kids = r.kids.items } };

    ghost invariant = { λ r. IsTreeLeft (record { nodes = r.nodes.items; kids = r.kids.items }) };
}

/// The outcome of a try of a future.
#[derive(Drop)]
pub enum Resolution {
    /// It is awake.
    AnyCompleted,
    /// All that came is used, and this much is left to await.
    Pending(Residue),
}

impl Residue {
    pub fn new(nodes: Vec<Node>, kids: Vec<usize>) -> Residue
        requires { IsTreeLeft (record { nodes = nodes.items; kids = kids.items }) }
        ensures { result ≡ record { nodes = nodes.items; kids = kids.items } }
    {
        Residue { nodes, kids }
    }

    pub fn nodes(&self) -> &[Node]
        ensures nodes { result.now ≡ self.now.nodes }
        ensures whole { IsTreeLeft self.now }
    {
        self.nodes.as_slice()
    }

    pub fn kids(&self) -> &[usize]
        ensures { result.now ≡ self.now.kids }
    {
        self.kids.as_slice()
    }
}
