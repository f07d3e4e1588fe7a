//! What a suspended attempt waits for, in preorder, and its bytes.
ghost use Rattle.std.specs.Prelude.{◌≡◌, ◌+◌, ◌≤◌, ◌<◌, ◌⊎◌, if◌then◌else◌, Some, None, IfOk, MatchOption, IsSome, ◌↔◌, [], ◌∷◌};
ghost use Rattle.journal_attempt.specs.Futures.{are_whole, IsFuture, Layout};

use bytes::Bytes;
use std::alloc::{AllocError, Global};
use std::marker::Model;
use wire::{Fault, Items, Text, Wire};

#[derive(Debug, Clone, Copy, PartialEq, Eq)]
pub enum FutureKind {
    FirstCompleted,
    AllCompleted,
    FirstSucceededOrAllFailed,
    AllSucceededOrFirstFailed,
    Unknown,
}

/// One future without those that nest in it.
#[derive(Drop, Clone, PartialEq, Eq)]
pub struct FutureNode {
    pub kind: FutureKind,
    pub waiting_completions: Items<u32>,
    pub waiting_signals: Items<u32>,
    pub waiting_named_signals: Items<Text>,
    /// How many futures nest directly in it.
    pub nested: u64,
}

/// A future with all that nest in it: each node stands before those of the futures that nest in it.
#[derive(Drop, PartialEq, Eq)]
pub struct Future {
    nodes: Items<FutureNode>,
}

impl Model for Future {
    ghost use Rattle.std.specs.Prelude.{List};
    ghost use Rattle.journal_attempt.specs.declared.future.FutureNode.{FutureNode};

    ghost Value = { List FutureNode };

    ghost use Rattle.journal_attempt.specs.Futures.{IsFuture};

    ghost view = { λ f. f.nodes };

    ghost invariant = { λ f. IsFuture f.nodes };

    ghost inverse = { λ nodes. record { nodes = nodes } };
}

#[tactic(auto, unfolding(crate::specs::Futures::read_kind))]
impl Wire for FutureKind {
    ghost use Rattle.journal_attempt.specs.Futures.{kind_format};

    ghost format = { kind_format };

    fn put(&self, out: &mut Vec<u8>) -> Result<(), AllocError> {
        let number = match self {
            FutureKind::FirstCompleted => 0,
            FutureKind::AllCompleted => 1,
            FutureKind::FirstSucceededOrAllFailed => 2,
            FutureKind::AllSucceededOrFirstFailed => 3,
            FutureKind::Unknown => 4,
        };
        out.push(number)?;
        Ok(())
    }

    fn get(alloc: Global, input: &mut Bytes) -> Result<FutureKind, Fault> {
        match u8::get(alloc, input)? {
            0 => Ok(FutureKind::FirstCompleted),
            1 => Ok(FutureKind::AllCompleted),
            2 => Ok(FutureKind::FirstSucceededOrAllFailed),
            3 => Ok(FutureKind::AllSucceededOrFirstFailed),
            4 => Ok(FutureKind::Unknown),
            _ => Err(Fault::Malformed),
        }
    }
}

type Head = (FutureKind, (Items<u32>, (Items<u32>, Items<Text>)));

impl Wire for FutureNode {
    ghost use Rattle.journal_attempt.specs.Futures.{node_format};

    ghost format = { node_format };

    fn put(&self, out: &mut Vec<u8>) -> Result<(), AllocError> {
        self.kind.put(out)?;
        self.waiting_completions.put(out)?;
        self.waiting_signals.put(out)?;
        self.waiting_named_signals.put(out)?;
        self.nested.put(out)
    }

    fn get(alloc: Global, input: &mut Bytes) -> Result<FutureNode, Fault> {
        let ((kind, (waiting_completions, (waiting_signals, waiting_named_signals))), nested) = <(
            Head,
            u64,
        )>::get(alloc, input)?;
        Ok(FutureNode {
            kind,
            waiting_completions,
            waiting_signals,
            waiting_named_signals,
            nested,
        })
    }
}

/// How many futures are still awaited after a node in which `nested` futures nest, if `awaited` were before it. None if no future was, or
/// if there is no room for one node each.
fn awaited_behind(awaited: u64, nested: u64, room: usize) -> Option<u64>
    ensures { MatchOption result ((awaited ≡ 0) ⊎ (room + 1 < awaited + nested))
        (λ n. (0 < awaited) × (n + 1 ≡ awaited + nested) × (n ≤ room)) }
{
    let others = awaited.checked_sub(1)?;
    let left = (room as u64).checked_sub(others)?;
    if left < nested {
        return None;
    }
    Some(others + nested)
}

#[tactic(auto, unfolding(crate::specs::Futures::future, crate::specs::Futures::future_valid))]
impl Wire for Future {
    ghost use Rattle.journal_attempt.specs.Futures.{future_format};

    ghost format = { future_format };

    fn put(&self, out: &mut Vec<u8>) -> Result<(), AllocError> {
        for node in self.nodes.as_slice() {
            node.put(out)?;
        }
        Ok(())
    }

    fn get(alloc: Global, input: &mut Bytes) -> Result<Future, Fault> {
        let mut nodes = Items::new(alloc);
        let mut awaited = 1;
        while awaited > 0 {
            let node = FutureNode::get(alloc, input)?;
            // Each node takes a byte at least.
            let Some(behind) = awaited_behind(awaited, node.nested, input.len()) else {
                return Err(Fault::Malformed);
            };
            nodes.push(node)?;
            awaited = behind;
        }
        Ok(Future { nodes })
    }
}

/// Whether the nodes are one whole future in preorder.
fn is_whole(nodes: &[FutureNode]) -> bool
    ensures { result ≡ are_whole 1 nodes.now }
{
    let mut awaited = 1;
    for node in nodes {
        let Some(behind) = awaited_behind(awaited, node.nested, nodes.len()) else {
            return false;
        };
        awaited = behind;
    }
    awaited == 0
}

impl Future {
    /// A future in which none nests.
    pub fn waiting(
        alloc: Global,
        kind: FutureKind,
        waiting_completions: Items<u32>,
        waiting_signals: Items<u32>,
        waiting_named_signals: Items<Text>,
    ) -> Result<Future, AllocError>
        ensures { IfOk result (λ future. future ≡ record {
          kind = kind;
          waiting_completions = waiting_completions;
          waiting_signals = waiting_signals;
          waiting_named_signals = waiting_named_signals;
          nested = 0;
        } ∷ []) }
    {
        let mut nodes = Items::new(alloc);
        nodes.push(FutureNode {
            kind,
            waiting_completions,
            waiting_signals,
            waiting_named_signals,
            nested: 0,
        })?;
        Ok(Future { nodes })
    }

    /// The future of its nodes in preorder, if they are one whole future.
    pub fn from_nodes(nodes: Items<FutureNode>) -> Option<Future>
        ensures value { result ≡ (if are_whole 1 nodes then Some nodes else None) }
        // Exactly if they are a future of its parts.
        ensures layout { IsSome result ↔ Layout nodes }
    {
        if !is_whole(nodes.as_slice()) {
            return None;
        }
        Some(Future { nodes })
    }

    /// Where the nodes lie.
    pub fn alloc(&self) -> Global {
        self.nodes.alloc()
    }

    /// The nodes in preorder.
    pub fn nodes(&self) -> &[FutureNode]
        ensures nodes { result.now ≡ self.now }
        ensures whole { IsFuture self.now }
    {
        self.nodes.as_slice()
    }
}
