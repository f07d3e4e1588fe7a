//! `Taken`: the output of an attempt that was taken, piece by piece, and how many bytes it has.
ghost use Rattle.std.specs.Prelude.{◌≡◌, ◌∷◌, ◌++◌, [], OnOk, OnErr};
ghost use Rattle.vm_parts.specs.Outboxes.{len_of};

use bytes::Bytes;
use std::alloc::{AllocError, Global};
use std::marker::Model;

/// Pieces in the order in which they were taken.
#[derive(Drop)]
pub struct Taken {
    pieces: Vec<Bytes>,
    len: usize,
}

impl Model for Taken {
    ghost use Rattle.std.specs.Prelude.{◌≡◌, List, ℕ};
    ghost use Rattle.vm_parts.specs.Outboxes.{len_of};

    ghost Value = { List (List ℕ) };

    ghost view = { λ t. t.pieces.items };

    ghost invariant = { λ t. t.len ≡ len_of t.pieces.items };
}

impl Taken {
    pub fn new(alloc: Global) -> Taken
        ensures { result ≡ [] }
    {
        Taken {
            pieces: Vec::new(alloc),
            len: 0,
        }
    }

    pub fn push(&mut self, piece: Bytes) -> Result<(), AllocError>
        ensures ok { OnOk result (self.new ≡ self.old ++ piece ∷ []) }
        ensures err { OnErr result (self.new ≡ self.old) }
    {
        let len = self.len.saturating_add(piece.len());
        self.pieces.push(piece)?;
        self.len = len;
        Ok(())
    }

    /// How many bytes the pieces have, as far as a `usize` goes.
    pub fn len(&self) -> usize
        ensures { result ≡ len_of self.now }
    {
        self.len
    }
}
