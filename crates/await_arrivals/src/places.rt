//! The places of one id in the log.
ghost use Rattle.std.specs.Prelude.{◌≡◌, [], ◌∷◌, ◌++◌, drop, IfOk, OnOk, OnErr};
ghost use Rattle.std.specs.List.Sorted.{IsNonDecreasing};
ghost use Rattle.await_arrivals.specs.Entries.{under};
ghost use Rattle.await_arrivals.specs.Kept.{places_kept};
ghost use Rattle.await_arrivals.specs.Results.{first, newest};

use crate::queue::Queue;
use std::alloc::{AllocError, Global};
use std::marker::Model;

/// How the places of an id are kept. Most ids come once, and need no memory of their own.
#[derive(Drop)]
pub enum Kept {
    Nowhere,
    One(usize),
    Many(Box<Queue>),
}

/// Places that were not taken yet, oldest first.
#[derive(Drop)]
pub struct Places {
    kept: Kept,
}

impl Model for Places {
    ghost use Rattle.std.specs.Prelude.{List, ℕ};

    ghost Value = { List ℕ };

    ghost use Rattle.await_arrivals.specs.Kept.{places_kept};

    ghost view = { λ p. places_kept p.kept };
}

/// Keeps two places.
fn keep_two(alloc: Global, one: usize, other: usize) -> Result<Kept, AllocError>
    ensures { IfOk result (λ kept. places_kept kept ≡ one ∷ other ∷ []) }
{
    let mut queue = Queue::new(alloc);
    queue.push(one)?;
    queue.push(other)?;
    Ok(Kept::Many(Box::new(alloc, queue)?))
}

impl Places {
    pub fn one(place: usize) -> Places
        ensures { result ≡ place ∷ [] }
    {
        Places {
            kept: Kept::One(place),
        }
    }

    /// The oldest place.
    pub fn front(&self) -> Option<usize>
        ensures { result ≡ first self.now }
    {
        match &self.kept {
            Kept::Nowhere => None,
            Kept::One(place) => Some(*place),
            Kept::Many(queue) => queue.front(),
        }
    }

    /// Adds a place after the others.
    pub fn push(&mut self, alloc: Global, place: usize) -> Result<(), AllocError>
        ensures ok { OnOk result (self.new ≡ self.old ++ place ∷ []) }
        ensures err { OnErr result (self.new ≡ self.old) }
    {
        match &mut self.kept {
            Kept::Nowhere => self.kept = Kept::One(place),
            Kept::One(first) => self.kept = keep_two(alloc, *first, place)?,
            Kept::Many(queue) => queue.push(place)?,
        }
        Ok(())
    }

    /// Drops the oldest place.
    pub fn advance(&mut self)
        ensures { self.new ≡ drop 1 self.old }
    {
        match &mut self.kept {
            Kept::Many(queue) => queue.advance(),
            _ => self.kept = Kept::Nowhere,
        }
    }

    /// The newest place below a number.
    pub fn newest_under(&self, seen: usize) -> Option<usize>
        requires { IsNonDecreasing self.now }
        ensures { result ≡ newest (under seen self.now) }
    {
        match &self.kept {
            Kept::Nowhere => None,
            Kept::One(place) => (*place < seen).then_some(*place),
            Kept::Many(queue) => queue.newest_under(seen),
        }
    }
}
