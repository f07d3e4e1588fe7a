//! Places of an id that came more than once.
ghost use Rattle.std.specs.Prelude.{◌≡◌, [], ◌∷◌, ◌++◌, drop, OnOk, OnErr};
ghost use Rattle.std.specs.List.Sorted.{IsNonDecreasing};
ghost use Rattle.await_arrivals.specs.Entries.{under};
ghost use Rattle.await_arrivals.specs.Results.{first, newest};

use std::alloc::{AllocError, Global};
use std::marker::Model;

/// Places that were not taken yet, oldest first: a list that only grows, and a cursor into it.
#[derive(Drop)]
pub struct Queue {
    all: Vec<usize>,
    cursor: usize,
}

impl Model for Queue {
    ghost use Rattle.std.specs.Prelude.{List, ℕ, drop, length, ◌≤◌};

    ghost Value = { List ℕ };

    ghost view = { λ q. drop q.cursor q.all.items };

    ghost invariant = { λ q. q.cursor ≤ length q.all.items };
}

/// The newest of these that lies below a number, found by halving.
fn newest_under(places: &[usize], seen: usize) -> Option<usize>
    requires { IsNonDecreasing places.now }
    ensures { result ≡ newest (under seen places.now) }
{
    let count = places.partition_point(|place| *place < seen);
    if count == 0 {
        None
    } else {
        Some(places[count - 1])
    }
}

impl Queue {
    pub fn new(alloc: Global) -> Queue
        ensures { result ≡ [] }
    {
        Queue {
            all: Vec::new(alloc),
            cursor: 0,
        }
    }

    /// The oldest place.
    pub fn front(&self) -> Option<usize>
        ensures { result ≡ first self.now }
    {
        self.all.get(self.cursor).copied()
    }

    /// Adds a place after the others.
    pub fn push(&mut self, place: usize) -> Result<(), AllocError>
        ensures ok { OnOk result (self.new ≡ self.old ++ place ∷ []) }
        ensures err { OnErr result (self.new ≡ self.old) }
    {
        self.all.push(place)?;
        Ok(())
    }

    /// Moves the cursor past the oldest place.
    pub fn advance(&mut self)
        ensures { self.new ≡ drop 1 self.old }
    {
        if self.cursor < self.all.len() {
            self.cursor += 1;
        }
    }

    /// The newest place below a number.
    pub fn newest_under(&self, seen: usize) -> Option<usize>
        requires { IsNonDecreasing self.now }
        ensures { result ≡ newest (under seen self.now) }
    {
        newest_under(&self.all[self.cursor..], seen)
    }
}
