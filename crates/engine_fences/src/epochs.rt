//! The epochs of invocations' newest attempts.
ghost use Rattle.std.specs.Prelude.{◌≡◌, ℕ, OnOk};
ghost use Rattle.engine_fences.specs.Fences.{TakesEpoch, epoch_of};

use std::alloc::{AllocError, Global};
use std::collections::BTreeMap;

/// The epoch of each invocation's newest attempt, by the invocation's place.
#[derive(Drop)]
pub struct Epochs {
    pub newest: BTreeMap<usize, u64>,
}

impl Epochs {
    /// No attempt has begun.
    pub fn new(alloc: Global) -> Self
        ensures { (place : ℕ) → epoch_of result place ≡ 0 }
    {
        Epochs {
            newest: BTreeMap::new(alloc),
        }
    }

    /// The epoch of an invocation's newest attempt; 0 before the first.
    pub fn of(&self, place: usize) -> u64
        ensures { result ≡ epoch_of self.now place }
    {
        match self.newest.get(&place) {
            Some(epoch) => *epoch,
            None => 0,
        }
    }

    /// An attempt of this epoch is an invocation's newest.
    pub fn take(&mut self, place: usize, epoch: u64) -> Result<(), AllocError>
        ensures { OnOk result (TakesEpoch place epoch self.old self.new) }
    {
        self.newest.insert(place, epoch)?;
        Ok(())
    }
}
