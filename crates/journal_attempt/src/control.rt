//! What an attempt reports of itself: what it waits for.
ghost use Rattle.std.specs.Prelude.{◌≡◌};

use crate::Future;
use bytes::Bytes;
use std::alloc::{AllocError, Global};
use wire::{Fault, Wire};

/// The attempt stops until the future may go on.
#[derive(Drop)]
pub struct Suspension {
    pub future: Future,
}

/// What the attempt waits for while it goes on.
#[derive(Drop)]
pub struct AwaitingOn {
    pub future: Future,
    pub executing_side_effects: bool,
}

#[tactic(auto, unfolding(crate::specs::Encoding::suspension))]
impl Wire for Suspension {
    ghost use Rattle.journal_attempt.specs.Bodies.{suspension_format};

    ghost format = { suspension_format };

    fn put(&self, out: &mut Vec<u8>) -> Result<(), AllocError> {
        self.future.put(out)
    }

    fn get(alloc: Global, input: &mut Bytes) -> Result<Suspension, Fault> {
        let future = Future::get(alloc, input)?;
        Ok(Suspension { future })
    }
}

#[tactic(auto, unfolding(crate::specs::Encoding::awaiting_on))]
impl Wire for AwaitingOn {
    ghost use Rattle.journal_attempt.specs.Bodies.{awaiting_on_format};

    ghost format = { awaiting_on_format };

    fn put(&self, out: &mut Vec<u8>) -> Result<(), AllocError> {
        self.future.put(out)?;
        self.executing_side_effects.put(out)
    }

    fn get(alloc: Global, input: &mut Bytes) -> Result<AwaitingOn, Fault> {
        let (future, executing_side_effects) = <(Future, bool)>::get(alloc, input)?;
        Ok(AwaitingOn {
            future,
            executing_side_effects,
        })
    }
}
