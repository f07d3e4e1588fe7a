//! An attempt in a place of its own, which contracts see as the attempt: so what holds one is small, and its layout is cheap to prove.
ghost use Rattle.std.specs.Prelude.{◌≡◌, IfOk};
ghost use Rattle.world_rounds.specs.Course.{EndsToldBy};
ghost use Rattle.world_rounds.specs.Inside.{the_now};
ghost use Rattle.world_rounds.specs.Rounds.{EventOutcome};

use crate::desk::{Desk, happen};
use crate::types::Event;
use journal_entries::JournalFault;
use std::alloc::{AllocError, Global};
use std::marker::Model;
use vm_attempt::Attempt;
use vm_types::Handler;

/// A value in a place of its own.
#[derive(Drop)]
pub struct Place<T> {
    inner: Box<T>,
}

impl<T> Model for Place<T> {
    ghost Value = { T };

    ghost coded = { T.code };

    ghost view = { λ it. it.inner.value };
}

impl<T: Drop> Place<T> {
    pub fn new(alloc: Global, value: T) -> Result<Place<T>, AllocError>
        ensures { IfOk result (λ held. held ≡ value) }
    {
        Ok(Place {
            inner: Box::new(alloc, value)?,
        })
    }

    pub fn as_ref(&self) -> &T
        ensures { result.now ≡ self.now }
    {
        &self.inner
    }
}

/// One event.
pub fn happen_at<H: Handler>(
    place: &mut Place<Attempt<&H>>,
    desk: &mut Desk,
    event: &Event,
) -> Result<(), JournalFault>
    ensures does { EventOutcome (H.meaning place.old.handler.now) event.now
        (the_now desk.old place.old.record_of) result (the_now desk.new place.new.record_of) }
    ensures handler { place.new.handler.now ≡ place.old.handler.now }
    ensures made_for { (place.new.version ≡ place.old.version)
        × (place.new.options ≡ place.old.options) }
{
    happen(&mut place.inner, desk, event)
}
