//! Ephemeral reads of the state, which leave nothing in the journal: those that are in flight, and those whose value is there.
ghost use Rattle.std.specs.Prelude.{◌≡◌, true, false, IfNone, IfSome, OnOk, OnErr};
ghost use Rattle.vm_parts.specs.Ephemerals.{any_in_flight, any_ready, with_read_completed, is_ready, no_ephemerals, value_at, with_in_flight, with_ready, without_ready};

use bytes::Bytes;
use std::alloc::{AllocError, Global};
use std::collections::{BTreeMap, BTreeSet};
use std::marker::Model;

/// The reads, each by its id.
#[derive(Drop)]
pub struct EphemeralCommands {
    /// Those whose result hasn't come.
    in_flight: BTreeSet<u32>,
    /// Those whose value is there and wasn't taken; none where the key has no value.
    ready: BTreeMap<u32, Option<Bytes>>,
}

impl Model for EphemeralCommands {
    ghost use Rattle.vm_parts.specs.Ephemerals.{Ephemerals};

    ghost Value = { Ephemerals };

    ghost view = { λ e. record { in_flight = e.in_flight.keys; ready = e.ready.entries } };
}

impl EphemeralCommands {
    /// No reads.
    pub fn new(alloc: Global) -> EphemeralCommands
        ensures { result ≡ no_ephemerals }
    {
        EphemeralCommands {
            in_flight: BTreeSet::new(alloc),
            ready: BTreeMap::new(alloc),
        }
    }

    /// A read whose result is to come.
    pub fn put_in_flight(&mut self, id: u32) -> Result<(), AllocError>
        ensures ok { OnOk result (self.new ≡ with_in_flight id self.old) }
        ensures err { OnErr result (self.new ≡ self.old) }
    {
        self.in_flight.insert(id)?;
        Ok(())
    }

    /// A read whose value is known.
    pub fn put_ready(&mut self, id: u32, value: Option<Bytes>) -> Result<(), AllocError>
        ensures ok { OnOk result (self.new ≡ with_ready id value self.old) }
        ensures err { OnErr result (self.new ≡ self.old) }
    {
        self.ready.insert(id, value)?;
        Ok(())
    }

    /// The result of a read comes. It replaces a value that is there; if no such read is held, nothing is done.
    pub fn complete(&mut self, id: u32, value: Option<Bytes>) -> Result<(), AllocError>
        ensures ok { OnOk result (self.new ≡ with_read_completed id value self.old) }
        ensures err { OnErr result (self.new ≡ self.old) }
    {
        if self.in_flight.contains(&id) || self.ready.contains_key(&id) {
            self.ready.insert(id, value)?;
            self.in_flight.remove(&id);
        }
        Ok(())
    }

    /// Takes the value of a read, where it is there.
    pub fn take(&mut self, id: u32) -> Option<Option<Bytes>>
        ensures value { result ≡ value_at id self.old }
        ensures left { self.new ≡ without_ready id self.old }
    {
        self.ready.remove(&id)
    }

    /// The least id whose value is there.
    pub fn first_ready(&self) -> Option<u32>
        ensures ready { IfSome result (λ id. is_ready id self.now ≡ true) }
        ensures some { IfSome result (λ _. any_ready self.now ≡ true) }
        ensures none { IfNone result (any_ready self.now ≡ false) }
    {
        match self.ready.first_key_value() {
            Some((id, _)) => Some(*id),
            None => None,
        }
    }

    /// Whether the result of some read is to come.
    pub fn any_in_flight(&self) -> bool
        ensures { result ≡ any_in_flight self.now }
    {
        self.in_flight.len() > 0
    }
}
