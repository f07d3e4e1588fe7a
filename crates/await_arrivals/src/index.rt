//! The slot of each notification id.
ghost use Rattle.std.specs.Prelude.{◌≡◌, ◌+◌, ◌≤◌, Some, None, cond, OnOk, OnErr};
ghost use Rattle.await_arrivals.specs.Ids.{same_id, slot_of, held_for_ids};
ghost use Rattle.await_arrivals.specs.Numbers.{most_for_one};

use crate::numbers::Numbers;
use journal_values::NotificationId;
use plain::Text;
use std::alloc::{AllocError, Global};
use std::collections::BTreeMap;

/// Which slot each id has, where it has one.
#[derive(Drop)]
pub struct Index {
    pub completions: Numbers,
    pub signals: BTreeMap<u32, usize>,
    pub names: BTreeMap<Text, usize>,
}

impl Index {
    pub fn new(alloc: Global) -> Index
        ensures slots { (id : NotificationId) → slot_of result id ≡ None }
        ensures held { held_for_ids result ≡ 0 }
    {
        Index {
            completions: Numbers::new(alloc),
            signals: BTreeMap::new(alloc),
            names: BTreeMap::new(alloc),
        }
    }

    /// Forgets all ids, and keeps the memory for a few.
    pub fn clear(&mut self)
        ensures slots { (id : NotificationId) → slot_of self.new id ≡ None }
        ensures held { held_for_ids self.new ≡ 0 }
    {
        self.completions.clear();
        self.signals.clear();
        self.names.clear();
    }

    pub fn find(&self, id: &NotificationId) -> Option<usize>
        ensures { result ≡ slot_of self.now id.now }
    {
        match id {
            NotificationId::CompletionId(id) => self.completions.find(*id),
            NotificationId::SignalId(id) => self.signals.get(id).copied(),
            NotificationId::SignalName(name) => self.names.get(name).copied(),
        }
    }

    /// Gives an id its slot.
    pub fn insert(&mut self, id: &NotificationId, slot: usize) -> Result<(), AllocError>
        ensures ok { OnOk result ((other : NotificationId) → slot_of self.new other
            ≡ cond (same_id id.now other) (Some slot) (slot_of self.old other)) }
        ensures err { OnErr result ((other : NotificationId) → slot_of self.new other
            ≡ slot_of self.old other) }
        ensures ok_held { OnOk result (held_for_ids self.new
            ≤ held_for_ids self.old + most_for_one) }
        ensures err_held { OnErr result (held_for_ids self.new ≡ held_for_ids self.old) }
    {
        match id {
            NotificationId::CompletionId(id) => {
                self.completions.insert(*id, slot)?;
            }
            NotificationId::SignalId(id) => {
                self.signals.insert(*id, slot)?;
            }
            NotificationId::SignalName(name) => {
                self.names.insert(name.clone()?, slot)?;
            }
        }
        Ok(())
    }
}
