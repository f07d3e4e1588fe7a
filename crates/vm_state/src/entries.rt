//! The state's entries: one a key, in the order of the keys' bytes.
ghost use Rattle.std.specs.Prelude.{◌≡◌, [], IfOk, OnOk, OnErr};
ghost use Rattle.std.specs.Option.{option_copied};
ghost use Rattle.vm_state.specs.Entries.{IsInOrder, entry_of, with_entry, keys_with_value};

use crate::state_key::StateKey;
use bytes::Bytes;
use plain::Items;
use std::alloc::{AllocError, Global};
use std::collections::BTreeMap;
use std::marker::Model;

/// Entries of keys, each with a value or none, that contracts see as a list which is sorted by key.
#[derive(Drop)]
pub struct Entries {
    map: BTreeMap<StateKey, Option<Bytes>>,
}

impl Model for Entries {
    ghost use Rattle.std.specs.Prelude.{List, ℕ};
    ghost use Rattle.std.specs.Prelude.{Option};

    ghost Value = { List (List ℕ × Option (List ℕ)) };

    ghost view = { λ e. e.map.entries };
}

impl Entries {
    pub fn new(alloc: Global) -> Entries
        ensures { result ≡ [] }
    {
        Entries {
            map: BTreeMap::new(alloc),
        }
    }

    /// The key's entry, if it has one.
    pub fn get(&self, key: &StateKey) -> Option<&Option<Bytes>>
        ensures { option_copied result ≡ entry_of key.now self.now }
    {
        self.map.get(key)
    }

    /// A key gets this entry, instead of the one that it had.
    pub fn put(&mut self, key: StateKey, value: Option<Bytes>) -> Result<(), AllocError>
        ensures ok { OnOk result (self.new ≡ with_entry key value self.old) }
        ensures err { OnErr result (self.new ≡ self.old) }
    {
        self.map.insert(key, value)?;
        Ok(())
    }

    /// Drops all entries.
    pub fn clear(&mut self)
        ensures { self.new ≡ [] }
    {
        self.map.clear();
    }

    /// The keys whose entry has a value, in order.
    pub fn keys_with_value(&self, alloc: Global) -> Result<Items<Bytes>, AllocError>
        ensures keys { IfOk result (λ keys. keys ≡ keys_with_value self.now) }
        ensures ordered { IsInOrder self.now }
    {
        let mut keys = Items::new(alloc);
        for (key, value) in self.map.iter() {
            if value.is_some() {
                keys.push(Bytes::copy_from_slice(alloc, key.as_text().as_str().as_bytes())?)?;
            }
        }
        Ok(keys)
    }
}
