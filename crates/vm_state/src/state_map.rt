//! `StateMap`: the state as it was handed out and as the handler has changed it since, and what is known of each key.
ghost use Rattle.std.specs.Prelude.{◌≡◌, ◌≢◌, List, [], ◌∷◌, ◌++◌, ℕ, IfSome, IfOk, OnOk, OnErr};
ghost use Rattle.std.specs.List.Sorted.{IsStrictlySortedBy};
ghost use Rattle.vm_state.specs.declared.state_map.StateCoverage.{StateCoverage as Coverage};
ghost use Rattle.vm_state.specs.declared.state_map.StateMap.{StateMap as State};
ghost use Rattle.vm_state.specs.declared.state_map.Known.TheVariants.{Empty, Value};
ghost use Rattle.vm_state.specs.Entries.{IsInOrder, by_bytes, entries_of, is_key_among};
ghost use Rattle.vm_state.specs.States.{state_set, state_cleared, all_cleared, value_known, has_value, known_keys};

use crate::entries::Entries;
use crate::state_key::StateKey;
use bytes::Bytes;
use plain::{Items, Text, copy_of};
use std::alloc::{AllocError, Global};

/// Whether a key that the state map doesn't list is known to have no value.
#[derive(Clone, Copy)]
pub enum StateCoverage {
    /// The runtime handed out some keys only.
    Partial,
    /// Each key without an entry is empty.
    Complete,
}

/// The state as it was handed out and as the handler has changed it since.
#[derive(Drop)]
pub struct StateMap {
    pub entries: Entries,
    pub coverage: StateCoverage,
}

/// What is known of a key's value.
#[derive(Drop)]
pub enum Known {
    /// The key's value was not handed out, and the handler hasn't changed it.
    Unknown,
    /// The key has no value.
    Empty,
    Value(Bytes),
}

impl StateMap {
    /// A state of which this much is known and no entry was handed out.
    pub fn new(alloc: Global, coverage: StateCoverage) -> StateMap
        ensures { result ≡ record { entries = []; coverage = coverage } }
    {
        StateMap {
            entries: Entries::new(alloc),
            coverage,
        }
    }

    /// A key gets a value.
    pub fn set(&mut self, key: &Text, value: &Bytes) -> Result<(), AllocError>
        ensures ok { OnOk result (self.new ≡ state_set key.now value.now self.old) }
        ensures err { OnErr result (self.new ≡ self.old) }
    {
        let (key, value) = (StateKey::new(copy_of(key)?), value.clone()?);
        self.entries.put(key, Some(value))
    }

    /// A key loses its value.
    pub fn clear(&mut self, key: &Text) -> Result<(), AllocError>
        ensures ok { OnOk result (self.new ≡ state_cleared key.now self.old) }
        ensures err { OnErr result (self.new ≡ self.old) }
    {
        self.entries.put(StateKey::new(copy_of(key)?), None)
    }

    /// Each key loses its value.
    pub fn clear_all(&mut self)
        ensures { self.new ≡ all_cleared self.old }
    {
        self.entries.clear();
        self.coverage = StateCoverage::Complete;
    }

    /// What is known of a key.
    pub fn get(&self, key: &StateKey) -> Result<Known, AllocError>
        ensures { IfOk result (λ found. found ≡ value_known key.now self.now) }
    {
        match self.entries.get(key) {
            Some(Some(value)) => Ok(Known::Value(value.clone()?)),
            Some(None) => Ok(Known::Empty),
            None => match self.coverage {
                StateCoverage::Partial => Ok(Known::Unknown),
                StateCoverage::Complete => Ok(Known::Empty),
            },
        }
    }

    /// The keys that have a value; none where the whole state isn't known.
    #[tactic(auto, using(crate::proofs::Keys::keys_in_order, crate::proofs::Keys::key_listed))]
    pub fn keys(&self, alloc: Global) -> Result<Option<Items<Bytes>>, AllocError>
        ensures keys { IfOk result (λ keys. keys ≡ known_keys self.now) }
        ensures sorted { IfOk result (λ keys. IfSome keys (IsStrictlySortedBy by_bytes)) }
        ensures listed { IfOk result
            (λ keys. IfSome keys (λ found. (key : List ℕ) → is_key_among key found
            ≡ has_value (value_known key self.now))) }
    {
        match self.coverage {
            StateCoverage::Partial => Ok(None),
            StateCoverage::Complete => Ok(Some(self.entries.keys_with_value(alloc)?)),
        }
    }
}

/// What the changes of the state leave, key by key: a set gives its key its value, a clear takes it away, each leaves
/// the other keys as they were, and a clear of all takes each key's value away. Each pair that is handed out is a set.
/// There stays one entry a key, in order.
#[tactic(auto, using(crate::proofs::Changes::known_set, crate::proofs::Changes::known_besides_set, crate::proofs::Changes::known_cleared, crate::proofs::Changes::known_besides_cleared, crate::proofs::Changes::stays_in_order, crate::proofs::Changes::known_last, crate::proofs::Changes::known_besides_last, crate::proofs::Changes::pairs_in_order))]
pub fn state_changes()
    ensures set { (key value : List ℕ) (s : State) → value_known key (state_set key value s)
        ≡ Value value }
    ensures besides_set { (key other value : List ℕ) (s : State) → other ≢ key
        → value_known other (state_set key value s) ≡ value_known other s }
    ensures cleared { (key : List ℕ) (s : State) → value_known key (state_cleared key s) ≡ Empty }
    ensures besides_cleared { (key other : List ℕ) (s : State) → other ≢ key
        → value_known other (state_cleared key s) ≡ value_known other s }
    ensures all_cleared { (key : List ℕ) (s : State) → value_known key (all_cleared s) ≡ Empty }
    ensures last_pair { (key value : List ℕ) (pairs : List (List ℕ × List ℕ)) (c : Coverage)
        → value_known key (record {
          entries = entries_of (pairs ++ (key, value) ∷ []);
          coverage = c;
        })
        ≡ Value value }
    ensures besides_last_pair { (key other value : List ℕ) (pairs : List (List ℕ × List ℕ))
        (c : Coverage) → other ≢ key
        → value_known other (record {
          entries = entries_of (pairs ++ (key, value) ∷ []);
          coverage = c;
        })
        ≡ value_known other (record { entries = entries_of pairs; coverage = c }) }
    ensures pairs_in_order { (pairs : List (List ℕ × List ℕ)) → IsInOrder (entries_of pairs) }
    ensures set_in_order { (key value : List ℕ) (s : State) → IsInOrder s.entries
        → IsInOrder (state_set key value s).entries }
    ensures cleared_in_order { (key : List ℕ) (s : State) → IsInOrder s.entries
        → IsInOrder (state_cleared key s).entries }
{}
