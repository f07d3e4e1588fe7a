//! `Values`: a state of which all is known, key by key.
ghost use Rattle.std.specs.Prelude.{◌≡◌, [], ◌∷◌, true, IfOk, OnOk};
ghost use Rattle.std.specs.Str.{is_utf8};
ghost use Rattle.vm_state.specs.declared.state_map.StateCoverage.TheVariants.{Complete};
ghost use Rattle.vm_state.specs.States.{state_set, state_cleared, all_cleared};
ghost use Rattle.vm_asks.specs.Requests.{changed};
ghost use Rattle.vm_model.specs.Moves.{changed_by};
ghost use Rattle.journal_entries.specs.Entries.{said_in};
ghost use Rattle.world_rounds.specs.States.{HaveTextKeys, is_asked, is_key_listed, pairs_in, values_in};

use bytes::Bytes;
use journal_entries::entry::said_at;
use journal_protocol::Message;
use plain::{Items, Text, copy_of, is_same};
use std::alloc::{AllocError, Global};
use std::collections::BTreeMap;
use std::marker::Model;

/// Keys with their values, in the order of the keys' bytes; a key that was cleared has none. Contracts see the state.
#[derive(Drop)]
pub struct Values {
    map: BTreeMap<Text, Option<Bytes>>,
}

impl Model for Values {
    ghost use Rattle.vm_state.specs.declared.state_map.StateCoverage.TheVariants.{Complete};
    ghost use Rattle.vm_state.specs.declared.state_map.StateMap.{StateMap};

    ghost Value = { StateMap };

    ghost view = { λ v. record { entries = v.map.entries; coverage = Complete } };
}

/// Whether a key is one of these.
fn is_key_listed(keys: &[Text], key: &Text) -> bool
    ensures { result ≡ is_key_listed keys.now key.now }
{
    for k in keys {
        if is_same(k, key) {
            return true;
        }
    }
    false
}

/// Whether a round asks for a key: for any, unless it is partial.
fn is_asked(partial: bool, keys: &[Text], key: &Text) -> bool
    ensures { result ≡ is_asked partial keys.now key.now }
{
    if partial {
        is_key_listed(keys, key)
    } else {
        true
    }
}

/// A key's bytes, which are a text.
#[tactic(auto, using(crate::proofs::Texts::text_is))]
fn key_bytes(alloc: Global, key: &Text) -> Result<Bytes, AllocError>
    ensures bytes { IfOk result (λ bytes. bytes ≡ key.now) }
    ensures text { OnOk result (is_utf8 key.now ≡ true) }
{
    Bytes::copy_from_slice(alloc, key.as_str().as_bytes())
}

impl Values {
    pub fn new(alloc: Global) -> Values
        ensures { result ≡ record { entries = []; coverage = Complete } }
    {
        Values {
            map: BTreeMap::new(alloc),
        }
    }

    /// A key gets a value.
    pub fn set(&mut self, key: &Text, value: &Bytes) -> Result<(), AllocError>
        ensures { OnOk result (self.new ≡ state_set key.now value.now self.old) }
    {
        self.map.insert(copy_of(key)?, Some(value.clone()?))?;
        Ok(())
    }

    /// A key loses its value.
    fn clear(&mut self, key: &Text) -> Result<(), AllocError>
        ensures { OnOk result (self.new ≡ state_cleared key.now self.old) }
    {
        self.map.insert(copy_of(key)?, None)?;
        Ok(())
    }

    /// Each key loses its value.
    fn clear_all(&mut self)
        ensures { self.new ≡ all_cleared self.old }
    {
        self.map.clear();
    }

    /// What a command changes.
    pub fn change(&mut self, command: &Message) -> Result<(), AllocError>
        ensures { OnOk result (self.new ≡ changed command.now self.old) }
    {
        match command {
            Message::SetState(command) => self.set(&command.key, &command.value),
            Message::ClearState(command) => self.clear(&command.key),
            Message::ClearAllState(_) => {
                self.clear_all();
                Ok(())
            }
            _ => Ok(()),
        }
    }

    /// What an entry of a journal changes.
    fn apply(&mut self, alloc: Global, entry: &Bytes) -> Result<(), AllocError>
        ensures { OnOk result (self.new ≡ changed_by (said_in (entry.now ∷ [])) self.old) }
    {
        match said_at(alloc, entry) {
            Err(error) => Err(error),
            Ok(None) => Ok(()),
            Ok(Some(command)) => {
                let changed = self.change(&command);
                drop(command);
                changed
            }
        }
    }

    /// What the commands of a journal change, one after another.
    pub fn apply_all(&mut self, alloc: Global, journal: &[Bytes]) -> Result<(), AllocError>
        ensures { OnOk result (self.new ≡ changed_by (said_in journal.now) self.old) }
    {
        for entry in journal {
            self.apply(alloc, entry)?;
        }
        Ok(())
    }

    /// The keys with their values, in order, as the state before any command of another invocation.
    pub fn to_base(&self, alloc: Global) -> Result<Items<(Text, Bytes)>, AllocError>
        ensures { IfOk result (λ base. base ≡ values_in self.now) }
    {
        let mut base = Items::new(alloc);
        for (key, value) in self.map.iter() {
            if let Some(value) = value {
                base.push((copy_of(key)?, value.clone()?))?;
            }
        }
        Ok(base)
    }

    /// The keys that a round asks for, with their values, in order. Each key is a text.
    #[tactic(auto, using(crate::proofs::Texts::texts_more))]
    pub fn pairs(
        &self,
        alloc: Global,
        partial: bool,
        keys: &[Text],
    ) -> Result<Items<(Bytes, Bytes)>, AllocError>
        ensures pairs { IfOk result (λ pairs. pairs
            ≡ pairs_in (is_asked partial keys.now) self.now.entries) }
        ensures texts { IfOk result (λ pairs. HaveTextKeys pairs) }
    {
        let mut pairs = Items::new(alloc);
        for (key, value) in self.map.iter() {
            if let Some(value) = value {
                if is_asked(partial, keys, key) {
                    let key = key_bytes(alloc, key)?;
                    pairs.push((key, value.clone()?))?;
                }
            }
        }
        Ok(pairs)
    }
}
