//! Worlds for tests: a builder, in which what a test doesn't say has a default.
ghost use Rattle.std.specs.Prelude.{◌≡◌, ◌⊎◌, ◌++◌, ◌∷◌, [], IfErr, IfOk};
ghost use Rattle.palqytun.specs.Worlds.{test_identity};

use crate::frames::input;
use bytes::Bytes;
use journal_entries::JournalFault;
use journal_protocol::Version;
use plain::Text;
use std::alloc::{AllocError, Global};
use std::marker::Model;
use vm_types::VMOptions;
use world_rounds::{Identity, World};

/// A world that a test describes, part by part. Contracts see the world that it will be.
pub struct WorldBuilder {
    alloc: Global,
    identity: Identity,
    options: VMOptions,
    version: Version,
    state: Vec<(String, Bytes)>,
    journal: Vec<Bytes>,
}

/// Written out, as for a setting.
impl Drop for WorldBuilder {
    fn drop(self) {
        let Self {
            alloc: _,
            identity,
            options: _,
            version: _,
            state,
            journal,
        } = self;
        drop(identity);
        drop(state);
        drop(journal);
    }
}

impl Model for WorldBuilder {
    ghost use Rattle.world_rounds.specs.Worlds.{WorldView, pairs_given};

    ghost Value = { WorldView };

    ghost view = { λ b. record {
      setting = record {
        identity = b.identity;
        options = b.options;
        version = b.version;
        base = pairs_given b.state.items;
      };
      journal = b.journal.items;
    } };
}

/// Whose invocation a test's is, if the test doesn't say.
fn test_identity(alloc: Global) -> Result<Identity, AllocError>
    ensures { IfOk result (λ identity. identity ≡ test_identity) }
{
    Ok(Identity {
        id: Bytes::from_static(b"test"),
        debug_id: Text::from_str(alloc, "test")?,
        key: Text::empty(alloc),
        random_seed: 0,
        scope: None,
        limit_key: None,
        idempotency_key: None,
    })
}

impl WorldBuilder {
    ghost use Rattle.palqytun.specs.Worlds.{test_setting, test_world};
    ghost use Rattle.journal_entries.specs.Given.{GivenFaults};
    ghost use Rattle.journal_entries.specs.declared.fault.JournalFault.TheVariants as journal_fault;

    /// An invocation "test" in version 7 with this input, the options' defaults, no key and no state.
    pub fn new(alloc: Global, bytes: &'static [u8]) -> Result<WorldBuilder, AllocError>
        ensures { IfOk result (λ b. b ≡ test_world bytes.now) }
    {
        let mut entries = Vec::new(alloc);
        entries.push(input(alloc, bytes)?)?;
        WorldBuilder::with_journal(alloc, entries)
    }

    /// The same with a journal from elsewhere, one frame an entry. The first entry is the input.
    pub fn with_journal(alloc: Global, entries: Vec<Bytes>) -> Result<WorldBuilder, AllocError>
        ensures { IfOk result (λ b. b
            ≡ record { setting = test_setting; journal = entries.items }) }
    {
        Ok(WorldBuilder {
            alloc,
            identity: test_identity(alloc)?,
            options: VMOptions::default(),
            version: Version::V7,
            state: Vec::new(alloc),
            journal: entries,
        })
    }

    /// The key of the virtual object or of the workflow.
    pub fn key(mut self, key: &str) -> Result<WorldBuilder, AllocError>
        ensures { IfOk result (λ b. b ≡ record self {
          setting = record self.setting {
            identity = record self.setting.identity { key = key.now };
          };
        }) }
    {
        self.identity.key = Text::from_str(self.alloc, key)?;
        Ok(self)
    }

    /// The seed of the handler's random numbers.
    pub fn random_seed(mut self, seed: u64) -> WorldBuilder
        ensures { result ≡ record self {
          setting = record self.setting {
            identity = record self.setting.identity { random_seed = seed };
          };
        } }
    {
        self.identity.random_seed = seed;
        self
    }

    /// Whose invocation it is, in all parts.
    pub fn identity(mut self, identity: Identity) -> WorldBuilder
        ensures { result ≡ record self { setting = record self.setting { identity = identity } } }
    {
        self.identity = identity;
        self
    }

    /// The state of this key before any command. If a key is given again, the last value counts.
    pub fn state(mut self, key: &str, value: &'static [u8]) -> Result<WorldBuilder, AllocError>
        ensures { IfOk result (λ b. b ≡ record self {
          setting = record self.setting {
            base = self.setting.base ++ (key.now, value.now) ∷ [];
          };
        }) }
    {
        let key = String::from_str(self.alloc, key)?;
        self.state.push((key, Bytes::from_static(value)))?;
        Ok(self)
    }

    /// What all attempts are made with.
    pub fn options(mut self, options: VMOptions) -> WorldBuilder
        ensures { result ≡ record self { setting = record self.setting { options = options } } }
    {
        self.options = options;
        self
    }

    /// The version of the protocol that all attempts speak.
    pub fn version(mut self, version: Version) -> WorldBuilder
        ensures { result ≡ record self { setting = record self.setting { version = version } } }
    {
        self.version = version;
        self
    }

    /// One more entry is stored in the journal: a command, or a result that came.
    pub fn stored(mut self, entry: Bytes) -> Result<WorldBuilder, AllocError>
        ensures { IfOk result (λ b. b ≡ record self { journal = self.journal ++ entry ∷ [] }) }
    {
        self.journal.push(entry)?;
        Ok(self)
    }

    /// The world. The first entry that can't stand in a journal decides its fault.
    pub fn build(self) -> Result<World, JournalFault>
        ensures world { IfOk result (λ w. w ≡ self) }
        ensures err { IfErr result
            (λ f. (f ≡ journal_fault.Memory) ⊎ GivenFaults self.journal f) }
    {
        let Self {
            alloc,
            identity,
            options,
            version,
            state,
            journal,
        } = self;
        World::with_journal(alloc, identity, options, version, state, journal)
    }
}
