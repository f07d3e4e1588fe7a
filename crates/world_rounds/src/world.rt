//! `World`: whose invocation it is, and its journal.
ghost use Rattle.std.specs.Prelude.{◌≡◌, [], ◌∷◌, IfOk, OnOk};
ghost use Rattle.journal_protocol.specs.Frames.{encoding, IsWhole};
ghost use Rattle.journal_protocol.specs.Message.TheVariants as message;
ghost use Rattle.world_rounds.specs.Worlds.{pairs_given};

use crate::types::{Identity, Setting};
use bytes::Bytes;
use journal_entries::JournalFault;
use journal_protocol::{Encoder, InputCommand, Message, Version};
use journal_store::WholeJournal;
use plain::{Items, Text};
use std::alloc::{AllocError, Global};
use std::marker::Model;
use vm_types::VMOptions;

/// An invocation: what all its attempts are made with, and the journal, one frame an entry.
#[derive(Drop)]
pub struct World {
    pub(crate) alloc: Global,
    pub(crate) setting: Setting,
    pub(crate) journal: WholeJournal,
}

impl Model for World {
    ghost use Rattle.world_rounds.specs.Worlds.{IsJournal, WorldView};

    ghost Value = { WorldView };

    ghost view = { λ a. record { setting = a.setting; journal = a.journal } };

    ghost invariant = { λ a. IsJournal a.journal };
}

/// The frame of an Input command.
fn input_bytes(alloc: Global, input: Bytes) -> Result<Bytes, AllocError>
    ensures bytes { IfOk result (λ b. b
        ≡ encoding (message.Input (record { headers = []; value = input }))) }
    ensures whole { OnOk result (IsWhole (message.Input (record { headers = []; value = input }))) }
{
    let message = Message::Input(InputCommand {
        headers: Items::new(alloc),
        value: input,
    });
    Encoder::new(alloc).encode(&message)
}

/// A journal of one frame.
fn one_entry(alloc: Global, frame: Bytes) -> Result<Vec<Bytes>, AllocError>
    ensures { IfOk result (λ j. j.items ≡ frame ∷ []) }
{
    let mut journal = Vec::new(alloc);
    journal.push(frame)?;
    Ok(journal)
}

/// The journal of a new world.
fn first_journal(alloc: Global, input: Bytes) -> Result<WholeJournal, JournalFault>
    ensures bytes { IfOk result (λ j. j
        ≡ encoding (message.Input (record { headers = []; value = input })) ∷ []) }
    ensures whole { OnOk result (IsWhole (message.Input (record { headers = []; value = input }))) }
{
    let Ok(frame) = input_bytes(alloc, input) else {
        return Err(JournalFault::Memory);
    };
    let Ok(entries) = one_entry(alloc, frame) else {
        return Err(JournalFault::Memory);
    };
    WholeJournal::load(alloc, entries)
}

/// Keys and values as contracts see them.
fn base_pairs(
    alloc: Global,
    state: Vec<(String, Bytes)>,
) -> Result<Items<(Text, Bytes)>, AllocError>
    ensures { IfOk result (λ base. base ≡ pairs_given state.items) }
{
    let mut base = Items::new(alloc);
    for (key, value) in state {
        base.push((Text::from_string(key), value))?;
    }
    Ok(base)
}

impl World {
    ghost use Rattle.std.specs.Prelude.{◌≡◌, ◌≢◌, ◌⊎◌, [], ◌∷◌, IfOk, IfErr, OnOk};
    ghost use Rattle.journal_entries.specs.Given.{AreGiven, GivenFaults};
    ghost use Rattle.world_rounds.specs.Executions.{IsOneExecution};
    ghost use Rattle.world_rounds.specs.Guarantees.{CanBeReplayed, HasRightKinds};
    ghost use Rattle.vm_model.specs.Calls.{Meaning};
    ghost use Rattle.vm_model.specs.Histories.{Whole};
    ghost use Rattle.vm_model.specs.HonestRounds.{IsOneRun};
    ghost use Rattle.journal_entries.specs.Entries.{journal_entries};
    ghost use Rattle.world_rounds.specs.States.{base_of};
    ghost use Rattle.world_rounds.specs.Worlds.{setup_of};
    ghost use Rattle.journal_entries.specs.declared.fault.JournalFault.TheVariants as journal_fault;

    /// A world whose journal is one Input command, with this state before any command; of several pairs of one key the last
    /// counts.
    pub fn new(
        alloc: Global,
        identity: Identity,
        options: VMOptions,
        version: Version,
        input: Bytes,
        state: Vec<(String, Bytes)>,
    ) -> Result<World, JournalFault>
        ensures setting { IfOk result (λ w. w.setting
            ≡ record {
              identity = identity;
              options = options;
              version = version;
              base = pairs_given state.items;
            }) }
        ensures journal { IfOk result (λ w. w.journal
            ≡ encoding (message.Input (record { headers = []; value = input })) ∷ []) }
        // Its frame can be read back.
        ensures whole { OnOk result
            (IsWhole (message.Input (record { headers = []; value = input }))) }
        ensures err { IfErr result (λ f. f ≡ journal_fault.Memory) }
        // For every handler one execution made the journal, even if its calls know nothing of the
        // state.
        ensures one_run { IfOk result (λ w. (m : Meaning)
            → IsOneExecution m w.setting w.journal) }
        ensures undisturbed { IfOk result (λ w. (m : Meaning)
            → IsOneRun (setup_of w.setting) m (Whole (base_of w.setting))
            (journal_entries w.journal)) }
        // Each result of an invocation's id that it holds is one: it holds none.
        ensures kinds { IfOk result (λ w. HasRightKinds w.journal) }
    {
        let Ok(journal) = first_journal(alloc, input) else {
            return Err(JournalFault::Memory);
        };
        let Ok(base) = base_pairs(alloc, state) else {
            return Err(JournalFault::Memory);
        };
        Ok(World {
            alloc,
            setting: Setting {
                identity,
                options,
                version,
                base,
            },
            journal,
        })
    }

    /// A world whose journal these entries are, each one whole frame, with this state before any command; of several pairs of one key the last
    /// counts. The first entry is an input; completions are of ids that commands before them carry, once each. The entries decide what fault
    /// it is, the first that has one, with the least of its own.
    pub fn with_journal(
        alloc: Global,
        identity: Identity,
        options: VMOptions,
        version: Version,
        state: Vec<(String, Bytes)>,
        entries: Vec<Bytes>,
    ) -> Result<World, JournalFault>
        ensures setting { IfOk result (λ w. w.setting
            ≡ record {
              identity = identity;
              options = options;
              version = version;
              base = pairs_given state.items;
            }) }
        ensures journal { IfOk result (λ w. w.journal ≡ entries.items) }
        ensures given { OnOk result ((entries.items ≢ []) × AreGiven [] entries.items) }
        // If a handler can replay it, each result of an invocation's id that it holds is one.
        ensures kinds { IfOk result (λ w. (m : Meaning)
            → CanBeReplayed m w → HasRightKinds w.journal) }
        ensures err { IfErr result (λ f. (f ≡ journal_fault.Memory) ⊎ GivenFaults entries.items f) }
    {
        let journal = match WholeJournal::load(alloc, entries) {
            Err(fault) => return Err(fault),
            Ok(journal) => journal,
        };
        let Ok(base) = base_pairs(alloc, state) else {
            return Err(JournalFault::Memory);
        };
        Ok(World {
            alloc,
            setting: Setting {
                identity,
                options,
                version,
                base,
            },
            journal,
        })
    }

    /// The journal, one frame an entry.
    pub fn journal(&self) -> &[Bytes]
        ensures { result.now ≡ self.now.journal }
    {
        self.journal.as_slice()
    }
}
