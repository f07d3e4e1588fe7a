//! `WholeJournal`: a stored journal with its entries, for who keeps both in memory.
ghost use Rattle.std.specs.Prelude.{◌≡◌, ◌≢◌, ◌⊎◌, ◌∷◌, ◌++◌, [], take, None, Some, IfOk, IfErr, OnErr, OnOk};
ghost use Rattle.journal_entries.specs.Arrivals.{arrival_fault};
ghost use Rattle.journal_entries.specs.Given.{AreGiven, GivenFaults};
ghost use Rattle.journal_entries.specs.Storing.{FirstFault, Stores, written_from};
ghost use Rattle.journal_entries.specs.declared.fault.JournalFault.TheVariants as journal_fault;
ghost use Rattle.journal_store.specs.Journals.{Holds};

use crate::journal::StoredJournal;
use crate::storing::store_from;
use bytes::{Bytes, BytesMut};
use journal_entries::JournalFault;
use journal_protocol::{Decoder, Version};
use std::alloc::Global;
use std::marker::Model;

/// A stored journal with its entries, one frame each. What is asked of an id takes time that grows with the logarithm of the journal.
#[derive(Drop)]
pub struct WholeJournal {
    entries: Vec<Bytes>,
    /// What is known of them.
    known: StoredJournal,
}

impl Model for WholeJournal {
    ghost use Rattle.std.specs.Prelude.{ℕ, List};

    ghost Value = { List (List ℕ) };

    ghost use Rattle.journal_store.specs.Journals.{Holds};

    ghost view = { λ j. j.entries.items };

    ghost invariant = { λ j. Holds j.known j.entries.items };
}

/// A notification is the next entry, if it has no fault.
fn arrive_in(
    alloc: Global,
    known: &mut StoredJournal,
    entries: &mut Vec<Bytes>,
    entry: &Bytes,
) -> Result<(), JournalFault>
    requires { Holds known.old entries.old.items }
    ensures ok { OnOk result ((arrival_fault entry.now entries.old.items ≡ None)
        × (entries.new.items ≡ entries.old.items ++ entry.now ∷ [])) }
    ensures holds { OnOk result (Holds known.new entries.new.items) }
    ensures err { IfErr result (λ f. (f ≡ journal_fault.Memory)
        ⊎ (arrival_fault entry.now entries.old.items ≡ Some f)) }
{
    let Ok(kept) = entry.clone() else {
        return Err(JournalFault::Memory);
    };
    match known.arrive(alloc, entry) {
        Err(fault) => return Err(fault),
        Ok(_) => {}
    }
    if entries.push(kept).is_err() {
        return Err(JournalFault::Memory);
    }
    Ok(())
}

/// What is known of these entries, if none has a fault after those before it.
fn known_of(alloc: Global, entries: &[Bytes]) -> Result<StoredJournal, JournalFault>
    ensures holds { IfOk result (λ known. Holds known entries.now) }
    ensures given { OnOk result (AreGiven [] entries.now) }
    ensures some { OnOk result (entries.now ≢ []) }
    ensures err { IfErr result (λ f. (f ≡ journal_fault.Memory) ⊎ GivenFaults entries.now f) }
{
    if entries.is_empty() {
        return Err(JournalFault::BadJournal);
    }
    let mut known = StoredJournal::new(alloc);
    for i in 0..entries.len() {
        match known.entry(alloc, &entries[i]) {
            Err(fault) => return Err(fault),
            Ok(_) => {}
        }
    }
    Ok(known)
}

/// What was written is stored, as much as is asked for.
fn store_in(
    alloc: Global,
    version: Version,
    known: &mut StoredJournal,
    entries: &mut Vec<Bytes>,
    feed: &mut BytesMut,
    unstored: &mut Decoder,
    n: usize,
) -> Result<(), JournalFault>
    requires { Holds known.old entries.old.items }
    ensures ok { OnOk result (Stores version n unstored.old entries.old.items feed.old.items
        entries.new.items feed.new.items unstored.new) }
    ensures holds { OnOk result (Holds known.new entries.new.items) }
    ensures err { IfErr result (λ f. (f ≡ journal_fault.Memory)
        ⊎ FirstFault version (take n (written_from unstored.old)) entries.old.items f) }
{
    store_from(alloc, version, known, entries, feed, unstored, n)
}

/// After an error there are no entries.
fn lose(alloc: Global, known: &mut StoredJournal, entries: &mut Vec<Bytes>)
    ensures none { entries.new.items ≡ [] }
    ensures holds { Holds known.new entries.new.items }
{
    *known = StoredJournal::new(alloc);
    entries.clear();
}

impl WholeJournal {
    /// The entries, in order.
    pub fn as_slice(&self) -> &[Bytes]
        ensures value { result.now ≡ self.now }
    {
        self.entries.as_slice()
    }

    /// A notification arrives, as one frame: it is the next entry, if it has no fault. After an error there are no entries.
    pub fn arrive(&mut self, alloc: Global, entry: &Bytes) -> Result<(), JournalFault>
        ensures ok { OnOk result ((arrival_fault entry.now self.old ≡ None)
            × (self.new ≡ self.old ++ entry.now ∷ [])) }
        ensures err { IfErr result (λ f. (f ≡ journal_fault.Memory)
            ⊎ (arrival_fault entry.now self.old ≡ Some f)) }
        ensures none { OnErr result (self.new ≡ []) }
    {
        match arrive_in(alloc, &mut self.known, &mut self.entries, entry) {
            Ok(()) => Ok(()),
            Err(fault) => {
                lose(alloc, &mut self.known, &mut self.entries);
                Err(fault)
            }
        }
    }

    /// The journal whose entries these are, each one whole frame, if none has a fault after those before it.
    pub fn load(alloc: Global, entries: Vec<Bytes>) -> Result<WholeJournal, JournalFault>
        ensures journal { IfOk result (λ journal. journal ≡ entries.items) }
        ensures given { OnOk result (AreGiven [] entries.items) }
        ensures some { OnOk result (entries.items ≢ []) }
        ensures err { IfErr result (λ f. (f ≡ journal_fault.Memory) ⊎ GivenFaults entries.items f) }
    {
        match known_of(alloc, entries.as_slice()) {
            Ok(known) => Ok(WholeJournal { entries, known }),
            Err(fault) => Err(fault),
        }
    }

    /// The next commands and proposals among what an attempt wrote are stored, or all if there are fewer, and `feed` gets the frames that
    /// answer proposals. After an error there are no entries.
    pub fn store(
        &mut self,
        alloc: Global,
        version: Version,
        feed: &mut BytesMut,
        unstored: &mut Decoder,
        n: usize,
    ) -> Result<(), JournalFault>
        ensures ok { OnOk result
            (Stores version n unstored.old self.old feed.old.items self.new feed.new.items
            unstored.new) }
        ensures err { IfErr result (λ f. (f ≡ journal_fault.Memory)
            ⊎ FirstFault version (take n (written_from unstored.old)) self.old f) }
        ensures none { OnErr result (self.new ≡ []) }
    {
        match store_in(
            alloc,
            version,
            &mut self.known,
            &mut self.entries,
            feed,
            unstored,
            n,
        ) {
            Ok(()) => Ok(()),
            Err(fault) => {
                lose(alloc, &mut self.known, &mut self.entries);
                Err(fault)
            }
        }
    }
}
