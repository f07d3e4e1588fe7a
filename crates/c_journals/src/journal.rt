//! `HeldJournal`: a stored journal, with what the last store of an output is to append and to feed.
ghost use Rattle.std.specs.Prelude.{◌≡◌, List, [], length, OnOk, IfOk, IfErr, Some};
ghost use Rattle.journal_entries.specs.Arrivals.{arrival_fault};
ghost use Rattle.journal_entries.specs.Given.{given_fault};
ghost use Rattle.journal_store.specs.Journals.{Enters, IsFault, IsSameKept};
ghost use Rattle.journal_store.specs.Stored.{IsStoringFault};
ghost use Rattle.c_journals.specs.Journals.{EffectAnswered, EntryDone, FeedAnswered, FrameAnswered, IsEmptyJournal, IsUndone, KeepsAll, OutputDone, PartAnswered, RowAnswered, SameRows, StoresAll};
ghost use Rattle.c_journals.specs.Rows.{row_in};
ghost use Rattle.c_values.specs.Statuses.{IsStatus, status_by};
ghost use Rattle.c_values.specs.declared.status.Status.TheVariants.{Done};

use crate::effect::{EffectRow, effect_row, no_effect};
use crate::effect_part::write_effect;
use crate::fault::fault_status;
use crate::rest::ends_whole;
use crate::row::{Row, Stored, answer_store, entry_row, no_row, row_in};
use bytes::{Bytes, BytesMut};
use c_values::{Status, Told, tell, write};
use journal_entries::JournalFault;
use journal_protocol::{Decoder, Version};
use journal_store::{StoredJournal, store_from};
use std::alloc::{AllocError, Global};

/// A stored journal, the entries that the last store is to append, in order, and the bytes that answer it.
#[derive(Drop)]
pub struct HeldJournal {
    pub journal: StoredJournal,
    pub rows: Vec<Bytes>,
    pub feed: BytesMut,
}

/// The next entry of a journal that is loaded, as a row, if it has no fault.
fn load(alloc: Global, journal: &mut StoredJournal, entry: &[u8]) -> Result<Row, JournalFault>
    ensures ok { OnOk result (Enters (given_fault entry.now) entry.now journal.old journal.new) }
    ensures row { IfOk result (λ row. row ≡ row_in entry.now) }
    ensures done { IfOk result (λ row. status_by row.status ≡ Done) }
    ensures err { IfErr result (λ f. IsFault (given_fault entry.now) journal.old f) }
    ensures kept { IsSameKept journal.old journal.new }
{
    let Ok(bytes) = Bytes::copy_from_slice(alloc, entry) else {
        return Err(JournalFault::Memory);
    };
    match journal.entry(alloc, &bytes) {
        Ok(entered) => Ok(entry_row(&entered, entry.len())),
        Err(fault) => Err(fault),
    }
}

/// A notification arrives, as a row, if it has no fault.
fn arrive(alloc: Global, journal: &mut StoredJournal, entry: &[u8]) -> Result<Row, JournalFault>
    ensures ok { OnOk result (Enters (arrival_fault entry.now) entry.now journal.old journal.new) }
    ensures row { IfOk result (λ row. row ≡ row_in entry.now) }
    ensures done { IfOk result (λ row. status_by row.status ≡ Done) }
    ensures err { IfErr result (λ f. IsFault (arrival_fault entry.now) journal.old f) }
    ensures kept { IsSameKept journal.old journal.new }
{
    let Ok(bytes) = Bytes::copy_from_slice(alloc, entry) else {
        return Err(JournalFault::Memory);
    };
    match journal.arrive(alloc, &bytes) {
        Ok(entered) => Ok(entry_row(&entered, entry.len())),
        Err(fault) => Err(fault),
    }
}

/// All that is stored of an output is stored; whether it is whole frames.
fn store_all(
    alloc: Global,
    version: Version,
    journal: &mut StoredJournal,
    rows: &mut Vec<Bytes>,
    feed: &mut BytesMut,
    output: &[u8],
) -> Result<bool, JournalFault>
    ensures ok { IfOk result (λ whole. StoresAll version output.now whole journal.old
        rows.old.items feed.old.items journal.new rows.new.items feed.new.items) }
    ensures err { IfErr result (λ f. IsStoringFault version (length output.now) output.now
        journal.old rows.old.items f) }
    ensures kept { IsSameKept journal.old journal.new }
{
    let n = output.len();
    let mut unstored = Decoder::new(alloc);
    let Ok(bytes) = Bytes::copy_from_slice(alloc, output) else {
        return Err(JournalFault::Memory);
    };
    if unstored.push(bytes).is_err() {
        return Err(JournalFault::Memory);
    }
    match store_from(alloc, version, journal, rows, feed, &mut unstored, n) {
        Ok(()) => ends_whole(&mut unstored),
        Err(fault) => Err(fault),
    }
}

/// The same, as all that is to be appended and fed.
#[tactic(auto, using(crate::proofs::Undoing::stores_first, crate::proofs::Undoing::faults_first))]
fn store_only(
    alloc: Global,
    version: Version,
    journal: &mut StoredJournal,
    rows: &mut Vec<Bytes>,
    feed: &mut BytesMut,
    output: &[u8],
) -> Result<bool, JournalFault>
    ensures ok { IfOk result (λ whole. StoresAll version output.now whole journal.old [] []
        journal.new rows.new.items feed.new.items) }
    ensures err { IfErr result (λ f. IsStoringFault version (length output.now) output.now
        journal.old [] f) }
    ensures kept { IsSameKept journal.old journal.new }
{
    rows.clear();
    feed.clear();
    store_all(alloc, version, journal, rows, feed, output)
}

impl HeldJournal {
    /// A journal without entries.
    pub fn new(alloc: Global) -> HeldJournal
        ensures { IsEmptyJournal result }
    {
        HeldJournal {
            journal: StoredJournal::new(alloc),
            rows: Vec::new(alloc),
            feed: BytesMut::new(alloc),
        }
    }

    /// What came since the last commit is committed. After an error the journal has to be loaded again.
    pub fn keep(&mut self) -> Result<(), AllocError>
        ensures ok { OnOk result (KeepsAll self.old.journal self.new.journal) }
        ensures same { SameRows self.old self.new }
    {
        match self.journal.keep() {
            Ok(()) => Ok(()),
            Err(error) => Err(error),
        }
    }

    /// What came since the last commit is taken back.
    pub fn undo(&mut self)
        ensures { IsUndone self.old self.new }
    {
        self.journal.undo();
        self.rows.clear();
        self.feed.clear();
    }

    /// The next entry of a journal that is loaded, if it has no fault; else what came since the last commit is taken back.
    #[tactic(auto, using(crate::proofs::Undoing::undone_from, crate::proofs::Faults::entry_refused))]
    pub fn entry(&mut self, alloc: Global, entry: &[u8]) -> Row
        ensures { EntryDone (given_fault entry.now) entry.now (status_by result.status) result
            self.old self.new }
    {
        match load(alloc, &mut self.journal, entry) {
            Ok(row) => row,
            Err(fault) => {
                self.undo();
                no_row(fault_status(fault))
            }
        }
    }

    /// A notification arrives, if it has no fault; else what came since the last commit is taken back.
    #[tactic(auto, using(crate::proofs::Undoing::undone_from, crate::proofs::Faults::entry_refused))]
    pub fn arrive(&mut self, alloc: Global, entry: &[u8]) -> Row
        ensures { EntryDone (arrival_fault entry.now) entry.now (status_by result.status) result
            self.old self.new }
    {
        match arrive(alloc, &mut self.journal, entry) {
            Ok(row) => row,
            Err(fault) => {
                self.undo();
                no_row(fault_status(fault))
            }
        }
    }

    /// What an attempt wrote is stored: the rows are to be appended, and `feed` is what answers it. If it has a fault, or isn't whole
    /// frames, what came since the last commit is taken back.
    #[tactic(auto, using(crate::proofs::Undoing::undone_from, crate::proofs::Faults::output_refused, crate::proofs::Wholes::leaves_rest, crate::proofs::Wholes::stores_whole))]
    pub fn store(&mut self, alloc: Global, version: Version, output: &[u8]) -> Stored
        ensures done { OutputDone version output.now (status_by result.status) result self.old
            self.new }
        ensures known { IsStatus result.status }
    {
        match store_only(
            alloc,
            version,
            &mut self.journal,
            &mut self.rows,
            &mut self.feed,
            output,
        ) {
            Ok(true) => answer_store(Status::Done, self.rows.len(), self.feed.len()),
            Ok(false) => {
                self.undo();
                answer_store(Status::BadOutput, 0, 0)
            }
            Err(fault) => {
                self.undo();
                answer_store(fault_status(fault), 0, 0)
            }
        }
    }

    /// A row of the last store.
    pub fn row(&self, alloc: Global, at: usize) -> Row
        ensures { RowAnswered at (status_by result.status) result (Some self.now) }
    {
        match self.rows.get(at) {
            None => no_row(Status::NoRow),
            Some(entry) => match row_in(alloc, entry) {
                Ok(row) => row,
                Err(_) => no_row(Status::NoMemory),
            },
        }
    }

    /// What a row of the last store asks for.
    pub fn effect(&self, alloc: Global, at: usize) -> EffectRow
        ensures { EffectAnswered at result (Some self.now) }
    {
        match self.rows.get(at) {
            None => no_effect(Status::NoRow),
            Some(entry) => match effect_row(alloc, entry) {
                Ok(row) => row,
                Err(_) => no_effect(Status::NoMemory),
            },
        }
    }

    /// Writes a part of what a row of the last store asks for to the front of `out`, if there is room for it; and how long it is.
    pub fn read_effect(&self, alloc: Global, at: usize, place: usize, out: &mut [u8]) -> Told
        ensures read { PartAnswered at place (status_by result.status) result.len out.old out.new
            (Some self.now) }
        ensures known { IsStatus result.status }
    {
        match self.rows.get(at) {
            None => tell(Status::NoRow, 0),
            Some(entry) => write_effect(alloc, entry, place, out),
        }
    }

    /// Writes a row of the last store to the front of `out`, if there is room for it; and how long it is.
    pub fn read_row(&self, at: usize, out: &mut [u8]) -> (Status, usize)
        ensures { FrameAnswered at result.0 result.1 out.old out.new (Some self.now) }
    {
        match self.rows.get(at) {
            None => (Status::NoRow, 0),
            Some(entry) => write(entry.as_slice(), out),
        }
    }

    /// Writes what answers the last store to the front of `out`, if there is room for it; and how long it is.
    pub fn read_feed(&self, out: &mut [u8]) -> (Status, usize)
        ensures { FeedAnswered result.0 result.1 out.old out.new (Some self.now) }
    {
        write(self.feed.as_slice(), out)
    }
}
