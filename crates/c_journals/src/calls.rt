//! What each call from C does with the journal that C holds, if there is one.
ghost use Rattle.std.specs.Prelude.{◌≡◌, None};
ghost use Rattle.journal_entries.specs.Arrivals.{arrival_fault};
ghost use Rattle.journal_entries.specs.Given.{given_fault};
ghost use Rattle.c_journals.specs.Journals.{CommitAnswered, EffectAnswered, EntryAnswered, FeedAnswered, FrameAnswered, HasEntries, IsNewJournal, OutputAnswered, OutputStored, PartAnswered, RowAnswered, UndoAnswered};
ghost use Rattle.c_journals.specs.Statuses.{version_named};
ghost use Rattle.c_values.specs.Statuses.{IsStatus, status_by};

use crate::effect::{EffectRow, no_effect};
use crate::held::{Journal, give, take};
use crate::journal::HeldJournal;
use crate::row::{Row, Stored, answer_store, no_row};
use c_values::{Status, Told, tell};
use journal_protocol::Version;
use std::alloc::Global;

/// The version of a number.
fn version_named(number: u32) -> Option<Version>
    ensures { result ≡ version_named number }
{
    match number {
        5 => Some(Version::V5),
        6 => Some(Version::V6),
        7 => Some(Version::V7),
        8 => Some(Version::V8),
        _ => None,
    }
}

/// Makes a journal without entries, if memory is found. One that was there is dropped.
pub fn open(alloc: Global, held: &mut Journal) -> u32
    ensures made { IsNewJournal (status_by result) held.new.value }
    ensures known { IsStatus result }
{
    close(alloc, held);
    match Box::new(alloc, HeldJournal::new(alloc)) {
        Ok(made) => {
            give(alloc, held, made);
            Status::Done.code()
        }
        Err(_) => Status::NoMemory.code(),
    }
}

/// Drops the journal, if there is one.
pub fn close(alloc: Global, held: &mut Journal)
    ensures { held.new.value ≡ None }
{
    let journal = take(alloc, held);
    drop(journal);
}

/// How many entries the journal has.
pub fn entries(alloc: Global, held: &mut Journal) -> Told
    ensures kept { held.new.value ≡ held.old.value }
    ensures known { IsStatus result.status }
    ensures counted { HasEntries (status_by result.status) result.len held.old.value }
{
    match take(alloc, held) {
        Some(journal) => {
            let count = journal.journal.entries();
            give(alloc, held, journal);
            tell(Status::Done, count as usize)
        }
        None => tell(Status::NoJournal, 0),
    }
}

/// The next entry of a journal that is loaded.
pub fn entry(alloc: Global, held: &mut Journal, entry: &[u8]) -> Row
    ensures { EntryAnswered (given_fault entry.now) entry.now (status_by result.status) result
        held.old.value held.new.value }
{
    match take(alloc, held) {
        Some(mut journal) => {
            let row = journal.entry(alloc, entry);
            give(alloc, held, journal);
            row
        }
        None => no_row(Status::NoJournal),
    }
}

/// A notification arrives.
pub fn arrive(alloc: Global, held: &mut Journal, entry: &[u8]) -> Row
    ensures { EntryAnswered (arrival_fault entry.now) entry.now (status_by result.status) result
        held.old.value held.new.value }
{
    match take(alloc, held) {
        Some(mut journal) => {
            let row = journal.arrive(alloc, entry);
            give(alloc, held, journal);
            row
        }
        None => no_row(Status::NoJournal),
    }
}

/// What an attempt wrote is stored, in the form of this version.
fn store_as(alloc: Global, held: &mut Journal, version: Version, output: &[u8]) -> Stored
    ensures stored { OutputStored version output.now (status_by result.status) result
        held.old.value held.new.value }
    ensures known { IsStatus result.status }
{
    match take(alloc, held) {
        Some(mut journal) => {
            let stored = journal.store(alloc, version, output);
            give(alloc, held, journal);
            stored
        }
        None => answer_store(Status::NoJournal, 0, 0),
    }
}

/// What an attempt wrote is stored, in the form of the version of this number.
pub fn store(alloc: Global, held: &mut Journal, version: u32, output: &[u8]) -> Stored
    ensures stored { OutputAnswered (version_named version) output.now (status_by result.status)
        result held.old.value held.new.value }
    ensures known { IsStatus result.status }
{
    match version_named(version) {
        Some(version) => store_as(alloc, held, version, output),
        None => answer_store(Status::BadNumber, 0, 0),
    }
}

/// What came since the last commit is committed. Without memory the journal is dropped.
pub fn keep(alloc: Global, held: &mut Journal) -> u32
    ensures committed { CommitAnswered (status_by result) held.old.value held.new.value }
    ensures known { IsStatus result }
{
    match take(alloc, held) {
        Some(mut journal) => match journal.keep() {
            Ok(()) => {
                give(alloc, held, journal);
                Status::Done.code()
            }
            Err(_) => Status::NoMemory.code(),
        },
        None => Status::NoJournal.code(),
    }
}

/// What came since the last commit is taken back.
pub fn undo(alloc: Global, held: &mut Journal) -> u32
    ensures undone { UndoAnswered (status_by result) held.old.value held.new.value }
    ensures known { IsStatus result }
{
    match take(alloc, held) {
        Some(mut journal) => {
            journal.undo();
            give(alloc, held, journal);
            Status::Done.code()
        }
        None => Status::NoJournal.code(),
    }
}

/// A row of the last store.
pub fn row(alloc: Global, held: &mut Journal, at: usize) -> Row
    ensures kept { held.new.value ≡ held.old.value }
    ensures read { RowAnswered at (status_by result.status) result held.old.value }
{
    match take(alloc, held) {
        Some(journal) => {
            let row = journal.row(alloc, at);
            give(alloc, held, journal);
            row
        }
        None => no_row(Status::NoJournal),
    }
}

/// What a row of the last store asks for.
pub fn effect(alloc: Global, held: &mut Journal, at: usize) -> EffectRow
    ensures kept { held.new.value ≡ held.old.value }
    ensures read { EffectAnswered at result held.old.value }
{
    match take(alloc, held) {
        Some(journal) => {
            let row = journal.effect(alloc, at);
            give(alloc, held, journal);
            row
        }
        None => no_effect(Status::NoJournal),
    }
}

/// Writes a part of what a row of the last store asks for to the front of `out`, if there is room for it, and says how long it is.
pub fn read_effect(
    alloc: Global,
    held: &mut Journal,
    at: usize,
    place: usize,
    out: &mut [u8],
) -> Told
    ensures kept { held.new.value ≡ held.old.value }
    ensures known { IsStatus result.status }
    ensures read { PartAnswered at place (status_by result.status) result.len out.old out.new
        held.old.value }
{
    match take(alloc, held) {
        Some(journal) => {
            let told = journal.read_effect(alloc, at, place, out);
            give(alloc, held, journal);
            told
        }
        None => tell(Status::NoJournal, 0),
    }
}

/// Writes a row of the last store to the front of `out`, if there is room for it, and says how long it is.
pub fn read_row(alloc: Global, held: &mut Journal, at: usize, out: &mut [u8]) -> Told
    ensures kept { held.new.value ≡ held.old.value }
    ensures known { IsStatus result.status }
    ensures read { FrameAnswered at (status_by result.status) result.len out.old out.new
        held.old.value }
{
    match take(alloc, held) {
        Some(journal) => {
            let (status, len) = journal.read_row(at, out);
            give(alloc, held, journal);
            tell(status, len)
        }
        None => tell(Status::NoJournal, 0),
    }
}

/// Writes what answers the last store to the front of `out`, if there is room for it, and says how long it is.
pub fn read_feed(alloc: Global, held: &mut Journal, out: &mut [u8]) -> Told
    ensures kept { held.new.value ≡ held.old.value }
    ensures known { IsStatus result.status }
    ensures read { FeedAnswered (status_by result.status) result.len out.old out.new
        held.old.value }
{
    match take(alloc, held) {
        Some(journal) => {
            let (status, len) = journal.read_feed(out);
            give(alloc, held, journal);
            tell(status, len)
        }
        None => tell(Status::NoJournal, 0),
    }
}
