//! The calls of a stored journal.
ghost use Rattle.std.specs.Prelude.{◌≡◌, None};
ghost use Rattle.journal_entries.specs.Arrivals.{arrival_fault};
ghost use Rattle.journal_entries.specs.Given.{given_fault};
ghost use Rattle.c_journals.specs.Journals.{EffectAnswered, HasEntries, EntryAnswered, FeedAnswered, FrameAnswered, IsNewJournal, CommitAnswered, OutputAnswered, PartAnswered, RowAnswered, UndoAnswered};
ghost use Rattle.c_journals.specs.Statuses.{version_named};
ghost use Rattle.c_values.specs.Statuses.{IsStatus, status_by};

use c_journals::{EffectRow, Journal, Row, Stored, calls};
use c_values::Told;
use std::alloc::Global;

/// Makes a journal without entries, if memory is found. One that was there is dropped.
#[unsafe(no_mangle)]
pub extern "C" fn proved_journal_new(alloc: Global, journal: &mut Journal) -> u32
    ensures made { IsNewJournal (status_by result) journal.new.value }
    ensures known { IsStatus result }
{
    calls::open(alloc, journal)
}

/// Drops the journal, if there is one.
#[unsafe(no_mangle)]
pub extern "C" fn proved_journal_free(alloc: Global, journal: &mut Journal)
    ensures { journal.new.value ≡ None }
{
    calls::close(alloc, journal)
}

/// How many entries the journal has.
#[unsafe(no_mangle)]
pub extern "C" fn proved_journal_entries(alloc: Global, journal: &mut Journal) -> Told
    ensures kept { journal.new.value ≡ journal.old.value }
    ensures known { IsStatus result.status }
    ensures counted { HasEntries (status_by result.status) result.len journal.old.value }
{
    calls::entries(alloc, journal)
}

/// The next entry of a journal that is loaded.
#[unsafe(no_mangle)]
pub extern "C" fn proved_journal_entry(alloc: Global, journal: &mut Journal, entry: &[u8]) -> Row
    ensures { EntryAnswered (given_fault entry.now) entry.now (status_by result.status) result
        journal.old.value journal.new.value }
{
    calls::entry(alloc, journal, entry)
}

/// A notification arrives.
#[unsafe(no_mangle)]
pub extern "C" fn proved_journal_arrive(alloc: Global, journal: &mut Journal, entry: &[u8]) -> Row
    ensures { EntryAnswered (arrival_fault entry.now) entry.now (status_by result.status) result
        journal.old.value journal.new.value }
{
    calls::arrive(alloc, journal, entry)
}

/// What an attempt wrote is stored, in the form of a version.
#[unsafe(no_mangle)]
pub extern "C" fn proved_journal_store(
    alloc: Global,
    journal: &mut Journal,
    version: u32,
    output: &[u8],
) -> Stored
    ensures stored { OutputAnswered (version_named version) output.now (status_by result.status)
        result journal.old.value journal.new.value }
    ensures known { IsStatus result.status }
{
    calls::store(alloc, journal, version, output)
}

/// A row of the last store.
#[unsafe(no_mangle)]
pub extern "C" fn proved_journal_row(alloc: Global, journal: &mut Journal, at: usize) -> Row
    ensures kept { journal.new.value ≡ journal.old.value }
    ensures read { RowAnswered at (status_by result.status) result journal.old.value }
{
    calls::row(alloc, journal, at)
}

/// What a row of the last store asks for.
#[unsafe(no_mangle)]
pub extern "C" fn proved_journal_effect(
    alloc: Global,
    journal: &mut Journal,
    at: usize,
) -> EffectRow
    ensures kept { journal.new.value ≡ journal.old.value }
    ensures read { EffectAnswered at result journal.old.value }
{
    calls::effect(alloc, journal, at)
}

/// Writes a part of what a row of the last store asks for to the front of `out`, if there is room for it, and says how long it is.
#[unsafe(no_mangle)]
pub extern "C" fn proved_journal_effect_part(
    alloc: Global,
    journal: &mut Journal,
    at: usize,
    place: usize,
    out: &mut [u8],
) -> Told
    ensures kept { journal.new.value ≡ journal.old.value }
    ensures known { IsStatus result.status }
    ensures read { PartAnswered at place (status_by result.status) result.len out.old out.new
        journal.old.value }
{
    calls::read_effect(alloc, journal, at, place, out)
}

/// Writes a row of the last store to the front of `out`, if there is room for it, and says how long it is.
#[unsafe(no_mangle)]
pub extern "C" fn proved_journal_frame(
    alloc: Global,
    journal: &mut Journal,
    at: usize,
    out: &mut [u8],
) -> Told
    ensures kept { journal.new.value ≡ journal.old.value }
    ensures known { IsStatus result.status }
    ensures read { FrameAnswered at (status_by result.status) result.len out.old out.new
        journal.old.value }
{
    calls::read_row(alloc, journal, at, out)
}

/// Writes what answers the last store to the front of `out`, if there is room for it, and says how long it is.
#[unsafe(no_mangle)]
pub extern "C" fn proved_journal_answer(
    alloc: Global,
    journal: &mut Journal,
    out: &mut [u8],
) -> Told
    ensures kept { journal.new.value ≡ journal.old.value }
    ensures known { IsStatus result.status }
    ensures read { FeedAnswered (status_by result.status) result.len out.old out.new
        journal.old.value }
{
    calls::read_feed(alloc, journal, out)
}

/// What came since the last commit is committed. Without memory the journal is dropped.
#[unsafe(no_mangle)]
pub extern "C" fn proved_journal_keep(alloc: Global, journal: &mut Journal) -> u32
    ensures committed { CommitAnswered (status_by result) journal.old.value journal.new.value }
    ensures known { IsStatus result }
{
    calls::keep(alloc, journal)
}

/// What came since the last commit is taken back.
#[unsafe(no_mangle)]
pub extern "C" fn proved_journal_undo(alloc: Global, journal: &mut Journal) -> u32
    ensures undone { UndoAnswered (status_by result) journal.old.value journal.new.value }
    ensures known { IsStatus result }
{
    calls::undo(alloc, journal)
}
