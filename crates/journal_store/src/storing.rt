//! What an attempt wrote is stored: the commands and proposals among its frames, one after another.
ghost use Rattle.std.specs.Prelude.{◌≡◌, ◌⊎◌, ◌∷◌, ◌++◌, ◌<◌, ◌^◌, ℕ, List, [], length, take, true, IfOk, IfErr, OnOk, None, Some, if◌then◌else◌};
ghost use Rattle.journal_protocol.specs.Versions.{is_from_v7};
ghost use Rattle.journal_protocol.specs.Frames.{IsWhole, encoding};
ghost use Rattle.journal_protocol.specs.Message.TheVariants as message;
ghost use Rattle.journal_entries.specs.Proposals.{acknowledged_completion};
ghost use Rattle.journal_entries.specs.Entries.{frame_of, note_in, note_of as note_by, said_at, said_by};
ghost use Rattle.journal_entries.specs.Storing.{acknowledgement, answer_to, completion_message, proposal_of, written_as};
ghost use Rattle.journal_entries.specs.declared.storing.Written.TheVariants as written;
ghost use Rattle.journal_entries.specs.declared.fault.JournalFault.TheVariants as journal_fault;
ghost use Rattle.journal_store.specs.Journals.{Appends, IsSameKept};
ghost use Rattle.journal_store.specs.Stored.{FaultsBy, IsStoringFault, NextFaultsBy, StoresBy, StoresNext, StoresOneBy, StoresRawBy, fits_in, storing_by};

use crate::frames::part_of;
use crate::journal::StoredJournal;
use bytes::{Bytes, BytesMut};
use journal_entries::entry::frame_bytes;
use journal_entries::storing::{Written, answer_bytes, next_written, written_as};
use journal_entries::{JournalFault, completion_result};
use journal_protocol::{
    Decoder, Encoder, Message, Notification, NotificationId, ProposeRunCompletion, RawMessage,
    Version,
};
use std::alloc::{AllocError, Global};

/// The completion with the proposed result.
fn completion_of(proposal: ProposeRunCompletion) -> Notification
    ensures { result ≡ acknowledged_completion proposal.id proposal }
{
    Notification {
        id: NotificationId::CompletionId(proposal.id),
        result: completion_result(proposal.result),
    }
}

/// The frame of a notification.
fn note_bytes(alloc: Global, note: Notification) -> Result<Bytes, AllocError>
    ensures bytes { IfOk result (λ b. b ≡ encoding (message.Notification note)) }
    ensures whole { OnOk result (IsWhole (message.Notification note)) }
{
    let message = Message::Notification(note);
    Encoder::new(alloc).encode(&message)
}

/// A frame is appended to what is known, and to the entries.
#[tactic(auto, using(crate::proofs::Stored::frame_said, crate::proofs::Stored::frame_noted))]
fn append_frame(
    alloc: Global,
    journal: &mut StoredJournal,
    entries: &mut Vec<Bytes>,
    raw: &RawMessage,
) -> Result<(), AllocError>
    requires room { journal.old.entries < 4_294_967_295 }
    requires fits { length raw.now.body < 2 ^ 64 }
    ensures stored { OnOk result (entries.new.items ≡ entries.old.items ++ frame_of raw.now ∷ []) }
    ensures appended { OnOk result
        (Appends (said_at (frame_of raw.now)) (note_in (frame_of raw.now)) journal.old
        journal.new) }
    ensures kept { IsSameKept journal.old journal.new }
{
    let frame = frame_bytes(alloc, raw)?;
    let read = part_of(alloc, raw)?;
    journal.append(&read)?;
    entries.push(frame)?;
    Ok(())
}

/// A command is stored, if there is room and memory.
fn store_command(
    alloc: Global,
    version: Version,
    journal: &mut StoredJournal,
    entries: &mut Vec<Bytes>,
    feed: &mut BytesMut,
    raw: RawMessage,
) -> Result<(), JournalFault>
    requires { length raw.body < 2 ^ 64 }
    ensures ok { OnOk result (StoresBy version (written.Command raw)
        journal.old entries.old.items feed.old.items journal.new entries.new.items feed.new.items) }
    ensures err { IfErr result (λ f.
        (f ≡ journal_fault.Memory) ⊎ (storing_by (written.Command raw) journal.old ≡ Some f)) }
    ensures kept { IsSameKept journal.old journal.new }
{
    if let Some(fault) = journal.room() {
        return Err(fault);
    }
    match append_frame(alloc, journal, entries, &raw) {
        Ok(()) => Ok(()),
        Err(_) => Err(JournalFault::Memory),
    }
}

/// A completion is appended to what is known, and to the entries.
fn append_completion(
    alloc: Global,
    journal: &mut StoredJournal,
    entries: &mut Vec<Bytes>,
    note: Notification,
) -> Result<Bytes, AllocError>
    requires { journal.old.entries < 4_294_967_295 }
    ensures stored { OnOk result (entries.new.items ≡ entries.old.items
        ++ encoding (message.Notification note) ∷ []) }
    ensures appended { OnOk result (Appends None (Some note) journal.old journal.new) }
    ensures bytes { IfOk result (λ b. b ≡ encoding (message.Notification note)) }
    ensures whole { OnOk result (IsWhole (message.Notification note)) }
    ensures kept { IsSameKept journal.old journal.new }
{
    journal.note(&note)?;
    let frame = note_bytes(alloc, note)?;
    let copy = frame.clone()?;
    entries.push(copy)?;
    Ok(frame)
}

/// A proposal is stored as its run's completion, and what answers it is fed.
fn settle(
    alloc: Global,
    version: Version,
    journal: &mut StoredJournal,
    entries: &mut Vec<Bytes>,
    feed: &mut BytesMut,
    proposal: ProposeRunCompletion,
) -> Result<(), AllocError>
    requires { journal.old.entries < 4_294_967_295 }
    ensures stored { OnOk result (entries.new.items ≡ entries.old.items
        ++ encoding (completion_message proposal) ∷ []) }
    ensures waits { OnOk result (feed.new.items ≡ feed.old.items ++ answer_to version proposal) }
    ensures appended { OnOk result
        (Appends None (Some (acknowledged_completion proposal.id proposal)) journal.old
        journal.new) }
    ensures whole { OnOk result (IsWhole (completion_message proposal)
        × (is_from_v7 version ≡ true → IsWhole (acknowledgement proposal.id))) }
    ensures kept { IsSameKept journal.old journal.new }
{
    let id = proposal.id;
    let completion = append_completion(alloc, journal, entries, completion_of(proposal))?;
    let answer = answer_bytes(alloc, version, id, &completion)?;
    feed.extend_from_slice(answer.as_slice())?;
    Ok(())
}

/// A proposal is stored, if it has no fault.
fn store_proposal(
    alloc: Global,
    version: Version,
    journal: &mut StoredJournal,
    entries: &mut Vec<Bytes>,
    feed: &mut BytesMut,
    proposal: ProposeRunCompletion,
) -> Result<(), JournalFault>
    ensures ok { OnOk result (StoresBy version (written.Proposal proposal)
        journal.old entries.old.items feed.old.items journal.new entries.new.items feed.new.items) }
    ensures err { IfErr result (λ f.
        (f ≡ journal_fault.Memory)
        ⊎ (storing_by (written.Proposal proposal) journal.old ≡ Some f)) }
    ensures kept { IsSameKept journal.old journal.new }
{
    match journal.proposing_fault(proposal.id) {
        Some(fault) => return Err(fault),
        None => {}
    }
    match settle(alloc, version, journal, entries, feed, proposal) {
        Ok(()) => Ok(()),
        Err(_) => Err(JournalFault::Memory),
    }
}

/// What was written is stored, if it has no fault.
fn store_item(
    alloc: Global,
    version: Version,
    journal: &mut StoredJournal,
    entries: &mut Vec<Bytes>,
    feed: &mut BytesMut,
    item: Written,
) -> Result<(), JournalFault>
    requires { fits_in item }
    ensures ok { OnOk result (StoresBy version item
        journal.old entries.old.items feed.old.items journal.new entries.new.items feed.new.items) }
    ensures err { IfErr result (λ f. (f ≡ journal_fault.Memory)
        ⊎ (storing_by item journal.old ≡ Some f)) }
    ensures kept { IsSameKept journal.old journal.new }
{
    match item {
        Written::Command(raw) => store_command(alloc, version, journal, entries, feed, raw),
        Written::Proposal(proposal) => {
            store_proposal(alloc, version, journal, entries, feed, proposal)
        }
    }
}

/// The frame is stored if it is one of a command or of a proposal.
#[tactic(auto, using(crate::proofs::Stored::item_fits))]
fn store_raw(
    alloc: Global,
    version: Version,
    journal: &mut StoredJournal,
    entries: &mut Vec<Bytes>,
    feed: &mut BytesMut,
    raw: RawMessage,
) -> Result<bool, JournalFault>
    requires { length raw.body < 2 ^ 64 }
    ensures ok { IfOk result (λ b. StoresRawBy version raw b
        journal.old entries.old.items feed.old.items journal.new entries.new.items feed.new.items) }
    ensures err { IfErr result (λ f. (f ≡ journal_fault.Memory) ⊎ FaultsBy raw journal.old f) }
    ensures kept { IsSameKept journal.old journal.new }
{
    match written_as(alloc, raw) {
        Err(_) => Err(JournalFault::Memory),
        Ok(None) => Ok(false),
        Ok(Some(item)) => match store_item(alloc, version, journal, entries, feed, item) {
            Ok(()) => Ok(true),
            Err(fault) => Err(fault),
        },
    }
}

/// The next frame is looked at, and stored if it is one of a command or of a proposal; `None` if no frame is whole.
fn store_one(
    alloc: Global,
    version: Version,
    journal: &mut StoredJournal,
    entries: &mut Vec<Bytes>,
    feed: &mut BytesMut,
    unstored: &mut Decoder,
) -> Result<Option<bool>, JournalFault>
    ensures ok { IfOk result (λ o. StoresOneBy version unstored.old o unstored.new
        journal.old entries.old.items feed.old.items journal.new entries.new.items feed.new.items) }
    ensures err { IfErr result (λ f. (f ≡ journal_fault.Memory)
        ⊎ NextFaultsBy unstored.old journal.old f) }
    ensures kept { IsSameKept journal.old journal.new }
{
    match next_written(unstored) {
        Err(fault) => Err(fault),
        Ok(None) => Ok(None),
        Ok(Some(raw)) => match store_raw(alloc, version, journal, entries, feed, raw) {
            Ok(stored) => Ok(Some(stored)),
            Err(fault) => Err(fault),
        },
    }
}

/// The next `n` commands and proposals among what an attempt wrote are stored, or all if there are fewer: `entries` gets those that are to
/// be appended, in order, and `feed` the frames that answer proposals, which the attempt is fed after the commit. After an error `undo`
/// leads back to the last commit.
pub fn store_from(
    alloc: Global,
    version: Version,
    journal: &mut StoredJournal,
    entries: &mut Vec<Bytes>,
    feed: &mut BytesMut,
    unstored: &mut Decoder,
    n: usize,
) -> Result<(), JournalFault>
    ensures ok { OnOk result (StoresNext version n unstored.old unstored.new
        journal.old entries.old.items feed.old.items journal.new entries.new.items feed.new.items) }
    ensures err { IfErr result
        (λ f. IsStoringFault version n unstored.old journal.old entries.old.items f) }
    ensures kept { IsSameKept journal.old journal.new }
{
    let mut left = n;
    while left > 0 {
        match store_one(alloc, version, journal, entries, feed, unstored) {
            Err(fault) => return Err(fault),
            Ok(None) => return Ok(()),
            Ok(Some(stored)) => {
                if stored {
                    left -= 1;
                }
            }
        }
    }
    Ok(())
}
