//! What an entry is to who stores it. It is read once, with the entry.
ghost use Rattle.std.specs.Prelude.{◌≡◌, Some, None, IfNone, IfOk, IfSome};
ghost use Rattle.journal_entries.specs.Entries.{note_in};
ghost use Rattle.journal_store.specs.Entered.{completed_id, entered_as, entered_in, id_completed};
ghost use Rattle.journal_store.specs.Journals.{note_of_part};

use crate::frames::Part;
use bytes::Bytes;
use journal_entries::entry::{frame_in, note_of};
use journal_protocol::{MessageType, Notification, NotificationId, RawMessage};
use std::alloc::{AllocError, Global};

/// What an entry is to who stores it.
#[derive(Clone, Copy, Debug)]
pub struct Entered {
    /// The type of its message.
    pub ty: MessageType,
    /// The completion id that it completes, if it is a completion.
    pub completes: Option<u32>,
}

/// The completion id that an id is.
fn completed_id(id: &NotificationId) -> Option<u32>
    ensures { result ≡ completed_id id.now }
{
    match id {
        NotificationId::CompletionId(id) => Some(*id),
        NotificationId::SignalId(_) => None,
        NotificationId::SignalName(_) => None,
    }
}

/// The completion id that a frame completes, if it is a completion.
fn part_completed(read: &Part) -> Option<u32>
    ensures { result ≡ id_completed (note_of_part read.now) }
{
    match read {
        Part::Arrived(note) => completed_id(&note.id),
        Part::Command(_) => None,
        Part::Other => None,
    }
}

/// A frame as an entry, by what it is to a journal.
pub(crate) fn entered_as(raw: &RawMessage, read: &Part) -> Entered
    ensures ty { result.ty ≡ raw.now.ty }
    ensures completes { result.completes ≡ id_completed (note_of_part read.now) }
{
    Entered {
        ty: raw.ty,
        completes: part_completed(read),
    }
}

/// A frame of a notification as an entry.
fn noted_as(raw: &RawMessage, note: &Notification) -> Entered
    ensures ty { result.ty ≡ raw.now.ty }
    ensures completes { result.completes ≡ id_completed (Some note.now) }
{
    Entered {
        ty: raw.ty,
        completes: completed_id(&note.id),
    }
}

/// The notification that some bytes are, if they are one, with what it is as an entry.
pub(crate) fn arrival_in(
    alloc: Global,
    entry: &Bytes,
) -> Result<Option<(Entered, Notification)>, AllocError>
    ensures none { IfOk result (λ found. IfNone found (note_in entry.now ≡ None)) }
    ensures note { IfOk result (λ found. IfSome found (λ it. note_in entry.now ≡ Some it.1)) }
    ensures entered { IfOk result (λ found. IfSome found (λ it. entered_in entry.now
        ≡ Some it.0)) }
{
    match frame_in(alloc, entry) {
        Err(error) => Err(error),
        Ok(None) => Ok(None),
        Ok(Some(raw)) => match note_of(alloc, &raw) {
            Err(error) => Err(error),
            Ok(None) => Ok(None),
            Ok(Some(note)) => {
                let entered = noted_as(&raw, &note);
                Ok(Some((entered, note)))
            }
        },
    }
}

/// A frame as an entry.
fn frame_entered(alloc: Global, raw: &RawMessage) -> Result<Entered, AllocError>
    ensures { IfOk result (λ entered. entered ≡ entered_as raw.now) }
{
    match note_of(alloc, raw) {
        Err(error) => Err(error),
        Ok(None) => Ok(Entered {
            ty: raw.ty,
            completes: None,
        }),
        Ok(Some(note)) => Ok(noted_as(raw, &note)),
    }
}

/// What an entry is, if it is one whole frame.
pub fn entered_in(alloc: Global, entry: &Bytes) -> Result<Option<Entered>, AllocError>
    ensures { IfOk result (λ entered. entered ≡ entered_in entry.now) }
{
    match frame_in(alloc, entry) {
        Err(error) => Err(error),
        Ok(None) => Ok(None),
        Ok(Some(raw)) => match frame_entered(alloc, &raw) {
            Ok(entered) => Ok(Some(entered)),
            Err(error) => Err(error),
        },
    }
}
