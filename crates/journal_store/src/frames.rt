//! Frames, as a journal reads them.
ghost use Rattle.std.specs.Prelude.{◌≡◌, IfOk, None, true};
ghost use Rattle.journal_entries.specs.JournalFrames.{is_command_frame, is_notification};
ghost use Rattle.journal_entries.specs.Entries.{note_of as note_by, said_by};
ghost use Rattle.journal_store.specs.Journals.{note_of_part, command_of_part};

use journal_entries::entry::{is_command_frame, is_notification};
use journal_protocol::{Message, Notification, RawMessage};
use plain::Fault;
use std::alloc::{AllocError, Global};

/// What a frame is to a journal.
pub(crate) enum Part {
    /// A command that can be read.
    Command(Message),
    /// A notification that can be read.
    Arrived(Notification),
    /// Anything else.
    Other,
}

/// Written out, so that a caller who drops a part calls this.
impl Drop for Part {
    fn drop(self) {
        match self {
            Part::Command(command) => drop(command),
            Part::Arrived(note) => drop(note),
            Part::Other => {}
        }
    }
}

/// What a frame of a command is.
fn command_part(alloc: Global, raw: &RawMessage) -> Result<Part, AllocError>
    requires { is_command_frame raw.now ≡ true }
    ensures said { IfOk result (λ part. command_of_part part ≡ said_by raw.now) }
    ensures note { IfOk result (λ part. note_of_part part ≡ None) }
{
    match raw.read(alloc) {
        Ok(command) => Ok(Part::Command(command)),
        Err(Fault::Memory) => Err(AllocError),
        Err(Fault::Malformed) => Ok(Part::Other),
    }
}

/// What a frame of a notification is.
fn note_part(alloc: Global, raw: &RawMessage) -> Result<Part, AllocError>
    requires { is_notification raw.now ≡ true }
    ensures said { IfOk result (λ part. command_of_part part ≡ None) }
    ensures note { IfOk result (λ part. note_of_part part ≡ note_by raw.now) }
{
    match raw.read_notification(alloc) {
        Ok(note) => Ok(Part::Arrived(note)),
        Err(Fault::Memory) => Err(AllocError),
        Err(Fault::Malformed) => Ok(Part::Other),
    }
}

/// What a frame is to a journal.
#[tactic(auto, using(journal_entries::proofs::Framing::command_no_note, journal_entries::proofs::Framing::note_no_command))]
pub(crate) fn part_of(alloc: Global, raw: &RawMessage) -> Result<Part, AllocError>
    ensures said { IfOk result (λ part. command_of_part part ≡ said_by raw.now) }
    ensures note { IfOk result (λ part. note_of_part part ≡ note_by raw.now) }
{
    if is_command_frame(raw) {
        return command_part(alloc, raw);
    }
    if is_notification(raw) {
        return note_part(alloc, raw);
    }
    Ok(Part::Other)
}
