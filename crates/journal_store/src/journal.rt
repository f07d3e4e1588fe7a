//! `StoredJournal`: what a journal's only writer knows of it.
ghost use Rattle.std.specs.Prelude.{◌≡◌, ◌⊎◌, ◌<◌, ◌≤◌, ◌==◌, ℕ, List, [], IfOk, IfErr, OnOk, None, Some};
ghost use Rattle.journal_entries.specs.Arrivals.{arrival_fault, most_entries};
ghost use Rattle.journal_entries.specs.Given.{frame_fault, given_fault as fault_given};
ghost use Rattle.journal_entries.specs.declared.fault.JournalFault.TheVariants as journal_fault;
ghost use Rattle.journal_store.specs.Entered.{entered_as, entered_in};
ghost use Rattle.journal_store.specs.Journals.{Appends, Enters, Holds, IsFault, IsSameKept, Kept, Loads, arriving_fault, loaded_fault, loaded_note_fault, may_be_loaded, note_of_part, optional_note_fault, proposing_fault, room_at, command_of_part};

use crate::carried::{Carried, ids_in};
use crate::entered::{Entered, arrival_in, entered_as};
use crate::frames::{Part, part_of};
use crate::ids::Ids;
use bytes::Bytes;
use journal_entries::JournalFault;
use journal_entries::entry::{frame_in, is_input};
use journal_protocol::{Message, Notification, NotificationId, RawMessage};
use std::alloc::{AllocError, Global};
use std::marker::Model;

/// A stored journal, without its entries.
#[derive(Drop)]
pub struct StoredJournal {
    ids: Ids,
    /// How many entries it has.
    entries: u32,
    /// How many it had at the last commit.
    kept: u32,
}

impl Model for StoredJournal {
    ghost use Rattle.journal_store.specs.Journals.{JournalView};

    ghost Value = { JournalView };

    ghost view = { λ j. record { ids = j.ids; entries = j.entries; kept = j.kept } };
}

impl StoredJournal {
    /// A journal without entries.
    pub fn new(alloc: Global) -> StoredJournal
        ensures now { Holds result [] }
        ensures kept { Kept result [] }
    {
        StoredJournal {
            ids: Ids::new(alloc),
            entries: 0,
            kept: 0,
        }
    }

    /// How many entries it has.
    pub fn entries(&self) -> u32
        ensures { result ≡ self.now.entries }
    {
        self.entries
    }

    /// The fault of a journal that is full.
    pub(crate) fn room(&self) -> Option<JournalFault>
        ensures room { result ≡ room_at self.now.entries }
        ensures small { self.now.entries ≤ most_entries }
    {
        if self.entries == u32::MAX {
            Some(JournalFault::JournalFull)
        } else {
            None
        }
    }

    /// The fault of a notification.
    fn arriving_fault(&self, note: &Notification) -> Option<JournalFault>
        ensures fault { result ≡ arriving_fault note.now.id note.now.result self.now }
        ensures small { self.now.entries ≤ most_entries }
    {
        match &note.id {
            NotificationId::CompletionId(id) => {
                self.ids
                    .known(*id)
                    .completion_fault(&note.result, self.room())
            }
            NotificationId::SignalId(_) => self.room(),
            NotificationId::SignalName(_) => self.room(),
        }
    }

    /// The fault of a notification in a journal that is given.
    fn given_note_fault(&self, note: &Notification) -> Option<JournalFault>
        ensures { result ≡ loaded_note_fault note.now.id note.now.result self.now }
    {
        match &note.id {
            NotificationId::CompletionId(id) => {
                self.ids.known(*id).given_fault(&note.result, self.room())
            }
            NotificationId::SignalId(_) => self.room(),
            NotificationId::SignalName(_) => self.room(),
        }
    }

    /// The fault of a notification in a journal that is given, if it is one.
    fn noted_fault(&self, read: &Part) -> Option<JournalFault>
        ensures { result ≡ optional_note_fault (note_of_part read.now) self.now }
    {
        match read {
            Part::Arrived(note) => self.given_note_fault(note),
            Part::Command(_) => None,
            Part::Other => None,
        }
    }

    /// Whether a frame may stand as an entry.
    fn may_be_given(&self, alloc: Global, raw: &RawMessage, read: &Part) -> Result<bool, AllocError>
        ensures { IfOk result (λ may. may
            ≡ may_be_loaded (self.now.entries == 0) raw.now read.now) }
    {
        if self.entries == 0 {
            return is_input(alloc, raw);
        }
        match read {
            Part::Command(_) => Ok(true),
            Part::Arrived(_) => Ok(true),
            Part::Other => Ok(false),
        }
    }

    /// The fault of a frame in a journal that is given.
    fn given_fault(
        &self,
        alloc: Global,
        raw: &RawMessage,
        read: &Part,
    ) -> Result<Option<JournalFault>, AllocError>
        ensures fault { IfOk result (λ fault. fault ≡ loaded_fault raw.now read.now self.now) }
        ensures small { self.now.entries ≤ most_entries }
    {
        let room = self.room();
        if let Some(fault) = self.noted_fault(read) {
            return Ok(Some(fault));
        }
        if let Some(fault) = room {
            return Ok(Some(fault));
        }
        match self.may_be_given(alloc, raw, read) {
            Err(error) => Err(error),
            Ok(true) => Ok(None),
            Ok(false) => Ok(Some(JournalFault::BadJournal)),
        }
    }

    /// The fault of a proposal for the run of this id.
    pub(crate) fn proposing_fault(&self, id: u32) -> Option<JournalFault>
        ensures fault { result ≡ proposing_fault id self.now }
        ensures small { self.now.entries ≤ most_entries }
    {
        self.ids.known(id).proposed_fault(self.room())
    }

    /// A command is appended.
    fn command(&mut self, command: &Message) -> Result<(), AllocError>
        requires { self.old.entries < most_entries }
        ensures ok { OnOk result (Appends (Some command.now) None self.old self.new) }
        ensures kept { IsSameKept self.old self.new }
    {
        let Carried { called, result } = ids_in(command);
        self.ids.carry_called(called)?;
        self.ids.carry_result(result)?;
        self.entries += 1;
        Ok(())
    }

    /// A notification is appended.
    pub(crate) fn note(&mut self, note: &Notification) -> Result<(), AllocError>
        requires { self.old.entries < most_entries }
        ensures ok { OnOk result (Appends None (Some note.now) self.old self.new) }
        ensures kept { IsSameKept self.old self.new }
    {
        self.ids.note(&note.id)?;
        self.entries += 1;
        Ok(())
    }

    /// A frame is appended.
    pub(crate) fn append(&mut self, read: &Part) -> Result<(), AllocError>
        requires { self.old.entries < most_entries }
        ensures ok { OnOk result
            (Appends (command_of_part read.now) (note_of_part read.now) self.old self.new) }
        ensures kept { IsSameKept self.old self.new }
    {
        match read {
            Part::Command(command) => self.command(command),
            Part::Arrived(note) => self.note(note),
            Part::Other => {
                self.entries += 1;
                Ok(())
            }
        }
    }

    /// A notification is appended, if it has no fault.
    fn arrive_read(&mut self, note: &Notification) -> Result<(), JournalFault>
        ensures ok { OnOk result ((arriving_fault note.now.id note.now.result self.old ≡ None)
            × Appends None (Some note.now) self.old self.new) }
        ensures err { IfErr result (λ f. (f ≡ journal_fault.Memory)
            ⊎ (arriving_fault note.now.id note.now.result self.old ≡ Some f)) }
        ensures kept { IsSameKept self.old self.new }
    {
        match self.arriving_fault(note) {
            Some(fault) => Err(fault),
            None => match self.note(note) {
                Ok(()) => Ok(()),
                Err(_) => Err(JournalFault::Memory),
            },
        }
    }

    /// A notification arrives, as one frame: it is the next entry, if it has no fault. After an error `undo` leads back to the last commit.
    pub fn arrive(&mut self, alloc: Global, entry: &Bytes) -> Result<Entered, JournalFault>
        ensures ok { OnOk result (Enters (arrival_fault entry.now) entry.now self.old self.new) }
        ensures entered { IfOk result (λ it. entered_in entry.now ≡ Some it) }
        ensures err { IfErr result (λ f. IsFault (arrival_fault entry.now) self.old f) }
        ensures kept { IsSameKept self.old self.new }
    {
        match arrival_in(alloc, entry) {
            Err(_) => Err(JournalFault::Memory),
            Ok(None) => Err(JournalFault::NotANotification),
            Ok(Some((entered, note))) => match self.arrive_read(&note) {
                Ok(()) => Ok(entered),
                Err(fault) => Err(fault),
            },
        }
    }

    /// A frame is the next entry of a journal that is loaded, if it has no fault.
    fn load(&mut self, alloc: Global, raw: &RawMessage, read: &Part) -> Result<(), JournalFault>
        ensures ok { OnOk result ((loaded_fault raw.now read.now self.old ≡ None)
            × Appends (command_of_part read.now) (note_of_part read.now) self.old self.new) }
        ensures err { IfErr result (λ f. (f ≡ journal_fault.Memory)
            ⊎ (loaded_fault raw.now read.now self.old ≡ Some f)) }
        ensures kept { IsSameKept self.old self.new }
    {
        match self.given_fault(alloc, raw, read) {
            Err(_) => Err(JournalFault::Memory),
            Ok(Some(fault)) => Err(fault),
            Ok(None) => match self.append(read) {
                Ok(()) => Ok(()),
                Err(_) => Err(JournalFault::Memory),
            },
        }
    }

    /// A frame is read, and is the next entry, if it has no fault.
    fn load_raw(&mut self, alloc: Global, raw: &RawMessage) -> Result<Entered, JournalFault>
        ensures ok { OnOk result (Loads raw.now self.old self.new) }
        ensures entered { IfOk result (λ it. it ≡ entered_as raw.now) }
        ensures err { IfErr result (λ f. IsFault (frame_fault raw.now) self.old f) }
        ensures kept { IsSameKept self.old self.new }
    {
        match part_of(alloc, raw) {
            Err(_) => Err(JournalFault::Memory),
            Ok(read) => match self.load(alloc, raw, &read) {
                Ok(()) => Ok(entered_as(raw, &read)),
                Err(fault) => Err(fault),
            },
        }
    }

    /// The next entry of a journal that is loaded, as one frame, if it has no fault.
    pub fn entry(&mut self, alloc: Global, entry: &Bytes) -> Result<Entered, JournalFault>
        ensures ok { OnOk result (Enters (fault_given entry.now) entry.now self.old self.new) }
        ensures entered { IfOk result (λ it. entered_in entry.now ≡ Some it) }
        ensures err { IfErr result (λ f. IsFault (fault_given entry.now) self.old f) }
        ensures kept { IsSameKept self.old self.new }
    {
        match frame_in(alloc, entry) {
            Err(_) => Err(JournalFault::Memory),
            Ok(None) => match self.room() {
                Some(fault) => Err(fault),
                None => Err(JournalFault::BadJournal),
            },
            Ok(Some(raw)) => self.load_raw(alloc, &raw),
        }
    }

    /// What was stored since the last commit is committed. After an error the journal has to be loaded again.
    pub fn keep(&mut self) -> Result<(), AllocError>
        ensures now { OnOk result ((journal : List (List ℕ)) → Holds self.old journal
            → Holds self.new journal) }
        ensures kept { OnOk result ((journal : List (List ℕ)) → Holds self.old journal
            → Kept self.new journal) }
    {
        self.ids.keep()?;
        self.kept = self.entries;
        Ok(())
    }

    /// What was stored since the last commit isn't committed: the journal is again as it was then.
    pub fn undo(&mut self)
        ensures now { (journal : List (List ℕ)) → Kept self.old journal → Holds self.new journal }
        ensures kept { (journal : List (List ℕ)) → Kept self.old journal → Kept self.new journal }
    {
        self.ids.undo();
        self.entries = self.kept;
    }
}
