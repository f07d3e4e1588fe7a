//! The fault of an entry, as C sees it.
ghost use Rattle.std.specs.Prelude.{◌≡◌};
ghost use Rattle.c_journals.specs.Statuses.{fault_status};

use c_values::Status;
use journal_entries::JournalFault;

/// How a call ends by a fault.
pub(crate) fn fault_status(fault: JournalFault) -> Status
    ensures { result ≡ fault_status fault }
{
    match fault {
        JournalFault::Memory => Status::NoMemory,
        JournalFault::NotANotification => Status::NotANotification,
        JournalFault::NoSuchId => Status::NoSuchId,
        JournalFault::SecondCompletion => Status::SecondCompletion,
        JournalFault::WrongKind => Status::WrongKind,
        JournalFault::RunIsProposed => Status::RunIsProposed,
        JournalFault::JournalFull => Status::JournalFull,
        JournalFault::BadJournal => Status::BadJournal,
    }
}
