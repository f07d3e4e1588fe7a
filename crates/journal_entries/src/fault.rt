//! Why an entry can't be stored, or can't stand in a journal that is given.

use std::fmt;

/// Why a journal refuses an entry, an arrival or what an attempt wrote. Rounds stop at the first event that has such a fault, and no world is made
/// of a journal whose entry has one; of several faults it is the first in this list.
#[derive(Clone, Copy, Debug, PartialEq, Eq)]
pub enum JournalFault {
    /// An arrival isn't one whole frame of a notification.
    NotANotification = 1,
    /// No stored command carries the id of a completion.
    NoSuchId = 2,
    /// A completion id is completed once more.
    SecondCompletion = 3,
    /// The id of an invocation is completed by something else.
    WrongKind = 4,
    /// The result of a run arrives; it is proposed by the attempt that ran it.
    RunIsProposed = 5,
    /// There is no memory.
    Memory = 6,
    /// The journal has `u32::MAX` entries.
    JournalFull = 7,
    /// A journal that is given is empty, begins with something else than one whole frame of an input, or has an entry that isn't one whole
    /// frame of a command or a notification that can be read.
    BadJournal = 8,
}

impl fmt::Display for JournalFault {
    fn fmt<W: fmt::Write>(&self, f: &mut fmt::Formatter<W>) -> fmt::Result {
        f.write_str(match self {
            JournalFault::NotANotification => "an arrival isn't one whole frame of a notification",
            JournalFault::NoSuchId => "no stored command has the id of a completion",
            JournalFault::SecondCompletion => "a completion comes for an id that is completed",
            JournalFault::WrongKind => "the id of an invocation is completed by something else",
            JournalFault::RunIsProposed =>
                "the result of a run arrives, but the attempt that ran it proposes it",
            JournalFault::Memory => "out of memory",
            JournalFault::JournalFull => "the journal is full",
            JournalFault::BadJournal => "an entry of the given journal can't stand there",
        })
    }
}

impl std::error::Error for JournalFault {}
