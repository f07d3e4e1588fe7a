//! Why an engine stops.
ghost use Rattle.std.specs.Prelude.{◌≡◌};
ghost use Rattle.engine_inboxes.specs.Faults.{IsNoArrival, fault_of_arrival, fault_of_entry, fault_of_store};

use crate::types::InboxFault;
use journal_entries::JournalFault;
use std::fmt;

/// Why an engine stops.
#[derive(Clone, Copy, Debug, PartialEq, Eq)]
pub enum EngineFault {
    /// There is no memory.
    Memory,
    /// A journal is full.
    Full,
    /// What came for an attempt can't stand in its journal. It never does that.
    Arrival(JournalFault),
    /// What an attempt wrote can't be stored. An honest one's always can be.
    Stored(JournalFault),
    /// A command carries a completion id that isn't greater than those of the commands before it. An honest attempt's never does.
    IdNotNew,
    /// The result of a run completes an id that waits for something else. An honest attempt's never does.
    NotARun,
}

impl fmt::Display for EngineFault {
    fn fmt<W: fmt::Write>(&self, f: &mut fmt::Formatter<W>) -> fmt::Result {
        match self {
            EngineFault::Memory => f.write_str("out of memory"),
            EngineFault::Full => f.write_str("a journal is full"),
            EngineFault::Arrival(fault) | EngineFault::Stored(fault) => write!(f, "{fault}"),
            EngineFault::IdNotNew => f.write_str("a command carries an id that isn't new"),
            EngineFault::NotARun => f.write_str("a result is proposed for an id that is no run's"),
        }
    }
}

impl std::error::Error for EngineFault {}

/// What the fault of an arrival is to the engine.
pub fn arrival_of(fault: JournalFault) -> EngineFault
    ensures { result ≡ fault_of_arrival fault }
{
    match fault {
        JournalFault::Memory => EngineFault::Memory,
        JournalFault::JournalFull => EngineFault::Full,
        other => EngineFault::Arrival(other),
    }
}

/// What the fault of a store is to the engine.
pub fn stored_of(fault: JournalFault) -> EngineFault
    ensures value { result ≡ fault_of_store fault }
    ensures arrival { IsNoArrival result }
{
    match fault {
        JournalFault::Memory => EngineFault::Memory,
        JournalFault::JournalFull => EngineFault::Full,
        other => EngineFault::Stored(other),
    }
}

/// What the fault of an entry's effect is to the engine.
pub fn inbox_of(fault: InboxFault) -> EngineFault
    ensures value { result ≡ fault_of_entry fault }
    ensures arrival { IsNoArrival result }
{
    match fault {
        InboxFault::Memory => EngineFault::Memory,
        InboxFault::IdNotNew => EngineFault::IdNotNew,
        InboxFault::NotARun => EngineFault::NotARun,
    }
}
