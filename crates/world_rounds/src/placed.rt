//! A fault of rounds with its place, and what there is of rounds that it has stopped.

use crate::types::Report;
use journal_entries::JournalFault;
use std::fmt;

/// A fault of rounds, and where it is. Printed for people it counts from 1.
#[derive(Clone, Copy, Debug, PartialEq, Eq)]
pub struct PlacedFault {
    pub fault: JournalFault,
    /// The round, counted from 0.
    pub round: usize,
    /// The event in that round, counted from 0. `None` is out of memory before the round's first event or after its last.
    pub event: Option<usize>,
}

impl fmt::Display for PlacedFault {
    fn fmt<W: fmt::Write>(&self, f: &mut fmt::Formatter<W>) -> fmt::Result {
        let round = self.round.saturating_add(1);
        match self.event {
            Some(event) => {
                let event = event.saturating_add(1);
                write!(f, "round {round}, event {event}: {}", self.fault)
            }
            None => write!(f, "round {round}: {}", self.fault),
        }
    }
}

impl std::error::Error for PlacedFault {}

/// Rounds that a fault has stopped.
#[derive(Drop)]
pub struct StoppedRounds {
    pub at: PlacedFault,
    /// The reports of the rounds before that one.
    pub reports: Vec<Report>,
}
