//! What stops a script.
use journal_entries::JournalFault;
use world_rounds::PlacedFault;

/// What stops a script.
#[derive(Clone, Copy)]
pub enum Stop {
    /// No world is made: the first entry that has a fault has this one, or memory ran out.
    World(JournalFault),
    /// The rounds are stopped here, by this fault.
    Rounds(PlacedFault),
}
