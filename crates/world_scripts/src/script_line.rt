//! What a line of a script of rounds says.
use crate::given::Given;
use bytes::Bytes;
use world_rounds::{Event, Round};

/// A line of a script, read as a whole.
#[derive(Drop)]
pub enum ScriptLine {
    /// Nothing: a blank line or a comment.
    Nothing,
    /// What the world is made of.
    World(Given),
    /// An entry of the journal with which the world begins.
    Entry(Bytes),
    /// A round begins, in which nothing happens yet.
    Round(Round),
    /// What happens next in the round.
    Event(Event),
}
