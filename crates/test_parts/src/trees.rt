//! Awaits of trees: rows, one a line, that are played over the notifications of an attempt, and trees of a million nodes.

mod again;
mod awaits;
mod deep;
mod deep_trees;
mod deep_tries;
mod deliveries;
mod laws;
mod notation;
pub mod rows;
mod sent;
mod shown;
mod texts;
