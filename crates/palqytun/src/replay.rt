//! The check before a new version of a handler takes over: whether it goes on with a stored journal.

pub use world_laws::{ReplayOutcome, check_replay};
pub use world_rounds::Setting;
