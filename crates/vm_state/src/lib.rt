//! The parts of the VM that asks name: the numbers that calls are given, the state and what is known of each key, and a call that is
//! cancelled with the handler.
#![tactic(auto)]

pub mod counters;
pub mod entries;
pub mod state_key;
pub mod state_map;
pub mod tracked_call;

pub use counters::Counters;
pub use entries::Entries;
pub use state_key::StateKey;
pub use state_map::{Known, StateCoverage, StateMap};
pub use tracked_call::TrackedCall;
