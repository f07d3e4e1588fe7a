//! Awaits of trees. Arrivals are used one by one until the tree is awake, and no further: that is the least awake prefix. If none wakes it, what
//! is left of the tree is returned, and what the invocation then waits for, as a future. Each try is proved against the definitions of
//! `await_trees`, and stands on no VM.
#![tactic(auto)]

pub mod course;
pub mod following;
pub mod handles;
pub mod laws;
pub mod linking;
pub mod pairs;
pub mod pruning;
pub mod residue;
pub mod tries;
pub mod using;
pub mod walk;
pub mod wire_future;

pub use handles::{has_leaf, list_handles, lone_handle};
pub use pairs::uses_until_either;
pub use residue::{Residue, Resolution};
pub use tries::try_future;
pub use using::{use_all, use_first};
pub use wire_future::{future_of, future_of_two};
