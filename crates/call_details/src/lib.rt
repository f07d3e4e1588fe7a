//! What the error of a call is about, as a text for people. Of a call that isn't as it is recorded it is the first field that differs, with both
//! values; of a recorded command that isn't there, its type; of what the version doesn't have, its name and the versions; of an await
//! in replay, what it waits for. The VM keeps none of this: it is found from what the VM was before the call, and from the call.
#![tactic(auto)]

pub mod attempt;
mod awaits;
mod codes;
mod commands;
pub mod explain;
mod features;
pub mod moment;
