//! The calls of the VM, as C makes them: on numbers, byte strings and small structs. Each calls its method of `trait VM`.
#![tactic(auto)]

pub mod awaits;
pub mod callees;
pub mod given;
pub mod invocations;
pub mod journal;
pub mod laws;
pub mod making;
pub mod nodes;
pub mod policies;
pub mod queries;
pub mod reports;
pub mod run_calls;
pub mod state;
pub mod values;
