//! The parts of the VM: the small states that the machine is made of, each with what contracts see of it: results, the output,
//! tracked calls and ephemeral reads. They know none of the VM's options and calls.
#![tactic(auto)]

pub mod async_results;
pub mod context;
pub mod ephemeral;
pub mod handles;
pub mod outbox;
pub mod queue;
pub mod tracked;

pub use async_results::{AsyncResults, Mapping};
pub use context::{LastCommand, StartInfo};
pub use ephemeral::EphemeralCommands;
pub use outbox::Outbox;
pub use queue::Queue;
pub use tracked::TrackedCalls;
