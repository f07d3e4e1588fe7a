//! What waits for an invocation: which completion ids its stored commands wait for, and which signals have come. What it delivers has no fault.
//! And what else of an engine needs no attempt: its handlers, what is asked for, why it stops, and whom an awakeable's id names.
#![tactic(auto)]

mod awakeables;
mod fault;
mod ids;
mod inbox;
mod notes;
mod order;
mod target;
mod types;

pub use awakeables::awakeable_ids_name_their_signals;
pub use fault::{EngineFault, arrival_of, inbox_of, stored_of};
pub use inbox::Inbox;
pub use order::{Begun, Callee, Order};
pub use target::Target;
pub use types::{Brought, InboxFault, Waiting};
