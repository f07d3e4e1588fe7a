//! Sessions for callers of C: one VM, its last answer and its last reply, as C holds them, and what each call does.
#![tactic(auto)]

pub mod calls;
mod held;
mod kept;
mod kind;
pub mod laws;
mod outgoing;
mod parts;
pub mod peer;
mod replied;
mod retry;
mod session;
pub mod vm_call;

pub use held::{Vm, give, take};
pub use kept::{keep, keep_awaited, keep_ended, keep_handle, keep_taken};
pub use kind::Kind;
pub use outgoing::Outgoing;
pub use replied::{Replied, mimics_by, tell_status};
pub use retry::Retry;
pub use session::Session;
pub use vm_call::VmCall;
