//! The one place where a call of the VM is made: a call as a value, done to a VM, and its reply. It knows no text.
#![tactic(auto)]

pub mod making;
pub mod perform;
pub mod replies;
