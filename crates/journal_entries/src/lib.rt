//! The entries of a journal: the frames that some bytes are, which of them are entries, what completes an id, and what is stored of what
//! an attempt wrote. The rules of what may arrive and be stored are definitions here, which `journal_store` keeps.
#![tactic(auto)]

pub mod completions;
pub mod entry;
pub mod fault;
pub mod proposals;
pub mod storing;

pub use completions::Completes;
pub use fault::JournalFault;
pub use proposals::completion_result;
pub use storing::Written;
