//! Runs: those that wait for a result, what becomes of a result, and proposals that are kept.
#![tactic(auto)]

pub mod kept;
mod ordered_proposals;
mod ordered_runs;
pub mod pending;
pub mod run_state;
pub mod settling;

pub use kept::KeptProposals;
pub use pending::{PendingRun, RunExecution};
pub use run_state::RunState;
pub use settling::{Settlement, settle};
