//! Runs that wait for their result.

use plain::Text;

/// Whether a run was handed to the handler's runner to be executed.
#[derive(Clone, Copy, PartialEq, Eq)]
pub enum RunExecution {
    Waiting,
    Executing,
}

/// A run that was called and whose result is neither known nor proposed.
#[derive(Drop)]
pub struct PendingRun {
    pub handle: u32,
    pub completion_id: u32,
    pub command_index: u32,
    pub name: Text,
    pub execution: RunExecution,
}
