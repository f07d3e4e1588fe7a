//! A call of the VM as a value.
use crate::boxed::Boxed;
use crate::command_type::CommandRelationship;
use crate::runs::RunExitResult;
use crate::steps::Step;
use crate::types::EphemeralCompletionId;
use await_trees::NotificationHandle;
use bytes::Bytes;
use journal_errors::Error;
use plain::Text;
use vm_retries::RetryPolicy;

/// A call of the VM, with its arguments.
#[derive(Debug, Drop)]
pub enum Call {
    Head,
    Input(Bytes),
    Close,
    Output,
    Ready,
    State,
    Index,
    Error(Boxed<Error>, Option<CommandRelationship>),
    SysInput,
    Run(Text),
    Propose {
        handle: NotificationHandle,
        result: Boxed<RunExitResult>,
        policy: RetryPolicy,
    },
    /// The ephemeral read of a state key.
    EphemeralGet(Text),
    TakeEphemeral(EphemeralCompletionId),
    /// The call that a step of a handler is.
    Step(Step),
}
