//! The invocation VM, call by call: bytes in, bytes out.

pub use await_trees::{CANCEL_NOTIFICATION_HANDLE, NotificationHandle, UnresolvedFuture};
pub use invocation_vm::{CoreVM, VM};
pub use journal_protocol::{
    Error, ErrorBehavior, Header, HeaderMap, IdempotencyId,
    InvocationTarget as AttachInvocationTarget, SignalDelivery, Version, WorkflowId,
};
pub use plain::{Items, Text};
pub use vm_retries::{EntryRetryInfo, Fraction, OnMaxAttempts, RetryPolicy};
pub use vm_types::{
    AwaitResponse, AwaitingOnPolicy, AwakeableHandle, CallHandle, CommandRelationship, CommandType,
    DeadlineCallHandle, EphemeralCompletionId, ImplicitCancellationOption, Input,
    JournalMismatchRetryBehavior, JournalReplay, NonDeterministicChecksOption, NonEmptyValue,
    PayloadOptions, ResponseHead, RunExitResult, RunHandle, SendHandle, State, Target,
    TerminalFailure, VMOptions, VMResult, Value,
};
