//! Messages of all types: writing one as a frame, reading the body of one, and a stream of frames however it was cut. The types of the bodies are passed on.
#![tactic(auto)]

mod awaiting;
mod decoder;
mod message;
mod stream;
mod waiting;

pub use decoder::Decoder;
pub use journal_attempt::{
    AwaitingOn, Future, FutureKind, FutureNode, InputCommand, OutputCommand, ProposeRunCompletion,
    ProposeRunCompletionAck, RunCommand, SleepCommand, Start, Suspension,
};
pub use journal_calls::{
    CallCommand, CallRequest, CompleteAwakeableCommand, CompletePromiseCommand, IdempotencyId,
    InvocationCommand, InvocationTarget, OneWayCallCommand, PromiseCommand, SendSignalCommand,
    Signal, SignalResult, WorkflowId,
};
pub use journal_errors::{
    Error, ErrorBehavior, ErrorMessage, HeaderMap, MessageType, NamedFault, RelatedCommand, Said,
    Version,
};
pub use journal_state::{
    ClearAllStateCommand, ClearStateCommand, GetEagerStateCommand, GetEagerStateKeysCommand,
    GetLazyStateCommand, GetLazyStateKeysCommand, GetStateEphemeralCommand,
    GetStateEphemeralNotification, SetStateCommand, VoidOrValue,
};
pub use journal_values::{
    Failure, Header, Notification, NotificationId, NotificationResult, SignalDelivery,
    ValueOrFailure,
};
pub use message::{Encoder, Message, RawMessage};
pub use stream::messages_of;
