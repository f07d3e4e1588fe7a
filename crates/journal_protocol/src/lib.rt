//! The layer of messages and their bytes, as the layers above see it: the messages, what writes and reads them, and
//! the laws that proofs above go by. The laws don't fix the layout of a frame, so another layer of these words and laws could take its
//! place.
#![tactic(auto)]

mod laws;

pub use journal_messages::{
    AwaitingOn, CallCommand, CallRequest, ClearAllStateCommand, ClearStateCommand,
    CompleteAwakeableCommand, CompletePromiseCommand, Decoder, Encoder, Error, ErrorBehavior,
    ErrorMessage, Failure, Future, FutureKind, FutureNode, GetEagerStateCommand,
    GetEagerStateKeysCommand, GetLazyStateCommand, GetLazyStateKeysCommand,
    GetStateEphemeralCommand, GetStateEphemeralNotification, Header, HeaderMap, IdempotencyId,
    InputCommand, InvocationCommand, InvocationTarget, Message, MessageType, NamedFault,
    Notification, NotificationId, NotificationResult, OneWayCallCommand, OutputCommand,
    PromiseCommand, ProposeRunCompletion, ProposeRunCompletionAck, RawMessage, RelatedCommand,
    RunCommand, Said, SendSignalCommand, SetStateCommand, Signal, SignalDelivery, SignalResult,
    SleepCommand, Start, Suspension, ValueOrFailure, Version, VoidOrValue, WorkflowId, messages_of,
};
pub use laws::{
    bodies_are_read_back, bytes_are_cut_anywhere, encodings_are_of_one_form, frames_are_read_off,
    frames_have_their_length, messages_are_read_back, messages_equal_themselves,
    no_encoding_begins_another, read_messages_have_their_type, stored_messages_keep_what_they_say,
    types_have_their_numbers,
};
