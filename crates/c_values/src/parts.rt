//! The parts of a message: its texts and bytes, by their places. The first eight places are for what each such message has; from the eighth on
//! stand its headers, or those of its result.
ghost use Rattle.std.specs.Prelude.{◌≡◌, slice_get};
ghost use Rattle.std.specs.Option.{option_copied};
ghost use Rattle.c_values.specs.Parts.{arrived_part, call_part, error_part, failure_part, headers_part, id_part, idempotency_part, input_part, notification_part, sole_part, pairs_part, message_part, promise_part, sent_part, signal_name, signal_part, state_part, target_part, two_parts, value_part, workflow_part};

use journal_protocol::{
    CallRequest, CompletePromiseCommand, ErrorMessage, Failure, Header, IdempotencyId,
    InputCommand, InvocationTarget, Message, Notification, NotificationId, NotificationResult,
    SendSignalCommand, Signal, SignalResult, ValueOrFailure, WorkflowId,
};
use plain::Text;

/// Where the parts of a result, and the headers, begin.
const REST: usize = 8;

fn bytes_of(text: &Text) -> &[u8]
    ensures { result.now ≡ text.now }
{
    text.as_str().as_bytes()
}

/// The bytes of a text that may be absent.
fn optional(text: &Option<Text>) -> Option<&[u8]>
    ensures { option_copied result ≡ text.now }
{
    match text {
        Some(text) => Some(bytes_of(text)),
        None => None,
    }
}

/// One part, at 0.
fn sole_part(text: &[u8], at: usize) -> Option<&[u8]>
    ensures { option_copied result ≡ sole_part text.now at }
{
    if at == 0 { Some(text) } else { None }
}

/// A part at 0, and one at 1.
fn two_parts<'a>(first: &'a [u8], second: &'a [u8], at: usize) -> Option<&'a [u8]>
    ensures { option_copied result ≡ two_parts first.now second.now at }
{
    match at {
        0 => Some(first),
        1 => Some(second),
        _ => None,
    }
}

/// The names and values of headers in turn.
fn headers_part(headers: &[Header], at: usize) -> Option<&[u8]>
    ensures { option_copied result ≡ headers_part headers.now at }
{
    let header = headers.get(at / 2)?;
    if at % 2 == 0 {
        Some(bytes_of(&header.key))
    } else {
        Some(bytes_of(&header.value))
    }
}

/// The keys and values of pairs in turn.
fn pairs_part(pairs: &[(Text, Text)], at: usize) -> Option<&[u8]>
    ensures { option_copied result ≡ pairs_part pairs.now at }
{
    let pair = pairs.get(at / 2)?;
    if at % 2 == 0 {
        Some(bytes_of(&pair.0))
    } else {
        Some(bytes_of(&pair.1))
    }
}

/// Of a failure: the message, then the metadata.
fn failure_part(failure: &Failure, at: usize) -> Option<&[u8]>
    ensures { option_copied result ≡ failure_part failure.now at }
{
    if at == 0 {
        return Some(bytes_of(&failure.message));
    }
    pairs_part(failure.metadata.as_slice(), at - 1)
}

fn value_part(value: &ValueOrFailure, at: usize) -> Option<&[u8]>
    ensures { option_copied result ≡ value_part value.now at }
{
    match value {
        ValueOrFailure::Value(bytes) => sole_part(bytes.as_slice(), at),
        ValueOrFailure::Failure(failure) => failure_part(failure, at),
    }
}

fn sent_part(value: &SignalResult, at: usize) -> Option<&[u8]>
    ensures { option_copied result ≡ sent_part value.now at }
{
    match value {
        SignalResult::Void => None,
        SignalResult::Value(bytes) => sole_part(bytes.as_slice(), at),
        SignalResult::Failure(failure) => failure_part(failure, at),
    }
}

/// Of a result: the bytes, the failure, the keys, or the id.
fn notification_part(value: &NotificationResult, at: usize) -> Option<&[u8]>
    ensures { option_copied result ≡ notification_part value.now at }
{
    match value {
        NotificationResult::Void => None,
        NotificationResult::Value(bytes) => sole_part(bytes.as_slice(), at),
        NotificationResult::Failure(failure) => failure_part(failure, at),
        NotificationResult::StateKeys(keys) => match keys.get(at) {
            Some(key) => Some(key.as_slice()),
            None => None,
        },
        NotificationResult::InvocationId(id) => sole_part(bytes_of(id), at),
    }
}

/// Of a message that has a text, and a result of this kind: the text, then the result.
fn state_part<'a>(text: &'a [u8], value: &'a ValueOrFailure, at: usize) -> Option<&'a [u8]>
    ensures { option_copied result ≡ state_part text.now value.now at }
{
    if at / REST == 0 {
        return sole_part(text, at);
    }
    value_part(value, at - REST)
}

/// Of an input: its bytes, then the headers.
fn input_part(input: &InputCommand, at: usize) -> Option<&[u8]>
    ensures { option_copied result ≡ input_part input.now at }
{
    if at / REST == 0 {
        return sole_part(input.value.as_slice(), at);
    }
    headers_part(input.headers.as_slice(), at - REST)
}

/// Of a call: what it is given, whom it calls, and what else it says, then the headers.
fn call_part(call: &CallRequest, at: usize) -> Option<&[u8]>
    ensures { option_copied result ≡ call_part call.now at }
{
    match at {
        0 => Some(call.parameter.as_slice()),
        1 => Some(bytes_of(&call.service_name)),
        2 => Some(bytes_of(&call.handler_name)),
        3 => Some(bytes_of(&call.key)),
        4 => optional(&call.idempotency_key),
        5 => optional(&call.scope),
        6 => optional(&call.limit_key),
        7 => Some(bytes_of(&call.name)),
        _ => headers_part(call.headers.as_slice(), at - REST),
    }
}

fn workflow_part(workflow: &WorkflowId, at: usize) -> Option<&[u8]>
    ensures { option_copied result ≡ workflow_part workflow.now at }
{
    match at {
        1 => Some(bytes_of(&workflow.name)),
        3 => Some(bytes_of(&workflow.key)),
        5 => optional(&workflow.scope),
        _ => None,
    }
}

fn idempotency_part(call: &IdempotencyId, at: usize) -> Option<&[u8]>
    ensures { option_copied result ≡ idempotency_part call.now at }
{
    match at {
        1 => Some(bytes_of(&call.service_name)),
        2 => Some(bytes_of(&call.handler_name)),
        3 => optional(&call.service_key),
        4 => Some(bytes_of(&call.idempotency_key)),
        5 => optional(&call.scope),
        _ => None,
    }
}

/// Of the invocation that is meant: its id; or, at the places of a call, what it was called by.
fn target_part(target: &InvocationTarget, at: usize) -> Option<&[u8]>
    ensures { option_copied result ≡ target_part target.now at }
{
    match target {
        InvocationTarget::InvocationId(id) => sole_part(bytes_of(id), at),
        InvocationTarget::WorkflowId(workflow) => workflow_part(workflow, at),
        InvocationTarget::IdempotencyId(call) => idempotency_part(call, at),
    }
}

/// The name of a notification's id, if it has one.
fn id_part(id: &NotificationId, at: usize) -> Option<&[u8]>
    ensures { option_copied result ≡ id_part id.now at }
{
    match id {
        NotificationId::CompletionId(_) => None,
        NotificationId::SignalId(_) => None,
        NotificationId::SignalName(name) => sole_part(bytes_of(name), at),
    }
}

/// The name of a signal, if it has one.
fn signal_name(signal: &Signal) -> Option<&[u8]>
    ensures { option_copied result ≡ signal_name signal.now }
{
    match signal {
        Signal::Index(_) => None,
        Signal::Name(name) => Some(bytes_of(name)),
    }
}

/// Of a signal that is sent: the invocation's id, and the signal's name, then the result.
fn signal_part(sent: &SendSignalCommand, at: usize) -> Option<&[u8]>
    ensures { option_copied result ≡ signal_part sent.now at }
{
    match at {
        0 => Some(bytes_of(&sent.target_invocation_id)),
        1 => signal_name(&sent.signal),
        _ => {
            if at / REST == 0 {
                return None;
            }
            sent_part(&sent.result, at - REST)
        }
    }
}

/// Of a notification: the name of its id, then its result.
fn arrived_part(note: &Notification, at: usize) -> Option<&[u8]>
    ensures { option_copied result ≡ arrived_part note.now at }
{
    if at / REST == 0 {
        return id_part(&note.id, at);
    }
    notification_part(&note.result, at - REST)
}

/// Of a promise that is completed: its key, then the result.
fn promise_part(promise: &CompletePromiseCommand, at: usize) -> Option<&[u8]>
    ensures { option_copied result ≡ promise_part promise.now at }
{
    state_part(bytes_of(&promise.key), &promise.completion, at)
}

/// Of an error: its text, and its stack trace.
fn error_part(error: &ErrorMessage, at: usize) -> Option<&[u8]>
    ensures { option_copied result ≡ error_part error.now at }
{
    two_parts(bytes_of(&error.message), bytes_of(&error.stacktrace), at)
}

/// The part of a message at this place, if it has one there.
pub(crate) fn message_part(message: &Message, at: usize) -> Option<&[u8]>
    ensures { option_copied result ≡ message_part message.now at }
{
    match message {
        Message::Error(m) => error_part(m, at),
        Message::ProposeRunCompletion(m) => state_part(&[], &m.result, at),
        Message::Input(m) => input_part(m, at),
        Message::GetLazyState(m) => sole_part(bytes_of(&m.key), at),
        Message::SetState(m) => two_parts(bytes_of(&m.key), m.value.as_slice(), at),
        Message::ClearState(m) => sole_part(bytes_of(&m.key), at),
        Message::Sleep(m) => sole_part(bytes_of(&m.name), at),
        Message::Call(m) => call_part(&m.request, at),
        Message::OneWayCall(m) => call_part(&m.request, at),
        Message::CompleteAwakeable(m) => state_part(bytes_of(&m.awakeable_id), &m.result, at),
        Message::SendSignal(m) => signal_part(m, at),
        Message::GetPromise(m) => sole_part(bytes_of(&m.key), at),
        Message::PeekPromise(m) => sole_part(bytes_of(&m.key), at),
        Message::CompletePromise(m) => promise_part(m, at),
        Message::Run(m) => sole_part(bytes_of(&m.name), at),
        Message::AttachInvocation(m) => target_part(&m.target, at),
        Message::GetInvocationOutput(m) => target_part(&m.target, at),
        Message::Output(m) => state_part(&[], &m.result, at),
        Message::Notification(m) => arrived_part(m, at),
        _ => None,
    }
}
