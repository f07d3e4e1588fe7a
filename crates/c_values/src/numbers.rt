//! The numbers of a message.
ghost use Rattle.std.specs.Prelude.{◌≡◌};
ghost use Rattle.c_values.specs.Numbers.{behavior_code, delay_told, error_row, id_told, no_result, unread_row, arrived_result, one_result, row_told, sent_result, signal_told, target_code, message_numbers, given_result};

use crate::Status;
use journal_protocol::{
    ErrorBehavior, ErrorMessage, InvocationTarget, Message, NotificationId, NotificationResult,
    Signal, SignalResult, ValueOrFailure,
};

/// What C is given at once of a frame: how the call ended, the type of its message, and the numbers of it.
#[repr(C)]
#[derive(Clone, Copy, Debug)]
pub struct FrameRow {
    pub status: u32,
    /// The type of its message.
    pub ty: u32,
    /// Which id a notification or a signal has, which invocation is meant, how an error is to be taken, or whether a result has none.
    pub kind: u32,
    /// What its result is.
    pub result: u32,
    /// The completion id, the number of a signal, or the code of an error.
    pub id: u32,
    /// The id of a call's invocation, the code of a failure, or whether an error has a delay.
    pub second: u32,
    /// A time or a delay, in milliseconds.
    pub number: u64,
    /// How many headers, pairs or keys there are.
    pub rows: usize,
}

/// The numbers of a result: what it is, a failure's code, and how many pairs or keys there are.
#[derive(Clone, Copy)]
pub(crate) struct ResultNumbers {
    pub kind: u32,
    pub code: u32,
    pub rows: usize,
}

/// Why there is no row.
pub fn unread_row(status: Status) -> FrameRow
    ensures { result ≡ unread_row status }
{
    FrameRow {
        status: status.code(),
        ty: 0,
        kind: 0,
        result: 0,
        id: 0,
        second: 0,
        number: 0,
        rows: 0,
    }
}

/// A row of these numbers.
fn row_told(kind: u32, id: u32, second: u32, number: u64, rows: usize) -> FrameRow
    ensures { result ≡ row_told kind id second number rows }
{
    FrameRow {
        status: 0,
        ty: 0,
        kind,
        result: 0,
        id,
        second,
        number,
        rows,
    }
}

/// A row of an id and a result.
fn one_result(kind: u32, id: u32, found: ResultNumbers) -> FrameRow
    ensures { result ≡ one_result kind id found }
{
    FrameRow {
        status: 0,
        ty: 0,
        kind,
        result: found.kind,
        id,
        second: found.code,
        number: 0,
        rows: found.rows,
    }
}

/// A result without a number.
fn no_result(kind: u32) -> ResultNumbers
    ensures { result ≡ no_result kind }
{
    ResultNumbers {
        kind,
        code: 0,
        rows: 0,
    }
}

fn given_result(value: &ValueOrFailure) -> ResultNumbers
    ensures { result ≡ given_result value.now }
{
    match value {
        ValueOrFailure::Value(_) => no_result(2),
        ValueOrFailure::Failure(failure) => ResultNumbers {
            kind: 3,
            code: failure.code,
            rows: failure.metadata.len(),
        },
    }
}

fn sent_result(value: &SignalResult) -> ResultNumbers
    ensures { result ≡ sent_result value.now }
{
    match value {
        SignalResult::Void => no_result(1),
        SignalResult::Value(_) => no_result(2),
        SignalResult::Failure(failure) => ResultNumbers {
            kind: 3,
            code: failure.code,
            rows: failure.metadata.len(),
        },
    }
}

fn arrived_result(value: &NotificationResult) -> ResultNumbers
    ensures { result ≡ arrived_result value.now }
{
    match value {
        NotificationResult::Void => no_result(1),
        NotificationResult::Value(_) => no_result(2),
        NotificationResult::Failure(failure) => ResultNumbers {
            kind: 3,
            code: failure.code,
            rows: failure.metadata.len(),
        },
        NotificationResult::StateKeys(keys) => ResultNumbers {
            kind: 4,
            code: 0,
            rows: keys.len(),
        },
        NotificationResult::InvocationId(_) => no_result(5),
    }
}

/// A notification: which id it has, the number of it, and its result.
fn id_told(id: &NotificationId, found: ResultNumbers) -> FrameRow
    ensures { result ≡ id_told id.now found }
{
    match id {
        NotificationId::CompletionId(id) => one_result(0, *id, found),
        NotificationId::SignalId(id) => one_result(1, *id, found),
        NotificationId::SignalName(_) => one_result(2, 0, found),
    }
}

/// A signal that is sent: which id it has, the number of it, and its result.
fn signal_told(signal: &Signal, found: ResultNumbers) -> FrameRow
    ensures { result ≡ signal_told signal.now found }
{
    match signal {
        Signal::Index(index) => one_result(1, *index, found),
        Signal::Name(_) => one_result(2, 0, found),
    }
}

fn target_code(target: &InvocationTarget) -> u32
    ensures { result ≡ target_code target.now }
{
    match target {
        InvocationTarget::InvocationId(_) => 0,
        InvocationTarget::WorkflowId(_) => 1,
        InvocationTarget::IdempotencyId(_) => 2,
    }
}

/// The number of what comes of an invocation after an error.
pub fn behavior_code(behavior: ErrorBehavior) -> u32
    ensures { result ≡ behavior_code behavior }
{
    match behavior {
        ErrorBehavior::Retry => 0,
        ErrorBehavior::Pause => 1,
        ErrorBehavior::Fail => 2,
    }
}

/// An error: how it is to be taken, its code, and its delay, if it has one.
fn delay_told(behavior: u32, code: u32, delay: Option<u64>) -> FrameRow
    ensures { result ≡ delay_told behavior code delay }
{
    match delay {
        Some(delay) => row_told(behavior, code, 1, delay, 0),
        None => row_told(behavior, code, 0, 0, 0),
    }
}

fn error_row(error: &ErrorMessage) -> FrameRow
    ensures { result ≡ error_row error.now }
{
    delay_told(behavior_code(error.behavior), error.code, error.delay)
}

/// The numbers of a message.
pub(crate) fn message_numbers(message: &Message) -> FrameRow
    ensures { result ≡ message_numbers message.now }
{
    match message {
        Message::Error(m) => error_row(m),
        Message::ProposeRunCompletion(m) => one_result(0, m.id, given_result(&m.result)),
        Message::ProposeRunCompletionAck(m) => row_told(0, m.id, 0, 0, 0),
        Message::Input(m) => row_told(0, 0, 0, 0, m.headers.len()),
        Message::GetLazyState(m) => row_told(0, m.result_completion_id, 0, 0, 0),
        Message::GetLazyStateKeys(m) => row_told(0, m.result_completion_id, 0, 0, 0),
        Message::Sleep(m) => row_told(0, m.result_completion_id, 0, m.wake_up_time, 0),
        Message::Call(m) => row_told(
            0,
            m.result_completion_id,
            m.request.invocation_id_notification_idx,
            0,
            m.request.headers.len(),
        ),
        Message::OneWayCall(m) => row_told(
            0,
            0,
            m.request.invocation_id_notification_idx,
            m.invoke_time,
            m.request.headers.len(),
        ),
        Message::CompleteAwakeable(m) => one_result(0, 0, given_result(&m.result)),
        Message::SendSignal(m) => signal_told(&m.signal, sent_result(&m.result)),
        Message::GetPromise(m) => row_told(0, m.result_completion_id, 0, 0, 0),
        Message::PeekPromise(m) => row_told(0, m.result_completion_id, 0, 0, 0),
        Message::CompletePromise(m) => {
            one_result(0, m.result_completion_id, given_result(&m.completion))
        }
        Message::Run(m) => row_told(0, m.result_completion_id, 0, 0, 0),
        Message::AttachInvocation(m) => {
            row_told(target_code(&m.target), m.result_completion_id, 0, 0, 0)
        }
        Message::GetInvocationOutput(m) => {
            row_told(target_code(&m.target), m.result_completion_id, 0, 0, 0)
        }
        Message::Output(m) => one_result(0, 0, given_result(&m.result)),
        Message::Notification(m) => id_told(&m.id, arrived_result(&m.result)),
        _ => row_told(0, 0, 0, 0, 0),
    }
}
