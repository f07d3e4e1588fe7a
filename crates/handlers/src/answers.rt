//! What handlers read from their answers, and what they do when they are cancelled.
ghost use Rattle.std.specs.Prelude.{◌≡◌, slice_get, IfOk};
ghost use Rattle.handlers.specs.Answers.{call_handle_of, cancelled_output, deadline_handle_of, answered_handle, bytes_of_input, says_cancelled, says_completed, output_of, output_of_value};

use await_trees::NotificationHandle;
use bytes::Bytes;
use plain::{Items, Text};
use std::alloc::{AllocError, Global};
use vm_types::{Answer, NonEmptyValue, PayloadOptions, Step, TerminalFailure, Value};

/// The bytes of the input, which is the first answer.
pub fn input_bytes(answers: &[Answer]) -> Result<Bytes, AllocError>
    ensures { IfOk result (λ bytes. bytes ≡ bytes_of_input (slice_get answers.now 0)) }
{
    match answers.first() {
        Some(Answer::Input(input)) => input.input.clone(),
        _ => Ok(Bytes::new()),
    }
}

/// The handle that was answered at this place.
pub fn handle_at(answers: &[Answer], place: usize) -> NotificationHandle
    ensures { result ≡ answered_handle (slice_get answers.now place) }
{
    match answers.get(place) {
        Some(Answer::Handle(handle)) => *handle,
        _ => NotificationHandle(0),
    }
}

/// The handle of the result of the call that was answered at this place.
pub fn call_handle_at(answers: &[Answer], place: usize) -> NotificationHandle
    ensures { result ≡ call_handle_of (slice_get answers.now place) }
{
    match answers.get(place) {
        Some(Answer::Call(handles)) => handles.call_notification_handle,
        Some(Answer::CallWithDeadline(handles)) => handles.call_notification_handle,
        _ => NotificationHandle(0),
    }
}

/// The handle of the deadline of the call that was answered at this place.
pub fn deadline_handle_at(answers: &[Answer], place: usize) -> NotificationHandle
    ensures { result ≡ deadline_handle_of (slice_get answers.now place) }
{
    match answers.get(place) {
        Some(Answer::CallWithDeadline(handles)) => handles.deadline_notification_handle,
        _ => NotificationHandle(0),
    }
}

/// Whether the answer at this place says that a result is there.
pub fn is_completed_at(answers: &[Answer], place: usize) -> bool
    ensures { result ≡ says_completed (slice_get answers.now place) }
{
    matches!(answers.get(place), Some(Answer::Completed(true)))
}

/// The output that hands a value on: of a success or a failure the same, of any other an empty success.
fn output_of_value(value: &Value) -> Result<NonEmptyValue, AllocError>
    ensures { IfOk result (λ output. output ≡ output_of_value value.now) }
{
    match value {
        Value::Success(bytes) => Ok(NonEmptyValue::Success(bytes.clone()?)),
        Value::Failure(failure) => Ok(NonEmptyValue::Failure(failure.clone()?)),
        _ => Ok(NonEmptyValue::Success(Bytes::new())),
    }
}

/// The output that hands on what was taken at this place.
pub fn output_at(answers: &[Answer], place: usize) -> Result<NonEmptyValue, AllocError>
    ensures { IfOk result (λ output. output ≡ output_of (slice_get answers.now place)) }
{
    match answers.get(place) {
        Some(Answer::Taken(Some(value))) => output_of_value(value),
        _ => Ok(NonEmptyValue::Success(Bytes::new())),
    }
}

/// Whether the answer at this place says that the invocation was cancelled.
pub fn is_cancelled_at(answers: &[Answer], place: usize) -> bool
    ensures { result ≡ says_cancelled (slice_get answers.now place) }
{
    matches!(answers.get(place), Some(Answer::Cancelled))
}

/// The output of a handler that was cancelled.
pub fn cancelled_output(alloc: Global) -> Result<Step, AllocError>
    ensures { IfOk result (λ step. step ≡ cancelled_output) }
{
    let failure = TerminalFailure {
        code: 409,
        message: Text::from_str(alloc, "cancelled")?,
        metadata: Items::new(alloc),
    };
    Ok(Step::WriteOutput(
        NonEmptyValue::Failure(failure),
        PayloadOptions::stable_serialization(),
    ))
}
