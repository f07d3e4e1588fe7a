//! The result that a message has, as a notification has it.
ghost use Rattle.std.specs.Prelude.{◌≡◌, IfOk};
ghost use Rattle.journal_entries.specs.Proposals.{completion_result};
ghost use Rattle.journal_protocol.specs.Bodies.{message_in};
ghost use Rattle.journal_protocol.specs.Frames.{encoding};
ghost use Rattle.c_values.specs.Reading.{notification_at, notification_of, found_or, result_read, result_of_frame};
ghost use Rattle.c_values.specs.Results.{delivered_result, notification_message, result_of_message};
ghost use Rattle.c_values.specs.declared.status.Status.TheVariants.{NoResult};

use crate::Status;
use crate::reading::{frame_at, id_named, message_in};
use bytes::Bytes;
use journal_entries::completion_result;
use journal_protocol::{
    Encoder, Message, Notification, NotificationId, NotificationResult, RawMessage, SignalResult,
    ValueOrFailure,
};
use std::alloc::{AllocError, Global};

/// The result of a value or a failure.
fn given_result(given: &ValueOrFailure) -> Result<NotificationResult, AllocError>
    ensures { IfOk result (λ brings. brings ≡ completion_result given.now) }
{
    Ok(completion_result(given.clone()?))
}

/// The result of a signal.
fn delivered_result(sent: &SignalResult) -> Result<NotificationResult, AllocError>
    ensures { IfOk result (λ brings. brings ≡ delivered_result sent.now) }
{
    match sent {
        SignalResult::Void => Ok(NotificationResult::Void),
        SignalResult::Value(value) => Ok(NotificationResult::Value(value.clone()?)),
        SignalResult::Failure(failure) => Ok(NotificationResult::Failure(failure.clone()?)),
    }
}

/// A copy of a result.
fn copy_of(brings: &NotificationResult) -> Result<NotificationResult, AllocError>
    ensures { IfOk result (λ copy. copy ≡ brings.now) }
{
    match brings {
        NotificationResult::Void => Ok(NotificationResult::Void),
        NotificationResult::Value(value) => Ok(NotificationResult::Value(value.clone()?)),
        NotificationResult::Failure(failure) => Ok(NotificationResult::Failure(failure.clone()?)),
        NotificationResult::StateKeys(keys) => Ok(NotificationResult::StateKeys(keys.clone()?)),
        NotificationResult::InvocationId(id) => Ok(NotificationResult::InvocationId(id.clone()?)),
    }
}

/// The result that a message has, if it has one.
fn result_of_message(message: &Message) -> Result<Option<NotificationResult>, AllocError>
    ensures { IfOk result (λ brings. brings ≡ result_of_message message.now) }
{
    match message {
        Message::ProposeRunCompletion(m) => Ok(Some(given_result(&m.result)?)),
        Message::CompleteAwakeable(m) => Ok(Some(given_result(&m.result)?)),
        Message::SendSignal(m) => Ok(Some(delivered_result(&m.result)?)),
        Message::CompletePromise(m) => Ok(Some(given_result(&m.completion)?)),
        Message::Output(m) => Ok(Some(given_result(&m.result)?)),
        Message::Notification(m) => Ok(Some(copy_of(&m.result)?)),
        _ => Ok(None),
    }
}

/// The result of a message, if there is one.
fn result_read(message: &Option<Message>) -> Result<Option<NotificationResult>, AllocError>
    ensures { IfOk result (λ brings. brings ≡ result_read message.now) }
{
    match message {
        Some(message) => result_of_message(message),
        None => Ok(None),
    }
}

/// The result of a frame, if it has one.
fn result_of(
    alloc: Global,
    raw: &RawMessage,
) -> Result<Result<NotificationResult, Status>, AllocError>
    ensures { IfOk result (λ found. found
        ≡ found_or NoResult (result_read (message_in raw.now.ty raw.now.body))) }
{
    let message = message_in(alloc, raw)?;
    match result_read(&message) {
        Ok(Some(brings)) => Ok(Ok(brings)),
        Ok(None) => Ok(Err(Status::NoResult)),
        Err(error) => Err(error),
    }
}

/// The result of the message that a frame is.
fn result_of_frame(
    alloc: Global,
    frame: &[u8],
) -> Result<Result<NotificationResult, Status>, AllocError>
    ensures { IfOk result (λ found. found ≡ result_of_frame frame.now) }
{
    match frame_at(alloc, frame) {
        Ok(Ok(raw)) => result_of(alloc, &raw),
        Ok(Err(why)) => Ok(Err(why)),
        Err(error) => Err(error),
    }
}

/// The notification of an id.
fn encode(
    alloc: Global,
    id: NotificationId,
    brings: NotificationResult,
) -> Result<Bytes, AllocError>
    ensures { IfOk result (λ frame. frame ≡ encoding (notification_message id brings)) }
{
    let message = Message::Notification(Notification { id, result: brings });
    Encoder::new(alloc).encode(&message)
}

/// The notification of an id, with the result that a frame has.
fn notification_of(
    alloc: Global,
    id: NotificationId,
    frame: &[u8],
) -> Result<Result<Bytes, Status>, AllocError>
    ensures { IfOk result (λ found. found ≡ notification_of id frame.now) }
{
    match result_of_frame(alloc, frame) {
        Ok(Ok(brings)) => match encode(alloc, id, brings) {
            Ok(frame) => Ok(Ok(frame)),
            Err(error) => Err(error),
        },
        Ok(Err(why)) => {
            drop(id);
            Ok(Err(why))
        }
        Err(error) => {
            drop(id);
            Err(error)
        }
    }
}

/// The notification of the id that a kind, a number and a name are, with the result that a frame has.
pub fn notification_at(
    alloc: Global,
    kind: u32,
    number: u32,
    name: &[u8],
    frame: &[u8],
) -> Result<Result<Bytes, Status>, AllocError>
    ensures { IfOk result (λ found. found ≡ notification_at kind number name.now frame.now) }
{
    match id_named(alloc, kind, number, name) {
        Ok(Ok(id)) => notification_of(alloc, id, frame),
        Ok(Err(why)) => Ok(Err(why)),
        Err(error) => Err(error),
    }
}
