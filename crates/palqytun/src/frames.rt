//! Frames by name, for tests: the results that arrive, and the entries that a journal holds.
ghost use Rattle.std.specs.Prelude.{◌≡◌, IfOk};
ghost use Rattle.palqytun.specs.Worlds.{input_entry};

use bytes::Bytes;
use journal_protocol::{
    Encoder, Failure, InputCommand, Message, Notification, NotificationId, NotificationResult,
    OutputCommand, SleepCommand, ValueOrFailure,
};
use plain::{Items, Text};
use std::alloc::{AllocError, Global};

/// The result of the command that carries this completion id; ids count from 1.
fn completion(alloc: Global, id: u32, outcome: NotificationResult) -> Result<Bytes, AllocError> {
    Encoder::new(alloc).encode(&Message::Notification(Notification {
        id: NotificationId::CompletionId(id),
        result: outcome,
    }))
}

fn failure(alloc: Global, code: u32, message: &str) -> Result<Failure, AllocError> {
    Ok(Failure {
        code,
        message: Text::from_str(alloc, message)?,
        metadata: Items::new(alloc),
    })
}

/// A sleep is over, or a state isn't set.
pub fn void(alloc: Global, id: u32) -> Result<Bytes, AllocError> {
    completion(alloc, id, NotificationResult::Void)
}

/// A call has answered these bytes, or a state is set to them.
pub fn value(alloc: Global, id: u32, bytes: &'static [u8]) -> Result<Bytes, AllocError> {
    let value = Bytes::from_static(bytes);
    completion(alloc, id, NotificationResult::Value(value))
}

/// A call has failed.
pub fn failed(alloc: Global, id: u32, code: u32, message: &str) -> Result<Bytes, AllocError> {
    let failure = failure(alloc, code, message)?;
    completion(alloc, id, NotificationResult::Failure(failure))
}

/// The id of the invocation that a call made.
pub fn invocation_id(alloc: Global, id: u32, invocation: &str) -> Result<Bytes, AllocError> {
    let invocation = Text::from_str(alloc, invocation)?;
    completion(alloc, id, NotificationResult::InvocationId(invocation))
}

/// The built-in signal that cancels the handler.
pub fn cancel(alloc: Global) -> Result<Bytes, AllocError> {
    Encoder::new(alloc).encode(&Message::Notification(Notification {
        id: NotificationId::SignalId(1),
        result: NotificationResult::Void,
    }))
}

/// An awakeable is completed with these bytes, or a signal of this index is sent; those of a handler count from 17.
pub fn signal(alloc: Global, index: u32, bytes: &'static [u8]) -> Result<Bytes, AllocError> {
    Encoder::new(alloc).encode(&Message::Notification(Notification {
        id: NotificationId::SignalId(index),
        result: NotificationResult::Value(Bytes::from_static(bytes)),
    }))
}

/// The signal of this name is sent, with these bytes.
pub fn named_signal(alloc: Global, name: &str, bytes: &'static [u8]) -> Result<Bytes, AllocError> {
    Encoder::new(alloc).encode(&Message::Notification(Notification {
        id: NotificationId::SignalName(Text::from_str(alloc, name)?),
        result: NotificationResult::Value(Bytes::from_static(bytes)),
    }))
}

/// The journal's first entry: an input of these bytes.
pub fn input(alloc: Global, bytes: &'static [u8]) -> Result<Bytes, AllocError>
    ensures { IfOk result (λ entry. entry ≡ input_entry bytes.now) }
{
    Encoder::new(alloc).encode(&Message::Input(InputCommand {
        headers: Items::new(alloc),
        value: Bytes::from_static(bytes),
    }))
}

/// The journal's entry of a sleep until this time since the Unix epoch, in milliseconds, whose end has this completion id.
pub fn sleep(alloc: Global, until: u64, id: u32) -> Result<Bytes, AllocError> {
    Encoder::new(alloc).encode(&Message::Sleep(SleepCommand {
        wake_up_time: until,
        result_completion_id: id,
        name: Text::empty(alloc),
    }))
}

/// The journal's entry of an output of these bytes.
pub fn output(alloc: Global, bytes: &'static [u8]) -> Result<Bytes, AllocError> {
    Encoder::new(alloc).encode(&Message::Output(OutputCommand {
        result: ValueOrFailure::Value(Bytes::from_static(bytes)),
    }))
}

/// The journal's entry of an output that is this failure.
pub fn failed_output(alloc: Global, code: u32, message: &str) -> Result<Bytes, AllocError> {
    Encoder::new(alloc).encode(&Message::Output(OutputCommand {
        result: ValueOrFailure::Failure(failure(alloc, code, message)?),
    }))
}
