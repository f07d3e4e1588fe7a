//! The parts of what a stored row asks for: texts and bytes, by their places. The first eight places are for what is asked for; from the
//! eighth on stand the headers of a call.
ghost use Rattle.std.specs.Prelude.{◌≡◌, IfOk};
ghost use Rattle.std.specs.Option.{option_copied};
ghost use Rattle.c_values.specs.Statuses.{IsStatus, status_by};
ghost use Rattle.c_values.specs.Written.{WrittenOrWhy};
ghost use Rattle.c_journals.specs.EffectParts.{asked_part_of, begin_field, begin_part, effect_part, engine_part, own_part, result_frame, result_part, send_part, sent_frame, sent_id};

use crate::effect::is_asking;
use bytes::Bytes;
use c_values::{Status, Told, message_at, tell, write_part, written};
use journal_entries::completion_result;
use journal_protocol::{Encoder, Message, Notification, NotificationId, Signal, ValueOrFailure};
use journal_store::{Beginning, Effect, Sent, effect_of};
use plain::Text;
use std::alloc::{AllocError, Global};

/// The idempotency key, if there is one.
fn key_of(key: &Option<Text>) -> Option<&[u8]>
    ensures { option_copied result ≡ key.now }
{
    match key {
        Some(key) => Some(key.as_str().as_bytes()),
        None => None,
    }
}

/// Of an invocation that begins: what it is given, and by what it is named.
fn begin_field(begun: &Beginning, place: usize) -> Option<&[u8]>
    ensures { option_copied result ≡ begin_field begun.now place }
{
    match place {
        0 => Some(begun.parameter.as_slice()),
        1 => Some(begun.service.as_str().as_bytes()),
        2 => Some(begun.handler.as_str().as_bytes()),
        3 => Some(begun.key.as_str().as_bytes()),
        4 => key_of(&begun.idempotency_key),
        _ => None,
    }
}

/// Writes a part of a call: of the invocation that begins, or a header.
fn write_begin(begun: &Beginning, read: &Option<Message>, place: usize, out: &mut [u8]) -> Told
    ensures written { WrittenOrWhy (status_by result.status) (begin_part begun.now read.now place)
        result.len out.old out.new }
    ensures known { IsStatus result.status }
{
    if place / 8 == 0 {
        return match begin_field(begun, place) {
            Some(part) => written(part, out),
            None => tell(Status::NoPart, 0),
        };
    }
    write_part(read, place, out)
}

/// Which signal it is to whom it is sent.
fn sent_id(signal: Signal) -> NotificationId
    ensures { result ≡ sent_id signal }
{
    match signal {
        Signal::Index(index) => NotificationId::SignalId(index),
        Signal::Name(name) => NotificationId::SignalName(name),
    }
}

/// The notification that comes to whom a signal is sent.
fn sent_frame(alloc: Global, sent: Sent) -> Result<Bytes, AllocError>
    ensures { IfOk result (λ frame. frame ≡ sent_frame sent) }
{
    let Sent { to, signal, brings } = sent;
    drop(to);
    let message = Message::Notification(Notification {
        id: sent_id(signal),
        result: brings,
    });
    Encoder::new(alloc).encode(&message)
}

/// A notification that has this result.
fn result_frame(alloc: Global, ends: ValueOrFailure) -> Result<Bytes, AllocError>
    ensures { IfOk result (λ frame. frame ≡ result_frame ends) }
{
    let message = Message::Notification(Notification {
        id: NotificationId::CompletionId(0),
        result: completion_result(ends),
    });
    Encoder::new(alloc).encode(&message)
}

/// Writes a part of a signal that is sent: to whom, or the notification that comes there.
fn write_sent(alloc: Global, sent: Sent, place: usize, out: &mut [u8]) -> Told
    ensures written { WrittenOrWhy (status_by result.status) (send_part sent place) result.len
        out.old out.new }
    ensures known { IsStatus result.status }
{
    match place {
        0 => written(sent.to.as_slice(), out),
        1 => match sent_frame(alloc, sent) {
            Ok(frame) => written(frame.as_slice(), out),
            Err(_) => tell(Status::NoMemory, 0),
        },
        _ => tell(Status::NoPart, 0),
    }
}

/// Writes a part of a result: a notification that has it.
fn write_result(alloc: Global, ends: ValueOrFailure, place: usize, out: &mut [u8]) -> Told
    ensures written { WrittenOrWhy (status_by result.status) (result_part ends place) result.len
        out.old out.new }
    ensures known { IsStatus result.status }
{
    match place {
        1 => match result_frame(alloc, ends) {
            Ok(frame) => written(frame.as_slice(), out),
            Err(_) => tell(Status::NoMemory, 0),
        },
        _ => tell(Status::NoPart, 0),
    }
}

/// Writes a part of an effect that the engine has.
fn write_engine(
    alloc: Global,
    effect: Effect,
    read: &Option<Message>,
    place: usize,
    out: &mut [u8],
) -> Told
    ensures written { WrittenOrWhy (status_by result.status) (engine_part effect read.now place)
        result.len out.old out.new }
    ensures known { IsStatus result.status }
{
    match effect {
        Effect::Begin(begun) => write_begin(&begun, read, place, out),
        Effect::Wait(_) => tell(Status::NoPart, 0),
        Effect::Send(sent) => write_sent(alloc, sent, place, out),
        Effect::Result(ends) => write_result(alloc, ends, place, out),
    }
}

/// Writes a part of what a message itself asks for, or says why there is none.
fn write_own(read: &Option<Message>, place: usize, out: &mut [u8]) -> Told
    ensures written { WrittenOrWhy (status_by result.status) (own_part read.now place) result.len
        out.old out.new }
    ensures known { IsStatus result.status }
{
    match read {
        None => tell(Status::NotAFrame, 0),
        Some(message) => {
            if is_asking(message) {
                write_part(read, place, out)
            } else {
                tell(Status::NoPart, 0)
            }
        }
    }
}

/// Writes a part of what a message asks for, or says why there is none.
fn write_asked(alloc: Global, read: &Option<Message>, place: usize, out: &mut [u8]) -> Told
    ensures written { WrittenOrWhy (status_by result.status) (asked_part_of read.now place)
        result.len
        out.old out.new }
    ensures known { IsStatus result.status }
{
    match read {
        None => tell(Status::NotAFrame, 0),
        Some(message) => match effect_of(alloc, message) {
            Ok(Some(effect)) => write_engine(alloc, effect, read, place, out),
            Ok(None) => write_own(read, place, out),
            Err(_) => tell(Status::NoMemory, 0),
        },
    }
}

/// Writes a part of what an entry asks for, or says why there is none.
pub(crate) fn write_effect(alloc: Global, entry: &Bytes, place: usize, out: &mut [u8]) -> Told
    ensures written { WrittenOrWhy (status_by result.status) (effect_part entry.now place)
        result.len out.old out.new }
    ensures known { IsStatus result.status }
{
    match message_at(alloc, entry.as_slice()) {
        Ok(read) => write_asked(alloc, &read, place, out),
        Err(_) => tell(Status::NoMemory, 0),
    }
}
