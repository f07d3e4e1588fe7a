//! Whether the future of a suspension is awake.
ghost use Rattle.std.specs.Prelude.{◌≡◌, ◌++◌, ◌∷◌, [], IfNone, IfOk, IfSome, OnOk};
ghost use Rattle.journal_protocol.specs.Frames.{Whole, next_of};
ghost use Rattle.c_values.specs.Noting.{AllRead, HasNoMore};
ghost use Rattle.c_values.specs.Reading.{awake_at, awake_by, came_by, message_awake, notes_among, notes_at};

use crate::Status;
use crate::reading::{frame_at, message_in};
use crate::waking::is_awake;
use await_arrivals::Arrivals;
use bytes::Bytes;
use journal_entries::entry::note_of;
use journal_protocol::{Decoder, Future, Message, RawMessage};
use plain::Fault;
use std::alloc::{AllocError, Global};

/// The next frame, if a whole one of a known type waits.
fn next_whole(decoder: &mut Decoder) -> Result<Option<RawMessage>, AllocError>
    ensures none { IfOk result
        (λ next. IfNone next ((decoder.new ≡ decoder.old) × HasNoMore decoder.old)) }
    ensures some { IfOk result
        (λ next. IfSome next (λ raw. next_of decoder.old ≡ Whole raw decoder.new)) }
{
    match decoder.next_frame() {
        Ok(frame) => Ok(frame),
        Err(Fault::Malformed) => Ok(None),
        Err(Fault::Memory) => Err(AllocError),
    }
}

/// Notes a frame, if it is a notification.
fn note(alloc: Global, came: &mut Arrivals, raw: &RawMessage) -> Result<(), AllocError>
    ensures { OnOk result (came.new ≡ record came.old
        { queued = came.old.queued ++ notes_among (raw.now ∷ []) }) }
{
    match note_of(alloc, raw) {
        Ok(None) => Ok(()),
        Ok(Some(notification)) => came.enqueue(notification),
        Err(error) => Err(error),
    }
}

/// The notifications of a stream's whole frames, and what follows these.
#[tactic(auto, using(crate::proofs::Streams::none_read, crate::proofs::Streams::one_read, crate::proofs::Streams::all_read))]
fn read_all(alloc: Global, stream: &[u8]) -> Result<(Arrivals, Decoder), AllocError>
    ensures { IfOk result (λ read. AllRead stream.now read.0 read.1) }
{
    let bytes = Bytes::copy_from_slice(alloc, stream)?;
    let mut came = Arrivals::new(alloc);
    let mut decoder = Decoder::new(alloc);
    decoder.push(bytes)?;
    while let Some(raw) = next_whole(&mut decoder)? {
        note(alloc, &mut came, &raw)?;
    }
    Ok((came, decoder))
}

/// The notifications of a stream of whole frames.
#[tactic(auto, using(crate::proofs::Streams::whole_read, crate::proofs::Streams::rest_left))]
fn notes_at(alloc: Global, stream: &[u8]) -> Result<Result<Arrivals, Status>, AllocError>
    ensures { IfOk result (λ found. found ≡ came_by (notes_at stream.now)) }
{
    match read_all(alloc, stream) {
        Ok((came, decoder)) => {
            if decoder.waiting().is_empty() {
                Ok(Ok(came))
            } else {
                Ok(Err(Status::NotFrames))
            }
        }
        Err(error) => Err(error),
    }
}

/// Whether a future is awake by the notifications of a stream.
#[tactic(auto, using(crate::proofs::Streams::awake_if_read, crate::proofs::Streams::unread_awake))]
fn awake_by(
    alloc: Global,
    future: &Future,
    stream: &[u8],
) -> Result<Result<bool, Status>, AllocError>
    ensures { IfOk result (λ found. found ≡ awake_by future.now stream.now) }
{
    match notes_at(alloc, stream) {
        Ok(Ok(came)) => match is_awake(alloc, &came, future.nodes()) {
            Ok(is) => Ok(Ok(is)),
            Err(error) => Err(error),
        },
        Ok(Err(why)) => Ok(Err(why)),
        Err(error) => Err(error),
    }
}

/// Whether the suspension that a message is is awake by the notifications of a stream.
fn message_awake(
    alloc: Global,
    message: &Option<Message>,
    stream: &[u8],
) -> Result<Result<bool, Status>, AllocError>
    ensures { IfOk result (λ found. found ≡ message_awake message.now stream.now) }
{
    match message {
        Some(Message::Suspension(m)) => awake_by(alloc, &m.future, stream),
        _ => Ok(Err(Status::NotASuspension)),
    }
}

/// Whether the future of a suspension is awake by the notifications of a stream.
pub fn awake_at(
    alloc: Global,
    suspension: &[u8],
    stream: &[u8],
) -> Result<Result<bool, Status>, AllocError>
    ensures { IfOk result (λ found. found ≡ awake_at suspension.now stream.now) }
{
    match frame_at(alloc, suspension) {
        Ok(Ok(raw)) => match message_in(alloc, &raw) {
            Ok(message) => message_awake(alloc, &message, stream),
            Err(error) => Err(error),
        },
        Ok(Err(why)) => Ok(Err(why)),
        Err(error) => Err(error),
    }
}
