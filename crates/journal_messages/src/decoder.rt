//! Frames out of the pieces of a stream, however it was cut.
ghost use Rattle.std.specs.Prelude.{◌≡◌, ◌<◌, ◌^◌, ◌++◌, [], length, MatchOption, OnOk, OnErr};
ghost use Rattle.wire.specs.Format.{u16s, u64s};
ghost use Rattle.journal_messages.specs.Stream.{Next, NextIs, IsNextOrError, FrameAt};

use crate::RawMessage;
use crate::waiting::Waiting;
use bytes::Bytes;
use journal_errors::{Error, MessageType};
use std::alloc::{AllocError, Global};
use std::marker::Model;
use wire::Fault;

/// How many bytes a type's number and a length take.
const HEAD: usize = 10;

/// Frames out of the pieces of a stream. Contracts see the bytes that wait.
pub struct Decoder {
    alloc: Global,
    waiting: Waiting,
}

/// Written out, so that a caller who drops a decoder calls this: a derived drop is proved once more in each crate above.
impl Drop for Decoder {
    fn drop(self) {
        let Decoder {
            alloc: _,
            waiting: _,
        } = self;
    }
}

impl Model for Decoder {
    ghost use Rattle.std.specs.Prelude.{ℕ, List};
    ghost use Rattle.journal_messages.specs.Waiting.{waiting_bytes};

    ghost Value = { List ℕ };

    ghost view = { λ d. waiting_bytes d.waiting };
}

impl Decoder {
    pub fn new(alloc: Global) -> Decoder
        ensures { result ≡ [] }
    {
        Decoder {
            alloc,
            waiting: Waiting::nothing(),
        }
    }

    /// Takes the next piece of the stream. An `Err` changes nothing. The piece is kept as it is if nothing waits; else it is put together
    /// with what waits.
    pub fn push(&mut self, piece: Bytes) -> Result<(), AllocError>
        ensures ok { OnOk result (self.new ≡ self.old ++ piece) }
        ensures err { OnErr result (self.new ≡ self.old) }
    {
        self.waiting.add(self.alloc, piece)
    }

    /// The next frame, if it is whole. Its body shares the memory in which it waits. An `Err` changes nothing.
    pub fn next_frame(&mut self) -> Result<Option<RawMessage>, Fault>
        ensures spelled { Next self.old result self.new }
        ensures next { NextIs self.old result self.new }
    {
        let Some((ty, len)) = frame_at(self.waiting.as_slice())? else {
            return Ok(None);
        };
        let mut body = self.waiting.take(len)?;
        body.advance(HEAD);
        Ok(Some(RawMessage { ty, body }))
    }

    /// As `next_frame`, the fault as the error that it is for the one who sent the bytes.
    pub fn next(&mut self) -> Result<Option<RawMessage>, Error>
        ensures { IsNextOrError self.old result self.new }
    {
        match self.next_frame() {
            Ok(frame) => Ok(frame),
            Err(fault) => Err(Error::from(fault)),
        }
    }

    /// The bytes that wait.
    pub fn waiting(&self) -> &[u8]
        ensures { result.now ≡ self.now }
    {
        self.waiting.as_slice()
    }

    /// Drops the bytes that wait. It takes no memory.
    pub fn clear(&mut self)
        ensures { self.new ≡ [] }
    {
        self.waiting = Waiting::nothing();
    }
}

/// The type's number at the front, and the bytes after it.
#[tactic(auto, unfolding(wire::specs::Format::u16s))]
fn number_at(bytes: &[u8]) -> Option<(u16, &[u8])>
    ensures { MatchOption result (length bytes.now < 2) (λ x. (x.0 < 2 ^ 16)
        × (bytes.now ≡ u16s x.0 ++ x.1.now)) }
{
    if bytes.len() < 2 {
        return None;
    }
    let (front, rest) = bytes.split_at(2);
    Some((u16::from_be_bytes([front[0], front[1]]), rest))
}

/// The length at the front, and the bytes after it.
#[tactic(auto, unfolding(wire::specs::Format::u64s))]
fn length_at(bytes: &[u8]) -> Option<(u64, &[u8])>
    ensures { MatchOption result (length bytes.now < 8) (λ x. (x.0 < 2 ^ 64)
        × (bytes.now ≡ u64s x.0 ++ x.1.now)) }
{
    if bytes.len() < 8 {
        return None;
    }
    let (front, rest) = bytes.split_at(8);
    let len = u64::from_be_bytes([
        front[0], front[1], front[2], front[3], front[4], front[5], front[6], front[7],
    ]);
    Some((len, rest))
}

/// The type of the frame at the front, and how many bytes the frame takes.
fn frame_at(bytes: &[u8]) -> Result<Option<(MessageType, usize)>, Fault>
    ensures { FrameAt bytes.now result }
{
    let Some((number, rest)) = number_at(bytes) else {
        return Ok(None);
    };
    let Some(ty) = MessageType::from_number(number) else {
        return Err(Fault::Malformed);
    };
    let Some((len, rest)) = length_at(rest) else {
        return Ok(None);
    };
    if (rest.len() as u64) < len {
        return Ok(None);
    }
    Ok(Some((ty, HEAD + len as usize)))
}
