//! The bytes that wait in a decoder: the rest of one piece, or of several that were put together.
ghost use Rattle.std.specs.Prelude.{◌≡◌, ◌≤◌, [], ◌++◌, length, take, drop, IfOk, OnOk, OnErr};
ghost use Rattle.journal_messages.specs.Waiting.{waiting_bytes};

use bytes::{Bytes, BytesMut};
use std::alloc::{AllocError, Global};

/// The bytes that wait, without a gap between them in memory.
#[derive(Drop)]
pub enum Waiting {
    /// The rest of one piece, whose memory it shares.
    Piece(Bytes),
    /// The rest of several pieces.
    Joined(BytesMut),
}

impl Waiting {
    pub fn nothing() -> Waiting
        ensures { waiting_bytes result ≡ [] }
    {
        Waiting::Piece(Bytes::new())
    }

    pub fn as_slice(&self) -> &[u8]
        ensures { result.now ≡ waiting_bytes self.now }
    {
        match self {
            Waiting::Piece(rest) => rest.as_slice(),
            Waiting::Joined(joined) => joined.as_slice(),
        }
    }

    /// Adds a piece, which is copied only if bytes wait. An `Err` changes nothing.
    pub fn add(&mut self, alloc: Global, piece: Bytes) -> Result<(), AllocError>
        ensures ok { OnOk result (waiting_bytes self.new ≡ waiting_bytes self.old ++ piece) }
        ensures err { OnErr result (waiting_bytes self.new ≡ waiting_bytes self.old) }
    {
        if self.as_slice().is_empty() {
            *self = Waiting::Piece(piece);
            return Ok(());
        }
        match self {
            Waiting::Piece(rest) => {
                let joined = join(alloc, rest, &piece)?;
                *self = Waiting::Joined(joined);
                Ok(())
            }
            Waiting::Joined(joined) => append(joined, &piece),
        }
    }

    /// Takes the first bytes, which share the memory in which they wait. An `Err` changes nothing.
    pub fn take(&mut self, len: usize) -> Result<Bytes, AllocError>
        requires { len ≤ length (waiting_bytes self.old) }
        ensures front { IfOk result (λ b. b ≡ take len (waiting_bytes self.old)) }
        ensures rest { OnOk result (waiting_bytes self.new ≡ drop len (waiting_bytes self.old)) }
        ensures err { OnErr result (waiting_bytes self.new ≡ waiting_bytes self.old) }
    {
        match self {
            Waiting::Piece(rest) => rest.split_to(len),
            Waiting::Joined(joined) => joined.freeze_to(len),
        }
    }
}

/// Two pieces in one buffer.
fn join(alloc: Global, front: &Bytes, back: &Bytes) -> Result<BytesMut, AllocError>
    ensures { IfOk result (λ b. b.items ≡ front.now ++ back.now) }
{
    let mut joined = BytesMut::with_capacity(alloc, front.len() + back.len())?;
    joined.extend_reserved(front.as_slice());
    joined.extend_reserved(back.as_slice());
    Ok(joined)
}

/// Adds a piece after what waits. If the room is too small, it is at least doubled, so that many little pieces are added in linear time. An
/// `Err` changes nothing.
fn append(joined: &mut BytesMut, piece: &Bytes) -> Result<(), AllocError>
    ensures ok { OnOk result (joined.new.items ≡ joined.old.items ++ piece.now) }
    ensures err { OnErr result (joined.new.items ≡ joined.old.items) }
{
    let len = joined.len();
    if joined.capacity() - len < piece.len() {
        joined.reserve(len.max(piece.len()))?;
    }
    joined.extend_reserved(piece.as_slice());
    Ok(())
}
