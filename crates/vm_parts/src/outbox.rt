//! `Outbox`: the frames that wait to be sent, oldest first. Each is the frame of a message that can be read back.
ghost use Rattle.std.specs.Prelude.{◌≡◌, ◌∷◌, ◌++◌, [], IfOk, OnOk, OnErr};
ghost use Rattle.std.specs.List.{concat};
ghost use Rattle.journal_protocol.specs.Awaiting.{awaiting_id};
ghost use Rattle.journal_protocol.specs.Frames.{encoding, IsWhole};
ghost use Rattle.journal_protocol.specs.Message.TheVariants as message;
ghost use Rattle.vm_parts.specs.Outboxes.{WholeFrames, WholeStream, len_of};

use bytes::Bytes;
use journal_protocol::{Encoder, Message, NotificationId};
use std::alloc::{AllocError, Global};
use std::marker::Model;
use std::mem::swap;

/// Frames in the order in which they were written, in one buffer.
#[derive(Drop)]
pub struct Outbox {
    /// The bytes of all frames.
    stream: Vec<u8>,
    /// Where a frame is made before it is appended to others. One that stands alone is made in its place.
    frame: Vec<u8>,
}

impl Model for Outbox {
    ghost use Rattle.std.specs.Prelude.{List, ℕ};
    ghost use Rattle.vm_parts.specs.Outboxes.{WholeStream, frames_in};

    ghost Value = { List (List ℕ) };

    ghost view = { λ o. frames_in o.stream.items };

    ghost invariant = { λ o. WholeStream o.stream.items };
}

/// Makes a message's frame in an empty stream. If memory runs out, the stream is emptied again.
fn begin(alloc: Global, message: &Message, stream: &mut Vec<u8>) -> Result<(), AllocError>
    ensures ok { OnOk result (stream.new.items ≡ encoding message.now) }
    ensures whole { OnOk result (IsWhole message.now) }
    ensures err { OnErr result (stream.new.items ≡ []) }
{
    match Encoder::new(alloc).encode_in(message, stream) {
        Ok(()) => Ok(()),
        Err(error) => {
            stream.clear();
            Err(error)
        }
    }
}

/// Appends a message's frame to a stream.
fn append(
    alloc: Global,
    message: &Message,
    frame: &mut Vec<u8>,
    stream: &mut Vec<u8>,
) -> Result<(), AllocError>
    ensures ok { OnOk result (stream.new.items ≡ stream.old.items ++ encoding message.now) }
    ensures whole { OnOk result (IsWhole message.now) }
    ensures err { OnErr result (stream.new.items ≡ stream.old.items) }
{
    if stream.is_empty() {
        return begin(alloc, message, stream);
    }
    Encoder::new(alloc).encode_in(message, frame)?;
    stream.extend_from_slice(frame.as_slice())
}

/// As `append`, of an `AwaitingOn` on an id, or on the first of it and the other signal.
fn append_awaiting(
    alloc: Global,
    id: &NotificationId,
    other: Option<u32>,
    frame: &mut Vec<u8>,
    stream: &mut Vec<u8>,
) -> Result<(), AllocError>
    ensures ok { OnOk result (stream.new.items ≡ stream.old.items
        ++ encoding (message.AwaitingOn (awaiting_id id.now other))) }
    ensures whole { OnOk result (IsWhole (message.AwaitingOn (awaiting_id id.now other))) }
    ensures err { OnErr result (stream.new.items ≡ stream.old.items) }
{
    Encoder::new(alloc).encode_awaiting_in(id, other, frame)?;
    stream.extend_from_slice(frame.as_slice())
}

#[tactic(auto, using(crate::proofs::Outboxes::no_frames, crate::proofs::Outboxes::len_is))]
impl Outbox {
    pub fn new(alloc: Global) -> Outbox
        ensures { result ≡ [] }
    {
        Outbox {
            stream: Vec::new(alloc),
            frame: Vec::new(alloc),
        }
    }

    /// Appends the frame of a message to the others.
    pub fn write(&mut self, alloc: Global, message: &Message) -> Result<(), AllocError>
        ensures ok { OnOk result (self.new ≡ self.old ++ encoding message.now ∷ []) }
        ensures whole { OnOk result (IsWhole message.now) }
        ensures err { OnErr result (self.new ≡ self.old) }
    {
        append(alloc, message, &mut self.frame, &mut self.stream)
    }

    /// Appends the frame of an `AwaitingOn` on an id, or on the first of it and the other signal. It takes no memory for lists of ids.
    pub fn write_awaiting(
        &mut self,
        alloc: Global,
        id: &NotificationId,
        other: Option<u32>,
    ) -> Result<(), AllocError>
        ensures ok { OnOk result (self.new
            ≡ self.old ++ encoding (message.AwaitingOn (awaiting_id id.now other)) ∷ []) }
        ensures whole { OnOk result (IsWhole (message.AwaitingOn (awaiting_id id.now other))) }
        ensures err { OnErr result (self.new ≡ self.old) }
    {
        append_awaiting(alloc, id, other, &mut self.frame, &mut self.stream)
    }

    /// The bytes of all frames, which stay there.
    pub fn bytes(&self, alloc: Global) -> Result<Bytes, AllocError>
        ensures bytes { IfOk result (λ bytes. bytes ≡ concat self.now) }
        ensures whole { IfOk result WholeStream }
        ensures frames { WholeFrames self.now }
    {
        Bytes::copy_from_slice(alloc, self.stream.as_slice())
    }

    /// The bytes of all frames, where they lie.
    pub fn as_slice(&self) -> &[u8]
        ensures bytes { result.now ≡ concat self.now }
        ensures whole { WholeStream result.now }
    {
        self.stream.as_slice()
    }

    /// How many bytes the frames have, as far as a `usize` goes.
    pub fn len(&self) -> usize
        ensures len { result ≡ len_of self.now }
        ensures whole { WholeFrames self.now }
    {
        self.stream.len()
    }

    /// Moves the bytes of all frames to `bytes`, instead of what that held. The next frames are written to the memory that it had.
    pub fn move_to(&mut self, bytes: &mut Vec<u8>)
        ensures moved { bytes.new.items ≡ concat self.old }
        ensures whole { WholeStream bytes.new.items }
        ensures none { self.new ≡ [] }
    {
        bytes.clear();
        swap(&mut self.stream, bytes);
    }

    /// Drops all frames. The memory stays for the next ones.
    pub fn clear(&mut self)
        ensures { self.new ≡ [] }
    {
        self.stream.clear();
    }
}
