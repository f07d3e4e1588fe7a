//! What a layer is: the bytes of a message's frame, the message at the front of a stream, and the laws of both.
ghost use Rattle.std.specs.Prelude.{◌≡◌};
ghost use Rattle.journal_protocol.specs.Message.{Message};

use bytes::Bytes;
use journal_protocol::Message;
use plain::Fault;
use std::alloc::{AllocError, Global};

/// Why a message or a stream was refused.
#[derive(Clone, Copy, Debug, PartialEq, Eq)]
pub enum LayerFault {
    /// A growth was refused.
    Memory,
    /// The bytes are no frame of a message.
    Malformed,
    /// The layer has no such message, in this version of it.
    NoSuchMessage,
    /// The message has no frame in this layer, since it is too long.
    TooLong,
}

impl From<AllocError> for LayerFault {
    ghost use Rattle.vm_layers.specs.declared.layer.LayerFault.TheVariants.{Memory};

    ghost from_gives = { λ _ e. e ≡ Memory };

    fn from(_e: AllocError) -> LayerFault {
        LayerFault::Memory
    }
}

impl From<Fault> for LayerFault {
    ghost use Rattle.vm_layers.specs.Layers.{layer_fault};

    ghost from_gives = { λ fault e. e ≡ layer_fault fault };

    fn from(fault: Fault) -> LayerFault {
        match fault {
            Fault::Memory => LayerFault::Memory,
            Fault::Malformed => LayerFault::Malformed,
        }
    }
}

/// Messages as bytes. The layers above use these words and laws alone, and don't depend on the bytes. All of them take the layer's value, so
/// one type serves several versions of a protocol.
pub trait Layer {
    ghost use Rattle.std.specs.Prelude.{◌≡◌, ◌++◌, ◌<◌, List, length, ℕ};
    ghost use Rattle.vm_layers.specs.Kept.{Keeps};
    ghost use Rattle.vm_layers.specs.Layers.{Encoded, Front, IsFrontRead, Malformed, Whole};
    ghost use Rattle.journal_protocol.specs.Message.{Message};

    /// The bytes of a message's frame. A layer may have several encodings of a message; each value of the type writes one.
    ghost frame: { Self → Message → List ℕ };

    /// The messages that the layer has.
    ghost Has: { Self → Message → Type 0 };

    /// Those of them that fit a frame.
    ghost Fits: { Self → Message → Type 0 };

    /// What a reader finds of a message. It may be less than was written.
    ghost as_read: { Self → Message → Message };

    /// What is at the front of a stream.
    ghost front: { Self → List ℕ → Front };

    ghost fits_has: { (layer : Self) (m : Message) → Fits layer m → Has layer m };

    /// A message is read back from its frame, with any bytes after it.
    ghost read_back: { (layer : Self) (m : Message) (rest : List ℕ) → Fits layer m
        → front layer (frame layer m ++ rest) ≡ Whole (as_read layer m) rest };

    /// It is all of the message, or all but how a suspension or a report of what is awaited combines its ids.
    ghost keeps: { (layer : Self) (m : Message) → Fits layer m → Keeps m (as_read layer m) };

    /// What is at the front doesn't change by bytes that follow, once it is a whole frame or none.
    ghost whole_stays: { (layer : Self) (bs more : List ℕ) (m : Message) (rest : List ℕ)
        → front layer bs ≡ Whole m rest → front layer (bs ++ more) ≡ Whole m (rest ++ more) };

    ghost malformed_stays: { (layer : Self) (bs more : List ℕ)
        → front layer bs ≡ Malformed → front layer (bs ++ more) ≡ Malformed };

    /// No frame is empty.
    ghost shorter: { (layer : Self) (bs : List ℕ) (m : Message) (rest : List ℕ)
        → front layer bs ≡ Whole m rest → length rest < length bs };

    /// The message's frame, added to a buffer. An error adds nothing.
    fn encode(&self, message: &Message, out: &mut Vec<u8>) -> Result<(), LayerFault>
        ensures { Encoded (Has self.now) (Fits self.now) (frame self.now) message.now
            out.old.items result out.new.items };

    /// The message at the front, and how many bytes its frame takes; none if only a part of a frame is there.
    fn decode(&self, alloc: Global, stream: &Bytes) -> Result<Option<(Message, usize)>, LayerFault>
        ensures { IsFrontRead (front self.now) stream.now result };
}
