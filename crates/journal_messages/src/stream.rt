//! A whole stream as messages.
ghost use Rattle.std.specs.Prelude.{◌≡◌, ℕ, List, IfOk, IfErr};
ghost use Rattle.std.specs.List.{flat_map};
ghost use Rattle.journal_messages.specs.Runs.{Splits, IsRefused};
ghost use Rattle.journal_messages.specs.declared.message.Message.{Message};

use crate::{Decoder, Message};
use bytes::Bytes;
use std::alloc::Global;
use wire::Fault;

/// The messages of a stream that comes in these pieces.
pub fn messages_of(alloc: Global, pieces: &[Bytes]) -> Result<Vec<Message>, Fault>
    // Up to a rest that is no whole frame, the stream is these messages.
    ensures split { IfOk result (λ out. (rest : List ℕ)
        × Splits (flat_map (λ piece. piece) pieces.now) out.items rest) }
    // No other messages are, so it doesn't matter how the stream was cut.
    ensures only { IfOk result (λ out. (others : List Message) (rest : List ℕ)
        → Splits (flat_map (λ piece. piece) pieces.now) others rest → out.items ≡ others) }
    // It is malformed only if it is no messages at all up to such a rest.
    ensures refused { IfErr result (IsRefused (flat_map (λ piece. piece) pieces.now)) }
{
    let mut decoder = Decoder::new(alloc);
    let mut out = Vec::new(alloc);
    for piece in pieces {
        decoder.push(piece.clone()?)?;
        while let Some(raw) = decoder.next_frame()? {
            out.push(raw.read(alloc)?)?;
        }
    }
    Ok(out)
}
