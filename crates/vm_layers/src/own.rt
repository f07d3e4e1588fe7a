//! The layer that the VM speaks.
ghost use Rattle.std.specs.Prelude.{◌≡◌};

use crate::layer::{Layer, LayerFault};
use bytes::Bytes;
use journal_protocol::{Decoder, Encoder, Message};
use std::alloc::Global;

/// This repository's own bytes of messages.
#[derive(Drop)]
pub struct Own {
    pub alloc: Global,
}

impl Layer for Own {
    ghost use Rattle.std.specs.Prelude.{refl};
    ghost use Rattle.std.proofs.Common.{inl};
    ghost use Rattle.journal_protocol.specs.Frames.{IsWhole, encoding};
    ghost use Rattle.vm_layers.specs.Own.{own_malformed_stays, own_front, own_read_back, own_rest_is_shorter, own_whole_stays};

    ghost frame = { λ _. encoding };

    ghost Has = { λ _ _. Unit {0} };

    ghost Fits = { λ _. IsWhole };

    ghost as_read = { λ _ m. m };

    ghost front = { λ _. own_front };

    ghost fits_has = { λ _ _ _. tt };

    ghost read_back = { λ _. own_read_back };

    ghost keeps = { λ _ _ _. inl refl };

    ghost whole_stays = { λ _. own_whole_stays };

    ghost malformed_stays = { λ _. own_malformed_stays };

    ghost shorter = { λ _. own_rest_is_shorter };

    fn encode(&self, message: &Message, out: &mut Vec<u8>) -> Result<(), LayerFault> {
        let frame = Encoder::new(self.alloc).encode(message)?;
        out.extend_from_slice(frame.as_slice())?;
        Ok(())
    }

    fn decode(
        &self,
        alloc: Global,
        stream: &Bytes,
    ) -> Result<Option<(Message, usize)>, LayerFault> {
        let mut decoder = Decoder::new(alloc);
        decoder.push(stream.clone()?)?;
        let Some(raw) = decoder.next_frame()? else {
            return Ok(None);
        };
        let message = raw.read(alloc)?;
        Ok(Some((message, stream.len() - decoder.waiting().len())))
    }
}
