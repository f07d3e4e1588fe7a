//! A translation of a stream that comes in pieces.
ghost use Rattle.std.specs.Prelude.{◌≡◌, [], ◌++◌, OnErr, OnOk};
ghost use Rattle.vm_layers.specs.Layers.{Moves, Stops};

use crate::layer::{Layer, LayerFault};
use crate::rest::Rest;
use crate::translation::translate;
use bytes::Bytes;
use std::alloc::{AllocError, Global};
use std::marker::Model;

/// A stream's translation, piece by piece. Contracts see the bytes that wait: those that came and aren't translated.
pub struct Translator {
    alloc: Global,
    rest: Rest,
}

/// Written out, so that a caller who drops a translator calls this.
impl Drop for Translator {
    fn drop(self) {
        let Translator { alloc: _, rest: _ } = self;
    }
}

impl Model for Translator {
    ghost use Rattle.std.specs.Prelude.{ℕ, List};
    ghost use Rattle.vm_layers.specs.Rest.{rest_bytes};

    ghost Value = { List ℕ };

    ghost view = { λ t. rest_bytes t.rest };
}

impl Translator {
    pub fn new(alloc: Global) -> Translator
        ensures { result ≡ [] }
    {
        Translator {
            alloc,
            rest: Rest::nothing(),
        }
    }

    /// Takes the next piece of the stream. An `Err` changes nothing. The piece is kept as it is if nothing waits; else it is put together
    /// with what waits.
    pub fn push(&mut self, piece: Bytes) -> Result<(), AllocError>
        ensures ok { OnOk result (self.new ≡ self.old ++ piece) }
        ensures err { OnErr result (self.new ≡ self.old) }
    {
        self.rest.add(self.alloc, piece)
    }

    /// Takes the whole frames off the front of what waits, and adds the frames of the same messages in the other layer to `out`. If there
    /// is a fault, what stood before it is in `out`, and what waits begins with it: so each further call says it again. If memory ran
    /// out, a further call goes on.
    pub fn translate<A: Layer, B: Layer>(
        &mut self,
        from: &A,
        to: &B,
        out: &mut Vec<u8>,
    ) -> Result<(), LayerFault>
        ensures moved { Moves (A.front from.now) (B.Fits to.now) (B.frame to.now)
            self.old self.new out.old.items out.new.items }
        ensures stops { Stops (A.front from.now) (B.Has to.now) (B.Fits to.now) self.new result }
    {
        let mut rest = self.rest.read()?;
        let translated = translate(self.alloc, from, to, &mut rest, out);
        self.rest = Rest::Shared(rest);
        translated
    }

    /// Drops the bytes that wait.
    pub fn clear(&mut self)
        ensures { self.new ≡ [] }
    {
        self.rest = Rest::nothing();
    }

    /// The bytes that wait.
    pub fn waiting(&self) -> &[u8]
        ensures { result.now ≡ self.now }
    {
        self.rest.as_slice()
    }
}
