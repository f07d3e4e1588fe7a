//! The translation of one layer's frames into another's, and its laws.
ghost use Rattle.std.specs.Prelude.{◌≡◌, ◌++◌, [], List, map, Option, Result, ℕ};
ghost use Rattle.vm_layers.specs.Layers.{HoldsMessages, Moves, Stops};
ghost use Rattle.vm_layers.specs.Steps.{IsSettled, Runs, pushed};
ghost use Rattle.vm_layers.specs.declared.layer.LayerFault.{LayerFault};

use crate::layer::{Layer, LayerFault};
use bytes::Bytes;
use std::alloc::Global;

/// Takes the whole frames off the front of a stream in one layer, and adds the frames of the same messages in another to `out`. What is
/// left of the stream is a part of a frame. If there is a fault, what stood before it is in `out`, and what is left begins with it.
pub fn translate<A: Layer, B: Layer>(
    alloc: Global,
    from: &A,
    to: &B,
    stream: &mut Bytes,
    out: &mut Vec<u8>,
) -> Result<(), LayerFault>
    ensures moved { Moves (A.front from.now) (B.Fits to.now) (B.frame to.now)
        stream.old stream.new out.old.items out.new.items }
    ensures stops { Stops (A.front from.now) (B.Has to.now) (B.Fits to.now) stream.new result }
{
    while let Some((message, len)) = from.decode(alloc, stream)? {
        to.encode(&message, out)?;
        stream.advance(len);
    }
    Ok(())
}

/// What a translator puts out is the translation of the whole frames at the front of all that was pushed. How that was cut, and between
/// which pieces it translated, changes neither the output nor what is left nor the fault.
pub fn streams_are_cut_anywhere<A: Layer, B: Layer>()
    ensures whole { (from : A) (to : B) (steps : List (Option (List ℕ))) (rest out : List ℕ)
        → Runs (A.front from) (B.Fits to) (B.frame to) steps [] rest [] out
        → Moves (A.front from) (B.Fits to) (B.frame to) (pushed steps) rest [] out }
    ensures one { (from : A) (to : B) (steps others : List (Option (List ℕ)))
        (rest out rest' out' : List ℕ) (x y : Result (Unit {0}) LayerFault)
        → Runs (A.front from) (B.Fits to) (B.frame to) steps [] rest [] out
        → Stops (A.front from) (B.Has to) (B.Fits to) rest x → IsSettled x
        → Runs (A.front from) (B.Fits to) (B.frame to) others [] rest' [] out'
        → Stops (A.front from) (B.Has to) (B.Fits to) rest' y → IsSettled y
        → pushed steps ≡ pushed others → (rest ≡ rest') × (out ≡ out') × (x ≡ y) }
{}

/// Who reads the output in its layer finds the messages that were at the front of the input, as that layer keeps them.
pub fn translated_messages_are_read<A: Layer, B: Layer>()
    ensures { (from : A) (to : B) (stream rest out more : List ℕ)
        (moved : Moves (A.front from) (B.Fits to) (B.frame to) stream rest [] out)
        → HoldsMessages (B.front to) (out ++ more) (map (B.as_read to) moved.messages) more }
{}
