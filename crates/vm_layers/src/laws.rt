//! Laws of what goes over a layer to a VM and back.
ghost use Rattle.std.specs.Prelude.{◌≡◌, ◌++◌, [], List, map, None, Result, ℕ};
ghost use Rattle.std.specs.List.{flat_map, AllByRecursion};
ghost use Rattle.journal_protocol.specs.Frames.{IsWhole, encoding};
ghost use Rattle.journal_protocol.specs.Message.{Message};
ghost use Rattle.journal_entries.specs.Journal.{stored_form};
ghost use Rattle.invocation_vm.specs.Views.{View, after_input, all_received};
ghost use Rattle.vm_layers.specs.Layers.{Moves, Stops};
ghost use Rattle.vm_layers.specs.Own.{own_front};
ghost use Rattle.vm_layers.specs.Transcoding.{ComesOver, HandsOut};
ghost use Rattle.vm_layers.specs.declared.layer.LayerFault.{LayerFault};

use crate::layer::Layer;

/// Bytes of a peer that come in two pieces do what they do in one, and that is one thing: so it doesn't matter how the input is cut.
pub fn input_is_cut_anywhere<L: Layer>()
    ensures join { (layer : L) (waited xs ys between waits : List ℕ) (old mid new : View)
        → ComesOver (L.front layer) waited xs old between mid
        → ComesOver (L.front layer) between ys mid waits new
        → ComesOver (L.front layer) waited (xs ++ ys) old waits new }
    ensures one { (layer : L) (waited piece waits waits' : List ℕ) (old new new' : View)
        → ComesOver (L.front layer) waited piece old waits new
        → ComesOver (L.front layer) waited piece old waits' new'
        → (waits ≡ waits') × (new ≡ new') }
{}

/// A VM in which no byte waits takes the frames of messages as these messages, one after another.
pub fn frames_come_as_messages()
    ensures { (v : View) (ms : List Message) → v.undecoded ≡ [] → v.machine.failure ≡ None
        → AllByRecursion IsWhole ms → after_input v (flat_map encoding ms)
        ≡ record { undecoded = []; machine = all_received (map stored_form ms) v.machine } }
{}

/// Over its own bytes a VM takes what it takes without a layer, as long as it hasn't failed by it: the bytes that wait for the rest of
/// their frame wait beside it.
pub fn own_bytes_come_as_they_are()
    ensures { (waited piece waits : List ℕ) (old new : View) → old.undecoded ≡ []
        → new.machine.failure ≡ None → ComesOver own_front waited piece old waits new
        → after_input (record old { undecoded = waited }) piece
        ≡ record new { undecoded = waits } }
{}

/// What is handed out is the frames, in the layer, of the first messages that the VM wrote and that weren't handed out. If there is no
/// fault, they are all.
pub fn output_is_translated<L: Layer>()
    ensures { (layer : L) (written : List Message) (rest old new : List ℕ)
        (result : Result (Unit {0}) LayerFault) → AllByRecursion IsWhole written
        → Moves own_front (L.Fits layer) (L.frame layer) (flat_map encoding written) rest old new
        → Stops own_front (L.Has layer) (L.Fits layer) rest result
        → HandsOut (L.Has layer) (L.Fits layer) (L.frame layer) written rest old new result }
{}
