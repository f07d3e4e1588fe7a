//! A VM whose peer speaks a layer: what the peer sends is fed to the VM in the VM's own bytes, and what the VM wrote is handed out in the
//! layer's.
ghost use Rattle.std.specs.Prelude.{◌≡◌, ◌++◌, [], OnErr, OnOk};
ghost use Rattle.vm_parts.specs.Outboxes.{WholeFrames};
ghost use Rattle.invocation_vm.specs.Seen.{seen};
ghost use Rattle.vm_layers.specs.Layers.{Moves, Stops};
ghost use Rattle.vm_layers.specs.Own.{own_front};
ghost use Rattle.vm_layers.specs.Transcoding.{ComesOver, Pushed, StarvesOver, WithOutput, kept_by, unsent};

use crate::feeding::feed_all;
use crate::layer::{Layer, LayerFault};
use crate::own::Own;
use crate::translator::Translator;
use bytes::Bytes;
use invocation_vm::CoreVM;
use std::alloc::{AllocError, Global};

/// What stands between a VM and a peer that speaks the layer. The VM isn't in it: a handler's calls are made of the VM as they are.
#[derive(Drop)]
pub struct Transcoder<L: Layer + Drop> {
    alloc: Global,
    pub layer: L,
    /// What the peer sent: no whole frame of the layer yet.
    pub input: Translator,
    /// What the VM wrote, in its own bytes: it begins with a message that the layer refused.
    pub output: Translator,
}

impl<L: Layer + Drop> Transcoder<L> {
    /// No byte waits in it.
    pub fn new(alloc: Global, layer: L) -> Transcoder<L>
        ensures layer { result.layer ≡ layer }
        ensures input { result.input ≡ [] }
        ensures output { result.output ≡ [] }
    {
        Transcoder {
            alloc,
            layer,
            input: Translator::new(alloc),
            output: Translator::new(alloc),
        }
    }

    /// Takes a piece of what the peer sends, and adds what is whole to `fed`, in the VM's own bytes.
    fn translate_input(&mut self, bytes: Bytes, fed: &mut Vec<u8>) -> Result<(), LayerFault>
        ensures pushed { Pushed (L.front self.old.layer) (self.old.input ++ bytes) self.new.input
            fed.old.items fed.new.items result }
        ensures layer { self.new.layer ≡ self.old.layer }
        ensures output { self.new.output ≡ self.old.output }
    {
        let own = Own { alloc: self.alloc };
        match self.input.push(bytes) {
            Ok(()) => self.input.translate(&self.layer, &own, fed),
            Err(_) => Err(LayerFault::Memory),
        }
    }

    /// Drops what waits of the input, if the VM has failed.
    fn settle_input(&mut self, vm: &CoreVM)
        ensures input { self.new.input ≡ kept_by (seen vm.now) self.old.input }
        ensures layer { self.new.layer ≡ self.old.layer }
        ensures output { self.new.output ≡ self.old.output }
    {
        if vm.has_failed() {
            self.input.clear();
        }
    }

    /// The next bytes of the peer, cut anywhere. The VM takes the messages whose frames are whole. If then no frame of a message follows, or
    /// a message that is too long for the VM's own bytes, the VM fails as by bad bytes of its own. A VM that has failed drops what
    /// comes. Out of memory fails the VM too.
    #[tactic(auto, using(crate::proofs::Fed::comes, crate::proofs::Fed::dropped, crate::proofs::Fed::starves_over, crate::proofs::Fed::live_of))]
    pub fn notify_input(&mut self, vm: &mut CoreVM, bytes: Bytes) -> Result<(), AllocError>
        ensures ok { OnOk result (ComesOver (L.front self.old.layer) self.old.input bytes
            (seen vm.old) self.new.input (seen vm.new)) }
        ensures err { OnErr result (StarvesOver (L.front self.old.layer) self.old.input bytes
            (seen vm.old) self.new.input (seen vm.new)) }
        ensures layer { self.new.layer ≡ self.old.layer }
        ensures output { self.new.output ≡ self.old.output }
    {
        if vm.has_failed() {
            self.settle_input(vm);
            return Ok(());
        }
        let mut fed = Vec::new(self.alloc);
        let came = self.translate_input(bytes, &mut fed);
        let given = feed_all(vm, fed, came);
        self.settle_input(vm);
        given
    }

    /// Adds to `out` what the VM wrote and wasn't handed out yet, in the layer. At a message that the layer refuses, what stood before it is
    /// in `out`, and each further call says it again. Out of memory loses nothing: a further call goes on.
    #[tactic(auto, using(crate::proofs::Taken::moved_out, crate::proofs::Taken::stops_out, crate::proofs::Taken::only_output, crate::proofs::Taken::none_taken))]
    pub fn take_output(&mut self, vm: &mut CoreVM, out: &mut Vec<u8>) -> Result<(), LayerFault>
        ensures moved { Moves own_front (L.Fits self.old.layer) (L.frame self.old.layer)
            (unsent self.old.output (seen vm.old)) (unsent self.new.output (seen vm.new))
            out.old.items out.new.items }
        ensures stops { Stops own_front (L.Has self.old.layer) (L.Fits self.old.layer)
            (unsent self.new.output (seen vm.new)) result }
        ensures whole { WholeFrames (seen vm.old).machine.output }
        ensures quiet { WithOutput (seen vm.old) (seen vm.new) }
        ensures layer { self.new.layer ≡ self.old.layer }
        ensures input { self.new.input ≡ self.old.input }
    {
        let own = Own { alloc: self.alloc };
        let Ok(written) = vm.waiting_output() else {
            return Err(LayerFault::Memory);
        };
        if let Err(_) = self.output.push(written) {
            return Err(LayerFault::Memory);
        }
        vm.clear_output();
        self.output.translate(&own, &self.layer, out)
    }
}
