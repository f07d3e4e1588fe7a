//! Bytes of its own that a VM is fed, and then a fault of the layer that they came over.
ghost use Rattle.std.specs.Prelude.{◌≡◌, OnErr, OnOk, None};
ghost use Rattle.journal_protocol.specs.Errors.{no_memory};
ghost use Rattle.vm_machine.specs.Outcomes.{IsStarved, starved};
ghost use Rattle.invocation_vm.specs.Seen.{seen};
ghost use Rattle.invocation_vm.specs.Views.{Leaves, after_input, messages_in_bytes};
ghost use Rattle.vm_layers.specs.Steps.{IsSettled};
ghost use Rattle.vm_layers.specs.Transcoding.{FeedStarves, faulted, refused_input};

use crate::layer::LayerFault;
use bytes::Bytes;
use invocation_vm::{CoreVM, VM};
use std::alloc::AllocError;
use vm_inputs::receive_malformed;

/// Fails a VM by out of memory.
fn starve(vm: &mut CoreVM)
    ensures { (seen vm.new).machine ≡ starved (seen vm.old).machine.counters (seen vm.old).machine }
{
    let before = vm.machine.counters;
    let _ = vm.machine.starve(before);
}

/// Feeds a VM bytes of its own.
fn feed(vm: &mut CoreVM, fed: Vec<u8>) -> Result<(), AllocError>
    requires { (seen vm.old).machine.failure ≡ None }
    ensures { Leaves (messages_in_bytes (seen vm.old) fed.items)
        (after_input (seen vm.old) fed.items) result (seen vm.old) (seen vm.new) }
{
    match Bytes::from_vec(fed) {
        Ok(bytes) => vm.notify_input(bytes),
        Err(_) => {
            starve(vm);
            Err(AllocError)
        }
    }
}

/// Fails a VM, if it hasn't failed, as bytes do that are no frame.
#[tactic(auto, using(crate::proofs::Fed::refuses_ok, crate::proofs::Fed::refuses_err))]
fn refuse_input(vm: &mut CoreVM) -> Result<(), AllocError>
    ensures ok { OnOk result (seen vm.new ≡ refused_input (seen vm.old)) }
    ensures err { OnErr result (((seen vm.old).machine.failure ≡ None)
        × IsStarved (seen vm.old).machine no_memory (seen vm.new).machine) }
{
    if vm.has_failed() {
        return Ok(());
    }
    let before = vm.machine.counters;
    let given = receive_malformed(&mut vm.machine);
    vm.machine.settle_quietly(before, given)
}

/// Feeds a VM bytes of its own, and then tells it how their translation ended.
#[tactic(auto, using(crate::proofs::Fed::no_room, crate::proofs::Fed::feed_fails))]
pub(crate) fn feed_all(
    vm: &mut CoreVM,
    fed: Vec<u8>,
    came: Result<(), LayerFault>,
) -> Result<(), AllocError>
    requires { (seen vm.old).machine.failure ≡ None }
    ensures settled { OnOk result (IsSettled came) }
    ensures ok { OnOk result (seen vm.new
        ≡ faulted came (after_input (seen vm.old) fed.items)) }
    ensures err { OnErr result (FeedStarves came (seen vm.old) fed.items (seen vm.new)) }
{
    match came {
        Ok(()) => feed(vm, fed),
        Err(LayerFault::Memory) => {
            starve(vm);
            Err(AllocError)
        }
        Err(_) => match feed(vm, fed) {
            Ok(()) => refuse_input(vm),
            Err(error) => Err(error),
        },
    }
}
