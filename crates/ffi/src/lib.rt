//! A VM, and a stored journal, for callers of C: the functions that C calls. What each does stands in `c_sessions`, `c_calls`,
//! `c_journals` and `c_values`, which know no text; the calls by lines, and the line of a VM for a log, stand here.
#![tactic(auto)]

mod describing;
mod frames;
mod journals;
mod script;
mod texts;
mod typed;

ghost use Rattle.std.specs.Prelude.{◌≡◌, None};
ghost use Rattle.c_sessions.specs.Sessions.{AnswerRead, InputFed, IsNewSession, OutputLent, OutputTaken};
ghost use Rattle.c_sessions.specs.Peers.{layer_at};
ghost use Rattle.c_values.specs.Statuses.{IsStatus, status_by};

use c_sessions::{Outgoing, Vm, calls};
use c_values::Told;
use std::alloc::Global;

/// Makes an empty session whose peer speaks the layer of this number, if memory is found. One that was there is dropped.
#[unsafe(no_mangle)]
pub extern "C" fn proved_new(alloc: Global, vm: &mut Vm, layer: u32) -> u32
    ensures made { IsNewSession (layer_at layer) (status_by result) vm.new.value }
    ensures known { IsStatus result }
{
    calls::open(alloc, vm, layer)
}

/// Writes the last answer to the front of `out`, if it has room for it. Returns the answer's length either way.
#[unsafe(no_mangle)]
pub extern "C" fn proved_answer(alloc: Global, vm: &mut Vm, out: &mut [u8]) -> Told
    ensures kept { vm.new.value ≡ vm.old.value }
    ensures known { IsStatus result.status }
    ensures read { AnswerRead (status_by result.status) result.len out.old out.new vm.old.value }
{
    calls::read_answer(alloc, vm, out)
}

/// Feeds the VM bytes of its input.
#[unsafe(no_mangle)]
pub extern "C" fn proved_feed(alloc: Global, vm: &mut Vm, bytes: &[u8]) -> u32
    ensures fed { InputFed bytes.now (status_by result) vm.old.value vm.new.value }
    ensures known { IsStatus result }
{
    calls::feed(alloc, vm, bytes)
}

/// Moves all of the VM's output to the front of `out`, if it has room for it. Returns the output's length either way.
#[unsafe(no_mangle)]
pub extern "C" fn proved_take_output(alloc: Global, vm: &mut Vm, out: &mut [u8]) -> Told
    ensures taken { OutputTaken (status_by result.status) result.len out.old out.new vm.old.value
        vm.new.value }
    ensures known { IsStatus result.status }
{
    calls::take_output(alloc, vm, out)
}

/// Moves all of the VM's output to where C may read it until the next such call, and says where that is. If the call isn't made, as for a
/// session whose peer speaks another layer, `output` stays, and so does what C was lent before.
#[unsafe(no_mangle)]
pub extern "C" fn proved_lend_output(alloc: Global, vm: &mut Vm, output: &mut Outgoing) -> u32
    ensures lent { OutputLent (status_by result) output.old output.new vm.old.value vm.new.value }
    ensures known { IsStatus result }
{
    calls::lend_output(alloc, vm, output)
}

/// Drops the session, if there is one.
#[unsafe(no_mangle)]
pub extern "C" fn proved_free(alloc: Global, vm: &mut Vm)
    ensures { vm.new.value ≡ None }
{
    calls::close(alloc, vm)
}
