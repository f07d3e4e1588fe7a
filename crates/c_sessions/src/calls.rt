//! What each call from C does: bytes go in and come out as they are, and the answer to the last line is read.
ghost use Rattle.std.specs.Prelude.{◌≡◌, None, Some};
ghost use Rattle.c_sessions.specs.Sessions.{AnswerRead, InputFed, IsNewSession, OutputLent, OutputTaken};
ghost use Rattle.c_sessions.specs.Peers.{layer_at};
ghost use Rattle.c_values.specs.Statuses.{IsStatus, status_by};

use crate::held::{Vm, give, take};
use crate::outgoing::Outgoing;
use crate::peer::{Spoken, layer_at};
use crate::session::Session;
use c_values::{Status, Told, tell};
use std::alloc::Global;

/// Makes an empty session whose peer speaks this layer, if memory is found. There is none yet.
fn open_over(alloc: Global, vm: &mut Vm, spoken: Spoken) -> u32
    requires { vm.old.value ≡ None }
    ensures made { IsNewSession (Some spoken) (status_by result) vm.new.value }
    ensures known { IsStatus result }
{
    match Box::new(alloc, Session::new(alloc, spoken)) {
        Ok(made) => {
            give(alloc, vm, made);
            Status::Done.code()
        }
        Err(_) => Status::NoMemory.code(),
    }
}

/// Makes an empty session whose peer speaks the layer of this number, if memory is found. One that was there is dropped.
pub fn open(alloc: Global, vm: &mut Vm, layer: u32) -> u32
    ensures made { IsNewSession (layer_at layer) (status_by result) vm.new.value }
    ensures known { IsStatus result }
{
    close(alloc, vm);
    match layer_at(layer) {
        Some(spoken) => open_over(alloc, vm, spoken),
        None => Status::BadNumber.code(),
    }
}

/// Writes the last answer to the front of `out`, if it has room for it. Returns the answer's length either way.
pub fn read_answer(alloc: Global, vm: &mut Vm, out: &mut [u8]) -> Told
    ensures kept { vm.new.value ≡ vm.old.value }
    ensures known { IsStatus result.status }
    ensures read { AnswerRead (status_by result.status) result.len out.old out.new vm.old.value }
{
    match take(alloc, vm) {
        Some(session) => {
            let (status, len) = session.read_answer(out);
            give(alloc, vm, session);
            tell(status, len)
        }
        None => tell(Status::NoSession, 0),
    }
}

/// Feeds the VM bytes of its input.
pub fn feed(alloc: Global, vm: &mut Vm, bytes: &[u8]) -> u32
    ensures fed { InputFed bytes.now (status_by result) vm.old.value vm.new.value }
    ensures known { IsStatus result }
{
    match take(alloc, vm) {
        Some(mut session) => {
            let status = session.feed(alloc, bytes);
            give(alloc, vm, session);
            status.code()
        }
        None => Status::NoSession.code(),
    }
}

/// Moves all of the VM's output to the front of `out`, if it has room for it. Returns the output's length either way.
pub fn take_output(alloc: Global, vm: &mut Vm, out: &mut [u8]) -> Told
    ensures taken { OutputTaken (status_by result.status) result.len out.old out.new vm.old.value
        vm.new.value }
    ensures known { IsStatus result.status }
{
    match take(alloc, vm) {
        Some(mut session) => {
            let (status, len) = session.take_output(alloc, out);
            give(alloc, vm, session);
            tell(status, len)
        }
        None => tell(Status::NoSession, 0),
    }
}

/// Moves all of the VM's output to where C may read it until the next such call, and says where that is. If the call isn't made, as for a
/// session whose peer speaks another layer, `output` stays, and so does what C was lent before.
pub fn lend_output(alloc: Global, vm: &mut Vm, output: &mut Outgoing) -> u32
    ensures lent { OutputLent (status_by result) output.old output.new vm.old.value vm.new.value }
    ensures known { IsStatus result }
{
    match take(alloc, vm) {
        Some(mut session) => {
            let status = session.lend_output();
            if let Status::Done = status {
                *output = session.outgoing();
            }
            give(alloc, vm, session);
            status.code()
        }
        None => Status::NoSession.code(),
    }
}

/// Drops the session, if there is one.
pub fn close(alloc: Global, vm: &mut Vm)
    ensures { vm.new.value ≡ None }
{
    let session = take(alloc, vm);
    drop(session);
}
