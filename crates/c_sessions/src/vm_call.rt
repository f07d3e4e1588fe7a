//! Calls of a session's VM from C, whichever they are.
ghost use Rattle.std.specs.Prelude.{◌≡◌, codes};
ghost use Rattle.invocation_vm.specs.Making.{version_in};
ghost use Rattle.vm_types.specs.ContentTypes.{header_under};
ghost use Rattle.c_sessions.specs.Calls.{CalledFromC, MadeFromC, OwnFromC, PartRead};
ghost use Rattle.c_sessions.specs.Retries.{retry_in};
ghost use Rattle.c_values.specs.Statuses.{IsStatus, status_by};

use crate::held::{Vm, give, take};
use crate::replied::{Replied, tell_status};
use crate::retry::{Retry, no_retry, tell_retry};
use c_values::{Status, Told, tell};
use invocation_vm::CoreVM;
use std::alloc::Global;
use vm_types::{ContentType, Reply, VMOptions};

/// A call of a VM, with what C gave for it.
pub trait VmCall: Drop {
    ghost use Rattle.std.specs.Prelude.{Result};
    ghost use Rattle.invocation_vm.specs.Seen.{seen};
    ghost use Rattle.invocation_vm.specs.Views.{View};
    ghost use Rattle.vm_types.specs.declared.reply.Reply.{Reply};
    ghost use Rattle.c_sessions.specs.Calls.{IsMadeOf};
    ghost use Rattle.c_values.specs.declared.status.Status.{Status};

    /// What the call does to a VM: its reply, or why it isn't made; and the VM before and after.
    ghost does: { Self → Result Reply Status → View → View → Type 0 };

    /// Makes the call, keeps its reply instead of the last one, and returns the reply's summary. An `Err` if what C gave can't be used.
    fn make(self, alloc: Global, vm: &mut CoreVM, kept: &mut Reply) -> Result<Replied, Status>
        ensures { IsMadeOf (does self) result (seen vm.old) (seen vm.new) kept.old kept.new };
}

/// Makes a call of the session's VM, keeps its reply, and returns the reply's summary.
pub fn call<C: VmCall>(alloc: Global, vm: &mut Vm, call: C) -> Replied
    ensures { CalledFromC (C.does call) result vm.old.value vm.new.value }
{
    match take(alloc, vm) {
        Some(mut session) => {
            let replied = session.call(alloc, call);
            give(alloc, vm, session);
            replied
        }
        None => tell_status(Status::NoSession),
    }
}

/// As `call`, of a call whose reply has bytes of the VM's own. A session whose peer speaks another layer has none, and stays as it is.
pub fn call_own<C: VmCall>(alloc: Global, vm: &mut Vm, call: C) -> Replied
    ensures { OwnFromC (C.does call) result vm.old.value vm.new.value }
{
    match take(alloc, vm) {
        Some(mut session) => {
            let replied = session.call_own(alloc, call);
            give(alloc, vm, session);
            replied
        }
        None => tell_status(Status::NoSession),
    }
}

/// Replaces the session's VM by a new one. Returns its version, or why there is none.
pub fn make(alloc: Global, vm: &mut Vm, content_type: ContentType, options: VMOptions) -> Replied
    ensures { MadeFromC alloc options
        (version_in (header_under content_type (codes "content-type")))
        result vm.old.value vm.new.value }
{
    match take(alloc, vm) {
        Some(mut session) => {
            let replied = session.make(alloc, content_type, options);
            give(alloc, vm, session);
            replied
        }
        None => tell_status(Status::NoSession),
    }
}

/// Writes a part of the last reply to the front of `out`, if it has room for it. Returns the part's length either way.
pub fn read_part(alloc: Global, vm: &mut Vm, at: usize, out: &mut [u8]) -> Told
    ensures kept { vm.new.value ≡ vm.old.value }
    ensures known { IsStatus result.status }
    ensures read { PartRead at (status_by result.status) result.len out.old out.new
        vm.old.value }
{
    match take(alloc, vm) {
        Some(session) => {
            let (status, len) = session.read_part(at, out);
            give(alloc, vm, session);
            tell(status, len)
        }
        None => tell(Status::NoSession, 0),
    }
}

/// What is done after the error that the last reply is.
pub fn read_retry(alloc: Global, vm: &mut Vm) -> Retry
    ensures kept { vm.new.value ≡ vm.old.value }
    ensures read { result ≡ retry_in vm.old.value }
{
    match take(alloc, vm) {
        Some(session) => {
            let retry = tell_retry(&session.reply);
            give(alloc, vm, session);
            retry
        }
        None => no_retry(Status::NoSession),
    }
}
