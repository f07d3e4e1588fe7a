//! Lines of a script: one is performed on a session's VM, and its answer is kept in the session.
ghost use Rattle.std.specs.Prelude.{◌≡◌, is_some};
ghost use Rattle.c_sessions.specs.Replies.{mimics_by};
ghost use Rattle.c_values.specs.Statuses.{IsStatus, status_by};
ghost use Rattle.ffi.specs.Script.{LineAsked, LineDone, LineSent, failure_of, is_refusal_text};

use c_sessions::{Session, Vm, give, mimics_by, take};
use c_values::{Status, Told, tell};
use call_scripts::run::answer;
use invocation_vm::CoreVM;
use plain::Text;
use std::alloc::Global;

/// Whether an answer is an error.
fn is_refusal(answer: &Text) -> bool
    ensures { result ≡ is_refusal_text answer.now }
{
    match answer.as_str().as_bytes().first().copied() {
        Some(byte) => byte == b'e',
        None => false,
    }
}

/// Whether there is a VM, and it has failed.
fn has_failed(vm: &Option<CoreVM>) -> bool
    ensures { result ≡ is_some (failure_of vm.now) }
{
    match vm {
        Some(vm) => vm.has_failed(),
        None => false,
    }
}

/// Whether the error of the VM is the caller's, and only reads as out of memory.
fn mimics(session: &Session, had_failed: bool, refused: bool) -> bool
    ensures { result ≡ mimics_by session.now.mimics had_failed (failure_of session.now.vm) refused }
{
    match &session.vm {
        Some(vm) => mimics_by(session.mimics, had_failed, &vm.machine.failure, refused),
        None => false,
    }
}

/// Performs a line, and keeps its answer. Out of memory, the last answer stays, and the line may have been performed.
fn perform(session: &mut Session, alloc: Global, line: &[u8]) -> Status
    ensures { LineDone alloc line.now result session.old session.new }
{
    let had_failed = has_failed(&session.vm);
    match answer(alloc, &mut session.vm, line) {
        Ok(answer) => {
            session.answer = answer.into_text();
            session.mimics = mimics(session, had_failed, is_refusal(&session.answer));
            Status::Done
        }
        Err(_) => {
            session.mimics = mimics(session, had_failed, true);
            Status::NoMemory
        }
    }
}

/// Performs a line. A session whose peer speaks another layer has no lines, since these have the VM's own bytes, and may put another VM in the place
/// of the last.
fn send(session: &mut Session, alloc: Global, line: &[u8]) -> Status
    ensures { LineAsked session.old.peer alloc line.now result session.old session.new }
{
    match &session.peer {
        Some(_) => Status::Layered,
        None => perform(session, alloc, line),
    }
}

/// Performs a line. Returns the length of its answer, which `proved_answer` reads.
#[unsafe(no_mangle)]
pub extern "C" fn proved_line(alloc: Global, vm: &mut Vm, line: &[u8]) -> Told
    ensures sent { LineSent alloc line.now (status_by result.status) result.len vm.old.value
        vm.new.value }
    ensures known { IsStatus result.status }
{
    match take(alloc, vm) {
        Some(mut session) => {
            let status = send(&mut session, alloc, line);
            let len = session.answer.as_str().len();
            give(alloc, vm, session);
            tell(status, len)
        }
        None => tell(Status::NoSession, 0),
    }
}
