//! A VM in a line for a log.
ghost use Rattle.std.specs.Prelude.{◌≡◌, ◌++◌, IfOk, OnOk};
ghost use Rattle.invocation_vm.specs.Seen.{seen};
ghost use Rattle.c_values.specs.Statuses.{IsStatus, status_by};
ghost use Rattle.c_values.specs.Written.{WrittenOrWhy};
ghost use Rattle.ffi.specs.Describing.{described_in, id_text, last_text, line_of_vm, vm_text};

use c_sessions::{Session, Vm, give, take};
use c_values::{Status, Told, tell, written};
use call_lines::Shown;
use invocation_vm::{CoreVM, VM};
use lines::line::Line;
use std::alloc::{AllocError, Global};

/// Writes the invocation's id, once Start has come.
fn show_id(id: &str, line: &mut Line) -> Result<(), AllocError>
    ensures { OnOk result (line.new ≡ line.old ++ id_text id.now) }
{
    if id.is_empty() {
        return Ok(());
    }
    line.word(" ")?;
    line.word(id)
}

/// Writes the index of the last command, if there is one.
fn show_last(index: i64, line: &mut Line) -> Result<(), AllocError>
    ensures { OnOk result (line.new ≡ line.old ++ last_text index) }
{
    match u64::try_from(index) {
        Ok(index) => {
            line.word(", last command ")?;
            line.number(index)
        }
        Err(_) => line.word(", no command"),
    }
}

/// The VM in a line.
fn line_of(alloc: Global, vm: &CoreVM) -> Result<Line, AllocError>
    ensures { IfOk result (λ line. line ≡ vm_text (seen vm.now).machine) }
{
    let mut line = Line::new(alloc);
    vm.version().show(&mut line)?;
    show_id(vm.machine.start.debug_id.as_str(), &mut line)?;
    line.word(" ")?;
    vm.state().show(&mut line)?;
    show_last(vm.last_command_index(), &mut line)?;
    Ok(line)
}

/// Writes the line of the session's VM to the front of `out`, if there is room for it, and says how long it is.
fn describe(session: &Session, alloc: Global, out: &mut [u8]) -> Told
    ensures written { WrittenOrWhy (status_by result.status) (line_of_vm session.now.vm) result.len
        out.old out.new }
    ensures known { IsStatus result.status }
{
    let Some(vm) = &session.vm else {
        return tell(Status::NoVm, 0);
    };
    match line_of(alloc, vm) {
        Ok(line) => written(line.as_str().as_bytes(), out),
        Err(_) => tell(Status::NoMemory, 0),
    }
}

/// Writes the VM in a line for a log to the front of `out`, if there is room for it, and says how long it is.
#[unsafe(no_mangle)]
pub extern "C" fn proved_describe(alloc: Global, vm: &mut Vm, out: &mut [u8]) -> Told
    ensures kept { vm.new.value ≡ vm.old.value }
    ensures written { WrittenOrWhy (status_by result.status) (described_in vm.old.value) result.len
        out.old out.new }
    ensures known { IsStatus result.status }
{
    match take(alloc, vm) {
        Some(session) => {
            let told = describe(&session, alloc, out);
            give(alloc, vm, session);
            told
        }
        None => tell(Status::NoSession, 0),
    }
}
