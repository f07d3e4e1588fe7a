//! What an await in replay waits for.
use crate::commands::show_types;
use crate::moment::Moment;
use await_trees::{CANCEL_NOTIFICATION_HANDLE, Label, UnresolvedFuture, list_nodes};
use frame_lines::type_names::name_of;
use invocation_vm::CoreVM;
use journal_protocol::{Error, MessageType, NotificationId};
use lines::line::Line;
use std::alloc::AllocError;
use vm_types::ImplicitCancellationOption;

/// How many ids are shown.
const SHOWN: usize = 16;

/// Writes the id under which a result comes.
fn show_id(id: &NotificationId, line: &mut Line) -> Result<(), AllocError> {
    match id {
        NotificationId::CompletionId(id) => {
            line.word("completion ")?;
            line.number(u64::from(*id))
        }
        NotificationId::SignalId(id) => {
            line.word("signal ")?;
            line.number(u64::from(*id))
        }
        NotificationId::SignalName(name) => {
            line.word("signal ")?;
            line.quoted(name.as_str().as_bytes())
        }
    }
}

/// The first of the tree's handles that have no result, each once, up to one more than are shown.
fn pending_handles(vm: &CoreVM, future: &UnresolvedFuture) -> Result<Vec<u32>, AllocError> {
    let mut handles = Vec::new(vm.machine.alloc);
    for node in list_nodes(vm.machine.alloc, future)? {
        if let Label::Leaf(handle) = node.label
            && !vm.machine.results.is_completed(handle)
            && !handles.contains(&handle)
            && handles.len() <= SHOWN
        {
            handles.push(handle)?;
        }
    }
    Ok(handles)
}

/// Writes the ids of these handles, with a comma between each two.
fn show_ids(vm: &CoreVM, handles: &[u32], line: &mut Line) -> Result<(), AllocError> {
    for at in 0..handles.len() {
        if at > 0 {
            line.word(", ")?;
        }
        if at == SHOWN {
            return line.word("..");
        }
        if let Some(id) = vm.machine.results.find(handles[at]) {
            show_id(id, line)?;
        }
    }
    Ok(())
}

/// Whether the await is ended by the cancel signal.
fn is_cancelled(vm: &CoreVM) -> bool {
    let ends_awaits = matches!(
        vm.machine.options.implicit_cancellation,
        ImplicitCancellationOption::Enabled { .. }
    );
    ends_awaits
        && vm
            .machine
            .results
            .is_completed(CANCEL_NOTIFICATION_HANDLE.0)
}

/// Writes what an await waits for, and which command is recorded after it.
fn explain_pending(
    vm: &CoreVM,
    moment: &Moment,
    future: &UnresolvedFuture,
    line: &mut Line,
) -> Result<bool, AllocError> {
    let Some(raw) = &moment.next else {
        return Ok(false);
    };
    if is_cancelled(vm) {
        line.word("the await is cancelled, and waits for the invocation id of a call")?;
    } else {
        let handles = pending_handles(vm, future)?;
        line.word("the await waits for ")?;
        show_ids(vm, handles.as_slice(), line)?;
    }
    line.word("; command ")?;
    line.number(u64::from(moment.index))?;
    line.word(" is recorded as ")?;
    line.word(name_of(raw.ty))?;
    Ok(true)
}

/// Writes which command is recorded where a cancelled await cancels an invocation.
fn explain_cancel(moment: &Moment, error: &Error, line: &mut Line) -> Result<bool, AllocError> {
    let Some(related) = &error.related_command else {
        return Ok(false);
    };
    let recorded = if related.index == moment.index {
        &moment.next
    } else {
        &moment.after
    };
    match recorded {
        Some(raw) if !raw.has_type(MessageType::SendSignalCommand) => {
            show_types(related.index, raw.ty, MessageType::SendSignalCommand, line)
        }
        _ => Ok(false),
    }
}

/// Writes what the error of an await in replay is about.
pub fn explain_await(
    vm: &CoreVM,
    moment: &Moment,
    future: &UnresolvedFuture,
    error: &Error,
    line: &mut Line,
) -> Result<bool, AllocError> {
    match error.message() {
        "UncompletedDoProgressDuringReplay" => explain_pending(vm, moment, future, line),
        "CommandTypeMismatchError" => explain_cancel(moment, error, line),
        _ => Ok(false),
    }
}
