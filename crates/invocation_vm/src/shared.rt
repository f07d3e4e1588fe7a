//! What the calls share that have a command, what is checked of the call that makes an awakeable, and of an await.
ghost use Rattle.std.specs.Prelude.{◌≡◌, ◌+◌, ◌<◌, ◌^◌, IfOk};
ghost use Rattle.vm_asks.specs.Asks.{call_handles, deadline_handles, send_handle};
ghost use Rattle.vm_awaits.specs.Cancels.{sends_cancels};
ghost use Rattle.vm_machine.specs.Outcomes.{Gives};
ghost use Rattle.invocation_vm.specs.Calls.{ReturnsFirst, name_or_empty, new_awakeable_step, result_by, run_handle};
ghost use Rattle.vm_machine.specs.Several.{answered_so};

use await_trees::NotificationHandle;
use journal_protocol::{Error, NamedFault};
use plain::Text;
use std::alloc::Global;
use vm_asks::asks::{call_handles, deadline_handles, send_handle};
use vm_awaits::{Awaited, awakeable};
use vm_inputs::skips_replay;
use vm_machine::{Fault, Machine, refuse};
use vm_types::{
    AwaitResponse, AwakeableHandle, CallHandle, DeadlineCallHandle, RunHandle, SendHandle, VMResult,
};

/// What a call of a machine that has failed returns: its first error. It is apart, since a function sets all that its ways hold to zero
/// where it begins.
#[inline(never)]
pub(crate) fn first_error<T: Drop>(machine: &Machine) -> VMResult<T>
    ensures { ReturnsFirst machine.now.failure result }
{
    match machine.live() {
        Err(error) => Err(error),
        Ok(()) => Err(Error::named(NamedFault::Memory, None)),
    }
}

/// An absent name is empty.
pub(crate) fn name_text(alloc: Global, name: Option<String>) -> Text
    ensures { result ≡ name_or_empty name }
{
    match name {
        Some(name) => Text::from_string(name),
        None => Text::empty(alloc),
    }
}

pub(crate) fn unanswered(given: VMResult<NotificationHandle>) -> VMResult<()>
    ensures { result ≡ result_by (λ _. tt {0}) given }
{
    match given {
        Ok(_) => Ok(()),
        Err(error) => Err(error),
    }
}

/// The answer to a call of another handler: both handles.
pub(crate) fn both_handles(given: VMResult<NotificationHandle>) -> VMResult<CallHandle>
    requires { IfOk given (λ handle. handle.0 + 1 < 2 ^ 32) }
    ensures { result ≡ result_by call_handles given }
{
    match given {
        Ok(handle) => Ok(call_handles(handle)),
        Err(error) => Err(error),
    }
}

/// The answer to a call with a deadline: its three handles.
pub(crate) fn three_handles(given: VMResult<NotificationHandle>) -> VMResult<DeadlineCallHandle>
    requires { IfOk given (λ handle. handle.0 + 2 < 2 ^ 32) }
    ensures { result ≡ result_by deadline_handles given }
{
    match given {
        Ok(handle) => Ok(deadline_handles(handle)),
        Err(error) => Err(error),
    }
}

/// What a call of several commands is answered: the handle of its first, where the others were made.
pub(crate) fn answered_so(
    handle: NotificationHandle,
    given: VMResult<NotificationHandle>,
) -> VMResult<NotificationHandle>
    ensures { result ≡ answered_so handle given }
{
    match given {
        Ok(_) => Ok(handle),
        Err(error) => Err(error),
    }
}

/// The answer to a call whose result nobody waits for.
pub(crate) fn id_handle(given: VMResult<NotificationHandle>) -> VMResult<SendHandle>
    ensures { result ≡ result_by send_handle given }
{
    match given {
        Ok(handle) => Ok(send_handle(handle)),
        Err(error) => Err(error),
    }
}

/// The answer to a run, by whether its result is there already.
pub(crate) fn run_handle(replayed: bool, given: VMResult<NotificationHandle>) -> VMResult<RunHandle>
    ensures { result ≡ result_by (run_handle replayed) given }
{
    match given {
        Ok(handle) => Ok(RunHandle { replayed, handle }),
        Err(error) => Err(error),
    }
}

pub(crate) fn make_awakeable(machine: &mut Machine) -> Result<AwakeableHandle, Fault>
    ensures { Gives (new_awakeable_step machine.old) result machine.old machine.new }
{
    if skips_replay(machine.options.journal_replay) {
        return Err(refuse(NamedFault::UnsupportedFeature));
    }
    awakeable(machine)
}

/// Whether an await sends cancel signals next.
pub(crate) fn sends_cancels(given: &VMResult<Awaited>) -> bool
    ensures { result ≡ sends_cancels given.now }
{
    match given {
        Ok(awaited) => matches!(
            awaited.response(),
            Some(AwaitResponse::CancelSignalReceived)
        ),
        Err(_) => false,
    }
}
