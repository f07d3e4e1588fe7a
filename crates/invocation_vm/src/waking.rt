//! An await of one handle that wakes at once, as most awaits do.
ghost use Rattle.std.specs.Prelude.{◌≡◌};
ghost use Rattle.vm_types.specs.Options.{ends_awaits};
ghost use Rattle.invocation_vm.specs.Calls.{WakesAtOnce};

use await_trees::CANCEL_NOTIFICATION_HANDLE;
use await_tries::use_first;
use vm_machine::Machine;
use vm_types::ImplicitCancellationOption;

/// Whether the cancel signal ends awaits.
fn ends_awaits(option: ImplicitCancellationOption) -> bool
    ensures { result ≡ ends_awaits option }
{
    matches!(option, ImplicitCancellationOption::Enabled { .. })
}

/// Whether an await of a handle or the cancel signal wakes by what came, and by the handle alone; then that is used. Else nothing is
/// changed, and the await is made as any other. Nothing large is handed on here, as errors are.
pub(crate) fn wakes_at_once(machine: &mut Machine, handle: u32) -> bool
    ensures { WakesAtOnce result handle machine.old machine.new }
{
    if machine.has_failed() {
        return false;
    }
    if !machine.phase.is_running() {
        return false;
    }
    if !ends_awaits(machine.options.implicit_cancellation) {
        return false;
    }
    let Some(enough) = machine.results.uses_until(handle) else {
        return false;
    };
    let cancelled = machine.results.uses_until(CANCEL_NOTIFICATION_HANDLE.0);
    if cancelled.is_some() {
        return false;
    }
    use_first(&mut machine.results, enough);
    true
}
