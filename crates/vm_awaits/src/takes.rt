//! Takes of a handle's present result, and whether it has one.
ghost use Rattle.vm_machine.specs.Outcomes.{Gives};
ghost use Rattle.std.specs.Prelude.{◌≡◌};
ghost use Rattle.std.specs.Option.{option_copied};
ghost use Rattle.vm_types.specs.Values.{id_of_value};
ghost use Rattle.vm_machine.specs.Takes.{take_step, is_completed, value_taken};

use await_trees::NotificationHandle;
use journal_protocol::NamedFault;
use plain::Text;
use vm_machine::{Fault, Machine, refuse};
use vm_types::Value;
use vm_types::values::read_result;

/// The invocation's id that a value is.
fn id_of_value(value: &Value) -> Option<&Text>
    ensures { option_copied result ≡ id_of_value value.now }
{
    match value {
        Value::InvocationId(id) => Some(id),
        _ => None,
    }
}

/// The handler takes the present result of a handle.
#[tactic(auto, unfolding(vm_machine::specs::Takes::take_step))]
pub fn take(machine: &mut Machine, handle: NotificationHandle) -> Result<Option<Value>, Fault>
    ensures { Gives (take_step handle.0 machine.old) result machine.old machine.new }
{
    if !machine.phase.is_running() {
        return Err(refuse(machine.phase.fault()));
    }
    let Some(found) = machine
        .results
        .take(machine.options.signal_delivery, handle.0)
    else {
        return Ok(None);
    };
    let Some(value) = read_result(machine.alloc, found)? else {
        return Err(refuse(NamedFault::StateKeyIsNotUtf8));
    };
    if !machine.tracked.note(handle.0, id_of_value(&value))? {
        return Err(refuse(NamedFault::UnexpectedInvocationIdResult));
    }
    Ok(Some(value))
}

pub fn is_completed(machine: &Machine, handle: NotificationHandle) -> bool
    ensures { result ≡ is_completed handle.0 machine.now }
{
    if machine.failure.is_some() || !machine.phase.is_running() {
        return false;
    }
    machine.results.is_completed(handle.0)
}
