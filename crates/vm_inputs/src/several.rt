//! A call that has two commands: what both need is looked for before the first is made.
ghost use Rattle.std.specs.Prelude.{◌≡◌, ◌<◌, ◌+◌, ◌^◌, ◌∷◌, [], IfNone, IfOk, OnOk};
ghost use Rattle.vm_asks.specs.Asks.{all_ids, missing_for};
ghost use Rattle.vm_machine.specs.Commands.{CanBeRead};
ghost use Rattle.vm_machine.specs.Outcomes.{Gives};
ghost use Rattle.vm_machine.specs.Several.{AllFit, commanded_before, foreseen};

use await_trees::NotificationHandle;
use journal_protocol::NamedFault;
use vm_asks::Command;
use vm_asks::request::{ids_of, name_of, shown_type};
use vm_machine::issue::about_next;
use vm_machine::{Fault, Machine, refuse};

/// The first kind of number of which both commands need more than are left.
fn missing_for(machine: &Machine, first: &Command, second: &Command) -> Option<NamedFault>
    ensures found { result ≡ missing_for first.now (second.now ∷ []) machine.now.counters }
    ensures handles { IfNone result
        (machine.now.counters.handle + all_ids first.now (second.now ∷ []) < 2 ^ 32) }
{
    let ids = ids_of(&first.message) + ids_of(&second.message);
    if let Some(fault) = machine.counters.missing(ids, 0, ids) {
        return Some(fault);
    }
    if u32::MAX - machine.counters.command.unwrap_or(0) < 2 {
        return Some(NamedFault::ExhaustedCommandIndexes);
    }
    None
}

/// Looks for what both commands need.
#[tactic(auto, unfolding(vm_machine::specs::Several::foreseen))]
fn foresee(machine: &mut Machine, first: &Command, second: &Command) -> Result<(), Fault>
    ensures does { Gives (foreseen first.now (second.now ∷ []) machine.old) result machine.old
        machine.new }
    ensures same { OnOk result (machine.new ≡ machine.old) }
    ensures handles { OnOk result
        (machine.old.counters.handle + all_ids first.now (second.now ∷ []) < 2 ^ 32) }
{
    if let Some(fault) = first.refusal.or(second.refusal) {
        return Err(refuse(fault));
    }
    let ty = shown_type(&first.message);
    let name = name_of(machine.alloc, &first.message)?;
    if !machine.phase.is_running() {
        machine.enter(ty, name);
        return Err(Fault::Refused(machine.about_last(machine.phase.fault())?));
    }
    let index = machine.counters.next_index();
    if let Some(fault) = missing_for(machine, first, second) {
        return Err(Fault::Refused(about_next(fault, index, ty, name)));
    }
    Ok(())
}

/// The first of two commands of a call.
#[tactic(auto, using(vm_machine::proofs::Foreseeing::fits_from))]
pub fn command_before(
    machine: &mut Machine,
    first: &mut Command,
    second: &Command,
) -> Result<NotificationHandle, Fault>
    ensures does { Gives (commanded_before first.old (second.now ∷ []) machine.old) result
        machine.old
        machine.new }
    ensures whole { OnOk result (CanBeRead first.old.message machine.old) }
    ensures fits { IfOk result (AllFit first.old (second.now ∷ [])) }
{
    foresee(machine, first, second)?;
    machine.command(first)
}
