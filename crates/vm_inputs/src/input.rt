//! The first call of a handler, which reads its input, and the last, which ends it.
ghost use Rattle.std.specs.Prelude.{◌≡◌, IfOk, OnErr, None, false, drop, []};
ghost use Rattle.vm_asks.specs.Carried.{past_all};
ghost use Rattle.vm_state.specs.Counting.{missing_number};
ghost use Rattle.vm_machine.specs.Outcomes.{Gives};
ghost use Rattle.vm_machine.specs.Phases.{is_closed};
ghost use Rattle.vm_machine.specs.declared.fault.Fault.TheVariants.{Refused};
ghost use Rattle.vm_machine.specs.Commands.{about_next};
ghost use Rattle.journal_protocol.specs.MessageType.TheVariants as type;
ghost use Rattle.vm_machine.specs.Inputs.{input_of, input_counted, input_past, input_step, end_step};

use crate::skips::{counters_past, dropped, next_past, skip, skips_replay};
use journal_protocol::{Error, InputCommand, Message, MessageType, NamedFault, RelatedCommand};
use plain::{Text, copy_of};
use std::alloc::AllocError;
use vm_machine::{Fault, Machine, Phase, refuse};
use vm_parts::StartInfo;
use vm_types::Input;

/// A copy of a text, if there is one.
fn copy_text(text: &Option<Text>) -> Result<Option<Text>, AllocError>
    ensures { IfOk result (λ copy. copy ≡ text.now) }
{
    match text {
        None => Ok(None),
        Some(text) => Ok(Some(copy_of(text)?)),
    }
}

/// What the handler was called with.
fn input_of(start: &StartInfo, command: InputCommand) -> Result<Input, AllocError>
    ensures { IfOk result (λ input. input ≡ input_of start.now command) }
{
    let InputCommand { headers, value } = command;
    Ok(Input {
        invocation_id: copy_of(&start.debug_id)?,
        random_seed: start.random_seed,
        key: copy_of(&start.key)?,
        headers,
        input: value,
        scope: copy_text(&start.scope)?,
        limit_key: copy_text(&start.limit_key)?,
        idempotency_key: copy_text(&start.idempotency_key)?,
    })
}

/// Refuses the input because a number ran out, as the command that comes next.
fn refuse_input(machine: &Machine, fault: NamedFault) -> Fault
    ensures { result ≡ Refused (about_next fault type.InputCommand [] machine.now) }
{
    let related = RelatedCommand {
        index: machine.counters.next_index(),
        ty: MessageType::InputCommand,
        name: Text::empty(machine.alloc),
    };
    Fault::Refused(Error::named(fault, Some(related)))
}

/// Pops the input, whose command index is left.
fn pop_input(machine: &mut Machine) -> Result<Input, Fault>
    ensures { Gives (input_counted None machine.old) result machine.old machine.new }
{
    machine.enter(MessageType::InputCommand, Text::empty(machine.alloc));
    let raw = machine.pop(MessageType::InputCommand)?;
    match raw.read_input(machine.alloc) {
        Ok(command) => Ok(input_of(&machine.start, command)?),
        Err(plain::Fault::Memory) => Err(Fault::Memory),
        Err(plain::Fault::Malformed) => Err(Fault::Refused(machine.about_last(
            NamedFault::BadMessage,
        )?)),
    }
}

/// Reads the input where recorded commands are replayed.
fn replay_input(machine: &mut Machine) -> Result<Input, Fault>
    ensures { Gives (input_counted (missing_number 0 0 0 machine.old.counters) machine.old) result
        machine.old
        machine.new }
{
    if let Some(fault) = machine.counters.missing(0, 0, 0) {
        return Err(refuse_input(machine, fault));
    }
    pop_input(machine)
}

/// Reads the input and drops the recorded commands after it.
fn skip_input(machine: &mut Machine) -> Result<Input, Fault>
    ensures { Gives (input_past
        (past_all machine.old.counters.completion (drop 1 machine.old.commands)) machine.old) result
        machine.old machine.new }
{
    let Some(next) = next_past(machine)? else {
        machine.enter(MessageType::InputCommand, Text::empty(machine.alloc));
        return Err(Fault::Refused(machine.about_last(NamedFault::BadMessage)?));
    };
    let counters = match counters_past(dropped(machine), next, &machine.counters) {
        Ok(counters) => counters,
        Err(fault) => return Err(refuse_input(machine, fault)),
    };
    let input = pop_input(machine)?;
    skip(machine, counters);
    Ok(input)
}

/// The handler reads its input.
#[tactic(auto, unfolding(vm_machine::specs::Inputs::input_step))]
pub fn read_input(machine: &mut Machine) -> Result<Input, Fault>
    ensures { Gives (input_step machine.old) result machine.old machine.new }
{
    if !machine.phase.is_replaying() {
        let fault = machine.phase.fault();
        machine.enter(MessageType::InputCommand, Text::empty(machine.alloc));
        return Err(Fault::Refused(machine.about_last(fault)?));
    }
    if skips_replay(machine.options.journal_replay) {
        return skip_input(machine);
    }
    replay_input(machine)
}

/// The handler ends.
pub fn end(machine: &mut Machine) -> Result<(), Fault>
    ensures does { Gives (end_step machine.old) result machine.old machine.new }
    ensures ample { OnErr result (is_closed machine.old.phase ≡ false) }
{
    match machine.phase {
        Phase::Closed => Ok(()),
        Phase::Processing => {
            machine.output.write(machine.alloc, &Message::End)?;
            machine.output_ended = true;
            machine.phase = Phase::Closed;
            Ok(())
        }
        _ => Err(refuse(machine.phase.fault())),
    }
}
