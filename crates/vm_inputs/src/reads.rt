//! State reads: eager where the state is known, lazy where it isn't; in replay the recorded form decides.
ghost use Rattle.std.specs.Prelude.{◌≡◌, ◌<◌, ◌+◌, ◌^◌, IfOk, OnOk, OnErr, Some};
ghost use Rattle.journal_protocol.specs.Frames.{IsWhole};
ghost use Rattle.journal_protocol.specs.Message.TheVariants as message;
ghost use Rattle.vm_state.specs.States.{value_known};
ghost use Rattle.vm_asks.specs.StateReads.{own_form, value_form, value_result};
ghost use Rattle.vm_asks.specs.declared.state_read.StateRead.TheVariants as reads;
ghost use Rattle.vm_machine.specs.Commands.{entered, handed_out};
ghost use Rattle.vm_machine.specs.Outcomes.{Gives, lasting};
ghost use Rattle.vm_machine.specs.Reads.{StateIsRead, ReadsNumbered, read_popped, read_step, read_written, with_read_ready};

use crate::recorded_reads::recorded_as;
use await_trees::NotificationHandle;
use journal_protocol::{
    GetEagerStateCommand, GetLazyStateCommand, Message, MessageType, NamedFault,
    NotificationResult, VoidOrValue,
};
use plain::{Text, copy_of};
use std::alloc::AllocError;
use vm_asks::StateRead;
use vm_asks::state_read::result_in;
use vm_machine::issue::about_next;
use vm_machine::{Fault, Machine};
use vm_state::{Known, StateKey};

/// Gives a read its result, where it brings one.
fn put_result(
    machine: &mut Machine,
    id: u32,
    given: Option<NotificationResult>,
) -> Result<(), AllocError>
    ensures ok { OnOk result (machine.new ≡ with_read_ready id given machine.old) }
    ensures err { OnErr result (lasting machine.new ≡ lasting machine.old) }
{
    match given {
        Some(given) => machine.results.read_eagerly(id, given),
        None => Ok(()),
    }
}

/// A copy of what stands under a key, as a result.
fn copied_result(stored: &VoidOrValue) -> Result<NotificationResult, AllocError>
    ensures { IfOk result (λ copy. copy ≡ value_result stored.now) }
{
    match stored {
        VoidOrValue::Void => Ok(NotificationResult::Void),
        VoidOrValue::Value(value) => Ok(NotificationResult::Value(value.clone()?)),
    }
}

/// Writes the read of a value that is known, which is ready at once. It is apart, as the ways beside it are: a function sets all that its
/// ways hold to zero where it begins, and a message is large.
#[inline(never)]
fn write_known(
    machine: &mut Machine,
    key: &StateKey,
    name: &Text,
    id: u32,
    stored: VoidOrValue,
) -> Result<(), AllocError>
    requires ids { machine.old.counters.completion + 1 < 2 ^ 32 }
    requires handles { machine.old.counters.handle + 1 < 2 ^ 32 }
    ensures ok { OnOk result (machine.new ≡ read_written (reads.Value key.now name.now) id
        (message.GetEagerState
        (record { name = name.now; key = key.now; result = Some stored })) machine.old) }
    ensures whole { OnOk result (IsWhole (message.GetEagerState
        (record { name = name.now; key = key.now; result = Some stored }))) }
    ensures err { OnErr result (lasting machine.new ≡ lasting machine.old) }
{
    machine.enter(MessageType::GetEagerStateCommand, copy_of(name)?);
    machine.hand_out(1)?;
    let given = copied_result(&stored)?;
    machine.results.read_eagerly(id, given)?;
    let form = Message::GetEagerState(GetEagerStateCommand {
        name: copy_of(name)?,
        key: copy_of(key.as_text())?,
        result: Some(stored),
    });
    machine.write(&form)
}

/// Writes the read of a value that isn't known.
#[inline(never)]
fn write_unknown(
    machine: &mut Machine,
    key: &StateKey,
    name: &Text,
    id: u32,
) -> Result<(), AllocError>
    requires ids { machine.old.counters.completion + 1 < 2 ^ 32 }
    requires handles { machine.old.counters.handle + 1 < 2 ^ 32 }
    ensures ok { OnOk result (machine.new ≡ read_written (reads.Value key.now name.now) id
        (message.GetLazyState
        (record { name = name.now; key = key.now; result_completion_id = id })) machine.old) }
    ensures whole { OnOk result (IsWhole (message.GetLazyState
        (record { name = name.now; key = key.now; result_completion_id = id }))) }
    ensures err { OnErr result (lasting machine.new ≡ lasting machine.old) }
{
    machine.enter(MessageType::GetLazyStateCommand, copy_of(name)?);
    machine.hand_out(1)?;
    let form = Message::GetLazyState(GetLazyStateCommand {
        name: copy_of(name)?,
        key: copy_of(key.as_text())?,
        result_completion_id: id,
    });
    machine.write(&form)
}

/// Writes the read of a value, by what is known of its key.
fn write_value(
    machine: &mut Machine,
    key: &StateKey,
    name: &Text,
    id: u32,
) -> Result<(), AllocError>
    requires ids { machine.old.counters.completion + 1 < 2 ^ 32 }
    requires handles { machine.old.counters.handle + 1 < 2 ^ 32 }
    ensures ok { OnOk result (machine.new ≡ read_written (reads.Value key.now name.now) id
        (value_form key.now name.now id (value_known key.now machine.old.state)) machine.old) }
    ensures whole { OnOk result (IsWhole
        (value_form key.now name.now id (value_known key.now machine.old.state))) }
    ensures err { OnErr result (lasting machine.new ≡ lasting machine.old) }
{
    match machine.state.get(key)? {
        Known::Unknown => write_unknown(machine, key, name, id),
        Known::Empty => write_known(machine, key, name, id, VoidOrValue::Void),
        Known::Value(value) => { write_known(machine, key, name, id, VoidOrValue::Value(value)) }
    }
}

/// Writes a read's own command; its result is ready at once, where the command brings it.
fn write_read(
    machine: &mut Machine,
    read: &StateRead,
    form: &Message,
    id: u32,
) -> Result<(), AllocError>
    requires ids { machine.old.counters.completion + 1 < 2 ^ 32 }
    requires handles { machine.old.counters.handle + 1 < 2 ^ 32 }
    ensures ok { OnOk result (machine.new ≡ read_written read.now id form.now machine.old) }
    ensures whole { OnOk result (IsWhole form.now) }
    ensures err { OnErr result (lasting machine.new ≡ lasting machine.old) }
{
    machine.enter(form.ty(), read.name()?);
    machine.hand_out(1)?;
    let given = result_in(form)?.unwrap_or(None);
    put_result(machine, id, given)?;
    machine.write(form)
}

/// Writes a read's own command by its general form.
#[inline(never)]
fn write_form(machine: &mut Machine, read: &StateRead, id: u32) -> Result<(), AllocError>
    requires ids { machine.old.counters.completion + 1 < 2 ^ 32 }
    requires handles { machine.old.counters.handle + 1 < 2 ^ 32 }
    ensures ok { OnOk result (machine.new
        ≡ read_written read.now id (own_form read.now id machine.old.state) machine.old) }
    ensures whole { OnOk result (IsWhole (own_form read.now id machine.old.state)) }
    ensures err { OnErr result (lasting machine.new ≡ lasting machine.old) }
{
    let form = read.own_form(machine.alloc, id, &machine.state)?;
    write_read(machine, read, &form, id)
}

/// Writes a read's own command, by what is known of the state.
fn write_own(machine: &mut Machine, read: &StateRead, id: u32) -> Result<(), AllocError>
    requires ids { machine.old.counters.completion + 1 < 2 ^ 32 }
    requires handles { machine.old.counters.handle + 1 < 2 ^ 32 }
    ensures ok { OnOk result (machine.new
        ≡ read_written read.now id (own_form read.now id machine.old.state) machine.old) }
    ensures whole { OnOk result (IsWhole (own_form read.now id machine.old.state)) }
    ensures err { OnErr result (lasting machine.new ≡ lasting machine.old) }
{
    match read {
        StateRead::Value { key, name } => write_value(machine, key, name, id),
        StateRead::Keys { .. } => write_form(machine, read, id),
    }
}

/// Pops the next recorded command, for a read.
#[inline(never)]
fn replay_read(
    machine: &mut Machine,
    read: &StateRead,
    handle: u32,
    id: u32,
) -> Result<NotificationHandle, Fault>
    ensures { Gives (read_popped read.now handle id machine.old.commands machine.old) result
        machine.old
        machine.new }
{
    let Some(raw) = machine.pop_next() else {
        return Err(Fault::Refused(machine.about_last(NamedFault::UnavailableEntry)?));
    };
    machine.last_command.ty = read.recorded_type(&raw);
    machine.last_command.name = Text::empty(machine.alloc);
    match recorded_as(read, machine.alloc, id, &raw)? {
        Ok(given) => {
            put_result(machine, id, given)?;
            Ok(NotificationHandle(handle))
        }
        Err(fault) => Err(Fault::Refused(machine.about_last(fault)?)),
    }
}

/// A read that has its numbers.
fn read_numbered(machine: &mut Machine, read: &StateRead) -> Result<NotificationHandle, Fault>
    requires ids { machine.old.counters.completion + 1 < 2 ^ 32 }
    requires handles { machine.old.counters.handle + 1 < 2 ^ 32 }
    ensures { ReadsNumbered read.now result machine.old machine.new }
{
    let handle = machine.counters.handle;
    let id = machine.counters.completion;
    if machine.phase.is_processing() {
        write_own(machine, read, id)?;
        return Ok(NotificationHandle(handle));
    }
    machine.enter(read.eager_type(), Text::empty(machine.alloc));
    machine.hand_out(1)?;
    replay_read(machine, read, handle, id)
}

/// The handler reads its state. In replay the recorded form decides, and not what is known of the state.
#[tactic(auto, unfolding(vm_machine::specs::Reads::read_step))]
pub fn make_read(machine: &mut Machine, read: &StateRead) -> Result<NotificationHandle, Fault>
    ensures { StateIsRead read.now result machine.old machine.new }
{
    let index = machine.counters.next_index();
    if !machine.phase.is_running() {
        let none = Text::empty(machine.alloc);
        return Err(Fault::Refused(about_next(
            machine.phase.fault(),
            index,
            read.lazy_type(),
            none,
        )));
    }
    if let Some(fault) = machine.counters.missing(1, 0, 1) {
        let name = if machine.phase.is_processing() {
            read.name()?
        } else {
            Text::empty(machine.alloc)
        };
        return Err(Fault::Refused(about_next(fault, index, read.lazy_type(), name)));
    }
    read_numbered(machine, read)
}
