//! Ephemeral reads of the state: a key's value, without a command in the journal.
ghost use Rattle.std.specs.Prelude.{◌≡◌, ◌∷◌, ◌++◌, [], IfNone, IfSome, OnErr, OnOk, true, false};
ghost use Rattle.journal_protocol.specs.Frames.{encoding};
ghost use Rattle.journal_protocol.specs.Message.TheVariants as message;
ghost use Rattle.vm_parts.specs.Ephemerals.{with_in_flight};
ghost use Rattle.vm_machine.specs.Ephemerals.{answers_ready, asking_fault, ephemeral_step, may_answer, read_known, take_ephemeral_step, value_found};
ghost use Rattle.vm_machine.specs.Outcomes.{Gives, lasting};

use bytes::Bytes;
use journal_protocol::{GetStateEphemeralCommand, Message, NamedFault, Version};
use plain::{Text, copy_of};
use std::alloc::AllocError;
use vm_machine::{Fault, Machine, refuse};
use vm_state::{Known, StateKey};
use vm_types::{EphemeralCompletionId, Value};

/// Why a key can't be asked for, by what is known of it: nothing comes where the input is closed.
fn asking_fault(closed: bool, known: &Known) -> Option<NamedFault>
    ensures { result ≡ asking_fault closed known.now }
{
    match known {
        Known::Unknown if closed => Some(NamedFault::EphemeralStateGetWithClosedInput),
        _ => None,
    }
}

/// A key's value, as the handler sees it.
fn value_found(found: Option<Bytes>) -> Value
    ensures { result ≡ value_found found }
{
    match found {
        Some(bytes) => Value::Success(bytes),
        None => Value::Void,
    }
}

/// Writes the command that asks for a key's value.
fn ask_for(machine: &mut Machine, id: u32, key: &Text) -> Result<(), AllocError>
    ensures ok { OnOk result (machine.new
        ≡ record machine.old {
          ephemeral = with_in_flight id machine.old.ephemeral;
          output = machine.old.output
              ++ encoding (message.GetStateEphemeralCommand (record { id = id; key = key.now }))
              ∷ [];
        }) }
    ensures err { OnErr result (lasting machine.new ≡ lasting machine.old) }
{
    let key = copy_of(key)?;
    machine.ephemeral.put_in_flight(id)?;
    let message = Message::GetStateEphemeralCommand(GetStateEphemeralCommand { id, key });
    machine.output.write(machine.alloc, &message)
}

/// A read of a key of which this is known.
fn read_known(
    machine: &mut Machine,
    key: &Text,
    known: Known,
) -> Result<EphemeralCompletionId, Fault>
    ensures { Gives (read_known key.now known machine.old) result machine.old machine.new }
{
    if let Some(fault) = asking_fault(machine.input_closed, &known) {
        return Err(refuse(fault));
    }
    if let Some(fault) = machine.counters.missing_ephemeral() {
        return Err(refuse(fault));
    }
    let id = machine.counters.ephemeral;
    match known {
        Known::Unknown => ask_for(machine, id, key)?,
        Known::Empty => machine.ephemeral.put_ready(id, None)?,
        Known::Value(value) => machine.ephemeral.put_ready(id, Some(value))?,
    }
    machine.counters.ephemeral += 1;
    Ok(EphemeralCompletionId(id))
}

/// The handler reads a key of its state: its value is ready at once where it is known, else it is asked for.
#[tactic(auto, unfolding(vm_machine::specs::Ephemerals::ephemeral_step))]
pub fn read_ephemeral(machine: &mut Machine, key: Text) -> Result<EphemeralCompletionId, Fault>
    ensures { Gives (ephemeral_step key machine.old) result machine.old machine.new }
{
    if machine.version < Version::V8 {
        return Err(refuse(NamedFault::UnsupportedFeatureForNegotiatedVersion));
    }
    if machine.phase.is_replaying() {
        return Err(refuse(NamedFault::EphemeralCommandDuringReplay));
    }
    if !machine.phase.is_processing() {
        return Err(refuse(machine.phase.fault()));
    }
    let key = StateKey::new(key);
    let known = machine.state.get(&key)?;
    read_known(machine, key.as_text(), known)
}

/// The handler takes the value of a read, where it is there.
#[tactic(auto, unfolding(vm_machine::specs::Ephemerals::take_ephemeral_step))]
pub fn take_ephemeral(
    machine: &mut Machine,
    id: EphemeralCompletionId,
) -> Result<Option<Value>, Fault>
    ensures { Gives (take_ephemeral_step id.0 machine.old) result machine.old machine.new }
{
    if !machine.phase.is_processing() {
        return Err(refuse(machine.phase.fault()));
    }
    match machine.ephemeral.take(id.0) {
        Some(found) => Ok(Some(value_found(found))),
        None => Ok(None),
    }
}

/// The read that an await answers before all else: one whose value is there.
pub fn ready_ephemeral(machine: &Machine) -> Option<EphemeralCompletionId>
    ensures ready { IfSome result (λ id. may_answer id.0 machine.now ≡ true) }
    ensures some { IfSome result (λ _. answers_ready machine.now ≡ true) }
    ensures none { IfNone result (answers_ready machine.now ≡ false) }
{
    if machine.failure.is_some() || !machine.phase.is_processing() {
        return None;
    }
    match machine.ephemeral.first_ready() {
        Some(id) => Some(EphemeralCompletionId(id)),
        None => None,
    }
}
