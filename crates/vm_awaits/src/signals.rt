//! The signals that a handler waits for: awakeables, which others complete by an id, and signals by name.
ghost use Rattle.std.specs.Prelude.{◌≡◌, IfOk};
ghost use Rattle.vm_machine.specs.Outcomes.{Gives};
ghost use Rattle.vm_machine.specs.Signals.{awakeable_step, signal_step};
ghost use Rattle.vm_asks.specs.Awakeables.{awakeable_id};

use await_trees::NotificationHandle;
use base64::engine::general_purpose::URL_SAFE_NO_PAD;
use bytes::Bytes;
use journal_protocol::NotificationId;
use plain::Text;
use std::alloc::{AllocError, Global};
use vm_machine::{Fault, Machine, refuse};
use vm_types::AwakeableHandle;

/// The id by which others complete the awakeable of a signal.
#[tactic(auto, unfolding(vm_asks::specs::Awakeables::awakeable_id))]
fn awakeable_id(alloc: Global, invocation: &Bytes, signal: u32) -> Result<Text, AllocError>
    ensures { IfOk result (λ id. id ≡ awakeable_id invocation.now signal) }
{
    let mut named = Vec::new(alloc);
    named.extend_from_slice(invocation.as_slice())?;
    named.extend_from_slice(&signal.to_be_bytes())?;
    let mut id = String::from_str(alloc, "sign_1")?;
    URL_SAFE_NO_PAD.encode_string(named.as_slice(), &mut id)?;
    Ok(Text::from_string(id))
}

/// Makes an awakeable: the next handle is given the next signal id.
#[tactic(auto, unfolding(vm_machine::specs::Signals::awakeable_step))]
pub fn awakeable(machine: &mut Machine) -> Result<AwakeableHandle, Fault>
    ensures { Gives (awakeable_step machine.old) result machine.old machine.new }
{
    if !machine.phase.is_running() {
        return Err(refuse(machine.phase.fault()));
    }
    if let Some(fault) = machine.counters.missing_signals(1, 1) {
        return Err(refuse(fault));
    }
    let signal = machine.counters.signal;
    let handle = machine.counters.handle;
    let id = awakeable_id(machine.alloc, &machine.start.id, signal)?;
    machine
        .results
        .map_handle(handle, NotificationId::SignalId(signal))?;
    machine.counters.signal += 1;
    machine.counters.handle += 1;
    Ok(AwakeableHandle {
        id,
        handle: NotificationHandle(handle),
    })
}

/// Gives a handle for a named signal: each of its handles takes the next of its deliveries.
#[tactic(auto, unfolding(vm_machine::specs::Signals::signal_step))]
pub fn signal(machine: &mut Machine, name: Text) -> Result<NotificationHandle, Fault>
    ensures { Gives (signal_step name machine.old) result machine.old machine.new }
{
    if !machine.phase.is_running() {
        return Err(refuse(machine.phase.fault()));
    }
    if let Some(fault) = machine.counters.missing_signals(0, 1) {
        return Err(refuse(fault));
    }
    let handle = machine.counters.handle;
    machine
        .results
        .map_handle(handle, NotificationId::SignalName(name))?;
    machine.counters.handle += 1;
    Ok(NotificationHandle(handle))
}
