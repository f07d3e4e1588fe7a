//! Messages that come in: Start, the recorded commands, notifications, the results of ephemeral reads, and the closing of the input.
ghost use Rattle.std.specs.Prelude.{◌≡◌, find, Some, None, IfOk, OnErr, true};
ghost use Rattle.vm_runs.specs.Kept.{is_for};
ghost use Rattle.vm_machine.specs.Ephemerals.{ephemeral_notification_step, found_of, result_comes};
ghost use Rattle.vm_machine.specs.Outcomes.{Gives};
ghost use Rattle.vm_machine.specs.Phases.{is_waiting};
ghost use Rattle.vm_machine.specs.Inputs.{start_received, entries_in, coverage_of, counted_entry, start_step, acknowledged, acknowledgement_step, entry_step, notification_step, message_step, malformed_step, close_step};
ghost use Rattle.vm_parts.specs.Starts.{from_version, start_info_of};

use bytes::Bytes;
use journal_entries::completion_result;
use journal_protocol::{
    NamedFault, Notification, NotificationId, RawMessage, Start, Version, VoidOrValue,
};
use plain::{Items, Text};
use std::alloc::{AllocError, Global};
use vm_machine::{Fault, Machine, Phase, refuse};
use vm_parts::StartInfo;
use vm_state::{Entries, StateCoverage, StateKey, StateMap};

fn coverage_of(partial: bool) -> StateCoverage
    ensures { result ≡ coverage_of partial }
{
    if partial {
        StateCoverage::Partial
    } else {
        StateCoverage::Complete
    }
}

/// The handed-out state; none where a key is no text.
fn read_state(alloc: Global, pairs: &Items<(Bytes, Bytes)>) -> Result<Option<Entries>, AllocError>
    ensures { IfOk result (λ entries. entries ≡ entries_in pairs.now) }
{
    let mut entries = Entries::new(alloc);
    for pair in pairs.as_slice() {
        let Ok(key) = std::str::from_utf8(pair.0.as_slice()) else {
            return Ok(None);
        };
        let key = Text::from_str(alloc, key)?;
        let value = pair.1.clone()?;
        entries.put(StateKey::new(key), Some(value))?;
    }
    Ok(Some(entries))
}

/// What is kept of Start.
fn info_of(version: Version, fallback_random_seed: u64, start: Start) -> StartInfo
    ensures { result ≡ start_info_of version fallback_random_seed start }
{
    let Start {
        id,
        debug_id,
        key,
        known_entries,
        state: _,
        partial: _,
        retry_count,
        duration,
        random_seed,
        scope,
        limit_key,
        idempotency_key,
    } = start;
    let has_scope = version >= Version::V7;
    StartInfo {
        id,
        debug_id,
        key,
        known_entries,
        retry_count,
        duration,
        random_seed: if version >= Version::V6 {
            random_seed
        } else {
            fallback_random_seed
        },
        scope: from_version(has_scope, scope),
        limit_key: from_version(has_scope, limit_key),
        idempotency_key: from_version(has_scope, idempotency_key),
    }
}

/// A text that the version knows, else none.
fn from_version(known: bool, text: Option<Text>) -> Option<Text>
    ensures { result ≡ from_version known text }
{
    if known { text } else { None }
}

/// Start is kept, where its state keys are texts and it tells of at least one entry.
fn keep_start(machine: &mut Machine, start: Start) -> Result<(), Fault>
    ensures step { Gives (start_received (Some start) machine.old) result machine.old machine.new }
    ensures quiet { machine.new.output ≡ machine.old.output }
    ensures failure { machine.new.failure ≡ machine.old.failure }
{
    let Some(entries) = read_state(machine.alloc, &start.state)? else {
        return Err(refuse(NamedFault::BadEagerStateKey));
    };
    if start.known_entries == 0 {
        return Err(refuse(NamedFault::KnownEntriesIsZero));
    }
    machine.state = StateMap {
        entries,
        coverage: coverage_of(start.partial),
    };
    machine.entries_missing = start.known_entries;
    machine.start = info_of(machine.version, machine.options.fallback_random_seed, start);
    machine.phase = Phase::WaitingReplayEntries;
    Ok(())
}

fn receive_start(machine: &mut Machine, raw: &RawMessage) -> Result<(), Fault>
    ensures step { Gives (start_step raw.now machine.old.phase machine.old) result machine.old
        machine.new }
    ensures quiet { machine.new.output ≡ machine.old.output }
    ensures failure { machine.new.failure ≡ machine.old.failure }
{
    if !matches!(machine.phase, Phase::WaitingStart) {
        return Err(refuse(NamedFault::UnexpectedInputMessage));
    }
    match raw.read_start(machine.alloc) {
        Ok(start) => keep_start(machine, start),
        Err(plain::Fault::Memory) => Err(Fault::Memory),
        Err(plain::Fault::Malformed) => Err(refuse(NamedFault::BadMessage)),
    }
}

/// Counts a known entry.
fn count_entry(machine: &mut Machine)
    ensures { machine.new ≡ counted_entry machine.old }
{
    machine.phase = if machine.entries_missing <= 1 {
        Phase::Replaying
    } else {
        Phase::WaitingReplayEntries
    };
    machine.entries_missing = machine.entries_missing.saturating_sub(1);
}

/// For how many recorded commands room is made at once, if that many entries are known.
const FEW: u32 = 8;

fn receive_command(machine: &mut Machine, raw: RawMessage) -> Result<(), Fault>
    ensures step { Gives (entry_step raw machine.old.phase machine.old) result machine.old
        machine.new }
    ensures quiet { machine.new.output ≡ machine.old.output }
    ensures failure { machine.new.failure ≡ machine.old.failure }
{
    if !matches!(machine.phase, Phase::WaitingReplayEntries) {
        return Err(refuse(NamedFault::UnexpectedEntryMessage));
    }
    if machine.commands.is_empty() {
        let few = machine.entries_missing.min(FEW);
        machine.commands.reserve(few as usize)?;
    }
    machine.commands.push(raw)?;
    count_entry(machine);
    Ok(())
}

fn receive_notification(machine: &mut Machine, raw: &RawMessage) -> Result<(), Fault>
    ensures step { Gives (notification_step raw.now machine.old.phase machine.old) result
        machine.old machine.new }
    ensures quiet { machine.new.output ≡ machine.old.output }
    ensures failure { machine.new.failure ≡ machine.old.failure }
{
    match machine.phase {
        Phase::WaitingStart => return Err(refuse(NamedFault::UnexpectedState)),
        Phase::Closed => return Ok(()),
        _ => {}
    }
    let notification = match raw.read_notification(machine.alloc) {
        Ok(notification) => notification,
        Err(plain::Fault::Memory) => return Err(Fault::Memory),
        Err(plain::Fault::Malformed) => return Err(refuse(NamedFault::BadMessage)),
    };
    machine.results.enqueue(notification)?;
    if matches!(machine.phase, Phase::WaitingReplayEntries) {
        count_entry(machine);
    }
    Ok(())
}

/// The proposal of this id is acknowledged: its result comes as the run's completion.
fn acknowledge(machine: &mut Machine, id: u32) -> Result<(), Fault>
    ensures step { Gives (acknowledged id (find (is_for id) machine.old.proposals) machine.old)
        result machine.old machine.new }
    ensures quiet { machine.new.output ≡ machine.old.output }
    ensures failure { machine.new.failure ≡ machine.old.failure }
{
    let Some(proposed) = machine.proposals.acknowledge(id) else {
        return Err(refuse(NamedFault::BadProposeRunCompletionAck));
    };
    machine.results.enqueue(Notification {
        id: NotificationId::CompletionId(id),
        result: completion_result(proposed),
    })?;
    Ok(())
}

fn receive_acknowledgement(machine: &mut Machine, raw: &RawMessage) -> Result<(), Fault>
    ensures step { Gives (acknowledgement_step raw.now machine.old.phase machine.old) result
        machine.old machine.new }
    ensures quiet { machine.new.output ≡ machine.old.output }
    ensures failure { machine.new.failure ≡ machine.old.failure }
{
    match machine.phase {
        Phase::Processing => {}
        Phase::Closed => return Ok(()),
        _ => return Err(refuse(NamedFault::UnexpectedState)),
    }
    match raw.read_acknowledgement(machine.alloc) {
        Ok(acknowledgement) => acknowledge(machine, acknowledgement.id),
        Err(plain::Fault::Memory) => Err(Fault::Memory),
        Err(plain::Fault::Malformed) => Err(refuse(NamedFault::BadMessage)),
    }
}

/// What stands under a key, as a value or none.
fn found_of(stored: VoidOrValue) -> Option<Bytes>
    ensures { result ≡ found_of stored }
{
    match stored {
        VoidOrValue::Void => None,
        VoidOrValue::Value(bytes) => Some(bytes),
    }
}

/// The result of a read comes; there has to be one, even if no such read waits for it.
pub fn complete_ephemeral(
    machine: &mut Machine,
    id: u32,
    found: Option<VoidOrValue>,
) -> Result<(), Fault>
    ensures step { Gives (result_comes id found machine.old) result machine.old machine.new }
    ensures quiet { machine.new.output ≡ machine.old.output }
    ensures failure { machine.new.failure ≡ machine.old.failure }
{
    let Some(stored) = found else {
        return Err(refuse(NamedFault::EmptyGetStateEphemeralNotification));
    };
    machine.ephemeral.complete(id, found_of(stored))?;
    Ok(())
}

fn receive_ephemeral_notification(machine: &mut Machine, raw: &RawMessage) -> Result<(), Fault>
    ensures step { Gives (ephemeral_notification_step raw.now machine.old.phase machine.old) result
        machine.old machine.new }
    ensures quiet { machine.new.output ≡ machine.old.output }
    ensures failure { machine.new.failure ≡ machine.old.failure }
{
    match machine.phase {
        Phase::Processing => {}
        Phase::Closed => return Ok(()),
        _ => return Err(refuse(NamedFault::UnexpectedState)),
    }
    match raw.read_ephemeral_notification(machine.alloc) {
        Ok(notification) => complete_ephemeral(machine, notification.id, notification.result),
        Err(plain::Fault::Memory) => Err(Fault::Memory),
        Err(plain::Fault::Malformed) => Err(refuse(NamedFault::BadMessage)),
    }
}

/// A message comes.
#[tactic(auto, unfolding(vm_machine::specs::Inputs::message_step))]
pub fn receive(machine: &mut Machine, raw: RawMessage) -> Result<(), Fault>
    ensures step { Gives (message_step raw machine.old) result machine.old machine.new }
    ensures quiet { machine.new.output ≡ machine.old.output }
    ensures failure { machine.new.failure ≡ machine.old.failure }
{
    match raw.ty.number() {
        1 => receive_start(machine, &raw),
        6 => receive_acknowledgement(machine, &raw),
        9 => receive_ephemeral_notification(machine, &raw),
        10..=29 => receive_command(machine, raw),
        30 => receive_notification(machine, &raw),
        _ => Err(refuse(NamedFault::UnexpectedInputMessage)),
    }
}

/// Bytes come that are no frame.
pub fn receive_malformed(machine: &mut Machine) -> Result<(), Fault>
    ensures { Gives (malformed_step machine.old) result machine.old machine.new }
{
    Err(refuse(NamedFault::BadMessage))
}

/// The input is closed.
pub fn close_input(machine: &mut Machine) -> Result<(), Fault>
    ensures does { Gives (close_step machine.old) result machine.old machine.new }
    ensures ample { OnErr result (is_waiting machine.old.phase ≡ true) }
{
    machine.input_closed = true;
    match machine.phase {
        Phase::WaitingStart | Phase::WaitingReplayEntries => Err(refuse(
            NamedFault::InputClosedWhileWaitingEntries,
        )),
        _ => Ok(()),
    }
}
