//! Recorded commands that are skipped: those after the input are dropped, and new commands get indexes and completion ids past theirs.
ghost use Rattle.std.specs.Prelude.{◌≡◌, drop, length, IfOk};
ghost use Rattle.vm_asks.specs.Carried.{past_all, read_past};
ghost use Rattle.journal_protocol.specs.Bodies.{message_in};
ghost use Rattle.vm_machine.specs.Skips.{counters_past, skipped};
ghost use Rattle.vm_types.specs.Options.{skips_replay};

use journal_protocol::{NamedFault, RawMessage};
use plain::Fault;
use std::alloc::{AllocError, Global};
use vm_asks::request::past;
use vm_machine::{Machine, Phase};
use vm_state::Counters;
use vm_types::JournalReplay;

/// Whether recorded commands are skipped.
pub fn skips_replay(option: JournalReplay) -> bool
    ensures { result ≡ skips_replay option }
{
    matches!(option, JournalReplay::Disabled)
}

/// The completion id that is next past those that a recorded command carries, where `next` was; none where it can't be read.
fn read_past(alloc: Global, next: u64, raw: &RawMessage) -> Result<Option<u64>, AllocError>
    ensures { IfOk result (λ id. id ≡ read_past next (message_in raw.now.ty raw.now.body)) }
{
    match raw.read(alloc) {
        Ok(message) => {
            let id = past(next, &message);
            drop(message);
            Ok(Some(id))
        }
        Err(Fault::Memory) => Err(AllocError),
        Err(Fault::Malformed) => Ok(None),
    }
}

/// The counters once the input is read and this number of commands after it is dropped, if this completion id is next; or the
/// kind of number that runs out by that.
pub fn counters_past(dropped: usize, id: u64, counters: &Counters) -> Result<Counters, NamedFault>
    ensures { result ≡ counters_past dropped id counters.now }
{
    if id > u64::from(u32::MAX) {
        return Err(NamedFault::ExhaustedCompletionIds);
    }
    let index = counters.next_index();
    if dropped > (u32::MAX - index) as usize {
        return Err(NamedFault::ExhaustedCommandIndexes);
    }
    if counters.command.unwrap_or(0) == u32::MAX {
        return Err(NamedFault::ExhaustedCommandIndexes);
    }
    Ok(Counters {
        command: Some(index + dropped as u32),
        completion: id as u32,
        signal: counters.signal,
        handle: counters.handle,
        ephemeral: counters.ephemeral,
    })
}

/// The completion id that is next past those that the recorded commands after the first carry; none if one of them can't
/// be read.
pub fn next_past(machine: &Machine) -> Result<Option<u64>, AllocError>
    ensures { IfOk result (λ id. id
        ≡ past_all machine.now.counters.completion (drop 1 machine.now.commands)) }
{
    let commands = machine.commands.items();
    let mut next = u64::from(machine.counters.completion);
    for i in 1..commands.len() {
        match read_past(machine.alloc, next, &commands[i]) {
            Err(error) => return Err(error),
            Ok(None) => return Ok(None),
            Ok(Some(id)) => next = id,
        }
    }
    Ok(Some(next))
}

/// How many recorded commands stand after the first.
pub fn dropped(machine: &Machine) -> usize
    ensures { result ≡ length (drop 1 machine.now.commands) }
{
    machine.commands.items().len().saturating_sub(1)
}

/// Drops the recorded commands that are left; new ones are written next, by these counters.
pub fn skip(machine: &mut Machine, counters: Counters)
    ensures { machine.new ≡ skipped counters machine.old }
{
    machine.commands.clear();
    machine.phase = Phase::Processing;
    machine.counters = counters;
}
