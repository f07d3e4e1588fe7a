//! The record of a machine. It is what contracts see of a VM, except the bytes that aren't decoded yet.
ghost use Rattle.std.specs.Prelude.{◌≡◌, [], IfOk};
ghost use Rattle.vm_machine.specs.Making.{fresh, nothing_started};

use crate::phase::Phase;
use bytes::Bytes;
use journal_protocol::{Error, MessageType, RawMessage, Version};
use plain::Text;
use std::alloc::{AllocError, Global};
use vm_parts::{
    AsyncResults, EphemeralCommands, LastCommand, Outbox, Queue, StartInfo, TrackedCalls,
};
use vm_runs::{KeptProposals, RunState};
use vm_state::{Counters, StateCoverage, StateMap};
use vm_types::VMOptions;

/// All that a machine is.
#[derive(Drop)]
pub struct Machine {
    pub alloc: Global,
    pub version: Version,
    pub options: VMOptions,
    pub phase: Phase,
    /// The first error; a machine that has one does nothing more.
    pub failure: Option<Error>,
    pub input_closed: bool,
    pub start: StartInfo,
    /// How many of the known entries haven't come.
    pub entries_missing: u32,
    /// The recorded commands that no call has popped.
    pub commands: Queue<RawMessage>,
    pub counters: Counters,
    pub last_command: LastCommand,
    /// Whether a command was written, after those that were replayed.
    pub wrote_command: bool,
    pub results: AsyncResults,
    pub state: StateMap,
    /// The runs whose results are neither known nor proposed.
    pub runs: RunState,
    /// The results that were proposed and wait for their acknowledgement.
    pub proposals: KeptProposals,
    /// The calls whose invocations are cancelled with the handler's.
    pub tracked: TrackedCalls,
    /// The ephemeral reads whose results are to come, or weren't taken.
    pub ephemeral: EphemeralCommands,
    /// The frames that wait to be taken.
    pub output: Outbox,
    /// Whether a terminal frame was written, or the machine has failed: no frame comes any more.
    pub output_ended: bool,
}

/// What is known of an invocation before its Start.
fn nothing_started(alloc: Global) -> StartInfo
    ensures { result ≡ nothing_started }
{
    StartInfo {
        id: Bytes::new(),
        debug_id: Text::empty(alloc),
        key: Text::empty(alloc),
        known_entries: 0,
        retry_count: 0,
        duration: 0,
        random_seed: 0,
        scope: None,
        limit_key: None,
        idempotency_key: None,
    }
}

impl Machine {
    /// A machine before any input.
    pub fn new(alloc: Global, version: Version, options: VMOptions) -> Result<Machine, AllocError>
        ensures { IfOk result (λ machine. machine ≡ fresh alloc version options) }
    {
        let results = AsyncResults::new(alloc)?;
        Ok(Machine {
            alloc,
            version,
            options,
            phase: Phase::WaitingStart,
            failure: None,
            input_closed: false,
            start: nothing_started(alloc),
            entries_missing: 0,
            commands: Queue::new(alloc),
            counters: Counters::new(),
            last_command: LastCommand {
                ty: MessageType::Start,
                name: Text::empty(alloc),
            },
            wrote_command: false,
            results,
            state: StateMap::new(alloc, StateCoverage::Partial),
            runs: RunState::new(alloc),
            proposals: KeptProposals::new(alloc),
            tracked: TrackedCalls::new(alloc),
            ephemeral: EphemeralCommands::new(alloc),
            output: Outbox::new(alloc),
            output_ended: false,
        })
    }
}
