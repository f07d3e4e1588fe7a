//! Whether a handler goes on with a stored journal.
ghost use Rattle.std.specs.Prelude.{◌≡◌, ◌⊎◌, ◌≤◌, ◌++◌, IfErr, IfOk, Ok, OnOk, length};
ghost use Rattle.std.specs.List.{concat};
ghost use Rattle.journal_entries.specs.Given.{GivenFaults};
ghost use Rattle.journal_entries.specs.declared.fault.JournalFault.TheVariants as journal_fault;
ghost use Rattle.vm_model.specs.Calls.{Meaning};
ghost use Rattle.invocation_vm.specs.Making.{IsSupported, made};
ghost use Rattle.vm_attempt.specs.Stepping.{fresh_record};
ghost use Rattle.world_rounds.specs.Guarantees.{HasOneResultEach, HasRightReads, IsHistory, IsReplayable};
ghost use Rattle.world_rounds.specs.Rounds.{ReplaysAndQueues};
ghost use Rattle.world_rounds.specs.Worlds.{IsJournal};
ghost use Rattle.world_laws.specs.Replays.{AttemptShows, HasRoom, JournalSetsAreCompared, ReplayShows, case_with};
ghost use Rattle.world_laws.specs.declared.outcome.ReplayOutcome.TheVariants as outcome;

use crate::outcome::ReplayOutcome;
use crate::steps::replay_steps;
use bytes::Bytes;
use invocation_vm::supported;
use journal_entries::JournalFault;
use journal_store::WholeJournal;
use plain::Items;
use std::alloc::{AllocError, Global};
use vm_attempt::Attempt;
use vm_types::Handler;
use world_rounds::handed::start_bytes;
use world_rounds::{Round, Setting};

/// All of the journal comes after these bytes.
fn with_all(bytes: &mut Vec<u8>, journal: &[Bytes]) -> Result<(), AllocError>
    ensures { OnOk result (bytes.new.items ≡ bytes.old.items ++ concat journal.now) }
{
    for entry in journal {
        bytes.extend_from_slice(entry.as_slice())?;
    }
    Ok(())
}

/// The bytes of an attempt: Start, then the journal.
fn attempt_bytes(alloc: Global, start: &Bytes, journal: &[Bytes]) -> Result<Bytes, AllocError>
    ensures bytes { IfOk result (λ b. b ≡ start.now ++ concat journal.now) }
{
    let mut bytes = Vec::new(alloc);
    bytes.extend_from_slice(start.as_slice())?;
    with_all(&mut bytes, journal)?;
    let bytes = Bytes::from_vec(bytes)?;
    Ok(bytes)
}

/// A new attempt of the handler.
fn attempt_for<'a, H: Handler>(
    alloc: Global,
    setting: &Setting,
    handler: &'a H,
) -> Result<Attempt<&'a H>, AllocError>
    requires { IsSupported setting.now.version }
    ensures record { IfOk result (λ a. a.record_of
        ≡ fresh_record (made alloc setting.now.options setting.now.version)) }
    ensures handler { IfOk result (λ a. a.handler.now ≡ handler.now) }
    ensures made_for { IfOk result (λ a. (a.version ≡ setting.now.version)
        × (a.options ≡ setting.now.options)) }
{
    match Attempt::for_version(alloc, setting.version, setting.options, handler) {
        Ok(attempt) => Ok(attempt),
        Err(error) => Err(error),
    }
}

/// What a replay shows in a version that is supported.
fn replay_of<H: Handler>(
    alloc: Global,
    handler: &H,
    setting: &Setting,
    journal: &[Bytes],
    steps: u64,
) -> Result<ReplayOutcome, AllocError>
    requires supported { IsSupported setting.now.version }
    requires entries { IsJournal journal.now }
    ensures shown { IfOk result (λ o. AttemptShows
        (case_with (H.meaning handler.now) setting.now) journal.now steps o) }
{
    let round = Round {
        partial: false,
        keys: Items::new(alloc),
        retry_count: 0,
        duration: 0,
        events: Items::new(alloc),
    };
    let start = start_bytes(alloc, setting, &round, journal)?;
    let bytes = attempt_bytes(alloc, &start, journal)?;
    let mut attempt = attempt_for(alloc, setting, handler)?;
    if attempt.feed(bytes).is_err() {
        return Err(AllocError);
    }
    replay_steps(&mut attempt, steps)
}

/// Whether the handler goes on with a stored journal: an attempt that is fed Start and the journal, and nothing else, makes steps
/// until no recorded command is left, this many at most. Nothing is stored. Make this check before a new version of a handler takes
/// over. The entries are whole frames, the first of them the input; the first that can't stand in a journal decides the fault.
pub fn check_replay<H: Handler>(
    alloc: Global,
    handler: &H,
    setting: &Setting,
    entries: Vec<Bytes>,
    steps: u64,
) -> Result<ReplayOutcome, JournalFault>
    // The outcome is that of such an attempt; or no attempt is made in this version.
    ensures shown { IfOk result (λ o. ReplayShows
        (case_with (H.meaning handler.now) setting.now) entries.items steps o) }
    // If it goes on, the journal is a history of the handler, if no completion id has two results on it and its eager reads are right.
    ensures history { result ≡ Ok outcome.GoesOn → ReplaysAndQueues setting.now.options
        → HasOneResultEach (case_with (H.meaning handler.now) setting.now) entries.items
        → HasRightReads (case_with (H.meaning handler.now) setting.now) entries.items
        → IsHistory (case_with (H.meaning handler.now) setting.now) entries.items }
    // A version of the handler of which the journal is a history says both.
    ensures takes_over { result ≡ Ok outcome.GoesOn → ReplaysAndQueues setting.now.options
        → (older : Meaning) → IsHistory (case_with older setting.now) entries.items
        → IsHistory (case_with (H.meaning handler.now) setting.now) entries.items }
    // Rounds of the handler may then go on, with all that they guarantee, if the values are compared which the calls set that this
    // journal tells.
    ensures replayable { result ≡ Ok outcome.GoesOn → ReplaysAndQueues setting.now.options
        → HasOneResultEach (case_with (H.meaning handler.now) setting.now) entries.items
        → HasRightReads (case_with (H.meaning handler.now) setting.now) entries.items
        → JournalSetsAreCompared (case_with (H.meaning handler.now) setting.now) entries.items
        → IsReplayable (case_with (H.meaning handler.now) setting.now) entries.items }
    // The other way round: if the journal is a history of the handler, it goes on, or the steps were too few: no more than the answers
    // of this history. The journal has room for as many entries again.
    ensures goes_on { IfOk result (λ o. IsSupported setting.now.version
        → ReplaysAndQueues setting.now.options → HasRoom entries.items
        → (h : IsHistory (case_with (H.meaning handler.now) setting.now) entries.items)
        → (o ≡ outcome.GoesOn) ⊎ ((o ≡ outcome.TooFewSteps) × (steps ≤ length h.at.answers))) }
    ensures err { IfErr result (λ f. (f ≡ journal_fault.Memory) ⊎ GivenFaults entries.items f) }
{
    if let Err(error) = supported(setting.version) {
        return Ok(ReplayOutcome::UnsupportedVersion(error));
    }
    let journal = match WholeJournal::load(alloc, entries) {
        Err(fault) => return Err(fault),
        Ok(journal) => journal,
    };
    match replay_of(alloc, handler, setting, journal.as_slice(), steps) {
        Ok(shown) => Ok(shown),
        Err(_) => Err(JournalFault::Memory),
    }
}
