//! A round on its way, and its events one by one.
ghost use Rattle.std.specs.Prelude.{◌≡◌, ◌⊎◌, false, [], ◌∷◌, ◌++◌, drop, take, Some, None, IfOk, IfErr, OnOk};
ghost use Rattle.journal_entries.specs.Arrivals.{arrival_fault};
ghost use Rattle.world_rounds.specs.Rounds.{first_error, memory_of, Happens, EventOutcome};
ghost use Rattle.world_rounds.specs.declared.types.Event.TheVariants as event;
ghost use Rattle.journal_entries.specs.declared.fault.JournalFault.TheVariants as journal_fault;
ghost use Rattle.world_rounds.specs.Inside.{may_go_on, the_now};

use crate::types::Event;
use await_trees::NotificationHandle;
use bytes::{Bytes, BytesMut};
use journal_entries::JournalFault;
use journal_protocol::{Decoder, Error, NamedFault, Version};
use journal_store::WholeJournal;
use std::alloc::{AllocError, Global};
use vm_attempt::{Attempt, Progress};
use vm_retries::RetryPolicy;
use vm_types::{Handler, RunExitResult, VMResult};

/// A round on its way, without its attempt.
#[derive(Drop)]
pub struct Desk {
    pub alloc: Global,
    pub version: Version,
    pub journal: WholeJournal,
    pub waiting: BytesMut,
    pub output: Vec<u8>,
    pub unstored: Decoder,
    pub closed: bool,
    pub error: Option<Error>,
}

/// Keeps the first error.
fn note(error: &mut Option<Error>, next: Option<Error>)
    ensures { error.new ≡ first_error error.old next }
{
    if error.is_none() {
        *error = next;
    }
}

/// A notification is stored and waits.
fn arrive(desk: &mut Desk, entry: &Bytes) -> Result<(), JournalFault>
    ensures ok { OnOk result ((arrival_fault entry.now desk.old.journal ≡ None)
        × (desk.new.journal ≡ desk.old.journal ++ entry.now ∷ [])
        × (desk.new.waiting.items ≡ desk.old.waiting.items ++ entry.now)) }
    ensures same { OnOk result ((desk.new.version ≡ desk.old.version)
        × (desk.new.output ≡ desk.old.output) × (desk.new.unstored ≡ desk.old.unstored)
        × (desk.new.closed ≡ desk.old.closed) × (desk.new.error ≡ desk.old.error)) }
    ensures err { IfErr result (λ f. (f ≡ journal_fault.Memory)
        ⊎ (arrival_fault entry.now desk.old.journal ≡ Some f)) }
{
    desk.journal.arrive(desk.alloc, entry)?;
    if desk.waiting.extend_from_slice(entry.as_slice()).is_err() {
        return Err(JournalFault::Memory);
    }
    Ok(())
}

/// The error of a call whose one error is out of memory.
fn memory_error(answer: Result<(), AllocError>) -> Option<Error>
    ensures { result ≡ memory_of answer }
{
    match answer {
        Ok(()) => None,
        Err(_) => Some(Error::named(NamedFault::Memory, None)),
    }
}

/// The next bytes, or all if there are fewer.
#[tactic(auto, using(std::proofs::lemmas::List::take_all, std::proofs::lemmas::List::drop_all))]
fn front(waiting: &mut BytesMut, n: usize) -> Result<Bytes, AllocError>
    ensures front { IfOk result (λ b. b ≡ take n waiting.old.items) }
    ensures rest { OnOk result (waiting.new.items ≡ drop n waiting.old.items) }
{
    if n < waiting.len() {
        waiting.freeze_to(n)
    } else {
        waiting.freeze_to(waiting.len())
    }
}

/// A piece of what waits is fed.
fn piece<H: Handler>(
    attempt: &mut Attempt<&H>,
    desk: &mut Desk,
    n: usize,
) -> Result<(), JournalFault>
    ensures does { EventOutcome (H.meaning attempt.old.handler.now) (event.Piece n)
        (the_now desk.old attempt.old.record_of) result (the_now desk.new attempt.new.record_of) }
    ensures handler { attempt.new.handler.now ≡ attempt.old.handler.now }
    ensures made_for { (attempt.new.version ≡ attempt.old.version)
        × (attempt.new.options ≡ attempt.old.options) }
{
    if desk.closed {
        return Ok(());
    }
    let Ok(piece) = front(&mut desk.waiting, n) else {
        return Err(JournalFault::Memory);
    };
    let fed = attempt.feed(piece);
    note(&mut desk.error, memory_error(fed));
    Ok(())
}

/// The input is closed.
fn close<H: Handler>(attempt: &mut Attempt<&H>, desk: &mut Desk)
    ensures does { Happens (H.meaning attempt.old.handler.now) event.Close
        (the_now desk.old attempt.old.record_of) (the_now desk.new attempt.new.record_of) }
    ensures handler { attempt.new.handler.now ≡ attempt.old.handler.now }
    ensures made_for { (attempt.new.version ≡ attempt.old.version)
        × (attempt.new.options ≡ attempt.old.options) }
{
    let closed = attempt.close();
    desk.closed = true;
    note(&mut desk.error, memory_error(closed));
}

/// Whether a step after one that answered this may do something.
fn may_go_on(made: &VMResult<Progress>) -> bool
    ensures { result ≡ may_go_on made.now }
{
    match made {
        Ok(Progress::Stepped | Progress::ExecuteRun(_) | Progress::Waiting { .. }) => true,
        _ => false,
    }
}

/// The attempt's step; its error is kept. `false` if each step after it changes nothing.
fn step<H: Handler>(attempt: &mut Attempt<&H>, desk: &mut Desk) -> bool
    ensures does { Happens (H.meaning attempt.old.handler.now) event.Step
        (the_now desk.old attempt.old.record_of) (the_now desk.new attempt.new.record_of) }
    ensures again { result ≡ false → Happens (H.meaning attempt.old.handler.now) event.Step
        (the_now desk.new attempt.new.record_of) (the_now desk.new attempt.new.record_of) }
    ensures handler { attempt.new.handler.now ≡ attempt.old.handler.now }
    ensures made_for { (attempt.new.version ≡ attempt.old.version)
        × (attempt.new.options ≡ attempt.old.options) }
{
    let made = attempt.step();
    let more = may_go_on(&made);
    note(&mut desk.error, made.err());
    more
}

/// This many steps, one after another. Those that would change nothing aren't made.
#[tactic(auto, using(crate::proofs::Repeating::steps_end))]
fn steps<H: Handler>(attempt: &mut Attempt<&H>, desk: &mut Desk, count: u64)
    ensures does { Happens (H.meaning attempt.old.handler.now) (event.Steps count)
        (the_now desk.old attempt.old.record_of) (the_now desk.new attempt.new.record_of) }
    ensures handler { attempt.new.handler.now ≡ attempt.old.handler.now }
    ensures made_for { (attempt.new.version ≡ attempt.old.version)
        × (attempt.new.options ≡ attempt.old.options) }
{
    let mut left = count;
    while left > 0 {
        if !step(attempt, desk) {
            return;
        }
        left -= 1;
    }
}

/// Copies of a run's result and of its policy.
fn copy_result(
    exit: &RunExitResult,
    policy: &RetryPolicy,
) -> Result<(RunExitResult, RetryPolicy), AllocError>
    ensures { IfOk result (λ copy. (copy.0 ≡ exit.now) × (copy.1 ≡ policy.now)) }
{
    let exit = exit.clone()?;
    let policy = policy.clone()?;
    Ok((exit, policy))
}

/// Hands the result of executing a run to the attempt; an error of that is kept.
fn run_result<H: Handler>(
    attempt: &mut Attempt<&H>,
    desk: &mut Desk,
    handle: NotificationHandle,
    exit: &RunExitResult,
    policy: &RetryPolicy,
) -> Result<(), JournalFault>
    ensures does { EventOutcome (H.meaning attempt.old.handler.now)
        (event.RunResult handle exit.now policy.now) (the_now desk.old attempt.old.record_of) result
        (the_now desk.new attempt.new.record_of) }
    ensures handler { attempt.new.handler.now ≡ attempt.old.handler.now }
    ensures made_for { (attempt.new.version ≡ attempt.old.version)
        × (attempt.new.options ≡ attempt.old.options) }
{
    let Ok((exit, policy)) = copy_result(exit, policy) else {
        return Err(JournalFault::Memory);
    };
    let error = attempt.run_result(handle, exit, policy).err();
    note(&mut desk.error, error);
    Ok(())
}

/// The next commands and proposals that were written are stored.
fn store<H: Handler>(
    attempt: &mut Attempt<&H>,
    desk: &mut Desk,
    n: usize,
) -> Result<(), JournalFault>
    ensures does { EventOutcome (H.meaning attempt.old.handler.now) (event.Store n)
        (the_now desk.old attempt.old.record_of) result (the_now desk.new attempt.new.record_of) }
    ensures handler { attempt.new.handler.now ≡ attempt.old.handler.now }
    ensures made_for { (attempt.new.version ≡ attempt.old.version)
        × (attempt.new.options ≡ attempt.old.options) }
{
    // What the record says was proposed is what the output proposes.
    let _ = attempt.output_len();
    let Ok(bytes) = attempt.take_output() else {
        return Err(JournalFault::Memory);
    };
    if desk.output.extend_from_slice(bytes.as_slice()).is_err() {
        return Err(JournalFault::Memory);
    }
    if desk.unstored.push(bytes).is_err() {
        return Err(JournalFault::Memory);
    }
    desk.journal.store(
        desk.alloc,
        desk.version,
        &mut desk.waiting,
        &mut desk.unstored,
        n,
    )
}

/// One event.
pub fn happen<H: Handler>(
    attempt: &mut Attempt<&H>,
    desk: &mut Desk,
    event: &Event,
) -> Result<(), JournalFault>
    ensures does { EventOutcome (H.meaning attempt.old.handler.now) event.now
        (the_now desk.old attempt.old.record_of) result (the_now desk.new attempt.new.record_of) }
    ensures handler { attempt.new.handler.now ≡ attempt.old.handler.now }
    ensures made_for { (attempt.new.version ≡ attempt.old.version)
        × (attempt.new.options ≡ attempt.old.options) }
{
    match event {
        Event::Piece(n) => piece(attempt, desk, *n),
        Event::Close => {
            close(attempt, desk);
            Ok(())
        }
        Event::Step => {
            let _ = step(attempt, desk);
            Ok(())
        }
        Event::Steps(count) => {
            steps(attempt, desk, *count);
            Ok(())
        }
        Event::RunResult(handle, exit, policy) => {
            run_result(attempt, desk, *handle, exit, policy)
        }
        Event::Arrive(entry) => arrive(desk, entry),
        Event::Store(n) => store(attempt, desk, *n),
    }
}
