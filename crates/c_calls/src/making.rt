//! VMs that C makes, with the options that it gives.
ghost use Rattle.std.specs.Prelude.{◌≡◌, Some, IfErr, IfOk};
ghost use Rattle.std.specs.Option.{MatchOption};
ghost use Rattle.vm_types.specs.declared.options.ImplicitCancellationOption.TheVariants as cancellation;
ghost use Rattle.c_calls.specs.Given.{CannotCopy, lent_texts};
ghost use Rattle.c_calls.specs.Making.{AreOptionsOf, IsFoundOf, MakesAsGiven, NamesNoOption, awaiting_at, cancellation_at, checks_at, delivery_at, mismatch_at, replay_at};

use crate::given::{MayLend, string_of};
use c_sessions::vm_call::make;
use c_sessions::{Replied, Vm, tell_status};
use c_values::Status;
use journal_protocol::SignalDelivery;
use std::alloc::Global;
use vm_types::{
    AwaitingOnPolicy, ContentType, ImplicitCancellationOption, JournalMismatchRetryBehavior,
    JournalReplay, NonDeterministicChecksOption, VMOptions,
};

/// What a VM is asked to do in another way. Each is 0 by default.
#[repr(C)]
#[derive(Clone, Copy)]
pub struct GivenOptions {
    /// A cancelled await cancels 0: its calls, 1: none, 2: its sends, 3: both. 4: the cancel signal ends no await.
    pub cancellation: u32,
    /// Replay 0: compares payloads, 1: doesn't.
    pub checks: u32,
    /// An await that waits for input says so 0: unless a run executes, 1: always, 2: never.
    pub awaiting: u32,
    /// An invocation whose journal doesn't fit 0: follows the retry policy, 1: pauses, 2: fails.
    pub mismatch: u32,
    /// Recorded commands are 0: replayed, 1: skipped.
    pub replay: u32,
    /// Deliveries of a signal 0: queue, 1: replace those before.
    pub delivery: u32,
    /// The handler's random seed, if the version hands none out.
    pub seed: u64,
}

/// Which children a cancelled await cancels.
fn cancelling(calls: bool, one_way_calls: bool) -> Option<ImplicitCancellationOption>
    ensures { result ≡ Some (cancellation.Enabled calls one_way_calls) }
{
    Some(ImplicitCancellationOption::Enabled {
        cancel_children_calls: calls,
        cancel_children_one_way_calls: one_way_calls,
    })
}

fn cancellation_of(code: u32) -> Option<ImplicitCancellationOption>
    ensures { result ≡ cancellation_at code }
{
    match code {
        0 => cancelling(true, false),
        1 => cancelling(false, false),
        2 => cancelling(false, true),
        3 => cancelling(true, true),
        4 => Some(ImplicitCancellationOption::Disabled),
        _ => None,
    }
}

fn checks_of(code: u32) -> Option<NonDeterministicChecksOption>
    ensures { result ≡ checks_at code }
{
    match code {
        0 => Some(NonDeterministicChecksOption::Enabled),
        1 => Some(NonDeterministicChecksOption::PayloadChecksDisabled),
        _ => None,
    }
}

fn awaiting_of(code: u32) -> Option<AwaitingOnPolicy>
    ensures { result ≡ awaiting_at code }
{
    match code {
        0 => Some(AwaitingOnPolicy::DontSendWhenExecutingRun),
        1 => Some(AwaitingOnPolicy::SendAlways),
        2 => Some(AwaitingOnPolicy::DontSend),
        _ => None,
    }
}

fn mismatch_of(code: u32) -> Option<JournalMismatchRetryBehavior>
    ensures { result ≡ mismatch_at code }
{
    match code {
        0 => Some(JournalMismatchRetryBehavior::FollowRetryPolicy),
        1 => Some(JournalMismatchRetryBehavior::Pause),
        2 => Some(JournalMismatchRetryBehavior::FailTerminally),
        _ => None,
    }
}

fn replay_of(code: u32) -> Option<JournalReplay>
    ensures { result ≡ replay_at code }
{
    match code {
        0 => Some(JournalReplay::Enabled),
        1 => Some(JournalReplay::Disabled),
        _ => None,
    }
}

fn delivery_of(code: u32) -> Option<SignalDelivery>
    ensures { result ≡ delivery_at code }
{
    match code {
        0 => Some(SignalDelivery::Queued),
        1 => Some(SignalDelivery::Overwrite),
        _ => None,
    }
}

/// The options, unless a number names none.
fn options_of(given: &GivenOptions) -> Option<VMOptions>
    ensures { MatchOption result (NamesNoOption given.now) (AreOptionsOf given.now) }
{
    let implicit_cancellation = cancellation_of(given.cancellation)?;
    let non_determinism_checks = checks_of(given.checks)?;
    let awaiting_on_policy = awaiting_of(given.awaiting)?;
    let journal_mismatch_retry_behavior = mismatch_of(given.mismatch)?;
    let journal_replay = replay_of(given.replay)?;
    let signal_delivery = delivery_of(given.delivery)?;
    Some(VMOptions {
        implicit_cancellation,
        non_determinism_checks,
        awaiting_on_policy,
        journal_mismatch_retry_behavior,
        journal_replay,
        signal_delivery,
        fallback_random_seed: given.seed,
    })
}

/// The content type, or that there is none.
fn content_type_of(alloc: Global, given: &MayLend) -> Result<ContentType, Status>
    ensures ok { IfOk result (IsFoundOf given.now) }
    ensures err { IfErr result (CannotCopy (lent_texts given.now)) }
{
    if !given.is_given {
        return Ok(ContentType::Absent);
    }
    match string_of(alloc, given.lent.bytes) {
        Ok(text) => Ok(ContentType::Named(text)),
        Err(status) => Err(status),
    }
}

/// Puts a VM with these options into the session instead of the last, for the version that the content type names.
#[tactic(auto, using(crate::proofs::Refusing::misfit, crate::proofs::Outcomes::is_kept, crate::proofs::Outcomes::is_made))]
pub fn make_vm(alloc: Global, vm: &mut Vm, given: MayLend, options: &GivenOptions) -> Replied
    ensures { MakesAsGiven alloc given.entry options.now result vm.old.value vm.new.value }
{
    let Some(options) = options_of(options) else {
        return tell_status(Status::BadNumber);
    };
    match content_type_of(alloc, &given) {
        Ok(content_type) => make(alloc, vm, content_type, options),
        Err(status) => tell_status(status),
    }
}
