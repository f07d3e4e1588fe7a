//! The options of a `vm` line.
ghost use Rattle.std.specs.Prelude.{◌≡◌, IfErr, IfOk, codes};
ghost use Rattle.lines.specs.Readings.{Blames};
ghost use Rattle.vm_types.specs.Options.{default_options};
ghost use Rattle.vm_types.specs.declared.options.ImplicitCancellationOption.TheVariants as cancellation;
ghost use Rattle.lines.specs.Fields.{IsSet, are_named, texts_named};
ghost use Rattle.lines.specs.Words.{IsNumberOf};
ghost use Rattle.line_parts.specs.VmOptions.{AreOptions, ArePolicies, IsAwaitingPolicy, IsCancel, IsChecks, IsDelivery, IsMismatch, IsReplay, option_names};

use journal_protocol::SignalDelivery;
use lines::atoms::u64_of;
use lines::fields::{are_named, field_of};
use plain::Fault;
use vm_types::{
    AwaitingOnPolicy, ImplicitCancellationOption, JournalMismatchRetryBehavior, JournalReplay,
    NonDeterministicChecksOption, VMOptions,
};

/// The built-in cancel signal ends awaits, and cancels these children too.
fn cancelling(calls: bool, one_way_calls: bool) -> ImplicitCancellationOption
    ensures { result ≡ cancellation.Enabled calls one_way_calls }
{
    ImplicitCancellationOption::Enabled {
        cancel_children_calls: calls,
        cancel_children_one_way_calls: one_way_calls,
    }
}

/// Whether the built-in cancel signal ends awaits, and which children are cancelled too.
#[tactic(auto, using(crate::proofs::Choices::no_cancel))]
fn cancellation_of(text: &[u8]) -> Result<ImplicitCancellationOption, Fault>
    ensures value { IfOk result (IsCancel text.now) }
    ensures none { IfErr result (Blames (IsCancel text.now)) }
{
    if text == b"calls".as_slice() {
        return Ok(cancelling(true, false));
    }
    if text == b"none".as_slice() {
        return Ok(cancelling(false, false));
    }
    if text == b"sends".as_slice() {
        return Ok(cancelling(false, true));
    }
    if text == b"both".as_slice() {
        return Ok(cancelling(true, true));
    }
    if text == b"off".as_slice() {
        return Ok(ImplicitCancellationOption::Disabled);
    }
    Err(Fault::Malformed)
}

/// `[cancel=..]`, among other words.
#[tactic(auto, using(lines::proofs::Missing::set_blamed, lines::proofs::Missing::twice_set))]
fn cancellation_in(words: &[&[u8]]) -> Result<ImplicitCancellationOption, Fault>
    ensures value { IfOk result
        (IsSet IsCancel default_options.implicit_cancellation
        (texts_named (codes "cancel=") words.now)) }
    ensures none { IfErr result
        (Blames (IsSet IsCancel default_options.implicit_cancellation
        (texts_named (codes "cancel=") words.now))) }
{
    match field_of(words, "cancel=") {
        Ok(Some(text)) => cancellation_of(text),
        Ok(None) => Ok(cancelling(true, false)),
        Err(fault) => Err(fault),
    }
}

/// Whether replay compares payloads.
#[tactic(auto, using(crate::proofs::Choices::no_checks))]
fn checks_of(text: &[u8]) -> Result<NonDeterministicChecksOption, Fault>
    ensures value { IfOk result (IsChecks text.now) }
    ensures none { IfErr result (Blames (IsChecks text.now)) }
{
    if text == b"on".as_slice() {
        return Ok(NonDeterministicChecksOption::Enabled);
    }
    if text == b"off".as_slice() {
        return Ok(NonDeterministicChecksOption::PayloadChecksDisabled);
    }
    Err(Fault::Malformed)
}

/// `[checks=..]`, among other words.
#[tactic(auto, using(lines::proofs::Missing::set_blamed, lines::proofs::Missing::twice_set))]
fn checks_in(words: &[&[u8]]) -> Result<NonDeterministicChecksOption, Fault>
    ensures value { IfOk result
        (IsSet IsChecks default_options.non_determinism_checks
        (texts_named (codes "checks=") words.now)) }
    ensures none { IfErr result
        (Blames (IsSet IsChecks default_options.non_determinism_checks
        (texts_named (codes "checks=") words.now))) }
{
    match field_of(words, "checks=") {
        Ok(Some(text)) => checks_of(text),
        Ok(None) => Ok(NonDeterministicChecksOption::Enabled),
        Err(fault) => Err(fault),
    }
}

/// When an await that waits for input says what it waits for.
#[tactic(auto, using(crate::proofs::Choices::no_awaiting))]
fn awaiting_of(text: &[u8]) -> Result<AwaitingOnPolicy, Fault>
    ensures value { IfOk result (IsAwaitingPolicy text.now) }
    ensures none { IfErr result (Blames (IsAwaitingPolicy text.now)) }
{
    if text == b"norun".as_slice() {
        return Ok(AwaitingOnPolicy::DontSendWhenExecutingRun);
    }
    if text == b"always".as_slice() {
        return Ok(AwaitingOnPolicy::SendAlways);
    }
    if text == b"never".as_slice() {
        return Ok(AwaitingOnPolicy::DontSend);
    }
    Err(Fault::Malformed)
}

/// `[awaiting=..]`, among other words.
#[tactic(auto, using(lines::proofs::Missing::set_blamed, lines::proofs::Missing::twice_set))]
fn awaiting_in(words: &[&[u8]]) -> Result<AwaitingOnPolicy, Fault>
    ensures value { IfOk result
        (IsSet IsAwaitingPolicy default_options.awaiting_on_policy
        (texts_named (codes "awaiting=") words.now)) }
    ensures none { IfErr result
        (Blames (IsSet IsAwaitingPolicy default_options.awaiting_on_policy
        (texts_named (codes "awaiting=") words.now))) }
{
    match field_of(words, "awaiting=") {
        Ok(Some(text)) => awaiting_of(text),
        Ok(None) => Ok(AwaitingOnPolicy::DontSendWhenExecutingRun),
        Err(fault) => Err(fault),
    }
}

/// What becomes of an invocation whose journal doesn't fit its handler.
#[tactic(auto, using(crate::proofs::Choices::no_mismatch))]
fn mismatch_of(text: &[u8]) -> Result<JournalMismatchRetryBehavior, Fault>
    ensures value { IfOk result (IsMismatch text.now) }
    ensures none { IfErr result (Blames (IsMismatch text.now)) }
{
    if text == b"follow".as_slice() {
        return Ok(JournalMismatchRetryBehavior::FollowRetryPolicy);
    }
    if text == b"pause".as_slice() {
        return Ok(JournalMismatchRetryBehavior::Pause);
    }
    if text == b"fail".as_slice() {
        return Ok(JournalMismatchRetryBehavior::FailTerminally);
    }
    Err(Fault::Malformed)
}

/// `[mismatch=..]`, among other words.
#[tactic(auto, using(lines::proofs::Missing::set_blamed, lines::proofs::Missing::twice_set))]
fn mismatch_in(words: &[&[u8]]) -> Result<JournalMismatchRetryBehavior, Fault>
    ensures value { IfOk result
        (IsSet IsMismatch default_options.journal_mismatch_retry_behavior
        (texts_named (codes "mismatch=") words.now)) }
    ensures none { IfErr result
        (Blames (IsSet IsMismatch default_options.journal_mismatch_retry_behavior
        (texts_named (codes "mismatch=") words.now))) }
{
    match field_of(words, "mismatch=") {
        Ok(Some(text)) => mismatch_of(text),
        Ok(None) => Ok(JournalMismatchRetryBehavior::FollowRetryPolicy),
        Err(fault) => Err(fault),
    }
}

/// Whether recorded commands are replayed or skipped.
#[tactic(auto, using(crate::proofs::Choices::no_replay))]
fn replay_of(text: &[u8]) -> Result<JournalReplay, Fault>
    ensures value { IfOk result (IsReplay text.now) }
    ensures none { IfErr result (Blames (IsReplay text.now)) }
{
    if text == b"on".as_slice() {
        return Ok(JournalReplay::Enabled);
    }
    if text == b"off".as_slice() {
        return Ok(JournalReplay::Disabled);
    }
    Err(Fault::Malformed)
}

/// `[replay=..]`, among other words.
#[tactic(auto, using(lines::proofs::Missing::set_blamed, lines::proofs::Missing::twice_set))]
fn replay_in(words: &[&[u8]]) -> Result<JournalReplay, Fault>
    ensures value { IfOk result
        (IsSet IsReplay default_options.journal_replay (texts_named (codes "replay=") words.now)) }
    ensures none { IfErr result
        (Blames (IsSet IsReplay default_options.journal_replay
        (texts_named (codes "replay=") words.now))) }
{
    match field_of(words, "replay=") {
        Ok(Some(text)) => replay_of(text),
        Ok(None) => Ok(JournalReplay::Enabled),
        Err(fault) => Err(fault),
    }
}

/// Whether several deliveries of one signal queue up or the newest replaces the others.
#[tactic(auto, using(crate::proofs::Choices::no_delivery))]
fn delivery_of(text: &[u8]) -> Result<SignalDelivery, Fault>
    ensures value { IfOk result (IsDelivery text.now) }
    ensures none { IfErr result (Blames (IsDelivery text.now)) }
{
    if text == b"queued".as_slice() {
        return Ok(SignalDelivery::Queued);
    }
    if text == b"overwrite".as_slice() {
        return Ok(SignalDelivery::Overwrite);
    }
    Err(Fault::Malformed)
}

/// `[delivery=..]`, among other words.
#[tactic(auto, using(lines::proofs::Missing::set_blamed, lines::proofs::Missing::twice_set))]
fn delivery_in(words: &[&[u8]]) -> Result<SignalDelivery, Fault>
    ensures value { IfOk result
        (IsSet IsDelivery default_options.signal_delivery
        (texts_named (codes "delivery=") words.now)) }
    ensures none { IfErr result
        (Blames (IsSet IsDelivery default_options.signal_delivery
        (texts_named (codes "delivery=") words.now))) }
{
    match field_of(words, "delivery=") {
        Ok(Some(text)) => delivery_of(text),
        Ok(None) => Ok(SignalDelivery::Queued),
        Err(fault) => Err(fault),
    }
}

/// `[seed=N]`, by default 0.
#[tactic(auto, using(lines::proofs::Missing::set_blamed, lines::proofs::Missing::twice_set))]
pub fn seed_in(words: &[&[u8]]) -> Result<u64, Fault>
    ensures value { IfOk result (IsSet (IsNumberOf 64) 0 (texts_named (codes "seed=") words.now)) }
    ensures none { IfErr result
        (Blames (IsSet (IsNumberOf 64) 0 (texts_named (codes "seed=") words.now))) }
{
    match field_of(words, "seed=") {
        Ok(Some(text)) => u64_of(text),
        Ok(None) => Ok(0),
        Err(fault) => Err(fault),
    }
}

/// The options that the words name, except the seed; those that aren't named are at their default.
pub fn policies_of(words: &[&[u8]]) -> Result<VMOptions, Fault>
    ensures policies { IfOk result (λ options. ArePolicies words.now options) }
    ensures seed { IfOk result (λ options. options.fallback_random_seed
        ≡ default_options.fallback_random_seed) }
    ensures none { IfErr result (Blames (ArePolicies words.now)) }
{
    let implicit_cancellation = cancellation_in(words)?;
    let non_determinism_checks = checks_in(words)?;
    let awaiting_on_policy = awaiting_in(words)?;
    let journal_mismatch_retry_behavior = mismatch_in(words)?;
    let journal_replay = replay_in(words)?;
    let signal_delivery = delivery_in(words)?;
    Ok(VMOptions {
        implicit_cancellation,
        non_determinism_checks,
        awaiting_on_policy,
        journal_mismatch_retry_behavior,
        journal_replay,
        signal_delivery,
        fallback_random_seed: 0,
    })
}

/// Whether the words name options of a `vm` line alone.
fn are_options(words: &[&[u8]]) -> bool
    ensures { result ≡ are_named option_names words.now }
{
    are_named(
        words,
        &[
            "cancel=",
            "checks=",
            "awaiting=",
            "mismatch=",
            "replay=",
            "delivery=",
            "seed=",
        ],
    )
}

/// The options that the words name, and no others.
pub fn options_of(words: &[&[u8]]) -> Result<VMOptions, Fault>
    ensures value { IfOk result (AreOptions words.now) }
    ensures none { IfErr result (Blames (AreOptions words.now)) }
{
    if !are_options(words) {
        return Err(Fault::Malformed);
    }
    let policies = policies_of(words)?;
    let fallback_random_seed = seed_in(words)?;
    Ok(VMOptions {
        fallback_random_seed,
        ..policies
    })
}
