//! What a VM and a single call may be asked to do in another way.
ghost use Rattle.std.specs.Prelude.{◌≡◌, true, false};
ghost use Rattle.vm_types.specs.Options.{default_options};
ghost use Rattle.vm_types.specs.declared.options.AwaitingOnPolicy.TheVariants as awaiting;
ghost use Rattle.vm_types.specs.declared.options.JournalMismatchRetryBehavior.TheVariants as mismatch;
ghost use Rattle.vm_types.specs.declared.options.JournalReplay.TheVariants as replay;
ghost use Rattle.vm_types.specs.declared.options.NonDeterministicChecksOption.TheVariants as checks;

use journal_values::SignalDelivery;

/// How the payload of one call is compared in replay.
#[derive(Clone, Copy, Debug)]
pub struct PayloadOptions {
    /// The payload's bytes may differ from one attempt to the next, so replay doesn't compare them.
    pub unstable_serialization: bool,
}

impl PayloadOptions {
    pub fn stable_serialization() -> PayloadOptions
        ensures { result ≡ record { unstable_serialization = false } }
    {
        PayloadOptions {
            unstable_serialization: false,
        }
    }

    pub fn unstable_serialization() -> PayloadOptions
        ensures { result ≡ record { unstable_serialization = true } }
    {
        PayloadOptions {
            unstable_serialization: true,
        }
    }
}

impl Default for PayloadOptions {
    ghost is_default = { λ options. options ≡ record { unstable_serialization = false } };

    fn default() -> PayloadOptions {
        PayloadOptions::stable_serialization()
    }
}

/// Whether the built-in cancel signal ends awaits.
#[derive(Clone, Copy, Debug)]
pub enum ImplicitCancellationOption {
    Disabled,
    Enabled {
        cancel_children_calls: bool,
        cancel_children_one_way_calls: bool,
    },
}

/// Whether replay compares payloads.
#[derive(Clone, Copy, Debug)]
pub enum NonDeterministicChecksOption {
    PayloadChecksDisabled,
    Enabled,
}

/// When an await that waits for input says what it waits for.
#[derive(Clone, Copy, Debug)]
pub enum AwaitingOnPolicy {
    SendAlways,
    DontSendWhenExecutingRun,
    DontSend,
}

/// What becomes of an invocation whose journal doesn't fit its handler.
#[derive(Clone, Copy, Debug)]
pub enum JournalMismatchRetryBehavior {
    Pause,
    FailTerminally,
    FollowRetryPolicy,
}

/// Whether recorded commands are replayed or skipped.
#[derive(Clone, Copy, Debug, PartialEq, Eq)]
pub enum JournalReplay {
    Enabled,
    Disabled,
}

#[derive(Clone, Copy, Debug)]
pub struct VMOptions {
    pub implicit_cancellation: ImplicitCancellationOption,
    pub non_determinism_checks: NonDeterministicChecksOption,
    pub awaiting_on_policy: AwaitingOnPolicy,
    pub journal_mismatch_retry_behavior: JournalMismatchRetryBehavior,
    pub journal_replay: JournalReplay,
    pub signal_delivery: SignalDelivery,
    /// The handler's random seed where the protocol's version hands none out.
    pub fallback_random_seed: u64,
}

impl Default for NonDeterministicChecksOption {
    ghost is_default = { λ option. option ≡ checks.Enabled };

    fn default() -> NonDeterministicChecksOption {
        NonDeterministicChecksOption::Enabled
    }
}

impl Default for AwaitingOnPolicy {
    ghost is_default = { λ policy. policy ≡ awaiting.DontSendWhenExecutingRun };

    fn default() -> AwaitingOnPolicy {
        AwaitingOnPolicy::DontSendWhenExecutingRun
    }
}

impl Default for JournalMismatchRetryBehavior {
    ghost is_default = { λ behavior. behavior ≡ mismatch.FollowRetryPolicy };

    fn default() -> JournalMismatchRetryBehavior {
        JournalMismatchRetryBehavior::FollowRetryPolicy
    }
}

impl Default for JournalReplay {
    ghost is_default = { λ option. option ≡ replay.Enabled };

    fn default() -> JournalReplay {
        JournalReplay::Enabled
    }
}

impl Default for VMOptions {
    ghost is_default = { λ options. options ≡ default_options };

    fn default() -> VMOptions {
        VMOptions {
            implicit_cancellation: ImplicitCancellationOption::Enabled {
                cancel_children_calls: true,
                cancel_children_one_way_calls: false,
            },
            non_determinism_checks: NonDeterministicChecksOption::Enabled,
            awaiting_on_policy: AwaitingOnPolicy::DontSendWhenExecutingRun,
            journal_mismatch_retry_behavior: JournalMismatchRetryBehavior::FollowRetryPolicy,
            journal_replay: JournalReplay::Enabled,
            signal_delivery: SignalDelivery::Queued,
            fallback_random_seed: 0,
        }
    }
}
