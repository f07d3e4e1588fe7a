//! Policies of retries, and what they say of an entry that failed.
ghost use Rattle.std.specs.Prelude.{◌≡◌};
ghost use Rattle.std.specs.Duration.{as_nanos};
ghost use Rattle.vm_retries.specs.declared.policy.OnMaxAttempts.TheVariants as on_max;
ghost use Rattle.vm_retries.specs.declared.policy.RetryPolicy.TheVariants as policy;
ghost use Rattle.vm_retries.specs.Policies.{in_nanos, is_exhausted, next_retry, pauses_on_max, when_exhausted};

use crate::fraction::Fraction;
use crate::intervals::delay;
use std::time::Duration;

/// What becomes of a failure once a bound of its policy is reached.
#[derive(Clone, Copy, Debug, PartialEq, Eq)]
pub enum OnMaxAttempts {
    /// It is the entry's result, and isn't retried.
    FailAsTerminal,
    /// The invocation is paused, until someone resumes it.
    Pause,
}

impl Default for OnMaxAttempts {
    ghost is_default = { λ on. on ≡ on_max.FailAsTerminal };

    fn default() -> OnMaxAttempts {
        OnMaxAttempts::FailAsTerminal
    }
}

/// How often and for how long an entry has been tried.
#[derive(Debug, Default, Drop)]
pub struct EntryRetryInfo {
    pub retry_count: u32,
    pub retry_loop_duration: Duration,
}

/// How an entry that failed is retried. An absent bound is none.
#[derive(Clone, Debug, Drop)]
pub enum RetryPolicy {
    /// Without end, after a delay that the runtime chooses.
    Infinite,
    /// Never.
    None,
    /// Always after the same delay; without an interval the runtime chooses it.
    FixedDelay {
        interval: Option<Duration>,
        max_attempts: Option<u32>,
        max_duration: Option<Duration>,
        on_max_attempts: OnMaxAttempts,
    },
    /// After a delay that is multiplied from one attempt to the next, up to a maximum.
    Exponential {
        initial_interval: Duration,
        factor: Fraction,
        max_interval: Option<Duration>,
        max_attempts: Option<u32>,
        max_duration: Option<Duration>,
        on_max_attempts: OnMaxAttempts,
    },
}

impl Default for RetryPolicy {
    ghost is_default = { λ given. given ≡ policy.Infinite };

    fn default() -> RetryPolicy {
        RetryPolicy::Infinite
    }
}

/// What becomes of an entry that failed.
#[derive(Clone, Copy, Debug, PartialEq, Eq)]
pub enum NextRetry {
    /// It is retried after this delay; if there is none, the runtime chooses it.
    Retry(Option<Duration>),
    FailAsTerminal,
    Pause,
}

impl OnMaxAttempts {
    fn next(self) -> NextRetry
        ensures { in_nanos result ≡ when_exhausted self }
    {
        match self {
            OnMaxAttempts::FailAsTerminal => NextRetry::FailAsTerminal,
            OnMaxAttempts::Pause => NextRetry::Pause,
        }
    }
}

impl EntryRetryInfo {
    /// Whether one of the bounds is reached.
    fn exhausts(&self, max_attempts: Option<u32>, max_duration: Option<Duration>) -> bool
        ensures { result ≡ is_exhausted max_attempts max_duration self.now.retry_count
            (as_nanos self.now.retry_loop_duration) }
    {
        let spent = self.retry_loop_duration.as_nanos();
        max_attempts.is_some_and(|most| most <= self.retry_count)
            || max_duration.is_some_and(|most| most.as_nanos() <= spent)
    }
}

impl RetryPolicy {
    /// It takes no memory.
    pub fn fixed_delay(
        interval: Option<Duration>,
        max_attempts: Option<u32>,
        max_duration: Option<Duration>,
        on_max_attempts: OnMaxAttempts,
    ) -> RetryPolicy
        ensures { result ≡ policy.FixedDelay interval max_attempts max_duration on_max_attempts }
    {
        RetryPolicy::FixedDelay {
            interval,
            max_attempts,
            max_duration,
            on_max_attempts,
        }
    }

    /// It takes no memory.
    pub fn exponential(
        initial_interval: Duration,
        factor: Fraction,
        max_attempts: Option<u32>,
        max_interval: Option<Duration>,
        max_duration: Option<Duration>,
        on_max_attempts: OnMaxAttempts,
    ) -> RetryPolicy
        ensures { result ≡ policy.Exponential initial_interval factor max_interval max_attempts
            max_duration on_max_attempts }
    {
        RetryPolicy::Exponential {
            initial_interval,
            factor,
            max_interval,
            max_attempts,
            max_duration,
            on_max_attempts,
        }
    }

    /// Whether the invocation is paused once a bound is reached.
    pub fn should_pause_on_max_attempts(&self) -> bool
        ensures { result ≡ pauses_on_max self.now }
    {
        match self {
            RetryPolicy::FixedDelay {
                on_max_attempts,
                ..
            }
            | RetryPolicy::Exponential {
                on_max_attempts,
                ..
            } => { *on_max_attempts == OnMaxAttempts::Pause }
            RetryPolicy::Infinite | RetryPolicy::None => false,
        }
    }

    /// What becomes of an entry that failed, where it has been tried so often and for so long.
    pub fn next_retry(&self, tried: EntryRetryInfo) -> NextRetry
        ensures { in_nanos result
            ≡ next_retry self.now tried.retry_count (as_nanos tried.retry_loop_duration) }
    {
        match self {
            RetryPolicy::Infinite => NextRetry::Retry(None),
            RetryPolicy::None => NextRetry::FailAsTerminal,
            RetryPolicy::FixedDelay {
                interval,
                max_attempts,
                max_duration,
                on_max_attempts,
            } => {
                if tried.exhausts(*max_attempts, *max_duration) {
                    return on_max_attempts.next();
                }
                NextRetry::Retry(*interval)
            }
            RetryPolicy::Exponential {
                initial_interval,
                factor,
                max_interval,
                max_attempts,
                max_duration,
                on_max_attempts,
            } => {
                if tried.exhausts(*max_attempts, *max_duration) {
                    return on_max_attempts.next();
                }
                NextRetry::Retry(Some(delay(
                    *initial_interval,
                    *factor,
                    *max_interval,
                    tried.retry_count,
                )))
            }
        }
    }
}
