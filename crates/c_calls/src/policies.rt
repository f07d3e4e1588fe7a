//! Policies of retries that C gives.
ghost use Rattle.std.specs.Prelude.{◌≡◌};
ghost use Rattle.std.specs.Option.{MatchOption};
ghost use Rattle.vm_retries.specs.Policies.{is_pause};
ghost use Rattle.c_calls.specs.Policies.{IsNoPolicy, IsPolicyOf, given_attempts};

use crate::given::{optional_span, span_of};
use vm_retries::{Fraction, OnMaxAttempts, RetryPolicy};

/// When a run that failed is tried again. Spans are in milliseconds.
#[repr(C)]
#[derive(Clone, Copy)]
pub struct GivenPolicy {
    /// 0: always. 1: never. 2: after the same delay each time. 3: after a growing delay.
    pub kind: u32,
    /// Of a growing delay: the first one, and by which factor it grows.
    pub initial_millis: u64,
    pub numerator: u32,
    pub denominator: u32,
    /// The delay; of a growing one the longest.
    pub has_interval: bool,
    pub interval_millis: u64,
    /// The most attempts.
    pub has_attempts: bool,
    pub attempts: u32,
    /// The longest time for all of them.
    pub has_duration: bool,
    pub duration_millis: u64,
    /// At one of these bounds the invocation pauses; else the failure is the run's result.
    pub pauses: bool,
}

fn on_max(pauses: bool) -> OnMaxAttempts
    ensures { is_pause result ≡ pauses }
{
    if pauses {
        OnMaxAttempts::Pause
    } else {
        OnMaxAttempts::FailAsTerminal
    }
}

fn attempts_of(given: &GivenPolicy) -> Option<u32>
    ensures { result ≡ given_attempts given.now }
{
    if given.has_attempts {
        Some(given.attempts)
    } else {
        None
    }
}

/// A policy with the same delay each time.
fn fixed(given: &GivenPolicy) -> RetryPolicy
    requires { given.now.kind ≡ 2 }
    ensures { IsPolicyOf given.now result }
{
    RetryPolicy::FixedDelay {
        interval: optional_span(given.has_interval, given.interval_millis),
        max_attempts: attempts_of(given),
        max_duration: optional_span(given.has_duration, given.duration_millis),
        on_max_attempts: on_max(given.pauses),
    }
}

/// A policy with a growing delay, unless its factor is none.
fn growing(given: &GivenPolicy) -> Option<RetryPolicy>
    requires { given.now.kind ≡ 3 }
    ensures { MatchOption result (IsNoPolicy given.now) (IsPolicyOf given.now) }
{
    match Fraction::new(given.numerator, given.denominator) {
        Some(factor) => Some(RetryPolicy::Exponential {
            initial_interval: span_of(given.initial_millis),
            factor,
            max_interval: optional_span(given.has_interval, given.interval_millis),
            max_attempts: attempts_of(given),
            max_duration: optional_span(given.has_duration, given.duration_millis),
            on_max_attempts: on_max(given.pauses),
        }),
        None => None,
    }
}

/// The policy, unless a number names none.
pub(crate) fn policy_of(given: &GivenPolicy) -> Option<RetryPolicy>
    ensures { MatchOption result (IsNoPolicy given.now) (IsPolicyOf given.now) }
{
    match given.kind {
        0 => Some(RetryPolicy::Infinite),
        1 => Some(RetryPolicy::None),
        2 => Some(fixed(given)),
        3 => growing(given),
        _ => None,
    }
}
