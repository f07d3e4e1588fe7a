//! Policies of retries: `infinite`, `none`, `fixed(..)` or `exp(..)`.
ghost use Rattle.std.specs.Prelude.{◌≡◌, ◌<◌, ◌==◌, codes, length, position, IfErr, IfOk, IfSome};
ghost use Rattle.vm_retries.specs.Policies.{is_pause};
ghost use Rattle.vm_retries.specs.declared.policy.RetryPolicy.TheVariants as policy;
ghost use Rattle.lines.specs.Readings.{Blames};
ghost use Rattle.lines.specs.Fields.{IsOptional, IsRequired, IsSet, are_named, texts_named};
ghost use Rattle.line_parts.specs.Policies.{AreBounds, AreGrowth, IsExponential, IsFixed, IsFraction, IsPolicy, exponential_names, fixed_names, is_slash};
ghost use Rattle.lines.specs.Durations.{IsTime};
ghost use Rattle.line_parts.specs.Values.{words_without};
ghost use Rattle.lines.specs.Words.{IsNumberOf};

use crate::arguments::{optional_duration, without_flag};
use lines::atoms::u32_of;
use lines::durations::duration_of;
use lines::fields::{are_named, field_of, text_behind};
use lines::pieces::words_within;
use plain::Fault;
use std::alloc::Global;
use std::time::Duration;
use vm_retries::{Fraction, OnMaxAttempts, RetryPolicy};

/// What policies with a delay have in common.
#[derive(Drop)]
pub struct Bounds {
    pub interval: Option<Duration>,
    pub max_attempts: Option<u32>,
    pub max_duration: Option<Duration>,
    pub on_max_attempts: OnMaxAttempts,
}

/// A policy whose delay is multiplied.
#[derive(Drop)]
pub struct Growth {
    pub initial: Duration,
    pub factor: Fraction,
    pub bounds: Bounds,
}

/// The place of the first slash.
fn slash_in(text: &[u8]) -> Option<usize>
    ensures place { result ≡ position is_slash text.now }
    ensures within { IfSome result (λ at. at < length text.now) }
{
    text.iter().position(|byte| *byte == b'/')
}

/// `N/N`.
#[tactic(auto, using(crate::proofs::Retrying::slashless_blamed, crate::proofs::Retrying::numerator_blamed, crate::proofs::Retrying::denominator_blamed, crate::proofs::Retrying::zero_blamed))]
fn fraction_of(text: &[u8]) -> Result<Fraction, Fault>
    ensures value { IfOk result (IsFraction text.now) }
    ensures none { IfErr result (Blames (IsFraction text.now)) }
{
    let Some(at) = slash_in(text) else {
        return Err(Fault::Malformed);
    };
    let numerator = u32_of(&text[..at])?;
    let denominator = u32_of(&text[at + 1..])?;
    Fraction::new(numerator, denominator).ok_or(Fault::Malformed)
}

/// `[attempts=N]`, among other words.
#[tactic(auto, using(lines::proofs::Missing::optional_blamed))]
fn attempts_in(words: &[&[u8]]) -> Result<Option<u32>, Fault>
    ensures value { IfOk result
        (IsOptional (IsNumberOf 32) (texts_named (codes "attempts=") words.now)) }
    ensures none { IfErr result
        (Blames (IsOptional (IsNumberOf 32) (texts_named (codes "attempts=") words.now))) }
{
    match field_of(words, "attempts=") {
        Ok(Some(text)) => match u32_of(text) {
            Ok(attempts) => Ok(Some(attempts)),
            Err(fault) => Err(fault),
        },
        Ok(None) => Ok(None),
        Err(fault) => Err(fault),
    }
}

/// `initial=D`, among other words.
#[tactic(auto, using(lines::proofs::Missing::required_blamed, lines::proofs::Missing::required_twice, lines::proofs::Missing::required_missing))]
fn initial_in(words: &[&[u8]]) -> Result<Duration, Fault>
    ensures value { IfOk result (IsRequired IsTime (texts_named (codes "initial=") words.now)) }
    ensures none { IfErr result
        (Blames (IsRequired IsTime (texts_named (codes "initial=") words.now))) }
{
    match field_of(words, "initial=") {
        Ok(Some(text)) => duration_of(text),
        Ok(None) => Err(Fault::Malformed),
        Err(fault) => Err(fault),
    }
}

/// `factor=N/N`, among other words.
#[tactic(auto, using(lines::proofs::Missing::required_blamed, lines::proofs::Missing::required_twice, lines::proofs::Missing::required_missing))]
fn factor_in(words: &[&[u8]]) -> Result<Fraction, Fault>
    ensures value { IfOk result (IsRequired IsFraction (texts_named (codes "factor=") words.now)) }
    ensures none { IfErr result
        (Blames (IsRequired IsFraction (texts_named (codes "factor=") words.now))) }
{
    match field_of(words, "factor=") {
        Ok(Some(text)) => fraction_of(text),
        Ok(None) => Err(Fault::Malformed),
        Err(fault) => Err(fault),
    }
}

/// What is said by `pause`, or by its absence.
fn on_max_attempts(pause: bool) -> OnMaxAttempts
    ensures { is_pause result ≡ pause }
{
    if pause {
        OnMaxAttempts::Pause
    } else {
        OnMaxAttempts::FailAsTerminal
    }
}

/// `[interval=D] [attempts=N] [max=D] [pause]`, among other words; and the words but `pause`.
#[tactic(auto, using(crate::proofs::Retrying::pause_blamed))]
fn bounds_of<'a>(alloc: Global, words: &[&'a [u8]]) -> Result<(Bounds, Vec<&'a [u8]>), Fault>
    ensures bounds { IfOk result (λ found. AreBounds words.now found.0) }
    ensures others { IfOk result (λ found. found.1.items
        ≡ words_without (codes "pause") words.now) }
    ensures none { IfErr result (Blames (AreBounds words.now)) }
{
    let (others, pause) = without_flag(alloc, words, "pause")?;
    let interval = optional_duration(words, "interval=")?;
    let max_attempts = attempts_in(words)?;
    let max_duration = optional_duration(words, "max=")?;
    let bounds = Bounds {
        interval,
        max_attempts,
        max_duration,
        on_max_attempts: on_max_attempts(pause),
    };
    Ok((bounds, others))
}

/// Whether the words name what a policy with a fixed delay may have, and nothing else.
fn are_of_fixed(words: &[&[u8]]) -> bool
    ensures { result ≡ are_named fixed_names words.now }
{
    are_named(words, &["interval=", "attempts=", "max="])
}

/// Whether the words name what a policy with a growing delay may have, and nothing else.
fn are_of_growth(words: &[&[u8]]) -> bool
    ensures { result ≡ are_named exponential_names words.now }
{
    are_named(
        words,
        &["initial=", "factor=", "interval=", "attempts=", "max="],
    )
}

/// The bounds in brackets after `fixed`.
#[tactic(auto, using(crate::proofs::Retrying::fixed_unbracketed, crate::proofs::Retrying::fixed_bounds, crate::proofs::Retrying::fixed_others))]
fn fixed_of(alloc: Global, text: &[u8]) -> Result<Bounds, Fault>
    ensures value { IfOk result (IsFixed text.now) }
    ensures none { IfErr result (Blames (IsFixed text.now)) }
{
    let words = words_within(alloc, text, b'(', b')')?;
    let (bounds, others) = bounds_of(alloc, words.as_slice())?;
    if !are_of_fixed(others.as_slice()) {
        return Err(Fault::Malformed);
    }
    Ok(bounds)
}

/// `initial=D factor=N/N [interval=D] [attempts=N] [max=D] [pause]` alone.
#[tactic(auto, using(crate::proofs::Retrying::initial_blamed, crate::proofs::Retrying::factor_blamed, crate::proofs::Retrying::growth_bounds, crate::proofs::Retrying::growth_others))]
fn growth_among(alloc: Global, words: &[&[u8]]) -> Result<Growth, Fault>
    ensures value { IfOk result (AreGrowth words.now) }
    ensures none { IfErr result (Blames (AreGrowth words.now)) }
{
    let initial = initial_in(words)?;
    let factor = factor_in(words)?;
    let (bounds, others) = bounds_of(alloc, words)?;
    if !are_of_growth(others.as_slice()) {
        return Err(Fault::Malformed);
    }
    Ok(Growth {
        initial,
        factor,
        bounds,
    })
}

/// The growth in brackets after `exp`.
#[tactic(auto, using(crate::proofs::Retrying::growth_unbracketed, crate::proofs::Retrying::growth_blamed))]
fn growth_of(alloc: Global, text: &[u8]) -> Result<Growth, Fault>
    ensures value { IfOk result (IsExponential text.now) }
    ensures none { IfErr result (Blames (IsExponential text.now)) }
{
    let words = words_within(alloc, text, b'(', b')')?;
    let growth = growth_among(alloc, words.as_slice())?;
    Ok(growth)
}

fn fixed(bounds: Bounds) -> RetryPolicy
    ensures { result ≡ policy.FixedDelay bounds.interval bounds.max_attempts bounds.max_duration
        bounds.on_max_attempts }
{
    RetryPolicy::fixed_delay(
        bounds.interval,
        bounds.max_attempts,
        bounds.max_duration,
        bounds.on_max_attempts,
    )
}

fn exponential(growth: Growth) -> RetryPolicy
    ensures { result ≡ policy.Exponential growth.initial growth.factor growth.bounds.interval
        growth.bounds.max_attempts growth.bounds.max_duration growth.bounds.on_max_attempts }
{
    let Growth {
        initial,
        factor,
        bounds,
    } = growth;
    RetryPolicy::exponential(
        initial,
        factor,
        bounds.max_attempts,
        bounds.interval,
        bounds.max_duration,
        bounds.on_max_attempts,
    )
}

/// The policy that a text names.
#[tactic(auto, using(crate::proofs::Retrying::fixed_blamed, crate::proofs::Retrying::exponential_blamed, crate::proofs::Retrying::no_policy))]
fn policy_of(alloc: Global, text: &[u8]) -> Result<RetryPolicy, Fault>
    ensures value { IfOk result (IsPolicy text.now) }
    ensures none { IfErr result (Blames (IsPolicy text.now)) }
{
    if text == b"infinite".as_slice() {
        return Ok(RetryPolicy::Infinite);
    }
    if text == b"none".as_slice() {
        return Ok(RetryPolicy::None);
    }
    if let Some(inside) = text_behind(text, "fixed") {
        return match fixed_of(alloc, inside) {
            Ok(bounds) => Ok(fixed(bounds)),
            Err(fault) => Err(fault),
        };
    }
    if let Some(inside) = text_behind(text, "exp") {
        return match growth_of(alloc, inside) {
            Ok(growth) => Ok(exponential(growth)),
            Err(fault) => Err(fault),
        };
    }
    Err(Fault::Malformed)
}

/// `[policy=P]`, among other words; by default `infinite`.
#[tactic(auto, using(lines::proofs::Missing::set_blamed, lines::proofs::Missing::twice_set))]
pub fn policy_in(alloc: Global, words: &[&[u8]]) -> Result<RetryPolicy, Fault>
    ensures value { IfOk result
        (IsSet IsPolicy policy.Infinite (texts_named (codes "policy=") words.now)) }
    ensures none { IfErr result
        (Blames (IsSet IsPolicy policy.Infinite (texts_named (codes "policy=") words.now))) }
{
    match field_of(words, "policy=") {
        Ok(Some(text)) => policy_of(alloc, text),
        Ok(None) => Ok(RetryPolicy::Infinite),
        Err(fault) => Err(fault),
    }
}
