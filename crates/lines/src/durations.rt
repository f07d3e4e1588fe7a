//! Durations as they are written on a line.
ghost use Rattle.std.specs.Prelude.{◌≡◌, ◌≢◌, ◌<◌, ◌≤◌, ◌*◌, ◌^◌, ◌++◌, List, ℕ, codes, MatchOption, IfOk, IfErr, IfSome, IfNone};
ghost use Rattle.std.specs.Duration.{as_nanos, max_nanos};
ghost use Rattle.std.specs.Str.Parse.{IsNumeral, digits_value};
ghost use Rattle.lines.specs.Readings.{Blames};
ghost use Rattle.lines.specs.Durations.{IsTime};

use crate::atoms::number_of;
use plain::Fault;
use std::time::Duration;

/// The number of decimal digits, which may be longer than a `u64`.
fn long_number_of(digits: &[u8]) -> Option<u128>
    ensures digits { IfSome result (λ _. IsNumeral 10 digits.now) }
    ensures value { IfSome result (λ number. number ≡ digits_value 10 digits.now) }
    ensures none { IfNone result (IsNumeral 10 digits.now → 2 ^ 128 ≤ digits_value 10 digits.now) }
{
    if let Some(number) = number_of(digits) {
        return Some(u128::from(number));
    }
    match digits {
        [b'0'..=b'9', ..] => std::str::from_utf8(digits).ok()?.parse().ok(),
        _ => None,
    }
}

/// A duration of whole nanoseconds.
fn nanoseconds(number: u128) -> Option<Duration>
    ensures value { IfSome result (λ duration. as_nanos duration ≡ number) }
    ensures none { IfNone result (max_nanos < number) }
{
    let seconds = u64::try_from(number / 1_000_000_000).ok()?;
    Some(Duration::new(seconds, (number % 1_000_000_000) as u32))
}

/// A duration of whole milliseconds.
fn milliseconds(number: u128) -> Option<Duration>
    ensures value { IfSome result (λ duration. as_nanos duration ≡ number * 1_000_000) }
    ensures none { IfNone result (max_nanos < number * 1_000_000) }
{
    let seconds = u64::try_from(number / 1000).ok()?;
    Some(Duration::new(seconds, (number % 1000) as u32 * 1_000_000))
}

/// A duration, from the decimal digits of its nanoseconds.
fn nanoseconds_of(digits: &[u8]) -> Option<Duration>
    ensures digits { IfSome result (λ _. IsNumeral 10 digits.now) }
    ensures value { IfSome result (λ duration. as_nanos duration ≡ digits_value 10 digits.now) }
    ensures none { IfNone result (IsNumeral 10 digits.now
        → max_nanos < digits_value 10 digits.now) }
{
    let number = long_number_of(digits)?;
    nanoseconds(number)
}

/// A duration, from the decimal digits of its milliseconds.
fn milliseconds_of(digits: &[u8]) -> Option<Duration>
    ensures digits { IfSome result (λ _. IsNumeral 10 digits.now) }
    ensures value { IfSome result (λ duration. as_nanos duration
        ≡ digits_value 10 digits.now * 1_000_000) }
    ensures none { IfNone result (IsNumeral 10 digits.now
        → max_nanos < digits_value 10 digits.now * 1_000_000) }
{
    let number = long_number_of(digits)?;
    milliseconds(number)
}

/// What stands in front of `ns`, if the text ends so.
fn before_ns(text: &[u8]) -> Option<&[u8]>
    ensures { MatchOption result ((front : List ℕ) → text.now ≢ front
        ++ codes "ns") (λ front. text.now ≡ front.now ++ codes "ns") }
{
    text.strip_suffix(b"ns")
}

/// A number of milliseconds, or of nanoseconds with `ns` right after it.
#[tactic(auto, using(crate::proofs::Timing::nanos_is, crate::proofs::Timing::millis_is, crate::proofs::Timing::nanos_blamed, crate::proofs::Timing::millis_blamed))]
pub fn duration_of(text: &[u8]) -> Result<Duration, Fault>
    ensures value { IfOk result (IsTime text.now) }
    ensures none { IfErr result (Blames (IsTime text.now)) }
{
    let Some(digits) = before_ns(text) else {
        return milliseconds_of(text).ok_or(Fault::Malformed);
    };
    nanoseconds_of(digits).ok_or(Fault::Malformed)
}
