//! The handler `counter`: it counts its own calls in the state "count", and answers the count.
ghost use Rattle.std.specs.Prelude.{◌≡◌, ◌<◌, ◌^◌, IfOk, codes, false, length, slice_get, true};
ghost use Rattle.std.specs.Str.Parse.{without_leading_plus};
ghost use Rattle.handlers.specs.Counter.{count_in, count_of, count_of_value, next_count};

use crate::answers::{cancelled_output, handle_at, is_cancelled_at};
use await_trees::UnresolvedFuture;
use bytes::Bytes;
use plain::Text;
use std::alloc::{AllocError, Global};
use vm_types::{Answer, Handler, NonEmptyValue, PayloadOptions, Step, Value};

/// Reads the count, awaits and takes it, writes the number that follows, and answers it.
#[derive(Debug, Drop)]
pub struct Counter {
    pub alloc: Global,
}

/// The first byte is a decimal digit.
fn begins_with_digit(bytes: &[u8]) -> bool
    ensures some { result ≡ true → 0 < length bytes.now }
    ensures unsigned { result ≡ true → without_leading_plus bytes.now ≡ bytes.now }
    ensures none { result ≡ false → count_in bytes.now ≡ 0 }
{
    matches!(bytes, [b'0'..=b'9', ..])
}

/// The number of 1 to 18 decimal digits; 0 of all other bytes.
fn count_in(bytes: &[u8]) -> u64
    ensures value { result ≡ count_in bytes.now }
    ensures fits { result < 10 ^ 18 }
{
    if bytes.len() > 18 || !begins_with_digit(bytes) {
        return 0;
    }
    match std::str::from_utf8(bytes) {
        Ok(digits) => digits.parse().unwrap_or(0),
        Err(_) => 0,
    }
}

/// The count of a value.
fn count_of_value(value: &Value) -> u64
    ensures value { result ≡ count_of_value value.now }
    ensures fits { result < 10 ^ 18 }
{
    match value {
        Value::Success(bytes) => count_in(bytes.as_slice()),
        _ => 0,
    }
}

/// The count that was taken, at this place.
fn count_at(answers: &[Answer], place: usize) -> u64
    ensures value { result ≡ count_of (slice_get answers.now place) }
    ensures fits { result < 10 ^ 18 }
{
    match answers.get(place) {
        Some(Answer::Taken(Some(value))) => count_of_value(value),
        _ => 0,
    }
}

/// The count and one, in decimal.
fn next_count(alloc: Global, answers: &[Answer]) -> Result<Bytes, AllocError>
    ensures { IfOk result (λ bytes. bytes ≡ next_count answers.now) }
{
    let next = count_at(answers, 3) + 1;
    let text = format!(in alloc; "{next}")?;
    Ok(Bytes::from_vec(text.into_bytes())?)
}

impl Counter {
    fn count(&self) -> Result<Text, AllocError>
        ensures { IfOk result (λ key. key ≡ codes "count") }
    {
        Text::from_str(self.alloc, "count")
    }
}

impl Handler for Counter {
    ghost use Rattle.handlers.specs.Counter.{counter_step};

    ghost meaning = { λ h. counter_step };

    fn next(&self, answers: &[Answer]) -> Result<Step, AllocError> {
        let options = PayloadOptions::stable_serialization();
        match answers.len() {
            1 => Ok(Step::StateGet {
                key: self.count()?,
                name: None,
                options,
            }),
            2 => Ok(Step::Await(UnresolvedFuture::Single(handle_at(answers, 1)))),
            3 => {
                if is_cancelled_at(answers, 2) {
                    return cancelled_output(self.alloc);
                }
                Ok(Step::Take(handle_at(answers, 1)))
            }
            4 => {
                if is_cancelled_at(answers, 2) {
                    return Ok(Step::End);
                }
                Ok(Step::StateSet {
                    key: self.count()?,
                    value: next_count(self.alloc, answers)?,
                    name: None,
                    options,
                })
            }
            5 => {
                let count = next_count(self.alloc, answers)?;
                Ok(Step::WriteOutput(NonEmptyValue::Success(count), options))
            }
            _ => Ok(Step::End),
        }
    }
}
