//! What is done after an error, as C gets it.
ghost use Rattle.std.specs.Prelude.{◌≡◌};
ghost use Rattle.c_sessions.specs.Retries.{delay_code, no_retry, retry_of, retry_told, whole_millis};

use c_values::{Status, behavior_code};
use journal_protocol::Error;
use std::time::Duration;
use vm_types::Reply;

/// What is done after an error: how the call ended that asks for it, what comes of the invocation, and the delay of the next try, in milliseconds.
#[repr(C)]
#[derive(Clone, Copy, Debug)]
pub struct Retry {
    pub status: u32,
    pub behavior: u32,
    pub has_delay: bool,
    pub delay_millis: u64,
}

/// Whole milliseconds, as far as they go.
fn whole_millis(delay: Duration) -> u64
    ensures { result ≡ whole_millis delay }
{
    u64::try_from(delay.as_millis()).unwrap_or(u64::MAX)
}

/// The milliseconds of a delay, 0 without one.
fn delay_code(delay: Option<Duration>) -> u64
    ensures { result ≡ delay_code delay }
{
    match delay {
        Some(delay) => whole_millis(delay),
        None => 0,
    }
}

/// What is done after this error.
fn retry_of(error: &Error) -> Retry
    ensures { result ≡ retry_of error.now }
{
    Retry {
        status: Status::Done.code(),
        behavior: behavior_code(error.behavior),
        has_delay: error.next_retry_delay.is_some(),
        delay_millis: delay_code(error.next_retry_delay),
    }
}

/// Why nothing is known.
pub(crate) fn no_retry(status: Status) -> Retry
    ensures { result ≡ no_retry status }
{
    Retry {
        status: status.code(),
        behavior: 0,
        has_delay: false,
        delay_millis: 0,
    }
}

/// What is done after the error that a reply is.
pub(crate) fn tell_retry(reply: &Reply) -> Retry
    ensures { result ≡ retry_told reply.now }
{
    match reply {
        Reply::Refused(error) => retry_of(error),
        _ => no_retry(Status::NoPart),
    }
}
