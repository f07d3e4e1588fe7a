//! Calls of other handlers, and what a handler awaits two results by.
ghost use Rattle.std.specs.Prelude.{◌≡◌, IfOk};
ghost use Rattle.handlers.specs.Calls.{two_awaited, plain_call, call_until, plain_target};

use await_trees::{NotificationHandle, UnresolvedFuture};
use bytes::Bytes;
use plain::{Items, Text};
use std::alloc::{AllocError, Global};
use std::time::Duration;
use vm_types::{Boxed, PayloadOptions, Step, Target};

/// A service's handler, without a key.
fn target(alloc: Global, service: &str, handler: &str) -> Result<Target, AllocError>
    ensures { IfOk result (λ target. target ≡ plain_target service.now handler.now) }
{
    Ok(Target {
        service: Text::from_str(alloc, service)?,
        handler: Text::from_str(alloc, handler)?,
        key: None,
        idempotency_key: None,
        scope: None,
        limit_key: None,
        headers: Items::new(alloc),
    })
}

/// The call of a service's handler, without a key.
pub fn call(alloc: Global, service: &str, handler: &str, input: Bytes) -> Result<Step, AllocError>
    ensures { IfOk result (λ step. step ≡ plain_call service.now handler.now input) }
{
    let target = target(alloc, service, handler)?;
    Ok(Step::Call {
        target: Boxed::new(alloc, target)?,
        input,
        name: None,
        options: PayloadOptions::stable_serialization(),
    })
}

/// The same with a deadline, since the Unix epoch.
pub fn call_until(
    alloc: Global,
    service: &str,
    handler: &str,
    input: Bytes,
    time: Duration,
) -> Result<Step, AllocError>
    ensures { IfOk result (λ step. step ≡ call_until service.now handler.now input time) }
{
    let target = target(alloc, service, handler)?;
    Ok(Step::CallWithDeadline {
        target: Boxed::new(alloc, target)?,
        input,
        wake_up_time_since_unix_epoch: time,
        name: None,
        options: PayloadOptions::stable_serialization(),
    })
}

/// Two handles, to be awaited together.
pub fn two_awaited(
    alloc: Global,
    first: NotificationHandle,
    second: NotificationHandle,
) -> Result<Items<UnresolvedFuture>, AllocError>
    ensures { IfOk result (λ row. row ≡ two_awaited first second) }
{
    let mut row = Items::new(alloc);
    row.push(UnresolvedFuture::Single(first))?;
    row.push(UnresolvedFuture::Single(second))?;
    Ok(row)
}
