//! The cases.

use crate::frames::Frames;
use crate::player::{Failed, awaits, begin, bytes, done, feed, string, take, take_awaited};
use invocation_vm::{CoreVM, VM};
use plain::{Items, Text};
use std::alloc::Global;
use std::time::Duration;
use vm_retries::RetryPolicy;
use vm_types::{AwaitResponse, PayloadOptions, RunExitResult, Target};

/// Sleeps, and answers nothing of it.
fn sleep(alloc: Global, vm: &mut CoreVM) -> Result<(), Failed> {
    let name = string(alloc, "")?;
    let _ = done(vm.sys_sleep(name, Duration::from_millis(1000), None))?;
    Ok(())
}

/// Each sleep is completed, awaited and taken before the next.
fn sleeps(alloc: Global, n: u32) -> Result<(), Failed> {
    let mut fed = Frames::new(alloc);
    let mut vm = begin(alloc, 1, true, &mut fed)?;
    for i in 1..n.saturating_add(1) {
        sleep(alloc, &mut vm)?;
        fed.completed(i)?;
        feed(alloc, &mut vm, &mut fed)?;
        take_awaited(&mut vm, i.saturating_add(16))?;
    }
    Ok(())
}

/// The same, all of it recorded.
fn replay(alloc: Global, n: u32) -> Result<(), Failed> {
    let mut fed = Frames::new(alloc);
    for i in 1..n.saturating_add(1) {
        fed.sleep(i)?;
        fed.completed(i)?;
    }
    let known = n.saturating_mul(2).saturating_add(1);
    let mut vm = begin(alloc, known, true, &mut fed)?;
    for i in 1..n.saturating_add(1) {
        sleep(alloc, &mut vm)?;
        take_awaited(&mut vm, i.saturating_add(16))?;
    }
    Ok(())
}

/// A signal of one name: each handle takes the next delivery.
fn signals(alloc: Global, n: u32) -> Result<(), Failed> {
    let mut fed = Frames::new(alloc);
    let mut vm = begin(alloc, 1, true, &mut fed)?;
    for _ in 0..n {
        fed.delivered()?;
    }
    feed(alloc, &mut vm, &mut fed)?;
    for i in 1..n.saturating_add(1) {
        let _ = done(vm.create_signal_handle(string(alloc, "a")?))?;
        take_awaited(&mut vm, i.saturating_add(16))?;
    }
    Ok(())
}

/// A key is set, got and taken.
fn set_and_get(alloc: Global, vm: &mut CoreVM, key: &str, handle: u32) -> Result<(), Failed> {
    let stable = PayloadOptions::stable_serialization();
    let value = bytes(alloc, "value")?;
    done(vm.sys_state_set(string(alloc, key)?, value, None, stable))?;
    let stable = PayloadOptions::stable_serialization();
    let _ = done(vm.sys_state_get(string(alloc, key)?, None, stable))?;
    take(vm, handle)
}

/// Keys that are set, got and taken.
fn state(alloc: Global, n: u32) -> Result<(), Failed> {
    let mut fed = Frames::new(alloc);
    let mut vm = begin(alloc, 1, false, &mut fed)?;
    for i in 1..n.saturating_add(1) {
        let key = format!(in alloc; "key{i}")?;
        set_and_get(alloc, &mut vm, key.as_str(), i.saturating_add(16))?;
    }
    Ok(())
}

/// Which handler is called.
fn target(alloc: Global) -> Result<Target, Failed> {
    Ok(Target {
        service: Text::from_str(alloc, "Service")?,
        handler: Text::from_str(alloc, "handler")?,
        key: Some(Text::from_str(alloc, "k")?),
        idempotency_key: None,
        scope: None,
        limit_key: None,
        headers: Items::new(alloc),
    })
}

/// A call of another handler.
fn call(alloc: Global, vm: &mut CoreVM) -> Result<(), Failed> {
    let target = target(alloc)?;
    let parameter = bytes(alloc, "parameter")?;
    let stable = PayloadOptions::stable_serialization();
    let _ = done(vm.sys_call(target, parameter, None, stable))?;
    Ok(())
}

/// Calls, and the invocation's id and the result of each.
fn calls(alloc: Global, n: u32) -> Result<(), Failed> {
    let mut fed = Frames::new(alloc);
    let mut vm = begin(alloc, 1, true, &mut fed)?;
    for i in 0..n {
        call(alloc, &mut vm)?;
        let id = i.saturating_mul(2).saturating_add(1);
        fed.completed_by(id, 4, "inv")?;
        fed.completed_by(id.saturating_add(1), 1, "result")?;
    }
    feed(alloc, &mut vm, &mut fed)?;
    for i in 1..n.saturating_mul(2).saturating_add(1) {
        take_awaited(&mut vm, i.saturating_add(16))?;
    }
    Ok(())
}

/// A run is executed, and its result is proposed.
fn run(alloc: Global, vm: &mut CoreVM) -> Result<u32, Failed> {
    let handle = done(vm.sys_run(string(alloc, "charge")?))?.handle;
    let AwaitResponse::ExecuteRun(_) = awaits(vm, handle.0)? else {
        return Err(Failed);
    };
    let settled = RunExitResult::Success(bytes(alloc, "result")?);
    done(vm.propose_run_completion(handle, settled, RetryPolicy::Infinite))?;
    Ok(handle.0)
}

/// Runs that are executed, proposed, acknowledged, awaited and taken.
fn runs(alloc: Global, n: u32) -> Result<(), Failed> {
    let mut fed = Frames::new(alloc);
    let mut vm = begin(alloc, 1, true, &mut fed)?;
    for i in 1..n.saturating_add(1) {
        let handle = run(alloc, &mut vm)?;
        fed.acknowledged(i)?;
        feed(alloc, &mut vm, &mut fed)?;
        take_awaited(&mut vm, handle)?;
    }
    Ok(())
}

/// Plays the case of this name.
pub(crate) fn play(alloc: Global, case: &str, entries: u32) -> Result<(), Failed> {
    match case {
        "sleeps" => sleeps(alloc, entries),
        "replay" => replay(alloc, entries),
        "signals" => signals(alloc, entries),
        "state" => state(alloc, entries),
        "calls" => calls(alloc, entries),
        "runs" => runs(alloc, entries),
        _ => Err(Failed),
    }
}
