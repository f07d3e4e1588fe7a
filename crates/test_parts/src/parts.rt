// The small public types, when they are copied or shown. Conversions, names and defaults are in their contracts.
use crate::trees::rows::{expect, texts_of};
use await_trees::{NotificationHandle, UnresolvedFuture};
use plain::{Items, Text};
use std::alloc::{AllocError, Global};
use std::test::Fail;
use vm_types::{CommandType, NonEmptyValue, RunHandle, TerminalFailure, Value};

fn is_failure(value: &Value, code: u16, text: &str) -> bool {
    match value {
        Value::Failure(failure) => failure.code == code && failure.message.as_str() == text,
        _ => false,
    }
}

#[test]
fn failures_are_copied(rt: HostRuntime) -> Result<(), Fail> {
    let failure = TerminalFailure {
        code: 409,
        message: Text::from_str(rt.alloc(), "no")?,
        metadata: Items::new(rt.alloc()),
    };
    let failed = Value::from(NonEmptyValue::Failure(failure));
    let copy = failed.clone()?;
    assert!(rt; is_failure(&copy, 409, "no"));
    Ok(())
}

#[test]
fn future_is_shown_by_its_number(rt: HostRuntime) -> Result<(), Fail> {
    let future = UnresolvedFuture::from(NotificationHandle(17));
    let texts = texts_of(rt.alloc(), &future);
    drop(future);
    let (text, text_of_copy) = texts?;
    expect("a future", text.as_str(), "17")?;
    expect("its copy", text_of_copy.as_str(), "17")
}

static COMMANDS: [(CommandType, &str); 19] = [
    (CommandType::Input, "handler input"),
    (CommandType::Output, "handler return"),
    (CommandType::GetState, "get state"),
    (CommandType::GetStateKeys, "get state keys"),
    (CommandType::SetState, "set state"),
    (CommandType::ClearState, "clear state"),
    (CommandType::ClearAllState, "clear all state"),
    (CommandType::GetPromise, "get promise"),
    (CommandType::PeekPromise, "peek promise"),
    (CommandType::CompletePromise, "complete promise"),
    (CommandType::Sleep, "sleep"),
    (CommandType::Call, "call"),
    (CommandType::OneWayCall, "one way call/send"),
    (CommandType::SendSignal, "send signal"),
    (CommandType::Run, "run"),
    (CommandType::AttachInvocation, "attach invocation"),
    (CommandType::GetInvocationOutput, "get invocation output"),
    (CommandType::CompleteAwakeable, "complete awakeable"),
    (CommandType::CancelInvocation, "cancel invocation"),
];

fn has_text(alloc: Global, command: CommandType, text: &str) -> Result<bool, AllocError> {
    let shown = command.to_string(alloc)?;
    Ok(shown.as_str() == text)
}

#[test]
fn commands_have_texts(rt: HostRuntime) -> Result<(), Fail> {
    for (command, text) in &COMMANDS {
        assert!(rt; has_text(rt.alloc(), *command, text)?, "{text}");
    }
    Ok(())
}

#[test]
fn handles_of_runs_are_copied(rt: HostRuntime) -> Result<(), Fail> {
    let handle = RunHandle {
        replayed: true,
        handle: NotificationHandle(17),
    };
    let copy = handle.clone()?;
    assert!(rt; copy == handle);
    Ok(())
}
