//! What a handler asks for next, and what it was answered.

use crate::boxed::Boxed;
use crate::options::PayloadOptions;
use crate::types::{AwakeableHandle, CallHandle, DeadlineCallHandle, SendHandle};
use crate::values::{Input, NonEmptyValue, Target, Value};
use await_trees::{NotificationHandle, UnresolvedFuture};
use bytes::Bytes;
use journal_calls::InvocationTarget;
use plain::Text;
use std::time::Duration;

/// The next call of a handler, with its arguments.
#[derive(Debug, Drop)]
pub enum Step {
    Sleep {
        name: Text,
        wake_up_time_since_unix_epoch: Duration,
        now_since_unix_epoch: Option<Duration>,
    },
    StateSet {
        key: Text,
        value: Bytes,
        name: Option<Text>,
        options: PayloadOptions,
    },
    StateClear {
        key: Text,
        name: Option<Text>,
    },
    StateClearAll {
        name: Option<Text>,
    },
    StateGet {
        key: Text,
        name: Option<Text>,
        options: PayloadOptions,
    },
    StateGetKeys {
        name: Option<Text>,
    },
    Call {
        target: Boxed<Target>,
        input: Bytes,
        name: Option<Text>,
        options: PayloadOptions,
    },
    /// A call, and after it a sleep until its deadline.
    CallWithDeadline {
        target: Boxed<Target>,
        input: Bytes,
        wake_up_time_since_unix_epoch: Duration,
        name: Option<Text>,
        options: PayloadOptions,
    },
    Send {
        target: Boxed<Target>,
        input: Bytes,
        execution_time_since_unix_epoch: Option<Duration>,
        name: Option<Text>,
        options: PayloadOptions,
    },
    Awakeable,
    Signal {
        name: Text,
    },
    CompleteAwakeable {
        id: Text,
        value: NonEmptyValue,
        options: PayloadOptions,
    },
    CompleteSignal {
        target_invocation_id: Text,
        signal_name: Text,
        value: NonEmptyValue,
    },
    CancelInvocation {
        target_invocation_id: Text,
    },
    GetPromise {
        key: Text,
    },
    PeekPromise {
        key: Text,
    },
    CompletePromise {
        key: Text,
        value: NonEmptyValue,
        options: PayloadOptions,
    },
    Run {
        name: Text,
    },
    AttachInvocation(Boxed<InvocationTarget>),
    GetInvocationOutput(Boxed<InvocationTarget>),
    WriteOutput(NonEmptyValue, PayloadOptions),
    Await(UnresolvedFuture),
    Take(NotificationHandle),
    Completed(NotificationHandle),
    End,
}

/// The answer to a call of a handler; the first is its input.
#[derive(Debug, Drop)]
pub enum Answer {
    Input(Input),
    Handle(NotificationHandle),
    Call(CallHandle),
    CallWithDeadline(DeadlineCallHandle),
    Send(SendHandle),
    Awakeable(AwakeableHandle),
    Unit,
    Awake,
    Cancelled,
    Taken(Option<Value>),
    Completed(bool),
}
