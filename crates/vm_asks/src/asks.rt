//! What each step of a handler asks of the machine: one table over steps. A command is given without its numbers.
ghost use Rattle.std.specs.Prelude.{◌≡◌, ◌+◌, ◌<◌, ◌^◌, ◌/◌, min};
ghost use Rattle.std.specs.Duration.{as_nanos};
ghost use Rattle.std.specs.Option.{option_copied};
ghost use Rattle.vm_asks.specs.Asks.{AnswerFits, HandlesFit, answer_by, answer_kind, ask_of, attach_invocation_command, call_command, call_handles, cancel_invocation_command, clear_all_state_command, clear_state_command, complete_awakeable_command, complete_promise_command, complete_signal_command, deadline_handles, early_fault, empty_fault, get_invocation_output_command, get_promise_command, has_metadata, millis_of, name_in, output_command, peek_promise_command, request_of, run_command, scope_fault, scope_of, send_command, send_handle, set_state_command, signal_result, sleep_command, target_fault, time_fault, value_fault};
ghost use Rattle.vm_asks.specs.Requests.{ids_of};

use crate::command::Command;
use crate::request;
use crate::state_read::StateRead;
use await_trees::{NotificationHandle, UnresolvedFuture};
use bytes::Bytes;
use journal_protocol::{
    CallCommand, CallRequest, ClearAllStateCommand, ClearStateCommand, CompleteAwakeableCommand,
    CompletePromiseCommand, InvocationCommand, InvocationTarget, Message, NamedFault,
    OneWayCallCommand, OutputCommand, PromiseCommand, RunCommand, SendSignalCommand,
    SetStateCommand, Signal, SignalResult, SleepCommand, ValueOrFailure, Version,
};
use plain::Text;
use std::alloc::Global;
use std::time::Duration;
use vm_state::StateKey;
use vm_types::values::write_value;
use vm_types::{
    Answer, CallHandle, DeadlineCallHandle, NonEmptyValue, PayloadOptions, SendHandle, Step, Target,
};

/// What a step asks for.
#[derive(Drop)]
pub enum Ask {
    Command(Command),
    /// Two commands, the second after the first, and how the call is answered, by the first one's handle.
    Commands(AnswerKind, Command, Command),
    /// A read of the state.
    Read(StateRead),
    Awakeable,
    /// A handle for the signal of this name.
    Signal(Text),
    Await(UnresolvedFuture),
    Take(NotificationHandle),
    Completed(NotificationHandle),
    End,
}

/// The built-in signal that cancels an invocation.
const CANCEL_SIGNAL: u32 = 1;

fn has_metadata(value: &NonEmptyValue) -> bool
    ensures { result ≡ has_metadata value.now }
{
    match value {
        NonEmptyValue::Success(_) => false,
        NonEmptyValue::Failure(failure) => !failure.metadata.as_slice().is_empty(),
    }
}

/// Why a value can't be sent in this version.
fn value_fault(value: &NonEmptyValue, version: Version) -> Option<NamedFault>
    ensures { result ≡ value_fault value.now version }
{
    if has_metadata(value) && version < Version::V6 {
        Some(NamedFault::UnsupportedFeatureForNegotiatedVersion)
    } else {
        None
    }
}

/// A result, as a signal's.
fn signal_result(value: ValueOrFailure) -> SignalResult
    ensures { result ≡ signal_result value }
{
    match value {
        ValueOrFailure::Value(bytes) => SignalResult::Value(bytes),
        ValueOrFailure::Failure(failure) => SignalResult::Failure(failure),
    }
}

/// An absent name is empty.
fn name_in(alloc: Global, name: Option<Text>) -> Text
    ensures { result ≡ name_in name }
{
    match name {
        Some(name) => name,
        None => Text::empty(alloc),
    }
}

/// A time in whole milliseconds, as far as a `u64` goes, and why it can't be sent.
fn whole_millis(time: Duration) -> (Option<NamedFault>, u64)
    ensures fault { result.0 ≡ time_fault (as_nanos time / 1_000_000) }
    ensures millis { result.1 ≡ min (as_nanos time / 1_000_000) 18446744073709551615 }
{
    let millis = time.as_millis();
    if millis > u64::MAX as u128 {
        (Some(NamedFault::OutOfBoundsDuration), u64::MAX)
    } else {
        (None, millis as u64)
    }
}

pub fn sleep(name: Text, wake_up_time: Duration) -> Command
    ensures { result ≡ sleep_command (as_nanos wake_up_time / 1_000_000) name }
{
    let (refusal, wake_up_time) = whole_millis(wake_up_time);
    Command {
        refusal,
        message: Message::Sleep(SleepCommand {
            wake_up_time,
            result_completion_id: 0,
            name,
        }),
        unstable: false,
    }
}

pub fn output(value: NonEmptyValue, options: PayloadOptions, version: Version) -> Command
    ensures { result ≡ output_command value options version }
{
    Command {
        refusal: value_fault(&value, version),
        message: Message::Output(OutputCommand {
            result: write_value(value),
        }),
        unstable: options.unstable_serialization,
    }
}

pub fn set_state(key: Text, value: Bytes, name: Text, options: PayloadOptions) -> Command
    ensures { result ≡ set_state_command key value name options }
{
    Command {
        refusal: None,
        message: Message::SetState(SetStateCommand { name, key, value }),
        unstable: options.unstable_serialization,
    }
}

pub fn clear_state(key: Text, name: Text) -> Command
    ensures { result ≡ clear_state_command key name }
{
    Command {
        refusal: None,
        message: Message::ClearState(ClearStateCommand { name, key }),
        unstable: false,
    }
}

pub fn clear_all_state(name: Text) -> Command
    ensures { result ≡ clear_all_state_command name }
{
    Command {
        refusal: None,
        message: Message::ClearAllState(ClearAllStateCommand { name }),
        unstable: false,
    }
}

pub fn complete_awakeable(
    awakeable_id: Text,
    value: NonEmptyValue,
    options: PayloadOptions,
    version: Version,
) -> Command
    ensures { result ≡ complete_awakeable_command awakeable_id value options version }
{
    Command {
        refusal: value_fault(&value, version),
        message: Message::CompleteAwakeable(CompleteAwakeableCommand {
            awakeable_id,
            result: write_value(value),
        }),
        unstable: options.unstable_serialization,
    }
}

pub fn complete_signal(
    target_invocation_id: Text,
    signal: Text,
    value: NonEmptyValue,
    version: Version,
) -> Command
    ensures { result ≡ complete_signal_command target_invocation_id signal value version }
{
    Command {
        refusal: value_fault(&value, version),
        message: Message::SendSignal(SendSignalCommand {
            target_invocation_id,
            signal: Signal::Name(signal),
            result: signal_result(write_value(value)),
        }),
        unstable: false,
    }
}

pub fn cancel_invocation(target_invocation_id: Text) -> Command
    ensures { result ≡ cancel_invocation_command target_invocation_id }
{
    Command {
        refusal: None,
        message: Message::SendSignal(SendSignalCommand {
            target_invocation_id,
            signal: Signal::Index(CANCEL_SIGNAL),
            result: SignalResult::Void,
        }),
        unstable: false,
    }
}

pub fn run(name: Text) -> Command
    ensures { result ≡ run_command name }
{
    Command {
        refusal: None,
        message: Message::Run(RunCommand {
            name,
            result_completion_id: 0,
        }),
        unstable: false,
    }
}

pub fn get_promise(key: Text) -> Command
    ensures { result ≡ get_promise_command key }
{
    Command {
        refusal: None,
        message: Message::GetPromise(PromiseCommand {
            key,
            result_completion_id: 0,
        }),
        unstable: false,
    }
}

pub fn peek_promise(key: Text) -> Command
    ensures { result ≡ peek_promise_command key }
{
    Command {
        refusal: None,
        message: Message::PeekPromise(PromiseCommand {
            key,
            result_completion_id: 0,
        }),
        unstable: false,
    }
}

pub fn complete_promise(
    key: Text,
    value: NonEmptyValue,
    options: PayloadOptions,
    version: Version,
) -> Command
    ensures { result ≡ complete_promise_command key value options version }
{
    Command {
        refusal: value_fault(&value, version),
        message: Message::CompletePromise(CompletePromiseCommand {
            key,
            completion: write_value(value),
            result_completion_id: 0,
        }),
        unstable: options.unstable_serialization,
    }
}

/// The scope of an invocation that is named by its workflow or its idempotency key.
fn scope_of(target: &InvocationTarget) -> Option<&Text>
    ensures { option_copied result ≡ scope_of target.now }
{
    match target {
        InvocationTarget::InvocationId(_) => None,
        InvocationTarget::WorkflowId(workflow) => workflow.scope.as_ref(),
        InvocationTarget::IdempotencyId(call) => call.scope.as_ref(),
    }
}

/// Why a text that may not be empty can't be sent.
fn empty_fault(fault: NamedFault, text: Option<&Text>) -> Option<NamedFault>
    ensures { result ≡ empty_fault fault (option_copied text.entry) }
{
    if text?.as_str().is_empty() {
        Some(fault)
    } else {
        None
    }
}

/// Why a text that needs V7 can't be sent in this version.
fn early_fault(version: Version, text: Option<&Text>) -> Option<NamedFault>
    ensures { result ≡ early_fault version (option_copied text.entry) }
{
    let _ = text?;
    if version >= Version::V7 {
        None
    } else {
        Some(NamedFault::UnsupportedFeatureForNegotiatedVersion)
    }
}

/// Why a scope can't be sent in this version.
fn scope_fault(scope: Option<&Text>, version: Version) -> Option<NamedFault>
    ensures { result ≡ scope_fault (option_copied scope.entry) version }
{
    empty_fault(NamedFault::EmptyScope, scope).or(early_fault(version, scope))
}

/// Why a target can't be called in this version.
fn target_fault(target: &Target, version: Version) -> Option<NamedFault>
    ensures { result ≡ target_fault target.now version }
{
    let scope = target.scope.as_ref();
    let limit_key = target.limit_key.as_ref();
    let early = early_fault(version, scope).or(early_fault(version, limit_key));
    let limit_key = empty_fault(NamedFault::EmptyLimitKey, limit_key).or(early);
    let scope = empty_fault(NamedFault::EmptyScope, scope).or(limit_key);
    empty_fault(
        NamedFault::EmptyIdempotencyKey,
        target.idempotency_key.as_ref(),
    )
    .or(scope)
}

fn request_of(alloc: Global, target: Target, input: Bytes, name: Text) -> CallRequest
    ensures { result ≡ request_of target input name }
{
    CallRequest {
        service_name: target.service,
        handler_name: target.handler,
        key: name_in(alloc, target.key),
        idempotency_key: target.idempotency_key,
        scope: target.scope,
        limit_key: target.limit_key,
        headers: target.headers,
        parameter: input,
        invocation_id_notification_idx: 0,
        name,
    }
}

pub fn call(
    alloc: Global,
    target: Target,
    input: Bytes,
    name: Text,
    options: PayloadOptions,
    version: Version,
) -> Command
    ensures { result ≡ call_command target input name options version }
{
    Command {
        refusal: target_fault(&target, version),
        message: Message::Call(CallCommand {
            request: request_of(alloc, target, input, name),
            result_completion_id: 0,
        }),
        unstable: options.unstable_serialization,
    }
}

/// A call whose result nobody waits for, at a time since the Unix epoch, or at once.
pub fn send(
    alloc: Global,
    target: Target,
    input: Bytes,
    time: Option<Duration>,
    name: Text,
    options: PayloadOptions,
    version: Version,
) -> Command
    ensures { result ≡ send_command target input (millis_of time) name options version }
{
    let (late, invoke_time) = match time {
        Some(time) => whole_millis(time),
        None => (None, 0),
    };
    Command {
        refusal: target_fault(&target, version).or(late),
        message: Message::OneWayCall(OneWayCallCommand {
            request: request_of(alloc, target, input, name),
            invoke_time,
        }),
        unstable: options.unstable_serialization,
    }
}

pub fn attach_invocation(target: InvocationTarget, version: Version) -> Command
    ensures { result ≡ attach_invocation_command target version }
{
    Command {
        refusal: scope_fault(scope_of(&target), version),
        message: Message::AttachInvocation(InvocationCommand {
            target,
            result_completion_id: 0,
        }),
        unstable: false,
    }
}

pub fn get_invocation_output(target: InvocationTarget, version: Version) -> Command
    ensures { result ≡ get_invocation_output_command target version }
{
    Command {
        refusal: scope_fault(scope_of(&target), version),
        message: Message::GetInvocationOutput(InvocationCommand {
            target,
            result_completion_id: 0,
        }),
        unstable: false,
    }
}

/// What a step asks for, in an attempt of this version.
pub fn ask_of(alloc: Global, version: Version, step: Step) -> Ask
    ensures ask { result ≡ ask_of version step }
    ensures fits { AnswerFits result }
{
    match step {
        Step::Sleep {
            name,
            wake_up_time_since_unix_epoch,
            ..
        } => Ask::Command(sleep(name, wake_up_time_since_unix_epoch)),
        Step::StateSet {
            key,
            value,
            name,
            options,
        } => Ask::Command(set_state(key, value, name_in(alloc, name), options)),
        Step::StateClear { key, name } => Ask::Command(clear_state(key, name_in(alloc, name))),
        Step::StateClearAll { name } => Ask::Command(clear_all_state(name_in(alloc, name))),
        Step::StateGet { key, name, .. } => {
            let (key, name) = (StateKey::new(key), name_in(alloc, name));
            Ask::Read(StateRead::Value { key, name })
        }
        Step::StateGetKeys { name } => {
            let name = name_in(alloc, name);
            Ask::Read(StateRead::Keys { name })
        }
        Step::Call {
            target,
            input,
            name,
            options,
        } => {
            let name = name_in(alloc, name);
            Ask::Command(call(alloc, target.into_inner(), input, name, options, version))
        }
        Step::CallWithDeadline {
            target,
            input,
            wake_up_time_since_unix_epoch,
            name,
            options,
        } => {
            let name = name_in(alloc, name);
            let target = target.into_inner();
            let call = call(alloc, target, input, name, options, version);
            let deadline = sleep(Text::empty(alloc), wake_up_time_since_unix_epoch);
            Ask::Commands(AnswerKind::CallWithDeadline, call, deadline)
        }
        Step::Send {
            target,
            input,
            execution_time_since_unix_epoch,
            name,
            options,
        } => {
            let name = name_in(alloc, name);
            let time = execution_time_since_unix_epoch;
            let target = target.into_inner();
            Ask::Command(send(alloc, target, input, time, name, options, version))
        }
        Step::Awakeable => Ask::Awakeable,
        Step::Signal { name } => Ask::Signal(name),
        Step::CompleteAwakeable { id, value, options } => {
            Ask::Command(complete_awakeable(id, value, options, version))
        }
        Step::CompleteSignal {
            target_invocation_id,
            signal_name,
            value,
        } => Ask::Command(complete_signal(target_invocation_id, signal_name, value, version)),
        Step::CancelInvocation {
            target_invocation_id,
        } => Ask::Command(cancel_invocation(target_invocation_id)),
        Step::GetPromise { key } => Ask::Command(get_promise(key)),
        Step::PeekPromise { key } => Ask::Command(peek_promise(key)),
        Step::CompletePromise {
            key,
            value,
            options,
        } => Ask::Command(complete_promise(key, value, options, version)),
        Step::Run { name } => Ask::Command(run(name)),
        Step::AttachInvocation(target) => {
            Ask::Command(attach_invocation(target.into_inner(), version))
        }
        Step::GetInvocationOutput(target) => {
            Ask::Command(get_invocation_output(target.into_inner(), version))
        }
        Step::WriteOutput(value, options) => Ask::Command(output(value, options, version)),
        Step::Await(future) => Ask::Await(future),
        Step::Take(handle) => Ask::Take(handle),
        Step::Completed(handle) => Ask::Completed(handle),
        Step::End => Ask::End,
    }
}

/// How a command is answered, by its first handle.
#[derive(Clone, Copy)]
pub enum AnswerKind {
    /// By nothing.
    Unit,
    /// By its handle.
    Handle,
    /// By two handles: the invocation's id, and the result.
    Call,
    /// By three handles: those of a call, and the deadline's.
    CallWithDeadline,
    /// By the handle of the invocation's id.
    Send,
}

impl Command {
    /// How the command is answered.
    pub fn answer_kind(&self) -> AnswerKind
        ensures { result ≡ answer_kind self.now.message }
    {
        match &self.message {
            Message::Call(_) => AnswerKind::Call,
            Message::OneWayCall(_) => AnswerKind::Send,
            message => {
                if request::ids_of(message) == 0 {
                    AnswerKind::Unit
                } else {
                    AnswerKind::Handle
                }
            }
        }
    }
}

/// The two handles of a call.
pub fn call_handles(handle: NotificationHandle) -> CallHandle
    requires { handle.0 + 1 < 2 ^ 32 }
    ensures { result ≡ call_handles handle }
{
    CallHandle {
        invocation_id_notification_handle: handle,
        call_notification_handle: NotificationHandle(handle.0 + 1),
    }
}

/// The three handles of a call with a deadline.
pub fn deadline_handles(handle: NotificationHandle) -> DeadlineCallHandle
    requires { handle.0 + 2 < 2 ^ 32 }
    ensures { result ≡ deadline_handles handle }
{
    DeadlineCallHandle {
        invocation_id_notification_handle: handle,
        call_notification_handle: NotificationHandle(handle.0 + 1),
        deadline_notification_handle: NotificationHandle(handle.0 + 2),
    }
}

/// The handle of a send.
pub fn send_handle(handle: NotificationHandle) -> SendHandle
    ensures { result ≡ send_handle handle }
{
    SendHandle {
        invocation_id_notification_handle: handle,
    }
}

/// The answer of this kind, by the first handle.
pub fn command_answer(kind: AnswerKind, handle: NotificationHandle) -> Answer
    requires { HandlesFit kind handle }
    ensures { result ≡ answer_by kind handle }
{
    match kind {
        AnswerKind::Unit => Answer::Unit,
        AnswerKind::Handle => Answer::Handle(handle),
        AnswerKind::Call => Answer::Call(call_handles(handle)),
        AnswerKind::CallWithDeadline => Answer::CallWithDeadline(deadline_handles(handle)),
        AnswerKind::Send => Answer::Send(send_handle(handle)),
    }
}
