//! What each stored command asks for.
ghost use Rattle.std.specs.Prelude.{◌≡◌, IfOk};
ghost use Rattle.journal_store.specs.Effects.{beginning_of, effect_of, completing_result, sent_to, signal_brings, timer_of};
ghost use Rattle.journal_protocol.specs.Message.TheVariants as message;

use crate::awakeables::awakeable_named;
use crate::effect::{Beginning, Effect, Sent, Timer};
use bytes::Bytes;
use journal_protocol::{
    CallRequest, CompleteAwakeableCommand, Message, NotificationResult, SendSignalCommand, Signal,
    SignalResult, SleepCommand, ValueOrFailure,
};
use std::alloc::{AllocError, Global};

/// The invocation that a call begins.
fn beginning(
    request: &CallRequest,
    begins: u64,
    result_completes: Option<u32>,
) -> Result<Beginning, AllocError>
    ensures { IfOk result (λ b. b ≡ beginning_of request.now begins result_completes) }
{
    Ok(Beginning {
        service: request.service_name.clone()?,
        handler: request.handler_name.clone()?,
        key: request.key.clone()?,
        idempotency_key: request.idempotency_key.clone()?,
        parameter: request.parameter.clone()?,
        begins,
        id_completes: request.invocation_id_notification_idx,
        result_completes,
    })
}

fn timer(command: &SleepCommand) -> Timer
    ensures { result ≡ timer_of command.now }
{
    Timer {
        due: command.wake_up_time,
        completes: command.result_completion_id,
    }
}

/// What a signal brings.
fn signalled(sent: &SignalResult) -> Result<NotificationResult, AllocError>
    ensures { IfOk result (λ r. r ≡ signal_brings sent.now) }
{
    match sent {
        SignalResult::Void => Ok(NotificationResult::Void),
        SignalResult::Value(value) => Ok(NotificationResult::Value(value.clone()?)),
        SignalResult::Failure(failure) => Ok(NotificationResult::Failure(failure.clone()?)),
    }
}

/// Which signal of the other invocation it is.
fn copy_signal(signal: &Signal) -> Result<Signal, AllocError>
    ensures { IfOk result (λ copy. copy ≡ signal.now) }
{
    match signal {
        Signal::Index(index) => Ok(Signal::Index(*index)),
        Signal::Name(name) => Ok(Signal::Name(name.clone()?)),
    }
}

/// What a signal sends.
fn sent(alloc: Global, command: &SendSignalCommand) -> Result<Sent, AllocError>
    ensures { IfOk result (λ s. s ≡ sent_to command.now) }
{
    let to = Bytes::copy_from_slice(alloc, command.target_invocation_id.as_str().as_bytes())?;
    let signal = copy_signal(&command.signal)?;
    let brings = signalled(&command.result)?;
    Ok(Sent { to, signal, brings })
}

/// What completes an awakeable.
fn completed(ends: &ValueOrFailure) -> Result<NotificationResult, AllocError>
    ensures { IfOk result (λ r. r ≡ completing_result ends.now) }
{
    match ends {
        ValueOrFailure::Value(value) => Ok(NotificationResult::Value(value.clone()?)),
        ValueOrFailure::Failure(failure) => Ok(NotificationResult::Failure(failure.clone()?)),
    }
}

/// The signal that completes an awakeable, if its id names one.
fn awoken(alloc: Global, command: &CompleteAwakeableCommand) -> Result<Option<Effect>, AllocError>
    ensures { IfOk result (λ e. e ≡ effect_of (message.CompleteAwakeable command.now)) }
{
    match awakeable_named(alloc, command.awakeable_id.as_str())? {
        None => Ok(None),
        Some((to, signal)) => {
            let brings = completed(&command.result)?;
            Ok(Some(Effect::Send(Sent {
                to,
                signal: Signal::Index(signal),
                brings,
            })))
        }
    }
}

/// What a stored command asks for, if it asks for something.
pub fn effect_of(alloc: Global, command: &Message) -> Result<Option<Effect>, AllocError>
    ensures { IfOk result (λ e. e ≡ effect_of command.now) }
{
    match command {
        Message::Sleep(c) => Ok(Some(Effect::Wait(timer(c)))),
        Message::Call(c) => {
            let begun = beginning(&c.request, 0, Some(c.result_completion_id))?;
            Ok(Some(Effect::Begin(begun)))
        }
        Message::OneWayCall(c) => {
            let begun = beginning(&c.request, c.invoke_time, None)?;
            Ok(Some(Effect::Begin(begun)))
        }
        Message::SendSignal(c) => Ok(Some(Effect::Send(sent(alloc, c)?))),
        Message::CompleteAwakeable(c) => awoken(alloc, c),
        Message::Output(c) => Ok(Some(Effect::Result(c.result.clone()?))),
        _ => Ok(None),
    }
}
