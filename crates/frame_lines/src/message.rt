//! A message as a line.
ghost use Rattle.std.specs.Prelude.{◌≡◌, ◌++◌, false, IfErr, IfOk, OnOk};
ghost use Rattle.lines.specs.Readings.{Blames};
ghost use Rattle.journal_protocol.specs.Frames.{type_of};
ghost use Rattle.frame_lines.specs.Messages.{AreFieldsOf, fields_of, message_text};
ghost use Rattle.frame_values.specs.Notation.{put_all};

use crate::forms::Form;
use crate::type_names::name_of;
use journal_protocol::{Message, MessageType};
use lines::line::Line;
use plain::Fault;
use std::alloc::{AllocError, Global};

/// Writes the message's fields. Its name stands on the line already.
#[tactic(auto, unfolding(crate::specs::Messages::fields_of))]
fn print_fields(message: &Message, line: &mut Line) -> Result<bool, AllocError>
    ensures { IfOk result (λ then. put_all (line.old, false) (fields_of message.now)
        ≡ (line.new, then)) }
{
    match message {
        Message::Start(m) => m.print(line, false),
        Message::Suspension(m) => m.print(line, false),
        Message::Error(m) => m.print(line, false),
        Message::End => Ok(false),
        Message::ProposeRunCompletion(m) => m.print(line, false),
        Message::ProposeRunCompletionAck(m) => m.print(line, false),
        Message::AwaitingOn(m) => m.print(line, false),
        Message::GetStateEphemeralCommand(m) => m.print(line, false),
        Message::GetStateEphemeralNotification(m) => m.print(line, false),
        Message::Input(m) => m.print(line, false),
        Message::GetEagerState(m) => m.print(line, false),
        Message::GetLazyState(m) => m.print(line, false),
        Message::GetEagerStateKeys(m) => m.print(line, false),
        Message::GetLazyStateKeys(m) => m.print(line, false),
        Message::SetState(m) => m.print(line, false),
        Message::ClearState(m) => m.print(line, false),
        Message::ClearAllState(m) => m.print(line, false),
        Message::Sleep(m) => m.print(line, false),
        Message::Call(m) => m.print(line, false),
        Message::OneWayCall(m) => m.print(line, false),
        Message::CompleteAwakeable(m) => m.print(line, false),
        Message::SendSignal(m) => m.print(line, false),
        Message::GetPromise(m) => m.print(line, false),
        Message::PeekPromise(m) => m.print(line, false),
        Message::CompletePromise(m) => m.print(line, false),
        Message::Run(m) => m.print(line, false),
        Message::AttachInvocation(m) => m.print(line, false),
        Message::GetInvocationOutput(m) => m.print(line, false),
        Message::Output(m) => m.print(line, false),
        Message::Notification(m) => m.print(line, false),
    }
}

/// Writes the type's name, and the fields that aren't at their default.
pub fn print_message(message: &Message, line: &mut Line) -> Result<(), AllocError>
    ensures { OnOk result (line.new ≡ line.old ++ message_text message.now) }
{
    line.word(name_of(message.ty()))?;
    print_fields(message, line)?;
    Ok(())
}

/// The message whose body was read.
macro_rules! as_message {
    ($body:expr, $message:path) => {
        match $body {
            Ok(body) => Ok($message(body)),
            Err(fault) => Err(fault),
        }
    };
}

/// The message of this type that these words are the fields of.
#[tactic(auto, unfolding(crate::specs::Messages::AreFieldsOf))]
pub fn parse_message(alloc: Global, ty: MessageType, words: &[&[u8]]) -> Result<Message, Fault>
    ensures typed { IfOk result (λ message. type_of message ≡ ty) }
    ensures fields { IfOk result (AreFieldsOf words.now) }
    ensures none { IfErr result
        (Blames (λ message. (type_of message ≡ ty) × AreFieldsOf words.now message)) }
{
    match ty {
        MessageType::Start => as_message!(Form::read(alloc, words), Message::Start),
        MessageType::Suspension => as_message!(Form::read(alloc, words), Message::Suspension),
        MessageType::Error => as_message!(Form::read(alloc, words), Message::Error),
        MessageType::End if words.is_empty() => Ok(Message::End),
        MessageType::End => Err(Fault::Malformed),
        MessageType::ProposeRunCompletion => as_message!(
            Form::read(alloc, words),
            Message::ProposeRunCompletion
        ),
        MessageType::ProposeRunCompletionAck => as_message!(
            Form::read(alloc, words),
            Message::ProposeRunCompletionAck
        ),
        MessageType::AwaitingOn => as_message!(Form::read(alloc, words), Message::AwaitingOn),
        MessageType::GetStateEphemeralCommand => as_message!(
            Form::read(alloc, words),
            Message::GetStateEphemeralCommand
        ),
        MessageType::GetStateEphemeralNotification => as_message!(
            Form::read(alloc, words),
            Message::GetStateEphemeralNotification
        ),
        MessageType::InputCommand => as_message!(Form::read(alloc, words), Message::Input),
        MessageType::GetEagerStateCommand => as_message!(
            Form::read(alloc, words),
            Message::GetEagerState
        ),
        MessageType::GetLazyStateCommand => as_message!(
            Form::read(alloc, words),
            Message::GetLazyState
        ),
        MessageType::GetEagerStateKeysCommand => as_message!(
            Form::read(alloc, words),
            Message::GetEagerStateKeys
        ),
        MessageType::GetLazyStateKeysCommand => as_message!(
            Form::read(alloc, words),
            Message::GetLazyStateKeys
        ),
        MessageType::SetStateCommand => as_message!(Form::read(alloc, words), Message::SetState),
        MessageType::ClearStateCommand => as_message!(
            Form::read(alloc, words),
            Message::ClearState
        ),
        MessageType::ClearAllStateCommand => as_message!(
            Form::read(alloc, words),
            Message::ClearAllState
        ),
        MessageType::SleepCommand => as_message!(Form::read(alloc, words), Message::Sleep),
        MessageType::CallCommand => as_message!(Form::read(alloc, words), Message::Call),
        MessageType::OneWayCallCommand => as_message!(
            Form::read(alloc, words),
            Message::OneWayCall
        ),
        MessageType::CompleteAwakeableCommand => as_message!(
            Form::read(alloc, words),
            Message::CompleteAwakeable
        ),
        MessageType::SendSignalCommand => as_message!(
            Form::read(alloc, words),
            Message::SendSignal
        ),
        MessageType::GetPromiseCommand => as_message!(
            Form::read(alloc, words),
            Message::GetPromise
        ),
        MessageType::PeekPromiseCommand => as_message!(
            Form::read(alloc, words),
            Message::PeekPromise
        ),
        MessageType::CompletePromiseCommand => as_message!(
            Form::read(alloc, words),
            Message::CompletePromise
        ),
        MessageType::RunCommand => as_message!(Form::read(alloc, words), Message::Run),
        MessageType::AttachInvocationCommand => as_message!(
            Form::read(alloc, words),
            Message::AttachInvocation
        ),
        MessageType::GetInvocationOutputCommand => as_message!(
            Form::read(alloc, words),
            Message::GetInvocationOutput
        ),
        MessageType::OutputCommand => as_message!(Form::read(alloc, words), Message::Output),
        MessageType::Notification => as_message!(Form::read(alloc, words), Message::Notification),
    }
}
