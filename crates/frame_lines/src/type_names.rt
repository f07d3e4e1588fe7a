//! The names of the types of messages.
ghost use Rattle.std.specs.Prelude.{◌≡◌, ◌≢◌, IfNone, IfSome};
ghost use Rattle.journal_protocol.specs.MessageType.{MessageType};
ghost use Rattle.frame_lines.specs.Names.{type_word};

use journal_protocol::MessageType;

/// The name that the type has on a line.
#[tactic(auto, unfolding(crate::specs::Names::type_word))]
pub fn name_of(ty: MessageType) -> &'static str
    ensures { result.now ≡ type_word ty }
{
    match ty {
        MessageType::Start => "Start",
        MessageType::Suspension => "Suspension",
        MessageType::Error => "Error",
        MessageType::End => "End",
        MessageType::ProposeRunCompletion => "ProposeRunCompletion",
        MessageType::ProposeRunCompletionAck => "ProposeRunCompletionAck",
        MessageType::AwaitingOn => "AwaitingOn",
        MessageType::GetStateEphemeralCommand => "GetStateEphemeralCommand",
        MessageType::GetStateEphemeralNotification => "GetStateEphemeralNotification",
        MessageType::InputCommand => "Input",
        MessageType::GetEagerStateCommand => "GetEagerState",
        MessageType::GetLazyStateCommand => "GetLazyState",
        MessageType::GetEagerStateKeysCommand => "GetEagerStateKeys",
        MessageType::GetLazyStateKeysCommand => "GetLazyStateKeys",
        MessageType::SetStateCommand => "SetState",
        MessageType::ClearStateCommand => "ClearState",
        MessageType::ClearAllStateCommand => "ClearAllState",
        MessageType::SleepCommand => "Sleep",
        MessageType::CallCommand => "Call",
        MessageType::OneWayCallCommand => "OneWayCall",
        MessageType::CompleteAwakeableCommand => "CompleteAwakeable",
        MessageType::SendSignalCommand => "SendSignal",
        MessageType::GetPromiseCommand => "GetPromise",
        MessageType::PeekPromiseCommand => "PeekPromise",
        MessageType::CompletePromiseCommand => "CompletePromise",
        MessageType::RunCommand => "Run",
        MessageType::AttachInvocationCommand => "AttachInvocation",
        MessageType::GetInvocationOutputCommand => "GetInvocationOutput",
        MessageType::OutputCommand => "Output",
        MessageType::Notification => "Notification",
    }
}

/// The type that has the name.
pub fn type_named(name: &[u8]) -> Option<MessageType>
    ensures named { IfSome result (λ ty. name.now ≡ type_word ty) }
    ensures none { IfNone result ((ty : MessageType) → name.now ≢ type_word ty) }
{
    for number in 0..=30 {
        if let Some(ty) = MessageType::from_number(number)
            && name == name_of(ty).as_bytes()
        {
            return Some(ty);
        }
    }
    None
}
