//! The types of messages and their numbers.
ghost use Rattle.std.specs.Prelude.{◌≡◌, ◌≤◌, ◌↔◌, IsTrue, IfSome};
ghost use Rattle.journal_errors.specs.Types.{type_number, type_at};

/// What a frame holds. Its number stands at the front of the frame.
#[derive(Clone, Copy, Debug, PartialEq, Eq)]
pub enum MessageType {
    Start,
    Suspension,
    Error,
    End,
    ProposeRunCompletion,
    ProposeRunCompletionAck,
    AwaitingOn,
    GetStateEphemeralCommand,
    GetStateEphemeralNotification,
    InputCommand,
    GetEagerStateCommand,
    GetLazyStateCommand,
    GetEagerStateKeysCommand,
    GetLazyStateKeysCommand,
    SetStateCommand,
    ClearStateCommand,
    ClearAllStateCommand,
    SleepCommand,
    CallCommand,
    OneWayCallCommand,
    CompleteAwakeableCommand,
    SendSignalCommand,
    GetPromiseCommand,
    PeekPromiseCommand,
    CompletePromiseCommand,
    RunCommand,
    AttachInvocationCommand,
    GetInvocationOutputCommand,
    OutputCommand,
    Notification,
}

impl MessageType {
    pub fn number(&self) -> u16
        ensures { result ≡ type_number self.now }
    {
        match self {
            MessageType::Start => 1,
            MessageType::Suspension => 2,
            MessageType::Error => 3,
            MessageType::End => 4,
            MessageType::ProposeRunCompletion => 5,
            MessageType::ProposeRunCompletionAck => 6,
            MessageType::AwaitingOn => 7,
            MessageType::GetStateEphemeralCommand => 8,
            MessageType::GetStateEphemeralNotification => 9,
            MessageType::InputCommand => 10,
            MessageType::GetEagerStateCommand => 11,
            MessageType::GetLazyStateCommand => 12,
            MessageType::GetEagerStateKeysCommand => 13,
            MessageType::GetLazyStateKeysCommand => 14,
            MessageType::SetStateCommand => 15,
            MessageType::ClearStateCommand => 16,
            MessageType::ClearAllStateCommand => 17,
            MessageType::SleepCommand => 18,
            MessageType::CallCommand => 19,
            MessageType::OneWayCallCommand => 20,
            MessageType::CompleteAwakeableCommand => 21,
            MessageType::SendSignalCommand => 22,
            MessageType::GetPromiseCommand => 23,
            MessageType::PeekPromiseCommand => 24,
            MessageType::CompletePromiseCommand => 25,
            MessageType::RunCommand => 26,
            MessageType::AttachInvocationCommand => 27,
            MessageType::GetInvocationOutputCommand => 28,
            MessageType::OutputCommand => 29,
            MessageType::Notification => 30,
        }
    }

    #[tactic(auto, unfolding(crate::specs::Types::type_at))]
    pub fn from_number(number: u16) -> Option<MessageType>
        ensures found { result ≡ type_at number }
        ensures numbered { IfSome result (λ ty. type_number ty ≡ number) }
    {
        match number {
            1 => Some(MessageType::Start),
            2 => Some(MessageType::Suspension),
            3 => Some(MessageType::Error),
            4 => Some(MessageType::End),
            5 => Some(MessageType::ProposeRunCompletion),
            6 => Some(MessageType::ProposeRunCompletionAck),
            7 => Some(MessageType::AwaitingOn),
            8 => Some(MessageType::GetStateEphemeralCommand),
            9 => Some(MessageType::GetStateEphemeralNotification),
            10 => Some(MessageType::InputCommand),
            11 => Some(MessageType::GetEagerStateCommand),
            12 => Some(MessageType::GetLazyStateCommand),
            13 => Some(MessageType::GetEagerStateKeysCommand),
            14 => Some(MessageType::GetLazyStateKeysCommand),
            15 => Some(MessageType::SetStateCommand),
            16 => Some(MessageType::ClearStateCommand),
            17 => Some(MessageType::ClearAllStateCommand),
            18 => Some(MessageType::SleepCommand),
            19 => Some(MessageType::CallCommand),
            20 => Some(MessageType::OneWayCallCommand),
            21 => Some(MessageType::CompleteAwakeableCommand),
            22 => Some(MessageType::SendSignalCommand),
            23 => Some(MessageType::GetPromiseCommand),
            24 => Some(MessageType::PeekPromiseCommand),
            25 => Some(MessageType::CompletePromiseCommand),
            26 => Some(MessageType::RunCommand),
            27 => Some(MessageType::AttachInvocationCommand),
            28 => Some(MessageType::GetInvocationOutputCommand),
            29 => Some(MessageType::OutputCommand),
            30 => Some(MessageType::Notification),
            _ => None,
        }
    }

    /// Whether the journal's commands have this type.
    pub fn is_command(&self) -> bool
        ensures { IsTrue result ↔ (10 ≤ type_number self.now) × (type_number self.now ≤ 29) }
    {
        let number = self.number();
        10 <= number && number <= 29
    }

    pub fn is_notification(&self) -> bool
        ensures { IsTrue result ↔ (type_number self.now ≡ 30) }
    {
        self.number() == 30
    }
}
