//! The types of commands, as calls and errors name them, and the command that an error relates to.
ghost use Rattle.std.specs.Prelude.{◌≡◌, Some};
ghost use Rattle.vm_types.specs.CommandTypes.{message_type, command_text};

use journal_errors::MessageType;
use plain::Text;
use std::fmt;

/// What a call's command is.
#[derive(Clone, Copy, Debug, PartialEq, Eq)]
pub enum CommandType {
    Input,
    Output,
    GetState,
    GetStateKeys,
    SetState,
    ClearState,
    ClearAllState,
    GetPromise,
    PeekPromise,
    CompletePromise,
    Sleep,
    Call,
    OneWayCall,
    SendSignal,
    Run,
    AttachInvocation,
    GetInvocationOutput,
    CompleteAwakeable,
    CancelInvocation,
}

/// The command that an error relates to, as the one who reports it says.
#[derive(Clone, Debug, Drop, PartialEq, Eq)]
pub enum CommandRelationship {
    /// The last command.
    Last,
    /// The command that would come next.
    Next {
        ty: CommandType,
        name: Option<Text>,
    },
    Specific {
        command_index: u32,
        ty: CommandType,
        name: Option<Text>,
    },
}

impl fmt::Display for CommandType {
    ghost output = { λ ty. Some (command_text ty) };

    fn fmt<W: fmt::Write>(&self, f: &mut fmt::Formatter<W>) -> fmt::Result {
        f.write_str(self.text())
    }
}

impl CommandType {
    /// How errors name the command to people.
    #[tactic(auto, unfolding(crate::specs::CommandTypes::command_text))]
    fn text(&self) -> &'static str
        ensures { result.now ≡ command_text self.now }
    {
        match self {
            CommandType::Input => "handler input",
            CommandType::Output => "handler return",
            CommandType::GetState => "get state",
            CommandType::GetStateKeys => "get state keys",
            CommandType::SetState => "set state",
            CommandType::ClearState => "clear state",
            CommandType::ClearAllState => "clear all state",
            CommandType::GetPromise => "get promise",
            CommandType::PeekPromise => "peek promise",
            CommandType::CompletePromise => "complete promise",
            CommandType::Sleep => "sleep",
            CommandType::Call => "call",
            CommandType::OneWayCall => "one way call/send",
            CommandType::SendSignal => "send signal",
            CommandType::Run => "run",
            CommandType::AttachInvocation => "attach invocation",
            CommandType::GetInvocationOutput => "get invocation output",
            CommandType::CompleteAwakeable => "complete awakeable",
            CommandType::CancelInvocation => "cancel invocation",
        }
    }

    /// The type of message by which an error names the command: a state read is named by its lazy form, the
    /// cancelling of an invocation by the signal that it sends.
    #[tactic(auto, unfolding(crate::specs::CommandTypes::message_type))]
    pub fn message_type(&self) -> MessageType
        ensures { result ≡ message_type self.now }
    {
        match self {
            CommandType::Input => MessageType::InputCommand,
            CommandType::Output => MessageType::OutputCommand,
            CommandType::GetState => MessageType::GetLazyStateCommand,
            CommandType::GetStateKeys => MessageType::GetLazyStateKeysCommand,
            CommandType::SetState => MessageType::SetStateCommand,
            CommandType::ClearState => MessageType::ClearStateCommand,
            CommandType::ClearAllState => MessageType::ClearAllStateCommand,
            CommandType::GetPromise => MessageType::GetPromiseCommand,
            CommandType::PeekPromise => MessageType::PeekPromiseCommand,
            CommandType::CompletePromise => MessageType::CompletePromiseCommand,
            CommandType::Sleep => MessageType::SleepCommand,
            CommandType::Call => MessageType::CallCommand,
            CommandType::OneWayCall => MessageType::OneWayCallCommand,
            CommandType::SendSignal => MessageType::SendSignalCommand,
            CommandType::Run => MessageType::RunCommand,
            CommandType::AttachInvocation => MessageType::AttachInvocationCommand,
            CommandType::GetInvocationOutput => MessageType::GetInvocationOutputCommand,
            CommandType::CompleteAwakeable => MessageType::CompleteAwakeableCommand,
            CommandType::CancelInvocation => MessageType::SendSignalCommand,
        }
    }
}
