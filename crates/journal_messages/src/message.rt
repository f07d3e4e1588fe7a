//! Messages as frames: writing one, and reading the body of one.
ghost use Rattle.std.specs.Prelude.{◌≡◌, ◌==◌, ◌++◌, IfOk, OnOk};
ghost use Rattle.journal_errors.specs.Types.{type_number};
ghost use Rattle.wire.specs.Reads.{Read};
ghost use Rattle.journal_messages.specs.Awaiting.{awaiting_id};
ghost use Rattle.journal_errors.specs.declared.types.MessageType.TheVariants as type;
ghost use Rattle.journal_messages.specs.declared.message.Message.TheVariants as message;
ghost use Rattle.journal_messages.specs.Reading.{acknowledgement_in, body_as, ephemeral_notification_in, input_in, message_in, notification_in, proposal_in, start_in};
ghost use Rattle.journal_messages.specs.Message.{IsWhole, body, encoding, frame, numbered_frame, type_of, IsValid, DecodesTo, Decodes};

use crate::awaiting::put_awaiting;
use bytes::Bytes;
use journal_attempt::{
    AwaitingOn, InputCommand, OutputCommand, ProposeRunCompletion, ProposeRunCompletionAck,
    RunCommand, SleepCommand, Start, Suspension,
};
use journal_calls::{
    CallCommand, CompleteAwakeableCommand, CompletePromiseCommand, InvocationCommand,
    OneWayCallCommand, PromiseCommand, SendSignalCommand,
};
use journal_errors::{Error, ErrorMessage, MessageType};
use journal_state::{
    ClearAllStateCommand, ClearStateCommand, GetEagerStateCommand, GetEagerStateKeysCommand,
    GetLazyStateCommand, GetLazyStateKeysCommand, GetStateEphemeralCommand,
    GetStateEphemeralNotification, SetStateCommand,
};
use journal_values::{Notification, NotificationId};
use std::alloc::{AllocError, Global};
use wire::{Fault, Wire, put_head, set_length, whole};

/// A message from the runtime to the attempt, or from the attempt to the runtime.
pub enum Message {
    Start(Start),
    Suspension(Suspension),
    Error(ErrorMessage),
    End,
    ProposeRunCompletion(ProposeRunCompletion),
    ProposeRunCompletionAck(ProposeRunCompletionAck),
    AwaitingOn(AwaitingOn),
    GetStateEphemeralCommand(GetStateEphemeralCommand),
    GetStateEphemeralNotification(GetStateEphemeralNotification),
    Input(InputCommand),
    GetEagerState(GetEagerStateCommand),
    GetLazyState(GetLazyStateCommand),
    GetEagerStateKeys(GetEagerStateKeysCommand),
    GetLazyStateKeys(GetLazyStateKeysCommand),
    SetState(SetStateCommand),
    ClearState(ClearStateCommand),
    ClearAllState(ClearAllStateCommand),
    Sleep(SleepCommand),
    Call(CallCommand),
    OneWayCall(OneWayCallCommand),
    CompleteAwakeable(CompleteAwakeableCommand),
    SendSignal(SendSignalCommand),
    GetPromise(PromiseCommand),
    PeekPromise(PromiseCommand),
    CompletePromise(CompletePromiseCommand),
    Run(RunCommand),
    AttachInvocation(InvocationCommand),
    GetInvocationOutput(InvocationCommand),
    Output(OutputCommand),
    Notification(Notification),
}

/// Written out, so that a caller who drops a message calls this: a derived drop is proved once more in each crate above.
impl Drop for Message {
    fn drop(self) {
        match self {
            Message::Start(m) => drop(m),
            Message::Suspension(m) => drop(m),
            Message::Error(m) => drop(m),
            Message::End => {}
            Message::ProposeRunCompletion(m) => drop(m),
            Message::ProposeRunCompletionAck(m) => drop(m),
            Message::AwaitingOn(m) => drop(m),
            Message::GetStateEphemeralCommand(m) => drop(m),
            Message::GetStateEphemeralNotification(m) => drop(m),
            Message::Input(m) => drop(m),
            Message::GetEagerState(m) => drop(m),
            Message::GetLazyState(m) => drop(m),
            Message::GetEagerStateKeys(m) => drop(m),
            Message::GetLazyStateKeys(m) => drop(m),
            Message::SetState(m) => drop(m),
            Message::ClearState(m) => drop(m),
            Message::ClearAllState(m) => drop(m),
            Message::Sleep(m) => drop(m),
            Message::Call(m) => drop(m),
            Message::OneWayCall(m) => drop(m),
            Message::CompleteAwakeable(m) => drop(m),
            Message::SendSignal(m) => drop(m),
            Message::GetPromise(m) => drop(m),
            Message::PeekPromise(m) => drop(m),
            Message::CompletePromise(m) => drop(m),
            Message::Run(m) => drop(m),
            Message::AttachInvocation(m) => drop(m),
            Message::GetInvocationOutput(m) => drop(m),
            Message::Output(m) => drop(m),
            Message::Notification(m) => drop(m),
        }
    }
}

/// A frame whose body isn't decoded yet.
#[derive(Drop)]
pub struct RawMessage {
    pub ty: MessageType,
    pub body: Bytes,
}

impl Message {
    pub fn ty(&self) -> MessageType
        ensures { result ≡ type_of self.now }
    {
        match self {
            Message::Start(_) => MessageType::Start,
            Message::Suspension(_) => MessageType::Suspension,
            Message::Error(_) => MessageType::Error,
            Message::End => MessageType::End,
            Message::ProposeRunCompletion(_) => MessageType::ProposeRunCompletion,
            Message::ProposeRunCompletionAck(_) => MessageType::ProposeRunCompletionAck,
            Message::AwaitingOn(_) => MessageType::AwaitingOn,
            Message::GetStateEphemeralCommand(_) => MessageType::GetStateEphemeralCommand,
            Message::GetStateEphemeralNotification(_) => MessageType::GetStateEphemeralNotification,
            Message::Input(_) => MessageType::InputCommand,
            Message::GetEagerState(_) => MessageType::GetEagerStateCommand,
            Message::GetLazyState(_) => MessageType::GetLazyStateCommand,
            Message::GetEagerStateKeys(_) => MessageType::GetEagerStateKeysCommand,
            Message::GetLazyStateKeys(_) => MessageType::GetLazyStateKeysCommand,
            Message::SetState(_) => MessageType::SetStateCommand,
            Message::ClearState(_) => MessageType::ClearStateCommand,
            Message::ClearAllState(_) => MessageType::ClearAllStateCommand,
            Message::Sleep(_) => MessageType::SleepCommand,
            Message::Call(_) => MessageType::CallCommand,
            Message::OneWayCall(_) => MessageType::OneWayCallCommand,
            Message::CompleteAwakeable(_) => MessageType::CompleteAwakeableCommand,
            Message::SendSignal(_) => MessageType::SendSignalCommand,
            Message::GetPromise(_) => MessageType::GetPromiseCommand,
            Message::PeekPromise(_) => MessageType::PeekPromiseCommand,
            Message::CompletePromise(_) => MessageType::CompletePromiseCommand,
            Message::Run(_) => MessageType::RunCommand,
            Message::AttachInvocation(_) => MessageType::AttachInvocationCommand,
            Message::GetInvocationOutput(_) => MessageType::GetInvocationOutputCommand,
            Message::Output(_) => MessageType::OutputCommand,
            Message::Notification(_) => MessageType::Notification,
        }
    }

    fn put_body(&self, out: &mut Vec<u8>) -> Result<(), AllocError>
        ensures written { OnOk result (out.new.items ≡ out.old.items ++ body self.now) }
        ensures valid { OnOk result (IsValid self.now) }
    {
        match self {
            Message::Start(m) => m.put(out),
            Message::Suspension(m) => m.put(out),
            Message::Error(m) => m.put(out),
            Message::End => Ok(()),
            Message::ProposeRunCompletion(m) => m.put(out),
            Message::ProposeRunCompletionAck(m) => m.put(out),
            Message::AwaitingOn(m) => m.put(out),
            Message::GetStateEphemeralCommand(m) => m.put(out),
            Message::GetStateEphemeralNotification(m) => m.put(out),
            Message::Input(m) => m.put(out),
            Message::GetEagerState(m) => m.put(out),
            Message::GetLazyState(m) => m.put(out),
            Message::GetEagerStateKeys(m) => m.put(out),
            Message::GetLazyStateKeys(m) => m.put(out),
            Message::SetState(m) => m.put(out),
            Message::ClearState(m) => m.put(out),
            Message::ClearAllState(m) => m.put(out),
            Message::Sleep(m) => m.put(out),
            Message::Call(m) => m.put(out),
            Message::OneWayCall(m) => m.put(out),
            Message::CompleteAwakeable(m) => m.put(out),
            Message::SendSignal(m) => m.put(out),
            Message::GetPromise(m) => m.put(out),
            Message::PeekPromise(m) => m.put(out),
            Message::CompletePromise(m) => m.put(out),
            Message::Run(m) => m.put(out),
            Message::AttachInvocation(m) => m.put(out),
            Message::GetInvocationOutput(m) => m.put(out),
            Message::Output(m) => m.put(out),
            Message::Notification(m) => m.put(out),
        }
    }
}

/// Writes messages as frames.
#[derive(Drop)]
pub struct Encoder {
    alloc: Global,
}

/// The bytes that a frame has at first: enough for most commands.
const ROOM: usize = 64;

#[tactic(auto, unfolding(wire::specs::Format::bytes), using(crate::proofs::Framing::has_head, crate::proofs::Framing::framed))]
impl Encoder {
    pub fn new(alloc: Global) -> Encoder {
        Encoder { alloc }
    }

    /// Writes the message's frame into a buffer that is used again and again, in place of what it held.
    /// After an error the buffer may hold a part of the frame.
    pub fn encode_in(&self, message: &Message, frame: &mut Vec<u8>) -> Result<(), AllocError>
        ensures written { OnOk result (frame.new.items ≡ encoding message.now) }
        ensures valid { OnOk result (IsWhole message.now) }
    {
        frame.clear();
        frame.reserve(ROOM)?;
        put_head(message.ty().number(), frame)?;
        message.put_body(frame)?;
        set_length(frame);
        Ok(())
    }

    /// As `encode_in`, of an `AwaitingOn` on an id, or on the first of it and the other signal. No message is made, so memory is taken for
    /// the buffer alone.
    pub fn encode_awaiting_in(
        &self,
        id: &NotificationId,
        other: Option<u32>,
        frame: &mut Vec<u8>,
    ) -> Result<(), AllocError>
        ensures written { OnOk result (frame.new.items
            ≡ encoding (message.AwaitingOn (awaiting_id id.now other))) }
        ensures valid { OnOk result (IsWhole (message.AwaitingOn (awaiting_id id.now other))) }
    {
        frame.clear();
        frame.reserve(ROOM)?;
        put_head(MessageType::AwaitingOn.number(), frame)?;
        put_awaiting(id, other, frame)?;
        set_length(frame);
        Ok(())
    }

    pub fn encode(&self, message: &Message) -> Result<Bytes, AllocError>
        ensures written { IfOk result (λ b. b ≡ encoding message.now) }
        ensures valid { OnOk result (IsWhole message.now) }
    {
        let mut frame = Vec::new(self.alloc);
        self.encode_in(message, &mut frame)?;
        Ok(Bytes::from_vec(frame)?)
    }

    /// The frame of any number, which needn't be a type's, and any body.
    pub fn encode_raw(&self, number: u16, body: &Bytes) -> Result<Bytes, AllocError>
        ensures { IfOk result (λ b. b ≡ numbered_frame number body.now) }
    {
        let mut frame = Vec::new(self.alloc);
        number.put(&mut frame)?;
        body.put(&mut frame)?;
        Ok(Bytes::from_vec(frame)?)
    }
}

#[tactic(auto, unfolding(crate::specs::Reading::body_as))]
impl RawMessage {
    /// The frame's bytes.
    pub fn encode(&self, alloc: Global) -> Result<Bytes, AllocError>
        ensures { IfOk result (λ b. b ≡ frame self.now.ty self.now.body) }
    {
        Encoder::new(alloc).encode_raw(self.ty.number(), &self.body)
    }

    pub fn has_type(&self, ty: MessageType) -> bool
        ensures { result ≡ (type_number self.now.ty == type_number ty) }
    {
        self.ty.number() == ty.number()
    }

    /// Decodes the whole body as a `T`. The frame's type isn't looked at.
    fn read_as<T: Wire>(&self, alloc: Global) -> Result<T, Fault>
        ensures { Read (body_as T.format self.now.body) result }
    {
        whole(alloc, &self.body)
    }
}

#[tactic(auto, unfolding(crate::specs::Reading::start_in, crate::specs::Reading::input_in, crate::specs::Reading::notification_in, crate::specs::Reading::acknowledgement_in, crate::specs::Reading::proposal_in, crate::specs::Reading::ephemeral_notification_in))]
impl RawMessage {
    pub fn read_start(&self, alloc: Global) -> Result<Start, Fault>
        ensures { Read (start_in self.now.body) result }
    {
        self.read_as(alloc)
    }

    pub fn read_input(&self, alloc: Global) -> Result<InputCommand, Fault>
        ensures { Read (input_in self.now.body) result }
    {
        self.read_as(alloc)
    }

    pub fn read_notification(&self, alloc: Global) -> Result<Notification, Fault>
        ensures { Read (notification_in self.now.body) result }
    {
        self.read_as(alloc)
    }

    pub fn read_acknowledgement(&self, alloc: Global) -> Result<ProposeRunCompletionAck, Fault>
        ensures { Read (acknowledgement_in self.now.body) result }
    {
        self.read_as(alloc)
    }

    pub fn read_proposal(&self, alloc: Global) -> Result<ProposeRunCompletion, Fault>
        ensures { Read (proposal_in self.now.body) result }
    {
        self.read_as(alloc)
    }

    pub fn read_ephemeral_notification(
        &self,
        alloc: Global,
    ) -> Result<GetStateEphemeralNotification, Fault>
        ensures { Read (ephemeral_notification_in self.now.body) result }
    {
        self.read_as(alloc)
    }
}

/// A message of the body that was read. With a `?` in each arm `read_any` takes twice as long to prove.
macro_rules! as_message {
    ($body:expr, $message:path) => {
        match $body {
            Ok(body) => Ok($message(body)),
            Err(fault) => Err(fault),
        }
    };
}

/// The commands that most journals consist of, each read by a function of its own: a function sets all that its ways hold to zero where
/// it begins, and `read_any` has thirty ways.
#[tactic(auto, unfolding(crate::specs::Reading::message_in))]
impl RawMessage {
    #[inline(never)]
    fn read_sleep(&self, alloc: Global) -> Result<Message, Fault>
        ensures { Read (message_in type.SleepCommand self.now.body) result }
    {
        as_message!(self.read_as(alloc), Message::Sleep)
    }

    #[inline(never)]
    fn read_run(&self, alloc: Global) -> Result<Message, Fault>
        ensures { Read (message_in type.RunCommand self.now.body) result }
    {
        as_message!(self.read_as(alloc), Message::Run)
    }

    #[inline(never)]
    fn read_call(&self, alloc: Global) -> Result<Message, Fault>
        ensures { Read (message_in type.CallCommand self.now.body) result }
    {
        as_message!(self.read_as(alloc), Message::Call)
    }

    #[inline(never)]
    fn read_one_way_call(&self, alloc: Global) -> Result<Message, Fault>
        ensures { Read (message_in type.OneWayCallCommand self.now.body) result }
    {
        as_message!(self.read_as(alloc), Message::OneWayCall)
    }

    #[inline(never)]
    fn read_set_state(&self, alloc: Global) -> Result<Message, Fault>
        ensures { Read (message_in type.SetStateCommand self.now.body) result }
    {
        as_message!(self.read_as(alloc), Message::SetState)
    }

    #[inline(never)]
    fn read_get_eager_state(&self, alloc: Global) -> Result<Message, Fault>
        ensures { Read (message_in type.GetEagerStateCommand self.now.body) result }
    {
        as_message!(self.read_as(alloc), Message::GetEagerState)
    }

    #[inline(never)]
    fn read_get_lazy_state(&self, alloc: Global) -> Result<Message, Fault>
        ensures { Read (message_in type.GetLazyStateCommand self.now.body) result }
    {
        as_message!(self.read_as(alloc), Message::GetLazyState)
    }

    #[inline(never)]
    fn read_output(&self, alloc: Global) -> Result<Message, Fault>
        ensures { Read (message_in type.OutputCommand self.now.body) result }
    {
        as_message!(self.read_as(alloc), Message::Output)
    }
}

#[tactic(auto, unfolding(crate::specs::Reading::message_in))]
impl RawMessage {
    fn read_typed(&self, alloc: Global) -> Result<Message, Fault>
        ensures { Read (message_in self.now.ty self.now.body) result }
    {
        match self.ty {
            MessageType::SleepCommand => self.read_sleep(alloc),
            MessageType::RunCommand => self.read_run(alloc),
            MessageType::CallCommand => self.read_call(alloc),
            MessageType::OneWayCallCommand => self.read_one_way_call(alloc),
            MessageType::SetStateCommand => self.read_set_state(alloc),
            MessageType::GetEagerStateCommand => self.read_get_eager_state(alloc),
            MessageType::GetLazyStateCommand => self.read_get_lazy_state(alloc),
            MessageType::OutputCommand => self.read_output(alloc),
            _ => self.read_any(alloc),
        }
    }

    /// A message of any type.
    #[inline(never)]
    fn read_any(&self, alloc: Global) -> Result<Message, Fault>
        ensures { Read (message_in self.now.ty self.now.body) result }
    {
        match self.ty {
            MessageType::Start => as_message!(self.read_start(alloc), Message::Start),
            MessageType::Suspension => as_message!(self.read_as(alloc), Message::Suspension),
            MessageType::Error => as_message!(self.read_as(alloc), Message::Error),
            MessageType::End => match self.read_as::<()>(alloc) {
                Ok(()) => Ok(Message::End),
                Err(fault) => Err(fault),
            },
            MessageType::ProposeRunCompletion => as_message!(
                self.read_proposal(alloc),
                Message::ProposeRunCompletion
            ),
            MessageType::ProposeRunCompletionAck => as_message!(
                self.read_acknowledgement(alloc),
                Message::ProposeRunCompletionAck
            ),
            MessageType::AwaitingOn => as_message!(self.read_as(alloc), Message::AwaitingOn),
            MessageType::GetStateEphemeralCommand => as_message!(
                self.read_as(alloc),
                Message::GetStateEphemeralCommand
            ),
            MessageType::GetStateEphemeralNotification => as_message!(
                self.read_ephemeral_notification(alloc),
                Message::GetStateEphemeralNotification
            ),
            MessageType::InputCommand => as_message!(self.read_input(alloc), Message::Input),
            MessageType::GetEagerStateCommand => as_message!(
                self.read_as(alloc),
                Message::GetEagerState
            ),
            MessageType::GetLazyStateCommand => as_message!(
                self.read_as(alloc),
                Message::GetLazyState
            ),
            MessageType::GetEagerStateKeysCommand => as_message!(
                self.read_as(alloc),
                Message::GetEagerStateKeys
            ),
            MessageType::GetLazyStateKeysCommand => as_message!(
                self.read_as(alloc),
                Message::GetLazyStateKeys
            ),
            MessageType::SetStateCommand => as_message!(self.read_as(alloc), Message::SetState),
            MessageType::ClearStateCommand => as_message!(self.read_as(alloc), Message::ClearState),
            MessageType::ClearAllStateCommand => as_message!(
                self.read_as(alloc),
                Message::ClearAllState
            ),
            MessageType::SleepCommand => as_message!(self.read_as(alloc), Message::Sleep),
            MessageType::CallCommand => as_message!(self.read_as(alloc), Message::Call),
            MessageType::OneWayCallCommand => as_message!(self.read_as(alloc), Message::OneWayCall),
            MessageType::CompleteAwakeableCommand => as_message!(
                self.read_as(alloc),
                Message::CompleteAwakeable
            ),
            MessageType::SendSignalCommand => as_message!(self.read_as(alloc), Message::SendSignal),
            MessageType::GetPromiseCommand => as_message!(self.read_as(alloc), Message::GetPromise),
            MessageType::PeekPromiseCommand => as_message!(
                self.read_as(alloc),
                Message::PeekPromise
            ),
            MessageType::CompletePromiseCommand => as_message!(
                self.read_as(alloc),
                Message::CompletePromise
            ),
            MessageType::RunCommand => as_message!(self.read_as(alloc), Message::Run),
            MessageType::AttachInvocationCommand => as_message!(
                self.read_as(alloc),
                Message::AttachInvocation
            ),
            MessageType::GetInvocationOutputCommand => as_message!(
                self.read_as(alloc),
                Message::GetInvocationOutput
            ),
            MessageType::OutputCommand => as_message!(self.read_as(alloc), Message::Output),
            MessageType::Notification => as_message!(
                self.read_notification(alloc),
                Message::Notification
            ),
        }
    }
}

impl RawMessage {
    /// Decodes the body as a message of the frame's type.
    #[tactic(auto, using(crate::proofs::Reading::decodes))]
    pub fn read(&self, alloc: Global) -> Result<Message, Fault>
        ensures read { Read (message_in self.now.ty self.now.body) result }
        ensures decodes { DecodesTo self.now.ty self.now.body result }
    {
        self.read_typed(alloc)
    }

    /// As `read`, the fault as the error that it is for the one who sent the frame.
    pub fn decode(&self, alloc: Global) -> Result<Message, Error>
        ensures { Decodes self.now.ty self.now.body result }
    {
        match self.read(alloc) {
            Ok(message) => Ok(message),
            Err(fault) => Err(Error::from(fault)),
        }
    }
}
