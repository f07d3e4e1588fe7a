//! Whether a message that is no command is header-equal to another.
ghost use Rattle.std.specs.Prelude.{◌≡◌, IsTrue, false};
ghost use Rattle.journal_replay.specs.Headers.{HeaderEqual};
ghost use Rattle.journal_messages.specs.HeaderEqual.{propose_run_completion_equal, propose_run_completion_ack_equal, awaiting_on_equal, get_state_ephemeral_command_equal, get_state_ephemeral_notification_equal, notification_equal};

use journal_attempt::{AwaitingOn, ProposeRunCompletion, ProposeRunCompletionAck};
use journal_messages::Message;
use journal_state::{GetStateEphemeralCommand, GetStateEphemeralNotification};
use journal_values::Notification;
use wire::is_same;

pub fn is_propose_run_completion(
    a: &ProposeRunCompletion,
    message: &Message,
    ignore_payloads: bool,
) -> bool
    ensures equal { IsTrue result
        → HeaderEqual ignore_payloads (Message.ProposeRunCompletion a.now) message.now }
    ensures test { result ≡ propose_run_completion_equal ignore_payloads a.now message.now }
{
    match message {
        Message::ProposeRunCompletion(b) => a.id == b.id
            && (ignore_payloads || is_same(&a.result, &b.result)),
        _ => false,
    }
}

pub fn is_propose_run_completion_ack(a: &ProposeRunCompletionAck, message: &Message) -> bool
    ensures equal { IsTrue result
        → HeaderEqual false (Message.ProposeRunCompletionAck a.now) message.now }
    ensures test { result ≡ propose_run_completion_ack_equal a.now message.now }
{
    match message {
        Message::ProposeRunCompletionAck(b) => a.id == b.id,
        _ => false,
    }
}

pub fn is_awaiting_on(a: &AwaitingOn, message: &Message) -> bool
    ensures equal { IsTrue result → HeaderEqual false (Message.AwaitingOn a.now) message.now }
    ensures test { result ≡ awaiting_on_equal a.now message.now }
{
    match message {
        Message::AwaitingOn(b) => is_same(&a.future, &b.future)
            && a.executing_side_effects == b.executing_side_effects,
        _ => false,
    }
}

pub fn is_get_state_ephemeral_command(a: &GetStateEphemeralCommand, message: &Message) -> bool
    ensures equal { IsTrue result
        → HeaderEqual false (Message.GetStateEphemeralCommand a.now) message.now }
    ensures test { result ≡ get_state_ephemeral_command_equal a.now message.now }
{
    match message {
        Message::GetStateEphemeralCommand(b) => a.id == b.id && is_same(&a.key, &b.key),
        _ => false,
    }
}

pub fn is_get_state_ephemeral_notification(
    a: &GetStateEphemeralNotification,
    message: &Message,
    ignore_payloads: bool,
) -> bool
    ensures equal { IsTrue result
        → HeaderEqual ignore_payloads (Message.GetStateEphemeralNotification a.now) message.now }
    ensures test { result ≡ get_state_ephemeral_notification_equal ignore_payloads a.now
        message.now }
{
    match message {
        Message::GetStateEphemeralNotification(b) => a.id == b.id
            && (ignore_payloads || is_same(&a.result, &b.result)),
        _ => false,
    }
}

pub fn is_notification(a: &Notification, message: &Message, ignore_payloads: bool) -> bool
    ensures equal { IsTrue result
        → HeaderEqual ignore_payloads (Message.Notification a.now) message.now }
    ensures test { result ≡ notification_equal ignore_payloads a.now message.now }
{
    match message {
        Message::Notification(b) => is_same(&a.id, &b.id)
            && (ignore_payloads || is_same(&a.result, &b.result)),
        _ => false,
    }
}
