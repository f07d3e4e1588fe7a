//! Whether replay takes two messages for one, and else the first field in which they aren't the same.
ghost use Rattle.std.specs.Prelude.{◌≡◌, ◌↔◌, IsTrue, false, is_none};
ghost use Rattle.journal_replay.specs.Headers.{HeaderEqual};
ghost use Rattle.journal_messages.specs.HeaderEqual.{header_equal, start_equal, suspension_equal, error_equal, sleep_equal, output_equal};
ghost use Rattle.journal_replay.specs.Differences.{IsFirst, body_difference, difference, input_difference, output_difference, sleep_difference};

mod calls;
mod runtime;
mod state;

use crate::field::{Field, unless};
use calls::{
    is_attach_invocation, is_call, is_complete_awakeable, is_complete_promise,
    is_get_invocation_output, is_get_promise, is_one_way_call, is_peek_promise, is_run,
    is_send_signal, of_attach_invocation, of_call, of_complete_awakeable, of_complete_promise,
    of_get_invocation_output, of_get_promise, of_one_way_call, of_peek_promise, of_run,
    of_send_signal,
};
use journal_attempt::{OutputCommand, SleepCommand, Start, Suspension};
use journal_errors::ErrorMessage;
use journal_messages::Message;
use runtime::{
    is_awaiting_on, is_get_state_ephemeral_command, is_get_state_ephemeral_notification,
    is_notification, is_propose_run_completion, is_propose_run_completion_ack,
};
use state::{
    is_clear_all_state, is_clear_state, is_get_eager_state, is_get_eager_state_keys,
    is_get_lazy_state, is_get_lazy_state_keys, is_set_state, of_clear_all_state, of_clear_state,
    of_get_eager_state, of_get_eager_state_keys, of_get_lazy_state, of_get_lazy_state_keys,
    of_set_state,
};
use wire::is_same;

/// Whether two messages are equal, but for what replay doesn't look at. With `ignore_payloads` payloads aren't looked at
/// either.
#[tactic(auto, using(crate::proofs::Erased::erased_equal))]
pub fn header_eq(a: &Message, b: &Message, ignore_payloads: bool) -> bool
    ensures equal { IsTrue result ↔ HeaderEqual ignore_payloads a.now b.now }
    ensures test { result ≡ header_equal a.now b.now ignore_payloads }
{
    is_header_equal(a, b, ignore_payloads)
}

#[tactic(auto, unfolding(journal_messages::specs::HeaderEqual::header_equal))]
fn is_header_equal(a: &Message, b: &Message, ignore_payloads: bool) -> bool
    ensures equal { IsTrue result → HeaderEqual ignore_payloads a.now b.now }
    ensures test { result ≡ header_equal a.now b.now ignore_payloads }
{
    match a {
        Message::Start(a) => is_start(a, b),
        Message::Suspension(a) => is_suspension(a, b),
        Message::Error(a) => is_error(a, b),
        Message::End => matches!(b, Message::End),
        Message::ProposeRunCompletion(a) => is_propose_run_completion(a, b, ignore_payloads),
        Message::ProposeRunCompletionAck(a) => is_propose_run_completion_ack(a, b),
        Message::AwaitingOn(a) => is_awaiting_on(a, b),
        Message::GetStateEphemeralCommand(a) => is_get_state_ephemeral_command(a, b),
        Message::GetStateEphemeralNotification(a) => {
            is_get_state_ephemeral_notification(a, b, ignore_payloads)
        }
        Message::Input(_) => matches!(b, Message::Input(_)),
        Message::GetEagerState(a) => is_get_eager_state(a, b, ignore_payloads),
        Message::GetLazyState(a) => is_get_lazy_state(a, b),
        Message::GetEagerStateKeys(a) => is_get_eager_state_keys(a, b, ignore_payloads),
        Message::GetLazyStateKeys(a) => is_get_lazy_state_keys(a, b),
        Message::SetState(a) => is_set_state(a, b, ignore_payloads),
        Message::ClearState(a) => is_clear_state(a, b),
        Message::ClearAllState(a) => is_clear_all_state(a, b),
        Message::Sleep(a) => is_sleep(a, b),
        Message::Call(a) => is_call(a, b, ignore_payloads),
        Message::OneWayCall(a) => is_one_way_call(a, b, ignore_payloads),
        Message::CompleteAwakeable(a) => is_complete_awakeable(a, b, ignore_payloads),
        Message::SendSignal(a) => is_send_signal(a, b, ignore_payloads),
        Message::GetPromise(a) => is_get_promise(a, b),
        Message::PeekPromise(a) => is_peek_promise(a, b),
        Message::CompletePromise(a) => is_complete_promise(a, b, ignore_payloads),
        Message::Run(a) => is_run(a, b),
        Message::AttachInvocation(a) => is_attach_invocation(a, b),
        Message::GetInvocationOutput(a) => is_get_invocation_output(a, b),
        Message::Output(a) => is_output(a, b, ignore_payloads),
        Message::Notification(a) => is_notification(a, b, ignore_payloads),
    }
}

fn is_start(a: &Start, message: &Message) -> bool
    ensures equal { IsTrue result → HeaderEqual false (Message.Start a.now) message.now }
    ensures test { result ≡ start_equal a.now message.now }
{
    match message {
        Message::Start(b) => is_same(a, b),
        _ => false,
    }
}

fn is_suspension(a: &Suspension, message: &Message) -> bool
    ensures equal { IsTrue result → HeaderEqual false (Message.Suspension a.now) message.now }
    ensures test { result ≡ suspension_equal a.now message.now }
{
    match message {
        Message::Suspension(b) => is_same(&a.future, &b.future),
        _ => false,
    }
}

fn is_error(a: &ErrorMessage, message: &Message) -> bool
    ensures equal { IsTrue result → HeaderEqual false (Message.Error a.now) message.now }
    ensures test { result ≡ error_equal a.now message.now }
{
    match message {
        Message::Error(b) => is_same(a, b),
        _ => false,
    }
}

fn is_sleep(a: &SleepCommand, message: &Message) -> bool
    ensures equal { IsTrue result → HeaderEqual false (Message.Sleep a.now) message.now }
    ensures test { result ≡ sleep_equal a.now message.now }
{
    match message {
        Message::Sleep(b) => a.result_completion_id == b.result_completion_id
            && is_same(&a.name, &b.name),
        _ => false,
    }
}

fn is_output(a: &OutputCommand, message: &Message, ignore_payloads: bool) -> bool
    ensures equal { IsTrue result → HeaderEqual ignore_payloads (Message.Output a.now) message.now }
    ensures test { result ≡ output_equal ignore_payloads a.now message.now }
{
    match message {
        Message::Output(b) => ignore_payloads || is_same(&a.result, &b.result),
        _ => false,
    }
}

fn of_sleep(a: &SleepCommand, message: &Message) -> Option<Field>
    ensures { result ≡ sleep_difference a.now message.now }
{
    let Message::Sleep(b) = message else {
        return Some(Field::Type);
    };
    let found = unless(
        a.result_completion_id == b.result_completion_id,
        Field::ResultCompletionId,
        None,
    );
    unless(is_same(&a.name, &b.name), Field::Name, found)
}

fn of_output(a: &OutputCommand, message: &Message, ignore_payloads: bool) -> Option<Field>
    ensures { result ≡ output_difference ignore_payloads a.now message.now }
{
    let Message::Output(b) = message else {
        return Some(Field::Type);
    };
    unless(
        ignore_payloads || is_same(&a.result, &b.result),
        Field::Result,
        None,
    )
}

/// Of an input no field is looked at.
fn of_input(message: &Message) -> Option<Field>
    ensures { result ≡ input_difference message.now }
{
    match message {
        Message::Input(_) => None,
        _ => Some(Field::Type),
    }
}

/// Messages that are no commands are compared as a whole.
fn of_body(a: &Message, b: &Message, ignore_payloads: bool) -> Option<Field>
    ensures { result ≡ body_difference ignore_payloads a.now b.now }
{
    unless(header_eq(a, b, ignore_payloads), Field::Body, None)
}

#[tactic(auto, unfolding(crate::specs::Differences::difference))]
fn first_difference(recorded: &Message, asked: &Message, ignore_payloads: bool) -> Option<Field>
    ensures { result ≡ difference ignore_payloads recorded.now asked.now }
{
    match recorded {
        Message::Input(_) => of_input(asked),
        Message::GetEagerState(a) => of_get_eager_state(a, asked, ignore_payloads),
        Message::GetLazyState(a) => of_get_lazy_state(a, asked),
        Message::GetEagerStateKeys(a) => of_get_eager_state_keys(a, asked, ignore_payloads),
        Message::GetLazyStateKeys(a) => of_get_lazy_state_keys(a, asked),
        Message::SetState(a) => of_set_state(a, asked, ignore_payloads),
        Message::ClearState(a) => of_clear_state(a, asked),
        Message::ClearAllState(a) => of_clear_all_state(a, asked),
        Message::Sleep(a) => of_sleep(a, asked),
        Message::Call(a) => of_call(a, asked, ignore_payloads),
        Message::OneWayCall(a) => of_one_way_call(a, asked, ignore_payloads),
        Message::CompleteAwakeable(a) => of_complete_awakeable(a, asked, ignore_payloads),
        Message::SendSignal(a) => of_send_signal(a, asked, ignore_payloads),
        Message::GetPromise(a) => of_get_promise(a, asked),
        Message::PeekPromise(a) => of_peek_promise(a, asked),
        Message::CompletePromise(a) => of_complete_promise(a, asked, ignore_payloads),
        Message::Run(a) => of_run(a, asked),
        Message::AttachInvocation(a) => of_attach_invocation(a, asked),
        Message::GetInvocationOutput(a) => of_get_invocation_output(a, asked),
        Message::Output(a) => of_output(a, asked, ignore_payloads),
        _ => of_body(recorded, asked, ignore_payloads),
    }
}

/// The first field in which a call's command isn't as the recorded one, among those that replay looks at; none if replay takes the two for
/// one. Ids come last, so what is found first is what the handler's code says. If `ignore_payloads`, payloads aren't looked at.
#[tactic(auto, using(crate::proofs::Erased::none_test, crate::proofs::Erased::is_first))]
pub fn difference(recorded: &Message, asked: &Message, ignore_payloads: bool) -> Option<Field>
    ensures found { result ≡ difference ignore_payloads recorded.now asked.now }
    // Nothing is found just if replay takes the two for one.
    ensures none { is_none result ≡ header_equal recorded.now asked.now ignore_payloads }
    // The field that is found isn't the same in the two, and each field before it is.
    ensures first { IsFirst ignore_payloads recorded.now asked.now result }
{
    first_difference(recorded, asked, ignore_payloads)
}
