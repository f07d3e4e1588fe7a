//! Whether a command on other invocations, promises or runs is header-equal to another message, and the first field in which it isn't.
ghost use Rattle.std.specs.Prelude.{◌≡◌, IsTrue, false};
ghost use Rattle.journal_replay.specs.Headers.{HeaderEqual, erased_request};
ghost use Rattle.journal_messages.specs.HeaderEqual.{call_equal, one_way_call_equal, complete_awakeable_equal, send_signal_equal, get_promise_equal, peek_promise_equal, complete_promise_equal, run_equal, attach_invocation_equal, get_invocation_output_equal, request_equal, promise_equal, invocation_equal};
ghost use Rattle.journal_replay.specs.Differences.{call_difference, one_way_call_difference, complete_awakeable_difference, send_signal_difference, get_promise_difference, peek_promise_difference, complete_promise_difference, run_difference, attach_invocation_difference, get_invocation_output_difference, request_difference};

use crate::field::{Field, unless};
use journal_attempt::RunCommand;
use journal_calls::{
    CallCommand, CallRequest, CompleteAwakeableCommand, CompletePromiseCommand, InvocationCommand,
    OneWayCallCommand, PromiseCommand, SendSignalCommand,
};
use journal_messages::Message;
use wire::is_same;

pub fn is_call(a: &CallCommand, message: &Message, ignore_payloads: bool) -> bool
    ensures equal { IsTrue result → HeaderEqual ignore_payloads (Message.Call a.now) message.now }
    ensures test { result ≡ call_equal ignore_payloads a.now message.now }
{
    match message {
        Message::Call(b) => same_request(&a.request, &b.request, ignore_payloads)
            && a.result_completion_id == b.result_completion_id,
        _ => false,
    }
}

pub fn is_one_way_call(a: &OneWayCallCommand, message: &Message, ignore_payloads: bool) -> bool
    ensures equal { IsTrue result
        → HeaderEqual ignore_payloads (Message.OneWayCall a.now) message.now }
    ensures test { result ≡ one_way_call_equal ignore_payloads a.now message.now }
{
    match message {
        Message::OneWayCall(b) => same_request(&a.request, &b.request, ignore_payloads),
        _ => false,
    }
}

pub fn is_complete_awakeable(
    a: &CompleteAwakeableCommand,
    message: &Message,
    ignore_payloads: bool,
) -> bool
    ensures equal { IsTrue result
        → HeaderEqual ignore_payloads (Message.CompleteAwakeable a.now) message.now }
    ensures test { result ≡ complete_awakeable_equal ignore_payloads a.now message.now }
{
    match message {
        Message::CompleteAwakeable(b) => is_same(&a.awakeable_id, &b.awakeable_id)
            && (ignore_payloads || is_same(&a.result, &b.result)),
        _ => false,
    }
}

pub fn is_send_signal(a: &SendSignalCommand, message: &Message, ignore_payloads: bool) -> bool
    ensures equal { IsTrue result
        → HeaderEqual ignore_payloads (Message.SendSignal a.now) message.now }
    ensures test { result ≡ send_signal_equal ignore_payloads a.now message.now }
{
    match message {
        Message::SendSignal(b) => is_same(&a.target_invocation_id, &b.target_invocation_id)
            && is_same(&a.signal, &b.signal)
            && (ignore_payloads || is_same(&a.result, &b.result)),
        _ => false,
    }
}

pub fn is_get_promise(a: &PromiseCommand, message: &Message) -> bool
    ensures equal { IsTrue result → HeaderEqual false (Message.GetPromise a.now) message.now }
    ensures test { result ≡ get_promise_equal a.now message.now }
{
    match message {
        Message::GetPromise(b) => same_promise(a, b),
        _ => false,
    }
}

pub fn is_peek_promise(a: &PromiseCommand, message: &Message) -> bool
    ensures equal { IsTrue result → HeaderEqual false (Message.PeekPromise a.now) message.now }
    ensures test { result ≡ peek_promise_equal a.now message.now }
{
    match message {
        Message::PeekPromise(b) => same_promise(a, b),
        _ => false,
    }
}

pub fn is_complete_promise(
    a: &CompletePromiseCommand,
    message: &Message,
    ignore_payloads: bool,
) -> bool
    ensures equal { IsTrue result
        → HeaderEqual ignore_payloads (Message.CompletePromise a.now) message.now }
    ensures test { result ≡ complete_promise_equal ignore_payloads a.now message.now }
{
    match message {
        Message::CompletePromise(b) => is_same(&a.key, &b.key)
            && (ignore_payloads || is_same(&a.completion, &b.completion))
            && a.result_completion_id == b.result_completion_id,
        _ => false,
    }
}

pub fn is_run(a: &RunCommand, message: &Message) -> bool
    ensures equal { IsTrue result → HeaderEqual false (Message.Run a.now) message.now }
    ensures test { result ≡ run_equal a.now message.now }
{
    match message {
        Message::Run(b) => is_same(&a.name, &b.name)
            && a.result_completion_id == b.result_completion_id,
        _ => false,
    }
}

pub fn is_attach_invocation(a: &InvocationCommand, message: &Message) -> bool
    ensures equal { IsTrue result → HeaderEqual false (Message.AttachInvocation a.now) message.now }
    ensures test { result ≡ attach_invocation_equal a.now message.now }
{
    match message {
        Message::AttachInvocation(b) => same_invocation(a, b),
        _ => false,
    }
}

pub fn is_get_invocation_output(a: &InvocationCommand, message: &Message) -> bool
    ensures equal { IsTrue result
        → HeaderEqual false (Message.GetInvocationOutput a.now) message.now }
    ensures test { result ≡ get_invocation_output_equal a.now message.now }
{
    match message {
        Message::GetInvocationOutput(b) => same_invocation(a, b),
        _ => false,
    }
}

fn same_request(a: &CallRequest, b: &CallRequest, ignore_payloads: bool) -> bool
    ensures equal { IsTrue result → erased_request ignore_payloads a.now
        ≡ erased_request ignore_payloads b.now }
    ensures test { result ≡ request_equal ignore_payloads a.now b.now }
{
    is_same(&a.service_name, &b.service_name)
        && is_same(&a.handler_name, &b.handler_name)
        && is_same(&a.key, &b.key)
        && is_same(&a.idempotency_key, &b.idempotency_key)
        && is_same(&a.scope, &b.scope)
        && is_same(&a.limit_key, &b.limit_key)
        && is_same(&a.headers, &b.headers)
        && (ignore_payloads || is_same(&a.parameter, &b.parameter))
        && a.invocation_id_notification_idx == b.invocation_id_notification_idx
        && is_same(&a.name, &b.name)
}

fn same_promise(a: &PromiseCommand, b: &PromiseCommand) -> bool
    ensures equal { IsTrue result → a.now ≡ b.now }
    ensures test { result ≡ promise_equal a.now b.now }
{
    is_same(&a.key, &b.key) && a.result_completion_id == b.result_completion_id
}

fn same_invocation(a: &InvocationCommand, b: &InvocationCommand) -> bool
    ensures equal { IsTrue result → a.now ≡ b.now }
    ensures test { result ≡ invocation_equal a.now b.now }
{
    is_same(&a.target, &b.target) && a.result_completion_id == b.result_completion_id
}

/// Two requests, and what is found after them.
fn of_request(
    a: &CallRequest,
    b: &CallRequest,
    ignore_payloads: bool,
    others: Option<Field>,
) -> Option<Field>
    ensures { result ≡ request_difference ignore_payloads a.now b.now others }
{
    let found = unless(
        a.invocation_id_notification_idx == b.invocation_id_notification_idx,
        Field::InvocationIdNotificationIdx,
        others,
    );
    let found = unless(is_same(&a.name, &b.name), Field::Name, found);
    let found = unless(
        ignore_payloads || is_same(&a.parameter, &b.parameter),
        Field::Parameter,
        found,
    );
    let found = unless(is_same(&a.headers, &b.headers), Field::Headers, found);
    let found = unless(is_same(&a.limit_key, &b.limit_key), Field::LimitKey, found);
    let found = unless(is_same(&a.scope, &b.scope), Field::Scope, found);
    let found = unless(
        is_same(&a.idempotency_key, &b.idempotency_key),
        Field::IdempotencyKey,
        found,
    );
    let found = unless(is_same(&a.key, &b.key), Field::Key, found);
    let found = unless(
        is_same(&a.handler_name, &b.handler_name),
        Field::HandlerName,
        found,
    );
    unless(
        is_same(&a.service_name, &b.service_name),
        Field::ServiceName,
        found,
    )
}

pub fn of_call(a: &CallCommand, message: &Message, ignore_payloads: bool) -> Option<Field>
    ensures { result ≡ call_difference ignore_payloads a.now message.now }
{
    let Message::Call(b) = message else {
        return Some(Field::Type);
    };
    let found = unless(
        a.result_completion_id == b.result_completion_id,
        Field::ResultCompletionId,
        None,
    );
    of_request(&a.request, &b.request, ignore_payloads, found)
}

pub fn of_one_way_call(
    a: &OneWayCallCommand,
    message: &Message,
    ignore_payloads: bool,
) -> Option<Field>
    ensures { result ≡ one_way_call_difference ignore_payloads a.now message.now }
{
    let Message::OneWayCall(b) = message else {
        return Some(Field::Type);
    };
    of_request(&a.request, &b.request, ignore_payloads, None)
}

pub fn of_complete_awakeable(
    a: &CompleteAwakeableCommand,
    message: &Message,
    ignore_payloads: bool,
) -> Option<Field>
    ensures { result ≡ complete_awakeable_difference ignore_payloads a.now message.now }
{
    let Message::CompleteAwakeable(b) = message else {
        return Some(Field::Type);
    };
    let found = unless(
        ignore_payloads || is_same(&a.result, &b.result),
        Field::Result,
        None,
    );
    unless(
        is_same(&a.awakeable_id, &b.awakeable_id),
        Field::AwakeableId,
        found,
    )
}

pub fn of_send_signal(
    a: &SendSignalCommand,
    message: &Message,
    ignore_payloads: bool,
) -> Option<Field>
    ensures { result ≡ send_signal_difference ignore_payloads a.now message.now }
{
    let Message::SendSignal(b) = message else {
        return Some(Field::Type);
    };
    let found = unless(
        ignore_payloads || is_same(&a.result, &b.result),
        Field::Result,
        None,
    );
    let found = unless(is_same(&a.signal, &b.signal), Field::Signal, found);
    unless(
        is_same(&a.target_invocation_id, &b.target_invocation_id),
        Field::TargetInvocationId,
        found,
    )
}

pub fn of_get_promise(a: &PromiseCommand, message: &Message) -> Option<Field>
    ensures { result ≡ get_promise_difference a.now message.now }
{
    let Message::GetPromise(b) = message else {
        return Some(Field::Type);
    };
    let found = unless(
        a.result_completion_id == b.result_completion_id,
        Field::ResultCompletionId,
        None,
    );
    unless(is_same(&a.key, &b.key), Field::Key, found)
}

pub fn of_peek_promise(a: &PromiseCommand, message: &Message) -> Option<Field>
    ensures { result ≡ peek_promise_difference a.now message.now }
{
    let Message::PeekPromise(b) = message else {
        return Some(Field::Type);
    };
    let found = unless(
        a.result_completion_id == b.result_completion_id,
        Field::ResultCompletionId,
        None,
    );
    unless(is_same(&a.key, &b.key), Field::Key, found)
}

pub fn of_complete_promise(
    a: &CompletePromiseCommand,
    message: &Message,
    ignore_payloads: bool,
) -> Option<Field>
    ensures { result ≡ complete_promise_difference ignore_payloads a.now message.now }
{
    let Message::CompletePromise(b) = message else {
        return Some(Field::Type);
    };
    let found = unless(
        a.result_completion_id == b.result_completion_id,
        Field::ResultCompletionId,
        None,
    );
    let found = unless(
        ignore_payloads || is_same(&a.completion, &b.completion),
        Field::Completion,
        found,
    );
    unless(is_same(&a.key, &b.key), Field::Key, found)
}

pub fn of_run(a: &RunCommand, message: &Message) -> Option<Field>
    ensures { result ≡ run_difference a.now message.now }
{
    let Message::Run(b) = message else {
        return Some(Field::Type);
    };
    let found = unless(
        a.result_completion_id == b.result_completion_id,
        Field::ResultCompletionId,
        None,
    );
    unless(is_same(&a.name, &b.name), Field::Name, found)
}

pub fn of_attach_invocation(a: &InvocationCommand, message: &Message) -> Option<Field>
    ensures { result ≡ attach_invocation_difference a.now message.now }
{
    let Message::AttachInvocation(b) = message else {
        return Some(Field::Type);
    };
    let found = unless(
        a.result_completion_id == b.result_completion_id,
        Field::ResultCompletionId,
        None,
    );
    unless(is_same(&a.target, &b.target), Field::Target, found)
}

pub fn of_get_invocation_output(a: &InvocationCommand, message: &Message) -> Option<Field>
    ensures { result ≡ get_invocation_output_difference a.now message.now }
{
    let Message::GetInvocationOutput(b) = message else {
        return Some(Field::Type);
    };
    let found = unless(
        a.result_completion_id == b.result_completion_id,
        Field::ResultCompletionId,
        None,
    );
    unless(is_same(&a.target, &b.target), Field::Target, found)
}
