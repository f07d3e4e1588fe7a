//! Whether a command on state is header-equal to another message, and the first field in which it isn't.
ghost use Rattle.std.specs.Prelude.{◌≡◌, IsTrue, false};
ghost use Rattle.journal_replay.specs.Headers.{HeaderEqual};
ghost use Rattle.journal_messages.specs.HeaderEqual.{get_eager_state_equal, get_lazy_state_equal, get_eager_state_keys_equal, get_lazy_state_keys_equal, set_state_equal, clear_state_equal, clear_all_state_equal};
ghost use Rattle.journal_replay.specs.Differences.{get_eager_state_difference, get_lazy_state_difference, get_eager_state_keys_difference, get_lazy_state_keys_difference, set_state_difference, clear_state_difference, clear_all_state_difference};

use crate::field::{Field, unless};
use journal_messages::Message;
use journal_state::{
    ClearAllStateCommand, ClearStateCommand, GetEagerStateCommand, GetEagerStateKeysCommand,
    GetLazyStateCommand, GetLazyStateKeysCommand, SetStateCommand,
};
use wire::is_same;

pub fn is_get_eager_state(
    a: &GetEagerStateCommand,
    message: &Message,
    ignore_payloads: bool,
) -> bool
    ensures equal { IsTrue result
        → HeaderEqual ignore_payloads (Message.GetEagerState a.now) message.now }
    ensures test { result ≡ get_eager_state_equal ignore_payloads a.now message.now }
{
    match message {
        Message::GetEagerState(b) => is_same(&a.name, &b.name)
            && is_same(&a.key, &b.key)
            && (ignore_payloads || is_same(&a.result, &b.result)),
        _ => false,
    }
}

pub fn is_get_lazy_state(a: &GetLazyStateCommand, message: &Message) -> bool
    ensures equal { IsTrue result → HeaderEqual false (Message.GetLazyState a.now) message.now }
    ensures test { result ≡ get_lazy_state_equal a.now message.now }
{
    match message {
        Message::GetLazyState(b) => is_same(&a.name, &b.name)
            && is_same(&a.key, &b.key)
            && a.result_completion_id == b.result_completion_id,
        _ => false,
    }
}

pub fn is_get_eager_state_keys(
    a: &GetEagerStateKeysCommand,
    message: &Message,
    ignore_payloads: bool,
) -> bool
    ensures equal { IsTrue result
        → HeaderEqual ignore_payloads (Message.GetEagerStateKeys a.now) message.now }
    ensures test { result ≡ get_eager_state_keys_equal ignore_payloads a.now message.now }
{
    match message {
        Message::GetEagerStateKeys(b) => (ignore_payloads || is_same(&a.value, &b.value))
            && is_same(&a.name, &b.name),
        _ => false,
    }
}

pub fn is_get_lazy_state_keys(a: &GetLazyStateKeysCommand, message: &Message) -> bool
    ensures equal { IsTrue result → HeaderEqual false (Message.GetLazyStateKeys a.now) message.now }
    ensures test { result ≡ get_lazy_state_keys_equal a.now message.now }
{
    match message {
        Message::GetLazyStateKeys(b) => a.result_completion_id == b.result_completion_id
            && is_same(&a.name, &b.name),
        _ => false,
    }
}

pub fn is_set_state(a: &SetStateCommand, message: &Message, ignore_payloads: bool) -> bool
    ensures equal { IsTrue result
        → HeaderEqual ignore_payloads (Message.SetState a.now) message.now }
    ensures test { result ≡ set_state_equal ignore_payloads a.now message.now }
{
    match message {
        Message::SetState(b) => is_same(&a.name, &b.name)
            && is_same(&a.key, &b.key)
            && (ignore_payloads || is_same(&a.value, &b.value)),
        _ => false,
    }
}

pub fn is_clear_state(a: &ClearStateCommand, message: &Message) -> bool
    ensures equal { IsTrue result → HeaderEqual false (Message.ClearState a.now) message.now }
    ensures test { result ≡ clear_state_equal a.now message.now }
{
    match message {
        Message::ClearState(b) => is_same(&a.name, &b.name) && is_same(&a.key, &b.key),
        _ => false,
    }
}

pub fn is_clear_all_state(a: &ClearAllStateCommand, message: &Message) -> bool
    ensures equal { IsTrue result → HeaderEqual false (Message.ClearAllState a.now) message.now }
    ensures test { result ≡ clear_all_state_equal a.now message.now }
{
    match message {
        Message::ClearAllState(b) => is_same(&a.name, &b.name),
        _ => false,
    }
}

pub fn of_get_eager_state(
    a: &GetEagerStateCommand,
    message: &Message,
    ignore_payloads: bool,
) -> Option<Field>
    ensures { result ≡ get_eager_state_difference ignore_payloads a.now message.now }
{
    let Message::GetEagerState(b) = message else {
        return Some(Field::Type);
    };
    let found = unless(
        ignore_payloads || is_same(&a.result, &b.result),
        Field::Result,
        None,
    );
    let found = unless(is_same(&a.key, &b.key), Field::Key, found);
    unless(is_same(&a.name, &b.name), Field::Name, found)
}

pub fn of_get_lazy_state(a: &GetLazyStateCommand, message: &Message) -> Option<Field>
    ensures { result ≡ get_lazy_state_difference a.now message.now }
{
    let Message::GetLazyState(b) = message else {
        return Some(Field::Type);
    };
    let found = unless(
        a.result_completion_id == b.result_completion_id,
        Field::ResultCompletionId,
        None,
    );
    let found = unless(is_same(&a.key, &b.key), Field::Key, found);
    unless(is_same(&a.name, &b.name), Field::Name, found)
}

pub fn of_get_eager_state_keys(
    a: &GetEagerStateKeysCommand,
    message: &Message,
    ignore_payloads: bool,
) -> Option<Field>
    ensures { result ≡ get_eager_state_keys_difference ignore_payloads a.now message.now }
{
    let Message::GetEagerStateKeys(b) = message else {
        return Some(Field::Type);
    };
    let found = unless(is_same(&a.name, &b.name), Field::Name, None);
    unless(
        ignore_payloads || is_same(&a.value, &b.value),
        Field::Value,
        found,
    )
}

pub fn of_get_lazy_state_keys(a: &GetLazyStateKeysCommand, message: &Message) -> Option<Field>
    ensures { result ≡ get_lazy_state_keys_difference a.now message.now }
{
    let Message::GetLazyStateKeys(b) = message else {
        return Some(Field::Type);
    };
    let found = unless(
        a.result_completion_id == b.result_completion_id,
        Field::ResultCompletionId,
        None,
    );
    unless(is_same(&a.name, &b.name), Field::Name, found)
}

pub fn of_set_state(a: &SetStateCommand, message: &Message, ignore_payloads: bool) -> Option<Field>
    ensures { result ≡ set_state_difference ignore_payloads a.now message.now }
{
    let Message::SetState(b) = message else {
        return Some(Field::Type);
    };
    let found = unless(
        ignore_payloads || is_same(&a.value, &b.value),
        Field::Value,
        None,
    );
    let found = unless(is_same(&a.key, &b.key), Field::Key, found);
    unless(is_same(&a.name, &b.name), Field::Name, found)
}

pub fn of_clear_state(a: &ClearStateCommand, message: &Message) -> Option<Field>
    ensures { result ≡ clear_state_difference a.now message.now }
{
    let Message::ClearState(b) = message else {
        return Some(Field::Type);
    };
    let found = unless(is_same(&a.key, &b.key), Field::Key, None);
    unless(is_same(&a.name, &b.name), Field::Name, found)
}

pub fn of_clear_all_state(a: &ClearAllStateCommand, message: &Message) -> Option<Field>
    ensures { result ≡ clear_all_state_difference a.now message.now }
{
    let Message::ClearAllState(b) = message else {
        return Some(Field::Type);
    };
    unless(is_same(&a.name, &b.name), Field::Name, None)
}
