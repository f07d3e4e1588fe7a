//! What a message asks for as a command: how errors show it, and its numbers. One table over messages for all calls.
ghost use Rattle.std.specs.Prelude.{◌≡◌, ◌<◌, ◌+◌, ◌^◌, max, IfOk};
ghost use Rattle.vm_asks.specs.Carried.{carried, past};
ghost use Rattle.vm_asks.specs.Requests.{ids_of, is_cancelled_with, name_of, shown_type, with_ids};

use journal_protocol::{Message, MessageType};
use plain::{Text, copy_of};
use std::alloc::{AllocError, Global};
use vm_types::ImplicitCancellationOption;

/// The type that errors show: a state read is shown as its lazy form.
pub fn shown_type(message: &Message) -> MessageType
    ensures { result ≡ shown_type message.now }
{
    match message {
        Message::GetEagerState(_) => MessageType::GetLazyStateCommand,
        Message::GetEagerStateKeys(_) => MessageType::GetLazyStateKeysCommand,
        _ => message.ty(),
    }
}

/// The name that errors show.
#[inline(always)]
pub fn name_of(alloc: Global, message: &Message) -> Result<Text, AllocError>
    ensures { IfOk result (λ name. name ≡ name_of message.now) }
{
    match message {
        Message::Sleep(command) => copy_of(&command.name),
        Message::SetState(command) => copy_of(&command.name),
        Message::ClearState(command) => copy_of(&command.name),
        Message::ClearAllState(command) => copy_of(&command.name),
        Message::GetLazyState(command) => copy_of(&command.name),
        Message::GetLazyStateKeys(command) => copy_of(&command.name),
        Message::GetEagerState(command) => copy_of(&command.name),
        Message::GetEagerStateKeys(command) => copy_of(&command.name),
        Message::Call(command) => copy_of(&command.request.name),
        Message::OneWayCall(command) => copy_of(&command.request.name),
        Message::Run(command) => copy_of(&command.name),
        _ => Ok(Text::empty(alloc)),
    }
}

/// How many completion ids the command takes, with a handle for each.
pub fn ids_of(message: &Message) -> u32
    ensures ids { result ≡ ids_of message.now }
    ensures few { result < 3 }
{
    match message {
        Message::Call(_) => 2,
        Message::Sleep(_)
        | Message::GetLazyState(_)
        | Message::GetLazyStateKeys(_)
        | Message::OneWayCall(_)
        | Message::GetPromise(_)
        | Message::PeekPromise(_)
        | Message::CompletePromise(_)
        | Message::Run(_)
        | Message::AttachInvocation(_)
        | Message::GetInvocationOutput(_) => 1,
        _ => 0,
    }
}

/// Gives a command its completion ids, of which `id` is the first.
#[inline(always)]
pub fn give_ids(message: &mut Message, id: u32)
    requires { id + ids_of message.old < 2 ^ 32 }
    ensures { message.new ≡ with_ids id message.old }
{
    match message {
        Message::Sleep(command) => command.result_completion_id = id,
        Message::GetLazyState(command) => command.result_completion_id = id,
        Message::GetLazyStateKeys(command) => command.result_completion_id = id,
        Message::Call(command) => {
            command.request.invocation_id_notification_idx = id;
            command.result_completion_id = id + 1;
        }
        Message::OneWayCall(command) => command.request.invocation_id_notification_idx = id,
        Message::GetPromise(command) => command.result_completion_id = id,
        Message::PeekPromise(command) => command.result_completion_id = id,
        Message::CompletePromise(command) => command.result_completion_id = id,
        Message::Run(command) => command.result_completion_id = id,
        Message::AttachInvocation(command) => command.result_completion_id = id,
        Message::GetInvocationOutput(command) => command.result_completion_id = id,
        _ => {}
    }
}

/// Whether by these options the invocation that it asks for is cancelled with the handler's.
pub fn is_cancelled_with(option: ImplicitCancellationOption, message: &Message) -> bool
    ensures { result ≡ is_cancelled_with option message.now }
{
    match (option, message) {
        (
            ImplicitCancellationOption::Enabled {
                cancel_children_calls,
                ..
            },
            Message::Call(_),
        ) => { cancel_children_calls }
        (
            ImplicitCancellationOption::Enabled {
                cancel_children_one_way_calls,
                ..
            },
            Message::OneWayCall(_),
        ) => cancel_children_one_way_calls,
        _ => false,
    }
}

/// The completion id that is next past this one, where `next` was.
fn past_id(next: u64, id: u32) -> u64
    ensures { result ≡ max next (id + 1) }
{
    next.max(u64::from(id) + 1)
}

/// The completion id that is next past those that a command carries, where `next` was.
pub fn past(next: u64, command: &Message) -> u64
    ensures { result ≡ past next (carried command.now) }
{
    match command {
        Message::Sleep(command) => past_id(next, command.result_completion_id),
        Message::GetLazyState(command) => past_id(next, command.result_completion_id),
        Message::GetLazyStateKeys(command) => past_id(next, command.result_completion_id),
        Message::Call(command) => {
            let next = past_id(next, command.request.invocation_id_notification_idx);
            past_id(next, command.result_completion_id)
        }
        Message::OneWayCall(command) => {
            past_id(next, command.request.invocation_id_notification_idx)
        }
        Message::GetPromise(command) => past_id(next, command.result_completion_id),
        Message::PeekPromise(command) => past_id(next, command.result_completion_id),
        Message::CompletePromise(command) => past_id(next, command.result_completion_id),
        Message::Run(command) => past_id(next, command.result_completion_id),
        Message::AttachInvocation(command) => past_id(next, command.result_completion_id),
        Message::GetInvocationOutput(command) => past_id(next, command.result_completion_id),
        _ => next,
    }
}
