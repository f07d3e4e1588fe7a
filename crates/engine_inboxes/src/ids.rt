//! The completion ids that commands carry: each is greater than all before it.
ghost use Rattle.std.specs.Prelude.{◌≡◌};
ghost use Rattle.engine_inboxes.specs.Ids.{carried_pair, past_new, past_new_ids};

use journal_protocol::Message;

/// The completion ids that a command carries, in order.
fn carried(command: &Message) -> (Option<u32>, Option<u32>)
    ensures { result ≡ carried_pair command.now }
{
    match command {
        Message::Sleep(c) => (Some(c.result_completion_id), None),
        Message::GetLazyState(c) => (Some(c.result_completion_id), None),
        Message::GetLazyStateKeys(c) => (Some(c.result_completion_id), None),
        Message::GetPromise(c) => (Some(c.result_completion_id), None),
        Message::PeekPromise(c) => (Some(c.result_completion_id), None),
        Message::CompletePromise(c) => (Some(c.result_completion_id), None),
        Message::AttachInvocation(c) => (Some(c.result_completion_id), None),
        Message::GetInvocationOutput(c) => (Some(c.result_completion_id), None),
        Message::Run(c) => (Some(c.result_completion_id), None),
        Message::OneWayCall(c) => (Some(c.request.invocation_id_notification_idx), None),
        Message::Call(c) => (
            Some(c.request.invocation_id_notification_idx),
            Some(c.result_completion_id),
        ),
        _ => (None, None),
    }
}

/// What is next past an id, if it isn't below this one.
fn past(next: u64, id: Option<u32>) -> Option<u64>
    ensures { result ≡ past_new next id }
{
    match id {
        None => Some(next),
        Some(id) => {
            let id = id as u64;
            if id < next { None } else { Some(id + 1) }
        }
    }
}

/// What is next past all ids of a command, if they are new ones in order.
pub fn past_all(next: u64, command: &Message) -> Option<u64>
    ensures { result ≡ past_new_ids next command.now }
{
    let (first, second) = carried(command);
    match past(next, first) {
        Some(next) => past(next, second),
        None => None,
    }
}
