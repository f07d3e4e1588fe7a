//! The reply to a call is kept in the place of the last, and summed up for C.
ghost use Rattle.std.specs.Prelude.{◌≡◌};
ghost use Rattle.vm_types.specs.declared.reply.Reply.TheVariants as reply;
ghost use Rattle.vm_calls.specs.Called.{reply_of};
ghost use Rattle.c_sessions.specs.Replies.{in_taken, part_len, part_of, summary};
ghost use Rattle.vm_types.specs.declared.steps.Answer.TheVariants as answer;

use crate::kind::Kind;
use crate::parts::{in_taken, part_of};
use crate::replied::{Replied, numbered, tell, tell_response, tell_taken};
use await_trees::NotificationHandle;
use journal_protocol::Error;
use std::mem::{forget, replace};
use vm_types::{Answer, AwaitResponse, Reply, VMResult, Value};

/// Whether a reply may own memory: `false` only if it is known to be of numbers alone.
fn may_hold_memory(reply: &Reply) -> bool {
    match reply {
        Reply::Nothing | Reply::Done | Reply::Made(_) | Reply::Ready(_) => false,
        Reply::Awaited(_) | Reply::Run(_) | Reply::State(_) | Reply::Index(_) => false,
        Reply::Answer(answer) => match answer {
            Answer::Handle(_) | Answer::Call(_) | Answer::Send(_) | Answer::Unit => false,
            Answer::Taken(None) | Answer::Taken(Some(Value::Void)) => false,
            _ => true,
        },
        _ => true,
    }
}

/// Drops the reply that was kept. It is apart, since what it takes apart is set to zero where it begins.
#[inline(never)]
fn clear(kept: &mut Reply)
    ensures { kept.new ≡ reply.Nothing }
{
    *kept = Reply::Nothing;
}

/// Drops the reply that was kept if it may own memory. Else it can be forgotten: that is faster.
fn release(kept: &mut Reply) {
    if may_hold_memory(kept) {
        clear(kept);
    }
}

/// How long the first part of a reply is, 0 without one.
fn first_len(reply: &Reply) -> usize
    ensures { result ≡ part_len (part_of reply.now 0) }
{
    match part_of(reply, 0) {
        Some(part) => part.len(),
        None => 0,
    }
}

/// What C is given at once of a reply.
fn summary(reply: &Reply) -> Replied
    ensures { result ≡ summary reply.now }
{
    let mut replied = tell(reply);
    replied.len = first_len(reply);
    replied
}

/// Keeps a reply of any kind. The others below make theirs where it is kept, since a reply is large to hand on.
#[inline(never)]
pub fn keep(kept: &mut Reply, reply: Reply) -> Replied
    ensures kept { kept.new ≡ reply }
    ensures told { result ≡ summary kept.new }
{
    release(kept);
    forget(replace(kept, reply));
    summary(kept)
}

/// Keeps an error. It is apart, as `clear` is.
#[inline(never)]
fn keep_error(kept: &mut Reply, error: Error) -> Replied
    ensures kept { kept.new ≡ reply.Refused error }
    ensures told { result ≡ summary kept.new }
{
    keep(kept, Reply::Refused(error))
}

/// Keeps a handle.
#[inline(always)]
fn keep_number(kept: &mut Reply, handle: NotificationHandle) -> Replied
    ensures kept { kept.new ≡ reply.Answer (answer.Handle handle) }
    ensures told { result ≡ summary kept.new }
{
    release(kept);
    forget(replace(kept, Reply::Answer(Answer::Handle(handle))));
    numbered(Kind::Handle, handle.0, 0, 0)
}

/// Keeps that a call was made.
#[inline(always)]
fn keep_unit(kept: &mut Reply) -> Replied
    ensures kept { kept.new ≡ reply.Answer answer.Unit }
    ensures told { result ≡ summary kept.new }
{
    release(kept);
    forget(replace(kept, Reply::Answer(Answer::Unit)));
    numbered(Kind::Nothing, 0, 0, 0)
}

/// Keeps what an await answered.
#[inline(always)]
fn keep_response(kept: &mut Reply, response: AwaitResponse) -> Replied
    ensures kept { kept.new ≡ reply.Awaited response }
    ensures told { result ≡ summary kept.new }
{
    release(kept);
    forget(replace(kept, Reply::Awaited(response)));
    tell_response(&response)
}

/// Keeps the reply of a call that answers a handle: the handle, or the error. What was answered is looked at where it is, here and
/// below, since a `match` first moves all that an error would take.
pub fn keep_handle(kept: &mut Reply, given: VMResult<NotificationHandle>) -> Replied
    ensures kept { kept.new ≡ reply_of (λ handle. reply.Answer (answer.Handle handle)) given }
    ensures told { result ≡ summary kept.new }
{
    if let Ok(handle) = &given {
        return keep_number(kept, *handle);
    }
    match given {
        Ok(handle) => keep_number(kept, handle),
        Err(error) => keep_error(kept, error),
    }
}

/// Keeps the reply of a call that answers nothing: that it was made, or the error.
pub fn keep_ended(kept: &mut Reply, given: VMResult<()>) -> Replied
    ensures kept { kept.new ≡ reply_of (λ _. reply.Answer answer.Unit) given }
    ensures told { result ≡ summary kept.new }
{
    if let Ok(()) = &given {
        return keep_unit(kept);
    }
    match given {
        Ok(()) => keep_unit(kept),
        Err(error) => keep_error(kept, error),
    }
}

/// Keeps the reply of an await: its answer, or the error.
pub fn keep_awaited(kept: &mut Reply, given: VMResult<AwaitResponse>) -> Replied
    ensures kept { kept.new ≡ reply_of reply.Awaited given }
    ensures told { result ≡ summary kept.new }
{
    if let Ok(response) = &given {
        return keep_response(kept, *response);
    }
    match given {
        Ok(response) => keep_response(kept, response),
        Err(error) => keep_error(kept, error),
    }
}

/// How long the first part of what was taken is.
fn taken_len(taken: &Option<Value>) -> usize
    ensures { result ≡ part_len (in_taken taken.now 0) }
{
    match in_taken(taken, 0) {
        Some(part) => part.len(),
        None => 0,
    }
}

/// Keeps the reply of a take: what was taken of a handle, or the error.
pub fn keep_taken(kept: &mut Reply, given: VMResult<Option<Value>>) -> Replied
    ensures kept { kept.new ≡ reply_of (λ value. reply.Answer (answer.Taken value)) given }
    ensures told { result ≡ summary kept.new }
{
    if let Ok(Some(Value::Void)) = &given {
        release(kept);
        forget(replace(kept, Reply::Answer(Answer::Taken(Some(Value::Void)))));
        return numbered(Kind::Void, 0, 0, 0);
    }
    match given {
        Ok(taken) => {
            let mut replied = tell_taken(&taken);
            replied.len = taken_len(&taken);
            release(kept);
            forget(replace(kept, Reply::Answer(Answer::Taken(taken))));
            replied
        }
        Err(error) => keep_error(kept, error),
    }
}
