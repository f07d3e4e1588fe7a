//! What a call of the VM returned, as its reply.
ghost use Rattle.std.specs.Prelude.{◌≡◌};
ghost use Rattle.vm_types.specs.declared.steps.Answer.TheVariants as answer;
ghost use Rattle.vm_calls.specs.Called.{reply_of, reply_or_memory};
ghost use Rattle.vm_types.specs.declared.reply.Reply.TheVariants as reply;

use bytes::Bytes;
use journal_protocol::Error;
use std::alloc::AllocError;
use vm_types::{
    Answer, AwaitResponse, AwakeableHandle, EphemeralCompletionId, Input, Reply, ResponseHead,
    RunHandle, VMResult, Value,
};

/// The answer of a call that has no result, and whose only error is out of memory.
pub fn fed(given: Result<(), AllocError>) -> Reply
    ensures { result ≡ reply_or_memory (λ _. reply.Done) given }
{
    match given {
        Ok(()) => Reply::Done,
        Err(error) => Reply::Refused(Error::from(error)),
    }
}

pub fn head(given: Result<ResponseHead, AllocError>) -> Reply
    ensures { result ≡ reply_or_memory reply.Head given }
{
    match given {
        Ok(head) => Reply::Head(head),
        Err(error) => Reply::Refused(Error::from(error)),
    }
}

pub fn output(given: Result<Bytes, AllocError>) -> Reply
    ensures { result ≡ reply_or_memory reply.Output given }
{
    match given {
        Ok(bytes) => Reply::Output(bytes),
        Err(error) => Reply::Refused(Error::from(error)),
    }
}

pub fn ready(given: VMResult<bool>) -> Reply
    ensures { result ≡ reply_of reply.Ready given }
{
    match given {
        Ok(is_ready) => Reply::Ready(is_ready),
        Err(error) => Reply::Refused(error),
    }
}

pub fn awaited(given: VMResult<AwaitResponse>) -> Reply
    ensures { result ≡ reply_of reply.Awaited given }
{
    match given {
        Ok(response) => Reply::Awaited(response),
        Err(error) => Reply::Refused(error),
    }
}

pub fn input(given: VMResult<Input>) -> Reply
    ensures { result ≡ reply_of (λ input. reply.Answer (answer.Input input)) given }
{
    match given {
        Ok(input) => Reply::Answer(Answer::Input(input)),
        Err(error) => Reply::Refused(error),
    }
}

pub fn awakeable(given: VMResult<AwakeableHandle>) -> Reply
    ensures { result ≡ reply_of (λ made. reply.Answer (answer.Awakeable made)) given }
{
    match given {
        Ok(awakeable) => Reply::Answer(Answer::Awakeable(awakeable)),
        Err(error) => Reply::Refused(error),
    }
}

pub fn taken(given: VMResult<Option<Value>>) -> Reply
    ensures { result ≡ reply_of (λ value. reply.Answer (answer.Taken value)) given }
{
    match given {
        Ok(value) => Reply::Answer(Answer::Taken(value)),
        Err(error) => Reply::Refused(error),
    }
}

pub fn ended(given: VMResult<()>) -> Reply
    ensures { result ≡ reply_of (λ _. reply.Answer answer.Unit) given }
{
    match given {
        Ok(()) => Reply::Answer(Answer::Unit),
        Err(error) => Reply::Refused(error),
    }
}

pub fn ephemeral(given: VMResult<EphemeralCompletionId>) -> Reply
    ensures { result ≡ reply_of reply.Ephemeral given }
{
    match given {
        Ok(id) => Reply::Ephemeral(id),
        Err(error) => Reply::Refused(error),
    }
}

pub fn ran(given: VMResult<RunHandle>) -> Reply
    ensures { result ≡ reply_of reply.Run given }
{
    match given {
        Ok(run) => Reply::Run(run),
        Err(error) => Reply::Refused(error),
    }
}
