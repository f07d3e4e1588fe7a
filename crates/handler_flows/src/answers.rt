//! What a handler reads from the answer to a step.
ghost use Rattle.std.specs.Prelude.{◌≡◌, IfOk};
ghost use Rattle.handler_flows.specs.Answers.{awakeable_in, after_await, result_bytes, completed_in, given_or_over, handle_in, state_bytes, taken_in, unit_in};
ghost use Rattle.handler_flows.specs.Follows.{Follows};

use crate::context::Context;
use crate::exit::{Exit, Fault};
use await_trees::NotificationHandle;
use bytes::Bytes;
use std::alloc::AllocError;
use vm_types::{Answer, AwakeableHandle, Step, Value};

/// The handle of a sleep, a call, a read or a run.
pub(crate) fn handle_in(answer: &Answer) -> Option<NotificationHandle>
    ensures { result ≡ handle_in answer.now }
{
    match answer {
        Answer::Handle(handle) => Some(*handle),
        Answer::Call(call) => Some(call.call_notification_handle),
        _ => None,
    }
}

/// No more than that it was done.
pub(crate) fn unit_in(answer: &Answer) -> Option<()>
    ensures { result ≡ unit_in answer.now }
{
    match answer {
        Answer::Unit | Answer::Send(_) => Some(()),
        _ => None,
    }
}

/// What was taken.
pub(crate) fn taken_in(answer: &Answer) -> Result<Option<Option<Value>>, AllocError>
    ensures { IfOk result (λ taken. taken ≡ taken_in answer.now) }
{
    match answer {
        Answer::Taken(Some(value)) => Ok(Some(Some(value.clone()?))),
        Answer::Taken(None) => Ok(Some(None)),
        _ => Ok(None),
    }
}

/// An awakeable.
pub(crate) fn awakeable_in(answer: &Answer) -> Result<Option<AwakeableHandle>, AllocError>
    ensures { IfOk result (λ awakeable. awakeable ≡ awakeable_in answer.now) }
{
    match answer {
        Answer::Awakeable(awakeable) => Ok(Some(awakeable.clone()?)),
        _ => Ok(None),
    }
}

/// Whether a result is there.
pub(crate) fn completed_in(answer: &Answer) -> Option<bool>
    ensures { result ≡ completed_in answer.now }
{
    match answer {
        Answer::Completed(is) => Some(*is),
        _ => None,
    }
}

impl<'a> Context<'a> {
    /// What was found in the answer; without it the handler is over.
    pub(crate) fn expected<T>(&self, found: Option<T>) -> Result<T, Exit>
        ensures { Follows (given_or_over found) self.now result self.now }
    {
        match found {
            Some(value) => Ok(value),
            None => Err(Exit::Next(Step::End)),
        }
    }

    /// After an await: it goes on, or the handler is cancelled.
    pub(crate) fn awake(&self, answer: &Answer) -> Result<(), Exit>
        ensures { Follows (after_await answer.now) self.now result self.now }
    {
        match answer {
            Answer::Awake => Ok(()),
            Answer::Cancelled => Err(Exit::Fault(Fault::Cancelled)),
            _ => Err(Exit::Next(Step::End)),
        }
    }

    /// The bytes of a result.
    pub(crate) fn bytes_of(&self, taken: Option<Value>) -> Result<Bytes, Exit>
        ensures { Follows (result_bytes taken) self.now result self.now }
    {
        match taken {
            Some(Value::Success(bytes)) => Ok(bytes),
            Some(Value::Failure(failure)) => Err(Exit::Fault(Fault::Failed(failure))),
            Some(_) => Ok(Bytes::new()),
            None => Err(Exit::Next(Step::End)),
        }
    }

    /// The bytes of a state, if it is set.
    pub(crate) fn state_of(&self, taken: Option<Value>) -> Result<Option<Bytes>, Exit>
        ensures { Follows (state_bytes taken) self.now result self.now }
    {
        match taken {
            Some(Value::Success(bytes)) => Ok(Some(bytes)),
            Some(Value::Failure(failure)) => Err(Exit::Fault(Fault::Failed(failure))),
            Some(Value::Void) => Ok(None),
            _ => Err(Exit::Next(Step::End)),
        }
    }
}
