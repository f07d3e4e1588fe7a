//! The handler `deadline`: a call of another handler with a deadline, one second after the Unix epoch.
ghost use Rattle.std.specs.Prelude.{◌≡◌, IfOk};
ghost use Rattle.handlers.specs.Deadline.{deadline_output, earlier_handle};

use crate::answers::{
    call_handle_at, cancelled_output, deadline_handle_at, input_bytes, is_cancelled_at,
    is_completed_at, output_at,
};
use crate::calls::{call_until, two_awaited};
use await_trees::{NotificationHandle, UnresolvedFuture};
use bytes::Bytes;
use std::alloc::{AllocError, Global};
use std::time::Duration;
use vm_types::{Answer, Handler, NonEmptyValue, PayloadOptions, Step};

/// Calls with a deadline, awaits the first of result and deadline and takes it, writes what the call gave, or "timeout", and ends.
#[derive(Debug, Drop)]
pub struct Deadline {
    pub alloc: Global,
}

/// The handle of the call, where its result is there, and else of the deadline.
fn earlier_handle(answers: &[Answer]) -> NotificationHandle
    ensures { result ≡ earlier_handle answers.now }
{
    if is_completed_at(answers, 3) {
        return call_handle_at(answers, 1);
    }
    deadline_handle_at(answers, 1)
}

/// What the call gave, where its result was there, and else "timeout".
fn deadline_output(answers: &[Answer]) -> Result<NonEmptyValue, AllocError>
    ensures { IfOk result (λ output. output ≡ deadline_output answers.now) }
{
    if is_completed_at(answers, 3) {
        return output_at(answers, 4);
    }
    Ok(NonEmptyValue::Success(Bytes::from_static(b"timeout")))
}

impl Handler for Deadline {
    ghost use Rattle.handlers.specs.Deadline.{deadline_step};

    ghost meaning = { λ h. deadline_step };

    fn next(&self, answers: &[Answer]) -> Result<Step, AllocError> {
        match answers.len() {
            1 => {
                let (input, time) = (input_bytes(answers)?, Duration::from_millis(1000));
                call_until(self.alloc, "Greeter", "greet", input, time)
            }
            2 => {
                let (result, deadline) = (
                    call_handle_at(answers, 1),
                    deadline_handle_at(answers, 1),
                );
                let children = two_awaited(self.alloc, result, deadline)?;
                Ok(Step::Await(UnresolvedFuture::FirstCompleted(children)))
            }
            3 => {
                if is_cancelled_at(answers, 2) {
                    return cancelled_output(self.alloc);
                }
                Ok(Step::Completed(call_handle_at(answers, 1)))
            }
            4 => {
                if is_cancelled_at(answers, 2) {
                    return Ok(Step::End);
                }
                Ok(Step::Take(earlier_handle(answers)))
            }
            5 => {
                let output = deadline_output(answers)?;
                Ok(Step::WriteOutput(output, PayloadOptions::stable_serialization()))
            }
            _ => Ok(Step::End),
        }
    }
}
