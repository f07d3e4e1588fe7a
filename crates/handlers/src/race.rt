//! The handler `race`: a call of another handler against a sleep to one second after the Unix epoch.
ghost use Rattle.std.specs.Prelude.{◌≡◌, IfOk};
ghost use Rattle.handlers.specs.Race.{race_output, winner};

use crate::answers::{
    call_handle_at, cancelled_output, handle_at, input_bytes, is_cancelled_at, is_completed_at,
    output_at,
};
use crate::calls::{call, two_awaited};
use await_trees::{NotificationHandle, UnresolvedFuture};
use bytes::Bytes;
use plain::Text;
use std::alloc::{AllocError, Global};
use std::time::Duration;
use vm_types::{Answer, Handler, NonEmptyValue, PayloadOptions, Step};

/// Sleeps, calls, awaits the first of both and takes its result, writes what the call gave, or "timeout", and ends.
#[derive(Debug, Drop)]
pub struct Race {
    pub alloc: Global,
}

/// The handle of the call, where its result is there, and else of the sleep.
fn winner(answers: &[Answer]) -> NotificationHandle
    ensures { result ≡ winner answers.now }
{
    if is_completed_at(answers, 4) {
        return call_handle_at(answers, 2);
    }
    handle_at(answers, 1)
}

/// What the call gave, where its result was there, and else "timeout".
fn race_output(answers: &[Answer]) -> Result<NonEmptyValue, AllocError>
    ensures { IfOk result (λ output. output ≡ race_output answers.now) }
{
    if is_completed_at(answers, 4) {
        return output_at(answers, 5);
    }
    Ok(NonEmptyValue::Success(Bytes::from_static(b"timeout")))
}

impl Handler for Race {
    ghost use Rattle.handlers.specs.Race.{race_step};

    ghost meaning = { λ h. race_step };

    fn next(&self, answers: &[Answer]) -> Result<Step, AllocError> {
        match answers.len() {
            1 => Ok(Step::Sleep {
                name: Text::empty(self.alloc),
                wake_up_time_since_unix_epoch: Duration::from_millis(1000),
                now_since_unix_epoch: None,
            }),
            2 => call(self.alloc, "Greeter", "greet", input_bytes(answers)?),
            3 => {
                let (sleep, result) = (handle_at(answers, 1), call_handle_at(answers, 2));
                let children = two_awaited(self.alloc, sleep, result)?;
                Ok(Step::Await(UnresolvedFuture::FirstCompleted(children)))
            }
            4 => {
                if is_cancelled_at(answers, 3) {
                    return cancelled_output(self.alloc);
                }
                Ok(Step::Completed(call_handle_at(answers, 2)))
            }
            5 => {
                if is_cancelled_at(answers, 3) {
                    return Ok(Step::End);
                }
                Ok(Step::Take(winner(answers)))
            }
            6 => {
                let output = race_output(answers)?;
                Ok(Step::WriteOutput(output, PayloadOptions::stable_serialization()))
            }
            _ => Ok(Step::End),
        }
    }
}
