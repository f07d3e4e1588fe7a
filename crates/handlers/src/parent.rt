//! The handler `parent`: it calls two other handlers, and ends when both have answered.
use crate::answers::{call_handle_at, cancelled_output, is_cancelled_at};
use crate::calls::{call, two_awaited};
use await_trees::UnresolvedFuture;
use bytes::Bytes;
use std::alloc::{AllocError, Global};
use vm_types::{Answer, Handler, NonEmptyValue, PayloadOptions, Step};

/// Calls two handlers, awaits both results and takes them, writes "done" and ends.
#[derive(Debug, Drop)]
pub struct Parent {
    pub alloc: Global,
}

impl Handler for Parent {
    ghost use Rattle.handlers.specs.Parent.{parent_step};

    ghost meaning = { λ h. parent_step };

    fn next(&self, answers: &[Answer]) -> Result<Step, AllocError> {
        match answers.len() {
            1 => call(self.alloc, "Child", "a", Bytes::new()),
            2 => call(self.alloc, "Child", "b", Bytes::new()),
            3 => {
                let (first, second) = (call_handle_at(answers, 1), call_handle_at(answers, 2));
                let children = two_awaited(self.alloc, first, second)?;
                Ok(Step::Await(UnresolvedFuture::AllCompleted(children)))
            }
            4 => {
                if is_cancelled_at(answers, 3) {
                    return cancelled_output(self.alloc);
                }
                Ok(Step::Take(call_handle_at(answers, 1)))
            }
            5 => {
                if is_cancelled_at(answers, 3) {
                    return Ok(Step::End);
                }
                Ok(Step::Take(call_handle_at(answers, 2)))
            }
            6 => Ok(Step::WriteOutput(
                NonEmptyValue::Success(Bytes::from_static(b"done")),
                PayloadOptions::stable_serialization(),
            )),
            _ => Ok(Step::End),
        }
    }
}
