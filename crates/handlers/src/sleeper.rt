//! The handler `sleeper`: it sleeps to one second after the Unix epoch, and ends with an empty result.
use crate::answers::{cancelled_output, handle_at, is_cancelled_at};
use await_trees::UnresolvedFuture;
use bytes::Bytes;
use plain::Text;
use std::alloc::{AllocError, Global};
use std::time::Duration;
use vm_types::{Answer, Handler, NonEmptyValue, PayloadOptions, Step};

/// Sleeps, awaits the sleep, takes its result, writes an empty output and ends.
#[derive(Debug, Drop)]
pub struct Sleeper {
    pub alloc: Global,
}

impl Handler for Sleeper {
    ghost use Rattle.handlers.specs.Sleeper.{sleeper_step};

    ghost meaning = { λ h. sleeper_step };

    fn next(&self, answers: &[Answer]) -> Result<Step, AllocError> {
        match answers.len() {
            1 => Ok(Step::Sleep {
                name: Text::empty(self.alloc),
                wake_up_time_since_unix_epoch: Duration::from_millis(1000),
                now_since_unix_epoch: None,
            }),
            2 => Ok(Step::Await(UnresolvedFuture::Single(handle_at(answers, 1)))),
            3 => {
                if is_cancelled_at(answers, 2) {
                    return cancelled_output(self.alloc);
                }
                Ok(Step::Take(handle_at(answers, 1)))
            }
            4 => {
                if is_cancelled_at(answers, 2) {
                    return Ok(Step::End);
                }
                Ok(Step::WriteOutput(
                    NonEmptyValue::Success(Bytes::new()),
                    PayloadOptions::stable_serialization(),
                ))
            }
            _ => Ok(Step::End),
        }
    }
}
