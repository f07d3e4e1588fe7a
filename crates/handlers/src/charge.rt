//! The handler `charge`: it has a charge made outside, in a run, and ends with the run's result.
use crate::answers::{cancelled_output, handle_at, is_cancelled_at, output_at};
use await_trees::UnresolvedFuture;
use plain::Text;
use std::alloc::{AllocError, Global};
use vm_types::{Answer, Handler, PayloadOptions, Step};

/// Runs "charge", awaits the run, takes its result, writes it as its output and ends.
#[derive(Debug, Drop)]
pub struct Charge {
    pub alloc: Global,
}

impl Handler for Charge {
    ghost use Rattle.handlers.specs.Charge.{charge_step};

    ghost meaning = { λ h. charge_step };

    fn next(&self, answers: &[Answer]) -> Result<Step, AllocError> {
        match answers.len() {
            1 => Ok(Step::Run {
                name: Text::from_str(self.alloc, "charge")?,
            }),
            2 => Ok(Step::Await(UnresolvedFuture::Single(handle_at(answers, 1)))),
            3 => {
                if is_cancelled_at(answers, 2) {
                    return cancelled_output(self.alloc);
                }
                Ok(Step::Take(handle_at(answers, 1)))
            }
            4 => {
                if is_cancelled_at(answers, 2) {
                    return Ok(Step::End);
                }
                Ok(Step::WriteOutput(
                    output_at(answers, 3)?,
                    PayloadOptions::stable_serialization(),
                ))
            }
            _ => Ok(Step::End),
        }
    }
}
