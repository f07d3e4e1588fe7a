//! A plan: a handler with a fixed list of steps, which it makes one after another. Its answers change nothing.
use crate::copies::copy_of_step;
use std::alloc::{AllocError, Global};
use vm_types::{Answer, Handler, Step};

/// Makes these steps, one after another, and then ends.
#[derive(Drop)]
pub struct Plan {
    pub alloc: Global,
    pub steps: Vec<Step>,
}

impl Handler for Plan {
    ghost use Rattle.call_lines.specs.Plans.{plan_step};

    ghost meaning = { λ h. plan_step h.steps.items };

    fn next(&self, answers: &[Answer]) -> Result<Step, AllocError> {
        match self.steps.get(answers.len().saturating_sub(1)) {
            Some(step) => copy_of_step(self.alloc, step),
            None => Ok(Step::End),
        }
    }
}
