//! What a handler is: a function from the answers that it saw to its next step.
ghost use Rattle.std.specs.Prelude.{◌≡◌, IfOk};

use crate::steps::{Answer, Step};
use std::alloc::AllocError;

/// A handler's code, as what it asks for next.
pub trait Handler {
    ghost use Rattle.std.specs.Prelude.{List};
    ghost use Rattle.vm_types.specs.declared.steps.Answer.{Answer};
    ghost use Rattle.vm_types.specs.declared.steps.Step.{Step};

    /// The step that follows a list of answers.
    ghost meaning: { Self → List Answer → Step };

    /// The one step that the handler's meaning gives to these answers, if there is memory for it.
    fn next(&self, answers: &[Answer]) -> Result<Step, AllocError>
        ensures { IfOk result (λ step. step ≡ meaning self.now answers.now) };
}

impl<H: Handler> Handler for &H {
    ghost meaning = { λ h. H.meaning h.now };

    fn next(&self, answers: &[Answer]) -> Result<Step, AllocError> {
        (**self).next(answers)
    }
}
