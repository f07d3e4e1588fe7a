//! A handler that runs out of memory. Its meaning is that of another, which it asks until then.

use std::alloc::AllocError;
use vm_types::{Answer, Handler, Step};

/// The other handler, but out of memory for the step after this number of answers.
#[derive(Drop)]
pub struct Starving<H> {
    pub handler: H,
    pub answers: usize,
}

impl<H: Handler> Handler for Starving<H> {
    ghost meaning = { λ h. H.meaning h.handler };

    fn next(&self, answers: &[Answer]) -> Result<Step, AllocError> {
        if answers.len() == self.answers {
            return Err(AllocError);
        }
        self.handler.next(answers)
    }
}
