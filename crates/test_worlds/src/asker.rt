//! A handler that makes an awakeable and waits for it.
//! It ends without an output.

use await_trees::{NotificationHandle, UnresolvedFuture};
use std::alloc::AllocError;
use vm_types::{Answer, Handler, Step};

/// Makes an awakeable, awaits it, takes its result and ends.
#[derive(Drop)]
pub struct Asker;

impl Handler for Asker {
    ghost use Rattle.test_worlds.specs.Asking.{ask_step};

    ghost meaning = { λ h. ask_step };

    fn next(&self, answers: &[Answer]) -> Result<Step, AllocError> {
        match answers.len() {
            1 => Ok(Step::Awakeable),
            2 => Ok(Step::Await(UnresolvedFuture::Single(NotificationHandle(17)))),
            3 => Ok(Step::Take(NotificationHandle(17))),
            _ => Ok(Step::End),
        }
    }
}
