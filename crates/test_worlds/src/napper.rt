//! A handler that sleeps once.
//! It asks whether its sleep is over before it takes the result.

use crate::steps::{output, sleep};
use await_trees::{NotificationHandle, UnresolvedFuture};
use bytes::Bytes;
use std::alloc::{AllocError, Global};
use vm_types::{Answer, Handler, Step};

/// Sleeps to 1000 ms, awaits the sleep, asks whether it is over, takes its result, writes an empty output and ends.
#[derive(Drop)]
pub struct Napper {
    pub alloc: Global,
}

impl Handler for Napper {
    ghost use Rattle.test_worlds.specs.Napping.{nap_step};

    ghost meaning = { λ h. nap_step };

    fn next(&self, answers: &[Answer]) -> Result<Step, AllocError> {
        match answers.len() {
            1 => Ok(sleep(self.alloc)),
            2 => Ok(Step::Await(UnresolvedFuture::Single(NotificationHandle(17)))),
            3 => Ok(Step::Completed(NotificationHandle(17))),
            4 => Ok(Step::Take(NotificationHandle(17))),
            5 => Ok(output(Bytes::new())),
            _ => Ok(Step::End),
        }
    }
}
