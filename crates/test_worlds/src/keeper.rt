//! A handler that changes its state before it sleeps.
//! Its steps follow from the number of its answers alone.

use crate::steps::{output, sleep};
use await_trees::{NotificationHandle, UnresolvedFuture};
use bytes::Bytes;
use plain::Text;
use std::alloc::{AllocError, Global};
use vm_types::{Answer, Handler, PayloadOptions, Step};

/// Clears the key "a", sets the key "b" to "x", sleeps to 1000 ms, awaits the sleep, takes its result, writes an empty
/// output and ends.
#[derive(Drop)]
pub struct Keeper {
    pub alloc: Global,
}

impl Handler for Keeper {
    ghost use Rattle.test_worlds.specs.Keeping.{keep_step};

    ghost meaning = { λ h. keep_step };

    fn next(&self, answers: &[Answer]) -> Result<Step, AllocError> {
        match answers.len() {
            1 => Ok(Step::StateClear {
                key: Text::from_str(self.alloc, "a")?,
                name: None,
            }),
            2 => Ok(Step::StateSet {
                key: Text::from_str(self.alloc, "b")?,
                value: Bytes::from_static(b"x"),
                name: None,
                options: PayloadOptions::stable_serialization(),
            }),
            3 => Ok(sleep(self.alloc)),
            4 => Ok(Step::Await(UnresolvedFuture::Single(NotificationHandle(17)))),
            5 => Ok(Step::Take(NotificationHandle(17))),
            6 => Ok(output(Bytes::new())),
            _ => Ok(Step::End),
        }
    }
}
