//! A handler that goes on by what it took.
//! It completes the awakeable of another, and waits for one of its own.
ghost use Rattle.std.specs.Prelude.{◌≡◌, slice_get};
ghost use Rattle.std.specs.Option.{option_copied};
ghost use Rattle.test_worlds.specs.Choosing.{success_bytes, bytes_taken};

use crate::steps::{output, sleep};
use await_trees::{NotificationHandle, UnresolvedFuture};
use bytes::Bytes;
use plain::Text;
use std::alloc::{AllocError, Global};
use vm_types::{Answer, Handler, NonEmptyValue, PayloadOptions, Step, Value};

/// Completes the awakeable "prom_1" with "v", makes an awakeable, awaits it and takes its result. If that is a success, it writes the same
/// bytes as its output; else it sleeps to 1000 ms, awaits the sleep and writes an empty output. Then it ends.
#[derive(Drop)]
pub struct Chooser {
    pub alloc: Global,
}

/// The bytes of a success.
fn success(value: &Value) -> Option<&Bytes>
    ensures { option_copied result ≡ success_bytes value.now }
{
    match value {
        Value::Success(bytes) => Some(bytes),
        _ => None,
    }
}

/// The bytes of a success that was taken.
fn taken(answers: &[Answer]) -> Option<&Bytes>
    ensures { option_copied result ≡ bytes_taken (slice_get answers.now 4) }
{
    match answers.get(4) {
        Some(Answer::Taken(Some(value))) => success(value),
        _ => None,
    }
}

impl Handler for Chooser {
    ghost use Rattle.test_worlds.specs.Choosing.{choose_step};

    ghost meaning = { λ h. choose_step };

    fn next(&self, answers: &[Answer]) -> Result<Step, AllocError> {
        match answers.len() {
            1 => Ok(Step::CompleteAwakeable {
                id: Text::from_str(self.alloc, "prom_1")?,
                value: NonEmptyValue::Success(Bytes::from_static(b"v")),
                options: PayloadOptions::stable_serialization(),
            }),
            2 => Ok(Step::Awakeable),
            3 => Ok(Step::Await(UnresolvedFuture::Single(NotificationHandle(17)))),
            4 => Ok(Step::Take(NotificationHandle(17))),
            5 => match taken(answers) {
                Some(bytes) => Ok(output(bytes.clone()?)),
                None => Ok(sleep(self.alloc)),
            },
            6 => match taken(answers) {
                Some(_) => Ok(Step::End),
                None => Ok(Step::Await(UnresolvedFuture::Single(NotificationHandle(18)))),
            },
            7 => Ok(output(Bytes::new())),
            _ => Ok(Step::End),
        }
    }
}
