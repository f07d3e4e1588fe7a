//! Steps that several handlers make.
//! Each handler names its handles itself: an attempt hands them out from 17 on.
ghost use Rattle.std.specs.Prelude.{◌≡◌};
ghost use Rattle.test_worlds.specs.Steps.{sleep_step, output_step};

use bytes::Bytes;
use plain::Text;
use std::alloc::Global;
use std::time::Duration;
use vm_types::{NonEmptyValue, PayloadOptions, Step};

/// A sleep to 1000 ms.
pub fn sleep(alloc: Global) -> Step
    ensures { result ≡ sleep_step }
{
    Step::Sleep {
        name: Text::empty(alloc),
        wake_up_time_since_unix_epoch: Duration::from_millis(1000),
        now_since_unix_epoch: None,
    }
}

/// These bytes as the output.
pub fn output(bytes: Bytes) -> Step
    ensures { result ≡ output_step bytes }
{
    Step::WriteOutput(
        NonEmptyValue::Success(bytes),
        PayloadOptions::stable_serialization(),
    )
}
