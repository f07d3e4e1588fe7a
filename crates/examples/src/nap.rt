//! It sleeps until a time that was taken before the attempt, such as five seconds from now, and ends. So each attempt has a handler of its
//! own. Replay doesn't compare the time: these handlers are a family, and rounds with another of them in each keep what is proved of families.
ghost use Rattle.std.specs.Prelude.{◌≡◌, ◌/◌};
ghost use Rattle.std.specs.declared.time.Duration.{Duration};
ghost use Rattle.std.specs.Duration.{as_nanos};
ghost use Rattle.vm_asks.specs.Asks.{time_fault};
ghost use Rattle.vm_model.specs.Alike.{AlikeHandlers};
ghost use Rattle.vm_model.specs.Calls.{Setup};
ghost use Rattle.examples.specs.Nap.{nap_until};

use handlers::sleeper::Sleeper;
use palqytun::handler::{Answer, Handler, Step};
use plain::Text;
use std::alloc::{AllocError, Global};
use std::time::Duration;

/// Sleeps until this time since the Unix epoch, and goes on as `Sleeper` does.
#[derive(Drop)]
pub struct Nap {
    pub alloc: Global,
    pub until: Duration,
}

impl Handler for Nap {
    ghost use Rattle.examples.specs.Nap.{nap_until};

    ghost meaning = { λ h. nap_until h.until };

    fn next(&self, answers: &[Answer]) -> Result<Step, AllocError> {
        if answers.len() == 1 {
            return Ok(Step::Sleep {
                name: Text::empty(self.alloc),
                wake_up_time_since_unix_epoch: self.until,
                now_since_unix_epoch: None,
            });
        }
        Sleeper { alloc: self.alloc }.next(answers)
    }
}

/// Naps are alike, until any two times that both fit in 64 bits of milliseconds, or both don't.
pub fn naps_are_alike()
    ensures { (s : Setup) (t u : Duration)
        → time_fault (as_nanos t / 1000000) ≡ time_fault (as_nanos u / 1000000)
        → AlikeHandlers s (nap_until t) (nap_until u) }
{}
