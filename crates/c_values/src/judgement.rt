//! What C gets of a call that judges.
ghost use Rattle.std.specs.Prelude.{◌≡◌, false};
ghost use Rattle.c_values.specs.Answers.{IsJudged};
ghost use Rattle.c_values.specs.Statuses.{IsStatus, status_by};
ghost use Rattle.c_values.specs.declared.status.Status.TheVariants.{Done};

use crate::Status;

/// How a call ended, and whether a future is awake.
#[repr(C)]
#[derive(Drop)]
pub struct Judged {
    pub status: u32,
    pub is_awake: bool,
}

/// Why a call that judges has no answer.
pub fn unjudged(status: Status) -> Judged
    ensures status { status_by result.status ≡ status }
    ensures known { IsStatus result.status }
    ensures flag { result.is_awake ≡ false }
{
    Judged {
        status: status.code(),
        is_awake: false,
    }
}

/// What C gets of a call that has judged.
fn tell_awake(is_awake: bool) -> Judged
    ensures status { status_by result.status ≡ Done }
    ensures known { IsStatus result.status }
    ensures flag { result.is_awake ≡ is_awake }
{
    Judged {
        status: Status::Done.code(),
        is_awake,
    }
}

/// Says whether a future is awake, or why that can't be said.
pub fn judge(found: Result<bool, Status>) -> Judged
    ensures answered { IsJudged (status_by result.status) found result.is_awake }
    ensures known { IsStatus result.status }
{
    match found {
        Ok(is_awake) => tell_awake(is_awake),
        Err(why) => unjudged(why),
    }
}
