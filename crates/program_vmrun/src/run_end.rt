//! How a run ends, and the exit status of each end.
ghost use Rattle.std.specs.Prelude.{◌≡◌};
ghost use Rattle.program_vmrun.specs.Statuses.{attempt_status, runner_refusal_status};

use journal_protocol::Error;
use program_runs::exit_status::{ExitStatus, HasStatus};

/// How an attempt ends that is driven until a step gives its handler no answer.
#[derive(Debug, Drop)]
pub enum AttemptEnd {
    /// The handler has ended.
    Ended,
    /// The invocation is suspended.
    Suspended,
    /// The last step answered this error.
    Failed(Error),
    /// The attempt waits, or its handler was given 2^64 - 1 answers.
    Stalled,
}

impl HasStatus for AttemptEnd {
    ghost status = { attempt_status };

    fn status(&self) -> ExitStatus {
        match self {
            AttemptEnd::Ended => ExitStatus::Done,
            AttemptEnd::Suspended => ExitStatus::Suspended,
            AttemptEnd::Failed(_) | AttemptEnd::Stalled => ExitStatus::Failed,
        }
    }
}

/// Why a run is refused. Nothing was read.
#[derive(Debug, Drop)]
pub enum Refusal {
    /// There is no handler of this name.
    UnknownHandler,
    /// The content type is refused.
    ContentType(Error),
}

impl HasStatus for Refusal {
    ghost status = { runner_refusal_status };

    fn status(&self) -> ExitStatus {
        match self {
            Refusal::UnknownHandler => ExitStatus::Usage,
            Refusal::ContentType(_) => ExitStatus::Failed,
        }
    }
}

/// How a run ends. What it has done is that an attempt was driven to its end.
pub type RunEnd = program_runs::run_end::RunEnd<Refusal, AttemptEnd>;
