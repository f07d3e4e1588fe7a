//! Why a run of the program is refused, and the exit status then.
ghost use Rattle.std.specs.Prelude.{◌≡◌};
ghost use Rattle.frame_runs.specs.Statuses.{frames_refusal_status};

use program_runs::exit_status::{ExitStatus, HasStatus};

/// Why a run is refused.
#[derive(Debug, Drop)]
pub enum Refusal {
    /// The arguments make no sense. Nothing was read.
    Usage,
    /// The line of this number, counted from 1, has no meaning. Its bytes, if there was memory for them, are for a message to a person.
    BadLine(u64, Option<Vec<u8>>),
}

impl HasStatus for Refusal {
    ghost status = { frames_refusal_status };

    fn status(&self) -> ExitStatus {
        match self {
            Refusal::Usage => ExitStatus::Usage,
            Refusal::BadLine(_, _) => ExitStatus::Failed,
        }
    }
}

/// How a run ends. What it has done is that all that was read is turned into the other form.
pub type RunEnd = program_runs::run_end::RunEnd<Refusal, ()>;
