//! How a run ends, and the exit status of each end.
ghost use Rattle.std.specs.Prelude.{◌≡◌};

use engine_inboxes::EngineFault;
use program_runs::exit_status::{ExitStatus, HasStatus};

/// How a script ends.
#[derive(Clone, Copy)]
pub struct Ending {
    /// The fault that has stopped it; then nothing was to be written. If none has, all its events have happened.
    pub stopped_by: Option<EngineFault>,
}

/// Why a run is refused.
#[derive(Drop)]
pub enum Refusal {
    /// The arguments are others than one content type. Nothing was read.
    OtherArguments,
    /// The text is no content type of any version. Nothing was read.
    UnknownContentType,
    /// The line of this number, counted from 1, has no meaning. Its bytes, if there was memory for them, are for a message to a person.
    NoMeaning(u64, Option<Vec<u8>>),
}

/// How a run ends. What it has done is that a script was played.
pub type RunEnd = program_runs::run_end::RunEnd<Refusal, Ending>;

impl HasStatus for Ending {
    ghost use Rattle.engine_lines.specs.Statuses.{ending_status};

    ghost status = { λ ending. ending_status ending.stopped_by };

    fn status(&self) -> ExitStatus {
        match self.stopped_by {
            None => ExitStatus::Done,
            Some(_) => ExitStatus::Failed,
        }
    }
}

impl HasStatus for Refusal {
    ghost use Rattle.engine_lines.specs.Statuses.{refusal_status};

    ghost status = { refusal_status };

    fn status(&self) -> ExitStatus {
        match self {
            Refusal::OtherArguments | Refusal::NoMeaning(_, _) => ExitStatus::Usage,
            Refusal::UnknownContentType => ExitStatus::Failed,
        }
    }
}
