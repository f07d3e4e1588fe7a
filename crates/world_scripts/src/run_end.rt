//! How a run ends, and the exit status of each end.
ghost use Rattle.std.specs.Prelude.{◌≡◌};
ghost use Rattle.world_scripts.specs.Statuses.{rounds_status, rounds_refusal_status};

use crate::stop::Stop;
use program_runs::exit_status::{ExitStatus, HasStatus};

/// How a script ends.
#[derive(Clone, Copy)]
pub struct Ending {
    /// What has stopped it: the report names the fault. If nothing has, all its rounds have run, and the report says what they did.
    pub stopped_by: Option<Stop>,
}

impl HasStatus for Ending {
    ghost status = { λ ending. rounds_status ending.stopped_by };

    fn status(&self) -> ExitStatus {
        match self.stopped_by {
            None => ExitStatus::Done,
            Some(_) => ExitStatus::Failed,
        }
    }
}

/// Why a run is refused.
#[derive(Drop)]
pub enum Refusal {
    /// There is no handler of this name. Nothing was read.
    UnknownHandler,
    /// The text is no content type of any version. Nothing was read.
    UnknownContentType,
    /// The line of this number, counted from 1, has no meaning. Its bytes, if there was memory for them, are for a message to a person.
    NoMeaning(u64, Option<Vec<u8>>),
}

impl HasStatus for Refusal {
    ghost status = { rounds_refusal_status };

    fn status(&self) -> ExitStatus {
        match self {
            Refusal::UnknownHandler | Refusal::NoMeaning(_, _) => ExitStatus::Usage,
            Refusal::UnknownContentType => ExitStatus::Failed,
        }
    }
}

/// How a run ends. What it has done is that a script was played.
pub type RunEnd = program_runs::run_end::RunEnd<Refusal, Ending>;
