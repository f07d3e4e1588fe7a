//! How a run ends, and the exit status of each end.
ghost use Rattle.std.specs.Prelude.{◌≡◌};
ghost use Rattle.call_scripts.specs.Statuses.{status_of_script};

use program_runs::exit_status::ExitStatus;
use std::io;

/// How a run ends.
#[derive(Debug, Drop)]
pub enum RunEnd {
    /// Reading failed. Nothing was written.
    ReadFailed(io::Error),
    /// All was read, and then memory ran out at a line. The answers of the lines before it are written.
    NoMemory,
    /// A beginning of an answer was written before writing failed. The answers before it are written.
    WriteFailed(io::Error),
    /// Each line is answered, and all answers are written.
    Done,
}

impl RunEnd {
    /// The program's exit status.
    pub fn status(&self) -> ExitStatus
        ensures { result ≡ status_of_script self.now }
    {
        match self {
            RunEnd::Done => ExitStatus::Done,
            _ => ExitStatus::Failed,
        }
    }
}
