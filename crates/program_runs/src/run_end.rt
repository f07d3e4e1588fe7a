//! How a run ends.
ghost use Rattle.std.specs.Prelude.{◌≡◌};
ghost use Rattle.program_runs.specs.Statuses.{exit_code, status_of};

use crate::exit_status::{ExitStatus, HasStatus};
use std::io;

/// How a run ends: `R` says why it is refused, and `D` what it has done.
#[derive(Debug, Drop)]
pub enum RunEnd<R, D> {
    /// The arguments or the input make no sense. Nothing was written.
    Refused(R),
    /// Reading failed. Nothing was written.
    ReadFailed(io::Error),
    /// All was read, and then memory ran out. Nothing was written.
    NoMemory,
    /// This was done, and a beginning of its output was written before writing failed.
    WriteFailed(D, io::Error),
    /// This was done, and all its output is written.
    Written(D),
}

impl<R: HasStatus, D: HasStatus> RunEnd<R, D> {
    /// The exit status.
    pub fn status(&self) -> ExitStatus
        ensures { result ≡ status_of R.status D.status self.now }
    {
        match self {
            RunEnd::Refused(why) => why.status(),
            RunEnd::Written(done) => done.status(),
            _ => ExitStatus::Failed,
        }
    }

    /// The number of the exit status.
    pub fn code(&self) -> u8
        ensures { result ≡ exit_code (status_of R.status D.status self.now) }
    {
        self.status().code()
    }
}
