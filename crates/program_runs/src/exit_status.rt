//! The exit statuses of the programs.
ghost use Rattle.std.specs.Prelude.{◌≡◌};
ghost use Rattle.program_runs.specs.Statuses.{exit_code};

/// What the status of a process says.
#[derive(Clone, Copy, Debug, PartialEq, Eq)]
pub enum ExitStatus {
    /// What was asked for is done, and all output is written.
    Done,
    /// It isn't done. Reading or writing may have failed, or memory run out.
    Failed,
    /// What was asked for makes no sense.
    Usage,
    /// The invocation is suspended, and all output is written.
    Suspended,
}

impl ExitStatus {
    /// The number.
    pub fn code(&self) -> u8
        ensures { result ≡ exit_code self.now }
    {
        match self {
            ExitStatus::Done => 0,
            ExitStatus::Failed => 1,
            ExitStatus::Usage => 2,
            ExitStatus::Suspended => 3,
        }
    }
}

/// What decides on an exit status: why a run is refused, or what it has done.
pub trait HasStatus {
    ghost use Rattle.program_runs.specs.declared.exit_status.ExitStatus.{ExitStatus};

    /// The status of each value.
    ghost status: { Self → ExitStatus };

    /// The status.
    fn status(&self) -> ExitStatus
        ensures { result ≡ status self.now };
}

/// What a run has done, if there is nothing more to say of it.
impl HasStatus for () {
    ghost use Rattle.program_runs.specs.declared.exit_status.ExitStatus.TheVariants as exit_status;

    ghost status = { λ _. exit_status.Done };

    fn status(&self) -> ExitStatus {
        ExitStatus::Done
    }
}
