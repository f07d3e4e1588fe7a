//! Why a handler's code is left before its end.
ghost use Rattle.std.specs.Prelude.{◌≡◌};

use std::alloc::AllocError;
use vm_types::{Step, TerminalFailure};

/// What a handler can meet: it is cancelled, or what it awaits has failed.
#[derive(Debug, Drop)]
pub enum Fault {
    Cancelled,
    Failed(TerminalFailure),
}

/// Why code is left.
#[derive(Debug, Drop)]
pub enum Exit {
    /// This step has no answer yet.
    Next(Step),
    Fault(Fault),
    Memory,
}

impl From<AllocError> for Exit {
    ghost use Rattle.handler_flows.specs.declared.exit.Exit.TheVariants.{Memory};

    ghost from_gives = { λ _ exit. exit ≡ Memory };

    fn from(_error: AllocError) -> Exit {
        Exit::Memory
    }
}
