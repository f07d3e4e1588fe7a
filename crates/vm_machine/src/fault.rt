//! Why an event wasn't carried out: no memory was found, or it was refused with an error.
ghost use Rattle.std.specs.Prelude.{◌≡◌, None};
ghost use Rattle.journal_protocol.specs.Errors.{named_error};
ghost use Rattle.vm_machine.specs.declared.fault.Fault.TheVariants.{Memory, Refused};

use journal_protocol::{Error, NamedFault};
use std::alloc::AllocError;

#[derive(Drop)]
pub enum Fault {
    /// A growth was refused.
    Memory,
    Refused(Error),
}

/// A refusal that relates to no command.
pub fn refuse(fault: NamedFault) -> Fault
    ensures { result ≡ Refused (named_error fault None) }
{
    Fault::Refused(Error::named(fault, None))
}

impl From<AllocError> for Fault {
    ghost from_gives = { λ _ e. e ≡ Memory };

    fn from(_error: AllocError) -> Fault {
        Fault::Memory
    }
}
