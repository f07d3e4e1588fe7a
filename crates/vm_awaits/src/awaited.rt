//! What an await answers by which the machine doesn't fail.
ghost use Rattle.std.specs.Prelude.{◌≡◌, Ok, Err, IfSome, IfNone, None};
ghost use Rattle.journal_protocol.specs.NamedFault.TheVariants.{Suspended};
ghost use Rattle.journal_protocol.specs.Errors.{named_error};
ghost use Rattle.vm_machine.specs.Outcomes.{flattened};

use journal_protocol::{Error, NamedFault};
use std::marker::Model;
use vm_types::AwaitResponse;

/// How an await ends.
#[derive(Clone, Copy)]
enum End {
    Responds(AwaitResponse),
    Suspends,
}

/// A response, or that the invocation is suspended. Contracts see it as the result that the handler is given, which is much larger.
#[derive(Drop)]
pub struct Awaited {
    end: End,
}

impl Model for Awaited {
    ghost use Rattle.std.specs.Prelude.{Result};
    ghost use Rattle.journal_protocol.specs.Error.{Error};
    ghost use Rattle.vm_types.specs.declared.types.AwaitResponse.{AwaitResponse};
    ghost use Rattle.vm_awaits.specs.Answered.{answered};

    ghost Value = { Result AwaitResponse Error };

    ghost view = { λ it. answered it.end };
}

impl Awaited {
    pub fn with(response: AwaitResponse) -> Awaited
        ensures { result ≡ Ok response }
    {
        Awaited {
            end: End::Responds(response),
        }
    }

    pub fn suspended() -> Awaited
        ensures { result ≡ Err (named_error Suspended None) }
    {
        Awaited { end: End::Suspends }
    }

    pub fn response(&self) -> Option<AwaitResponse>
        ensures some { IfSome result (λ response. self.now ≡ Ok response) }
        ensures none { IfNone result (self.now ≡ Err (named_error Suspended None)) }
    {
        match self.end {
            End::Responds(response) => Some(response),
            End::Suspends => None,
        }
    }

    /// The result that the handler is given.
    pub fn into_result(self) -> Result<AwaitResponse, Error>
        ensures { result ≡ self }
    {
        match self.end {
            End::Responds(response) => Ok(response),
            End::Suspends => Err(Error::named(NamedFault::Suspended, None)),
        }
    }
}

/// An answer that is an error, though the machine didn't fail.
pub fn flatten(given: Result<Awaited, Error>) -> Result<AwaitResponse, Error>
    ensures { result ≡ flattened given }
{
    match given {
        Ok(answer) => answer.into_result(),
        Err(error) => Err(error),
    }
}
