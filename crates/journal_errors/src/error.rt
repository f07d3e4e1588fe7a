//! The errors of the layer. One that a named fault makes takes no memory, so it can be made also if memory is out.
ghost use Rattle.std.specs.Prelude.{◌≡◌, [], Some, None, IfOk, string_bytes};
ghost use Rattle.wire.specs.Fault.TheVariants as wire_fault;
ghost use Rattle.journal_errors.specs.Errors.{plain_error, named_error, no_memory, fault_error, error_message, name_if_any, capped_millis};

use crate::{ErrorMessage, MessageType, NamedFault, Said};
use std::alloc::{AllocError, Global};
use std::fmt;
use std::time::Duration;
use wire::{Fault, Text};

/// What the runtime is to do after an error.
#[derive(Clone, Copy, Debug, PartialEq, Eq)]
pub enum ErrorBehavior {
    Retry,
    Pause,
    Fail,
}

/// The command that an error relates to. An empty name is no name.
#[derive(Clone, Debug, Drop)]
pub struct RelatedCommand {
    pub index: u32,
    pub ty: MessageType,
    pub name: Text,
}

#[derive(Clone, Debug)]
pub struct Error {
    pub code: u16,
    pub message: Said,
    pub stacktrace: Said,
    pub behavior: ErrorBehavior,
    pub next_retry_delay: Option<Duration>,
    pub related_command: Option<RelatedCommand>,
}

/// Written out, so that a caller who drops an error calls this: a derived drop is taken apart at each way out of a function.
impl Drop for Error {
    fn drop(self) {
        let Self {
            code: _,
            message,
            stacktrace,
            behavior: _,
            next_retry_delay: _,
            related_command,
        } = self;
        drop(message);
        drop(stacktrace);
        drop(related_command);
    }
}

impl fmt::Display for Error {
    fn fmt<W: fmt::Write>(&self, f: &mut fmt::Formatter<W>) -> fmt::Result {
        write!(f, "[{}] {}", self.code, self.message.as_str())
    }
}

impl std::error::Error for Error {}

impl Error {
    pub fn new(code: u16, message: String) -> Error
        ensures { result ≡ plain_error code (string_bytes message) None }
    {
        Error::of(code, Said::own(message), None)
    }

    /// It takes no memory.
    pub fn named(fault: NamedFault, related_command: Option<RelatedCommand>) -> Error
        ensures { result ≡ named_error fault related_command }
    {
        Error::of(fault.code(), Said::fixed(fault.text()), related_command)
    }

    fn of(code: u16, message: Said, related_command: Option<RelatedCommand>) -> Error
        ensures { result ≡ plain_error code message related_command }
    {
        Error {
            code,
            message,
            stacktrace: Said::fixed(""),
            behavior: ErrorBehavior::Retry,
            next_retry_delay: None,
            related_command,
        }
    }

    pub fn with_stacktrace(mut self, stacktrace: String) -> Error
        ensures { result ≡ record self { stacktrace = string_bytes stacktrace } }
    {
        self.stacktrace = Said::own(stacktrace);
        self
    }

    pub fn with_behavior(mut self, behavior: ErrorBehavior) -> Error
        ensures { result ≡ record self { behavior = behavior } }
    {
        self.behavior = behavior;
        self
    }

    pub fn with_next_retry_delay(mut self, delay: Duration) -> Error
        ensures { result ≡ record self { next_retry_delay = Some delay } }
    {
        self.next_retry_delay = Some(delay);
        self
    }

    pub fn code(&self) -> u16
        ensures { result ≡ self.now.code }
    {
        self.code
    }

    pub fn message(&self) -> &str
        ensures { result.now ≡ self.now.message }
    {
        self.message.as_str()
    }

    /// What is written of the error on the wire.
    pub fn to_message(&self, alloc: Global) -> Result<ErrorMessage, AllocError>
        ensures { IfOk result (λ m. m ≡ error_message self.now) }
    {
        let (index, ty, name) = match &self.related_command {
            None => (None, None, None),
            Some(related) => (
                Some(related.index),
                Some(related.ty.number() as u32),
                name_of(&related.name)?,
            ),
        };
        Ok(ErrorMessage {
            code: self.code as u32,
            message: Text::from_str(alloc, self.message.as_str())?,
            stacktrace: Text::from_str(alloc, self.stacktrace.as_str())?,
            behavior: self.behavior,
            index,
            ty,
            name,
            delay: self.next_retry_delay.map(millis_of),
        })
    }
}

impl From<AllocError> for Error {
    ghost from_gives = { λ _ e. e ≡ no_memory };

    fn from(_e: AllocError) -> Error {
        Error::named(NamedFault::Memory, None)
    }
}

impl From<Fault> for Error {
    ghost from_gives = { λ fault e. e ≡ fault_error fault };

    fn from(fault: Fault) -> Error {
        match fault {
            Fault::Memory => Error::named(NamedFault::Memory, None),
            Fault::Malformed => Error::named(NamedFault::BadMessage, None),
        }
    }
}

/// Whole milliseconds, as far as they go.
fn millis_of(delay: Duration) -> u64
    ensures { result ≡ capped_millis delay }
{
    u64::try_from(delay.as_millis()).unwrap_or(u64::MAX)
}

fn name_of(name: &Text) -> Result<Option<Text>, AllocError>
    ensures { IfOk result (λ n. n ≡ name_if_any name.now) }
{
    if name.as_str().is_empty() {
        Ok(None)
    } else {
        Ok(Some(name.clone()?))
    }
}
