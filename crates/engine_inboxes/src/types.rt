//! What waits, and what is there for it.
use journal_protocol::{NotificationResult, Signal, ValueOrFailure};
use journal_store::Timer;
use plain::Text;

/// What waits for an invocation, until it is delivered. A number is a completion id that one of its stored commands carries.
#[derive(Drop)]
pub enum Waiting {
    /// This is completed by the id of the invocation that the call has begun.
    Id(u32),
    /// This is completed by the result of the invocation that the call of the other number has begun.
    Outcome { completes: u32, call: u32 },
    /// This is completed once it is late enough.
    Clock(Timer),
    /// A signal has come.
    Signal(Signal, NotificationResult),
}

/// What is there for something that waits.
#[derive(Drop)]
pub enum Brought {
    /// The id of the invocation that a call has begun.
    Id(Text),
    /// The result of that invocation.
    Outcome(ValueOrFailure),
    /// It is so late, in ms since the Unix epoch.
    Time(u64),
}

/// Why an entry's effect can't be done.
#[derive(Clone, Copy, Debug, PartialEq, Eq)]
pub enum InboxFault {
    /// There is no memory.
    Memory,
    /// A command carries a completion id that isn't greater than those of the commands before it.
    IdNotNew,
    /// The result of a run completes an id that waits for something else.
    NotARun,
}
