//! What a line of a script says.
use bytes::Bytes;
use line_parts::results::Proposal;
use plain::Text;
use vm_types::Step;

/// A handler, by its names.
#[derive(Drop)]
pub struct Named {
    pub service: Text,
    pub handler: Text,
    /// Of the invocations of one key at most one goes on at a time.
    pub exclusive: bool,
}

/// An invocation that is asked for from outside.
#[derive(Drop)]
pub struct Asked {
    pub service: Text,
    pub handler: Text,
    pub parameter: Bytes,
    pub key: Option<Text>,
    pub idempotency_key: Option<Text>,
    /// In ms since the Unix epoch; 0 is at once.
    pub begins: u64,
}

/// What happens to one invocation.
#[derive(Drop)]
pub enum Deed {
    Begin,
    /// This number of bytes is fed, or all if there are fewer.
    Piece(usize),
    Close,
    Steps(u64),
    RunResult(Proposal),
    /// What waits at this place of the inbox is delivered.
    Deliver(usize),
    /// All that waits is delivered.
    DeliverAll,
    /// This number of frames is stored, or all if there are fewer.
    Store(usize),
    Stop,
}

/// What happens.
#[derive(Drop)]
pub enum Event {
    Submit(Asked),
    /// This happens to the invocation of this number.
    To(u32, Deed),
    Crash,
    /// It is this late, in ms since the Unix epoch.
    Clock(u64),
    /// Everything that can happen to each invocation happens, this number of times.
    Settle(u64),
}

/// A line of a script, read as a whole.
#[derive(Drop)]
pub enum Said {
    /// Nothing: a blank line or a comment.
    Nothing,
    Handler(Named),
    /// The next step of the handler.
    Step(Step),
    Event(Event),
}
