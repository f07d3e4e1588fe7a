//! What is asked of an engine, and what it keeps of that.

use bytes::Bytes;
use plain::Text;

/// An invocation that is asked for, by a command or from outside.
#[derive(Drop)]
pub struct Order {
    pub service: Text,
    pub handler: Text,
    pub key: Text,
    pub idempotency_key: Option<Text>,
    pub parameter: Bytes,
    /// In ms since the Unix epoch; 0 is at once.
    pub begins: u64,
}

/// The invocation that a call has begun, or was attached to, by the completion id that its id completes; at no place if no handler was found.
#[derive(Clone, Copy)]
pub struct Callee {
    pub call: u32,
    pub place: Option<usize>,
}

/// By which stored command an invocation was begun: whose, and the completion id that its id completes.
#[derive(Clone, Copy, Debug, PartialEq, Eq)]
pub struct Begun {
    pub by: usize,
    pub call: u32,
}
