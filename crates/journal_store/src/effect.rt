//! What a stored command asks for.

use bytes::Bytes;
use journal_protocol::{NotificationResult, Signal, ValueOrFailure};
use plain::Text;

/// An invocation is to begin, or one that began with the same idempotency key is attached to.
#[derive(Drop)]
pub struct Beginning {
    pub service: Text,
    pub handler: Text,
    pub key: Text,
    pub idempotency_key: Option<Text>,
    pub parameter: Bytes,
    /// In ms since the Unix epoch; 0 is at once.
    pub begins: u64,
    /// The completion id that the invocation's id completes.
    pub id_completes: u32,
    /// The completion id that its result completes, if somebody waits for it.
    pub result_completes: Option<u32>,
}

/// A completion id is completed once it is this late, in ms since the Unix epoch.
#[derive(Clone, Copy)]
pub struct Timer {
    pub due: u64,
    pub completes: u32,
}

/// A signal goes to this invocation.
#[derive(Drop)]
pub struct Sent {
    pub to: Bytes,
    pub signal: Signal,
    pub brings: NotificationResult,
}

/// What a stored command asks for.
#[derive(Drop)]
pub enum Effect {
    Begin(Beginning),
    Wait(Timer),
    Send(Sent),
    /// The invocation's result.
    Result(ValueOrFailure),
}
