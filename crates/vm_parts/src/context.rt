//! What an attempt knows of itself: its last command, and what Start said.

use bytes::Bytes;
use journal_errors::MessageType;
use plain::Text;

/// The type and name of the last command, as an error that relates to it shows them; an empty name is none.
#[derive(Drop)]
pub struct LastCommand {
    pub ty: MessageType,
    pub name: Text,
}

/// What the Start message says of the invocation; the seed and the last three only in versions that have them.
#[derive(Drop)]
pub struct StartInfo {
    pub id: Bytes,
    pub debug_id: Text,
    pub key: Text,
    pub known_entries: u32,
    pub retry_count: u32,
    /// In ms, since the invocation's first attempt.
    pub duration: u64,
    pub random_seed: u64,
    pub scope: Option<Text>,
    pub limit_key: Option<Text>,
    pub idempotency_key: Option<Text>,
}
