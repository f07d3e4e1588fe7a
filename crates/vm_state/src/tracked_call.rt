//! A call whose invocation is cancelled with the handler's.

use plain::Text;

/// A call or send that is cancelled with the handler, and its invocation's id once it was read.
#[derive(Drop)]
pub struct TrackedCall {
    pub handle: u32,
    pub invocation_id: Option<Text>,
}
