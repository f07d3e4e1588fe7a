//! Handlers: as ordinary code (`Flow`, which `Durable` makes a handler), or step by step (`Handler`); and one attempt of one.

pub use handler_flows::{Context, Durable, Exit, Fault, Flow};
pub use vm_attempt::{Attempt, Fed, Progress};
pub use vm_types::{Answer, Handler, Step};
