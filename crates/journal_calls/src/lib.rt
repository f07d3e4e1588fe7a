//! The messages to others: calls, invocations, signals, awakeables and promises; and their bytes.
#![tactic(auto)]

mod calls;
mod invocations;
mod promises;
mod same;
mod signals;

pub use calls::{CallCommand, CallRequest, OneWayCallCommand};
pub use invocations::{IdempotencyId, InvocationCommand, InvocationTarget, WorkflowId};
pub use promises::{CompletePromiseCommand, PromiseCommand};
pub use signals::{CompleteAwakeableCommand, SendSignalCommand, Signal, SignalResult};
