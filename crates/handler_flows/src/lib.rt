//! Handlers as ordinary code. A handler is written from top to bottom (`Flow`); its calls (`Context`) are answered from the answers
//! so far, and the first one without an answer leaves the code by `?`. What is proved of it is that it follows a tree: the
//! steps that it makes, and what comes after each answer (`specs/Code.antt`). So a flow is a handler of the driver (`Durable`).
#![tactic(auto)]

mod answers;
mod calls;
pub mod context;
mod durable;
pub mod exit;
pub mod flow;
mod invocations;
mod promises;

pub use context::Context;
pub use durable::Durable;
pub use exit::{Exit, Fault};
pub use flow::Flow;
