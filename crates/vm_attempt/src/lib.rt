//! The driver of a handler: one attempt of it over the VM, from the bytes of a journal to the bytes of its commands. Here stand
//! each call of the VM that its step can be, what the attempt's calls do to its fields, and what the attempt keeps through all of them.
#![tactic(auto)]

mod attempt;
mod inner;
mod laws;
mod perform;
mod progress;
mod taken;

pub use attempt::Attempt;
pub use inner::Inner;
pub use laws::{
    answers_are_told, attempts_are_told_on, attempts_begin, attempts_keep, attempts_write,
    calls_follow, finished_attempts_end, frames_arrive, histories_are_replayed,
    honest_attempts_fail_by_themselves, honest_bytes_are_honest, journals_come,
    runs_are_executed_once, runs_fail_by_their_results,
};
pub use progress::{Fed, Progress};
