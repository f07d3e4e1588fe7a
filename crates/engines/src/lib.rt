//! An engine: invocations that call each other, each over its own journal. What comes for one is the effect of a stored command, of another's
//! end, of the clock or of a submit. Events come one by one, in any order; each may be the last before a crash.
#![tactic(auto)]

mod engine;
mod happen;
mod member;
mod perform;
mod types;

pub use engine::{Engine, Invocation};
pub use happen::{play_engine, run_engine};
pub use member::Member;
pub use types::Happening;
