//! A fence before an engine, and laws of an engine's events. An invocation may have many attempts at once, each with its epoch. What an attempt asks
//! for is refused once a later one has begun. So attempts that are lost and don't know it change nothing. Each signal comes once, in order if deliveries
//! are. The state of a key is settled once its next invocation has begun. The first of a key that hasn't ended may begin. Nothing waits without a cause.
//! Each completion in a journal is of an id that a stored command before it carries. What can come comes by its delivery.
#![tactic(auto)]

mod causes;
mod completions;
mod deliveries;
mod epochs;
mod fences;
mod signals;
mod states;

pub use causes::waits_have_causes;
pub use completions::completions_are_asked_for;
pub use deliveries::what_can_come_comes;
pub use epochs::Epochs;
pub use fences::{Asked, FencedEngine, play_fenced, run_fenced};
pub use signals::{signals_come_in_order, signals_come_once};
pub use states::{key_states_are_settled, key_turns_go_on};
