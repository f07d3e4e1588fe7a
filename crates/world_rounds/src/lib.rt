//! A world: an invocation's journal, what a round hands out of it, and rounds of attempts of its handler over it, stopped anywhere. After
//! each list of rounds the journal is one history of the handler.
#![tactic(auto)]

mod answers;
mod course;
mod desk;
pub mod handed;
mod laws;
mod place;
mod placed;
mod played;
mod round;
mod rounds;
mod types;
mod values;
mod world;

pub use course::Course;
pub use laws::{
    alike_versions_take_over, compared_histories_can_be_replayed, executions_are_runs,
    families_keep_histories, finished_runs_are_not_executed, finished_stays_finished,
    journals_go_on_in_version_8, nothing_is_invented, versions_take_over,
};
pub use placed::{PlacedFault, StoppedRounds};
pub use played::play_rounds;
pub use rounds::run_rounds;
pub use types::{Event, Identity, Report, Round, Setting};
pub use values::Values;
pub use world::World;
