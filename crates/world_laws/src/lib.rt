//! Laws of runs, attempts and rounds, on which no other crate depends: which calls are cancelled,
//! where the values of answers come from, what a replay check proves; when a later attempt passes a
//! suspension, how many steps bring one to its end or to where it waits, which results it proposes, which runs it executes
//! and by which of its calls it failed; what rounds of a family of handlers keep, and where their results come from; that a history
//! need not be what a run made. And the check of a stored journal before a new version of its handler takes over.
#![tactic(auto)]

mod check;
mod children;
mod executing;
mod failing;
mod families;
mod limits;
mod members;
mod origins;
mod outcome;
mod replays;
mod reporting;
mod steps;
mod unmade;
mod values;
mod waking;

pub use check::check_replay;
pub use children::children_are_cancelled_once;
pub use executing::attempts_execute_no_finished_runs;
pub use failing::errors_come_by_calls;
pub use families::families_keep_each_round;
pub use limits::{finished_attempts_end_in_time, running_attempts_come_to_rest};
pub use members::members_keep_histories;
pub use origins::results_are_reported;
pub use outcome::ReplayOutcome;
pub use replays::{calls_prove_histories, histories_go_on, replays_prove_sound_histories};
pub use reporting::proposals_are_of_reports;
pub use unmade::replayable_journals_need_no_run;
pub use values::answers_bring_what_came;
pub use waking::no_lost_wake_up;
