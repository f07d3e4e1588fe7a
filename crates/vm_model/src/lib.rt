//! What whole runs of a handler are: the table of its calls, the moves over a journal, what an attempt writes, and what rounds
//! of attempts leave; with the laws of these, as functions that do nothing.
#![tactic(auto)]

mod awaits;
mod families;
mod finished;
mod handles;
mod honest;
mod lists;
mod numbers;
mod reads;
mod signals;
mod state;
mod told;
mod versions;

pub use awaits::{awaits_wake, cancelled_awaits, results_are_present, trees_wake};
pub use families::{erased_alike, erased_steps, one_run_of_a_family};
pub use finished::finished_stays_finished;
pub use handles::{handles_name_ids, taken_handles_go};
pub use honest::{
    attempts_agree, commands_stand_behind, compared_histories_are_sound, honest_rounds,
    one_undisturbed, sound_histories_last, whole_rounds,
};
pub use lists::{
    completions_come_once, handles_stand_for_ids, lists_are_used, no_result_is_unexpected,
};
pub use numbers::numbers_are_sums;
pub use reads::{eager_reads_are_so, handed_stays_so};
pub use signals::signals_queue_in_order;
pub use state::state_is_what_was_said;
pub use told::{
    attempt_is_told, attempts_go_on, later_changes_nothing, none_refused, one_told,
    own_commands_stand,
};
pub use versions::{replays_prove_histories, versions_share_journals};
