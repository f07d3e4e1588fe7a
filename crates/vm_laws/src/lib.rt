//! What is so of a machine and of a VM over any list of events: the laws that users rely on.
#![tactic(auto)]

mod deadlines;
mod ephemeral_reads;
mod machine;
mod recorded_reads;
mod vm;

pub use deadlines::deadlines_follow_their_calls;
pub use ephemeral_reads::ephemeral_reads_answer_what_is_known;
pub use machine::{
    acknowledgements_bring_what_was_proposed, commands_end_nothing, first_error_stays,
    nothing_follows, numbers_are_in_order, output_ends_once, replay_pops_what_is_equal,
    state_is_changed,
};
pub use recorded_reads::recorded_reads_stand_for_their_own;
pub use vm::{all_output_ends_once, first_error_is_answered, sleep_is_written};
