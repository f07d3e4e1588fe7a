//! The machine's awaits: a tree is tried by what came, and the machine waits for what is left of it; results of the runs that an await
//! asks for; and takes of what came. And what a handler awaits that has no command: awakeables, named signals and ephemeral reads of the state.
#![tactic(auto)]

mod awaited;
mod awaits;
mod ephemeral;
mod proposals;
mod signals;
mod takes;

pub use awaited::{Awaited, flatten};
pub use awaits::{await_tree, drop_cancel};
pub use ephemeral::{read_ephemeral, ready_ephemeral, take_ephemeral};
pub use proposals::finish_run;
pub use signals::{awakeable, signal};
pub use takes::{is_completed, take};
