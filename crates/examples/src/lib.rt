//! Handlers as ordinary code, to read and to copy: each with its tree in `specs/`, and so with all that is proved of handlers; and `nap`, written
//! step by step, which is another handler in each attempt. `test_scripts` has their crash tests, in which each attempt dies one step later than the one before it.
#![tactic(auto)]

pub mod approval;
pub mod nap;
pub mod race;
pub mod reminder;
pub mod retry;
pub mod saga;
pub mod sleeper;
