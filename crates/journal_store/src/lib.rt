//! A stored journal as its only writer knows it, without its entries: how many there are, what completes each id that its commands carry, and
//! whether it was completed. Each question takes time that grows with the logarithm of the journal, and has the answer that
//! `journal_entries` has for the journal itself. What a transaction stores is kept or undone. `WholeJournal` holds the entries beside it.
//! And what a stored command asks of a runtime or an engine, as plain data: an invocation to begin, a time to wait for, a signal to deliver, a
//! result.
#![tactic(auto)]

mod awakeables;
mod carried;
mod effect;
mod effects;
mod entered;
mod frames;
mod ids;
mod journal;
mod known;
mod storing;
mod whole;

pub use awakeables::awakeable_named;
pub use effect::{Beginning, Effect, Sent, Timer};
pub use effects::effect_of;
pub use entered::{Entered, entered_in};
pub use journal::StoredJournal;
pub use known::Known;
pub use storing::store_from;
pub use whole::WholeJournal;
