//! A stored journal for callers of C, as C holds it: what it knows of the entries, what the last store is to append and asks for, and what each call does.
#![tactic(auto)]

pub mod calls;
mod effect;
mod effect_part;
mod fault;
mod held;
mod journal;
mod rest;
mod row;

pub use effect::EffectRow;
pub use held::Journal;
pub use journal::HeldJournal;
pub use row::{Row, Stored};
