//! Handlers for people: those that the programs know by their names, and `charge`, whose run is executed outside. They are written step by
//! step as a `Handler`; those of `examples` of the same names (`Sleeper`, `Race`) are written as ordinary code.
#![tactic(auto)]

pub mod answers;
pub mod calls;
pub mod charge;
pub mod counter;
pub mod deadline;
pub mod named;
pub mod parent;
pub mod race;
pub mod sleeper;
