//! The front door for Rattle. `vm` has the VM that an SDK drives, `handler` what a handler is written with, `testing` what its
//! crash tests are written with, `replay` the check before a new version takes over. Each item has one path here; the crates below
//! say what is proved of it.
#![tactic(auto)]

pub mod frames;
pub mod handler;
pub mod replay;
mod reports;
pub mod testing;
pub mod vm;
mod worlds;
