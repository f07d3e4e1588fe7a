//! The test bench of attempts and of rounds in Rust: whole runs that are replayed, cut and refused; handlers that no program has;
//! random rounds; and runs of `vmrun`. Worked rounds and faults stand as text in `crates/vmrounds/rows`.
//!
//! Beside the tests stand handlers whose runs are known beforehand, their runs with their frames, and what rows expect of an attempt. Frames that others
//! need too, and headers, are those of `test_support`. Runs of some handlers are computed on the bytes of their messages, and an attempt is fed
//! honestly: the definitions of runs give what is expected, and the premise of an honest attempt is met (`proofs/Runs.antt`,
//! `proofs/Attempts.antt`). So are those of the law of a journal that no run made (`proofs/Unmade.antt`). Nothing of these runs.
//! They name the crates of the layer of messages, whose bytes they compute.
#![tactic(auto)]

pub mod asker;
#[cfg(test)]
mod attempts;
#[cfg(test)]
mod bench;
pub mod chooser;
#[cfg(test)]
mod counts;
#[cfg(test)]
mod cuts;
pub mod frames;
#[cfg(test)]
mod given;
#[cfg(test)]
mod histories;
pub mod keeper;
#[cfg(test)]
mod mismatches;
pub mod napper;
#[cfg(test)]
mod rounds;
#[cfg(test)]
mod simulation;
#[cfg(test)]
mod starvation;
pub mod starving;
mod steps;
#[cfg(test)]
mod stops;
pub mod told;
#[cfg(test)]
mod vmrun;
pub mod whole_runs;
