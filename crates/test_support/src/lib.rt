//! Frames and headers of rows, written out by hand, that the crates below are held against; and readers and writers that fail.
#![tactic(auto)]

pub mod frames;
pub mod headers;
pub mod transports;
