//! Rows of `vmrun`: whole runs over readers and writers in memory.

mod bench;
mod children;
mod counts;
mod ends;
pub mod frames;
