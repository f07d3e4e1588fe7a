//! How failures are retried: policies, and how long to wait before the next attempt, in whole nanoseconds.
#![tactic(auto)]

pub mod fraction;
pub mod intervals;
pub mod laws;
pub mod policy;

pub use fraction::Fraction;
pub use policy::{EntryRetryInfo, NextRetry, OnMaxAttempts, RetryPolicy};
