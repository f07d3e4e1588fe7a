//! The notifications of an attempt as a log that grows at its end and gives back what was taken, each found by its id.
#![tactic(auto)]

pub mod arrivals;
pub mod eager;
pub mod index;
pub mod laws;
pub mod log;
pub mod numbers;
pub mod places;
pub mod queue;

pub use arrivals::Arrivals;
pub use eager::EagerResults;
