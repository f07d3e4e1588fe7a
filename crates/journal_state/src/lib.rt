//! The messages about state, and their bytes.
#![tactic(auto)]

mod same;
mod state;

pub use state::{
    ClearAllStateCommand, ClearStateCommand, GetEagerStateCommand, GetEagerStateKeysCommand,
    GetLazyStateCommand, GetLazyStateKeysCommand, GetStateEphemeralCommand,
    GetStateEphemeralNotification, SetStateCommand, VoidOrValue,
};
