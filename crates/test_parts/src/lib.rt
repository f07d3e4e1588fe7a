//! Rows over the VM's parts: its public types, the state map, policies of retries, and awaits of trees.
#![tactic(auto)]

#[cfg(test)]
mod delays;
#[cfg(test)]
mod parts;
#[cfg(test)]
mod policies;
#[cfg(test)]
mod state_maps;
#[cfg(test)]
mod trees;
