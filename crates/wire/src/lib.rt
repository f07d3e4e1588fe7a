//! The bytes of plain values. Each type of the wire has one exact spelling (`Wire`): what is written is read back, and nothing else is read as it.
//! Messages are made of these. The values are passed on.
#![tactic(auto)]

mod frames;
mod wire;

pub use frames::{put_head, set_length};
pub use plain::{Exact, Fault, Items, Plain, Text, copy_of, is_same};
pub use wire::{Wire, whole};
