//! Plain values as contracts see them: a text is its bytes, a list its items.
#![tactic(auto)]

mod exact;
mod fault;
mod items;
mod text;

pub use exact::{Exact, Plain, copy_of, is_same};
pub use fault::Fault;
pub use items::Items;
pub use text::Text;
