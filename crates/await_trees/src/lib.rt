//! What a handler awaits: trees over handles, their outcomes once their leaves have some, and the nodes of a tree in preorder.
#![tactic(auto)]

pub mod copying;
pub mod handle;
pub mod laws;
pub mod letting_go;
pub mod listing;
pub mod nodes;
pub mod outcome;
pub mod showing;
pub mod tree;

pub use copying::node_over;
pub use handle::{CANCEL_NOTIFICATION_HANDLE, NotificationHandle};
pub use listing::list_nodes;
pub use nodes::{Label, Node};
pub use outcome::Outcome;
pub use tree::UnresolvedFuture;
