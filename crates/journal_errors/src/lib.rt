//! The types of messages, versions, headers of a request, errors and the faults that have a name.
#![tactic(auto)]

mod error;
mod error_message;
mod faults;
mod headers;
mod said;
mod same;
mod types;
mod version;

pub use error::{Error, ErrorBehavior, RelatedCommand};
pub use error_message::ErrorMessage;
pub use faults::NamedFault;
pub use headers::HeaderMap;
pub use said::Said;
pub use types::MessageType;
pub use version::Version;
