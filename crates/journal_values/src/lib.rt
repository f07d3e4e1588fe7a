//! Values, failures and notifications, and their bytes.
#![tactic(auto)]

mod delivery;
mod notification;
mod parts;
mod same;

pub use delivery::SignalDelivery;
pub use notification::{Notification, NotificationId, NotificationResult};
pub use parts::{Failure, Header, ValueOrFailure};
