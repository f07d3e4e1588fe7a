//! Handles: what a handler holds of a result that comes later, and the leaves of what it awaits.
ghost use Rattle.std.specs.Prelude.{◌≡◌};

/// What a call that is answered later hands out; counted from 17. Handle 1 is the cancel signal's.
#[derive(Clone, Copy, Debug, PartialEq, Eq, PartialOrd, Ord, Hash)]
pub struct NotificationHandle(pub u32);

/// The handle of the built-in cancel signal.
pub const CANCEL_NOTIFICATION_HANDLE: NotificationHandle = NotificationHandle(1);

impl From<u32> for NotificationHandle {
    ghost from_gives = { λ number handle. handle.0 ≡ number };

    fn from(number: u32) -> NotificationHandle {
        NotificationHandle(number)
    }
}

impl From<NotificationHandle> for u32 {
    ghost from_gives = { λ handle number. number ≡ handle.0 };

    fn from(handle: NotificationHandle) -> u32 {
        handle.0
    }
}
