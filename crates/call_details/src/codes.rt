//! The names of the codes of the VM's own errors, as `palqytun.h` and each binding has them.

/// The name of a code. There is none of a number that only an error of a handler's own has.
pub fn name_of(code: u16) -> Option<&'static str> {
    match code {
        400 => Some("BAD_REQUEST"),
        415 => Some("UNSUPPORTED_MEDIA_TYPE"),
        500 => Some("INTERNAL"),
        570 => Some("JOURNAL_MISMATCH"),
        571 => Some("PROTOCOL_VIOLATION"),
        573 => Some("UNSUPPORTED_FEATURE"),
        598 => Some("CLOSED"),
        599 => Some("SUSPENDED"),
        _ => None,
    }
}
