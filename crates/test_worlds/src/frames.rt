//! Frames of these runs, written out byte by byte from the layout: the type's number in two bytes, the body's length in
//! eight, and the body's fields, one a line.

/// A Start of the invocation "abc" with a part of the state, which is empty: what stands before the number of its known
/// entries.
pub const START_FRONT: &[u8] = b"\0\x01\0\0\0\0\0\0\0\x42\
    \0\0\0\0\0\0\0\x03abc\
    \0\0\0\0\0\0\0\x03abc\
    \0\0\0\0\0\0\0\0";

/// What stands after the number.
pub const START_BACK: &[u8] = b"\0\0\0\0\0\0\0\0\
    \x01\
    \0\0\0\0\
    \0\0\0\0\0\0\0\0\
    \0\0\0\0\0\0\0\0\
    \0\
    \0\
    \0";

/// Clears the key "a".
pub const CLEAR_A: &[u8] = b"\0\x10\0\0\0\0\0\0\0\x11\
    \0\0\0\0\0\0\0\0\
    \0\0\0\0\0\0\0\x01a";

/// Clears the key "c".
pub const CLEAR_C: &[u8] = b"\0\x10\0\0\0\0\0\0\0\x11\
    \0\0\0\0\0\0\0\0\
    \0\0\0\0\0\0\0\x01c";

/// Sets the key "b" to "x".
pub const SET_B: &[u8] = b"\0\x0f\0\0\0\0\0\0\0\x1a\
    \0\0\0\0\0\0\0\0\
    \0\0\0\0\0\0\0\x01b\
    \0\0\0\0\0\0\0\x01x";

/// Sets the key "b" to "y".
pub const SET_B_TO_Y: &[u8] = b"\0\x0f\0\0\0\0\0\0\0\x1a\
    \0\0\0\0\0\0\0\0\
    \0\0\0\0\0\0\0\x01b\
    \0\0\0\0\0\0\0\x01y";

/// Completes the awakeable "prom_1" with "v".
pub const COMPLETE_1: &[u8] = b"\0\x15\0\0\0\0\0\0\0\x18\
    \0\0\0\0\0\0\0\x06prom_1\
    \0\0\0\0\0\0\0\0\x01v";

/// Completes the awakeable "prom_2" with "v".
pub const COMPLETE_2: &[u8] = b"\0\x15\0\0\0\0\0\0\0\x18\
    \0\0\0\0\0\0\0\x06prom_2\
    \0\0\0\0\0\0\0\0\x01v";

/// The output "y".
pub const OUTPUT_Y: &[u8] = b"\0\x1d\0\0\0\0\0\0\0\x0a\
    \0\
    \0\0\0\0\0\0\0\x01y";

/// The signal 17 comes, with "x".
pub const SIGNAL_17_X: &[u8] = b"\0\x1e\0\0\0\0\0\0\0\x0f\
    \x01\0\0\0\x11\
    \x01\0\0\0\0\0\0\0\x01x";

/// The signal 17 comes, with a success of no bytes.
pub const SIGNAL_17_EMPTY: &[u8] = b"\0\x1e\0\0\0\0\0\0\0\x0e\
    \x01\0\0\0\x11\
    \x01\0\0\0\0\0\0\0\0";

/// The signal 17 comes, with a failure of the code 409 and the text "no".
pub const SIGNAL_17_FAILURE: &[u8] = b"\0\x1e\0\0\0\0\0\0\0\x1c\
    \x01\0\0\0\x11\
    \x02\0\0\x01\x99\
    \0\0\0\0\0\0\0\x02no\
    \0\0\0\0\0\0\0\0";

/// The invocation waits for the signal 17, or the cancel signal.
pub const SUSPENSION_ON_SIGNAL_17: &[u8] = b"\0\x02\0\0\0\0\0\0\0\x29\
    \0\
    \0\0\0\0\0\0\0\0\
    \0\0\0\0\0\0\0\x02\0\0\0\x11\0\0\0\x01\
    \0\0\0\0\0\0\0\0\
    \0\0\0\0\0\0\0\0";

/// The same wait while the input is open, and no run is executing.
pub const AWAITING_ON_SIGNAL_17: &[u8] = b"\0\x07\0\0\0\0\0\0\0\x2a\
    \0\
    \0\0\0\0\0\0\0\0\
    \0\0\0\0\0\0\0\x02\0\0\0\x11\0\0\0\x01\
    \0\0\0\0\0\0\0\0\
    \0\0\0\0\0\0\0\0\
    \0";

/// The first command after the input is no clearing of a key.
pub const NO_CLEAR_AT_1: &[u8] = b"\0\x03\0\0\0\0\0\0\0\x39\
    \0\0\x02\x3a\
    \0\0\0\0\0\0\0\x18CommandTypeMismatchError\
    \0\0\0\0\0\0\0\0\
    \0\
    \x01\0\0\0\x01\
    \x01\0\0\0\x10\
    \0\
    \0";

/// It is another clearing.
pub const ANOTHER_CLEAR_AT_1: &[u8] = b"\0\x03\0\0\0\0\0\0\0\x35\
    \0\0\x02\x3a\
    \0\0\0\0\0\0\0\x14CommandMismatchError\
    \0\0\0\0\0\0\0\0\
    \0\
    \x01\0\0\0\x01\
    \x01\0\0\0\x10\
    \0\
    \0";

/// It is another completion of an awakeable.
pub const ANOTHER_COMPLETE_AT_1: &[u8] = b"\0\x03\0\0\0\0\0\0\0\x35\
    \0\0\x02\x3a\
    \0\0\0\0\0\0\0\x14CommandMismatchError\
    \0\0\0\0\0\0\0\0\
    \0\
    \x01\0\0\0\x01\
    \x01\0\0\0\x15\
    \0\
    \0";

/// The second command after the input is no setting of a key.
pub const NO_SET_AT_2: &[u8] = b"\0\x03\0\0\0\0\0\0\0\x39\
    \0\0\x02\x3a\
    \0\0\0\0\0\0\0\x18CommandTypeMismatchError\
    \0\0\0\0\0\0\0\0\
    \0\
    \x01\0\0\0\x02\
    \x01\0\0\0\x0f\
    \0\
    \0";

/// It is another setting.
pub const ANOTHER_SET_AT_2: &[u8] = b"\0\x03\0\0\0\0\0\0\0\x35\
    \0\0\x02\x3a\
    \0\0\0\0\0\0\0\x14CommandMismatchError\
    \0\0\0\0\0\0\0\0\
    \0\
    \x01\0\0\0\x02\
    \x01\0\0\0\x0f\
    \0\
    \0";

/// It is no sleep.
pub const NO_SLEEP_AT_2: &[u8] = b"\0\x03\0\0\0\0\0\0\0\x39\
    \0\0\x02\x3a\
    \0\0\0\0\0\0\0\x18CommandTypeMismatchError\
    \0\0\0\0\0\0\0\0\
    \0\
    \x01\0\0\0\x02\
    \x01\0\0\0\x12\
    \0\
    \0";

/// It is no output.
pub const NO_OUTPUT_AT_2: &[u8] = b"\0\x03\0\0\0\0\0\0\0\x39\
    \0\0\x02\x3a\
    \0\0\0\0\0\0\0\x18CommandTypeMismatchError\
    \0\0\0\0\0\0\0\0\
    \0\
    \x01\0\0\0\x02\
    \x01\0\0\0\x1d\
    \0\
    \0";

/// It is another output.
pub const ANOTHER_OUTPUT_AT_2: &[u8] = b"\0\x03\0\0\0\0\0\0\0\x35\
    \0\0\x02\x3a\
    \0\0\0\0\0\0\0\x14CommandMismatchError\
    \0\0\0\0\0\0\0\0\
    \0\
    \x01\0\0\0\x02\
    \x01\0\0\0\x1d\
    \0\
    \0";

/// The third command after the input is no sleep.
pub const NO_SLEEP_AT_3: &[u8] = b"\0\x03\0\0\0\0\0\0\0\x39\
    \0\0\x02\x3a\
    \0\0\0\0\0\0\0\x18CommandTypeMismatchError\
    \0\0\0\0\0\0\0\0\
    \0\
    \x01\0\0\0\x03\
    \x01\0\0\0\x12\
    \0\
    \0";

/// The fourth command after the input is no output.
pub const NO_OUTPUT_AT_4: &[u8] = b"\0\x03\0\0\0\0\0\0\0\x39\
    \0\0\x02\x3a\
    \0\0\0\0\0\0\0\x18CommandTypeMismatchError\
    \0\0\0\0\0\0\0\0\
    \0\
    \x01\0\0\0\x04\
    \x01\0\0\0\x1d\
    \0\
    \0";
