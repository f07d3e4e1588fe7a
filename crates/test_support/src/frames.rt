//! Frames written out byte by byte from the layout: the type's number in two bytes, the body's length in eight, and
//! the body's fields, one a line.

/// No entry is known, which no runtime sends.
pub const START_0: &[u8] = b"\0\x01\0\0\0\0\0\0\0\x42\
    \0\0\0\0\0\0\0\x03abc\
    \0\0\0\0\0\0\0\x03abc\
    \0\0\0\0\0\0\0\0\
    \0\0\0\0\
    \0\0\0\0\0\0\0\0\
    \x01\
    \0\0\0\0\
    \0\0\0\0\0\0\0\0\
    \0\0\0\0\0\0\0\0\
    \0\
    \0\
    \0";

/// The invocation "abc", with 1 known entry and a part of the state, which is empty.
pub const START_1: &[u8] = b"\0\x01\0\0\0\0\0\0\0\x42\
    \0\0\0\0\0\0\0\x03abc\
    \0\0\0\0\0\0\0\x03abc\
    \0\0\0\0\0\0\0\0\
    \0\0\0\x01\
    \0\0\0\0\0\0\0\0\
    \x01\
    \0\0\0\0\
    \0\0\0\0\0\0\0\0\
    \0\0\0\0\0\0\0\0\
    \0\
    \0\
    \0";

/// The invocation "abc", with 2 known entries and a part of the state, which is empty.
pub const START_2: &[u8] = b"\0\x01\0\0\0\0\0\0\0\x42\
    \0\0\0\0\0\0\0\x03abc\
    \0\0\0\0\0\0\0\x03abc\
    \0\0\0\0\0\0\0\0\
    \0\0\0\x02\
    \0\0\0\0\0\0\0\0\
    \x01\
    \0\0\0\0\
    \0\0\0\0\0\0\0\0\
    \0\0\0\0\0\0\0\0\
    \0\
    \0\
    \0";

/// The invocation "abc", with 3 known entries and a part of the state, which is empty.
pub const START_3: &[u8] = b"\0\x01\0\0\0\0\0\0\0\x42\
    \0\0\0\0\0\0\0\x03abc\
    \0\0\0\0\0\0\0\x03abc\
    \0\0\0\0\0\0\0\0\
    \0\0\0\x03\
    \0\0\0\0\0\0\0\0\
    \x01\
    \0\0\0\0\
    \0\0\0\0\0\0\0\0\
    \0\0\0\0\0\0\0\0\
    \0\
    \0\
    \0";

/// The input "Till".
pub const INPUT_TILL: &[u8] = b"\0\x0a\0\0\0\0\0\0\0\x14\
    \0\0\0\0\0\0\0\0\
    \0\0\0\0\0\0\0\x04Till";

/// A sleep to 1721123699086 ms, completed under id 1.
pub const SLEEP_TO_2024: &[u8] = b"\0\x12\0\0\0\0\0\0\0\x14\
    \0\0\x01\x90\xba\xf7\x79\x8e\
    \0\0\0\x01\
    \0\0\0\0\0\0\0\0";

/// A sleep to 1000 ms, completed under id 1.
pub const SLEEP_TO_1000: &[u8] = b"\0\x12\0\0\0\0\0\0\0\x14\
    \0\0\0\0\0\0\x03\xe8\
    \0\0\0\x01\
    \0\0\0\0\0\0\0\0";

/// The empty output.
pub const OUTPUT_EMPTY: &[u8] = b"\0\x1d\0\0\0\0\0\0\0\x09\
    \0\
    \0\0\0\0\0\0\0\0";

/// The output "x".
pub const OUTPUT_X: &[u8] = b"\0\x1d\0\0\0\0\0\0\0\x0a\
    \0\
    \0\0\0\0\0\0\0\x01x";

/// The end of the handler.
pub const END: &[u8] = b"\0\x04\0\0\0\0\0\0\0\0";

/// Id 1 is completed, with nothing.
pub const COMPLETION_1: &[u8] = b"\0\x1e\0\0\0\0\0\0\0\x06\
    \0\0\0\0\x01\
    \0";

/// Id 9 is completed, with nothing.
pub const COMPLETION_9: &[u8] = b"\0\x1e\0\0\0\0\0\0\0\x06\
    \0\0\0\0\x09\
    \0";

/// The signal 17 comes, with nothing.
pub const SIGNAL_17: &[u8] = b"\0\x1e\0\0\0\0\0\0\0\x06\
    \x01\0\0\0\x11\
    \0";

/// The invocation waits for id 1, or the cancel signal.
pub const SUSPENSION_ON_1: &[u8] = b"\0\x02\0\0\0\0\0\0\0\x29\
    \0\
    \0\0\0\0\0\0\0\x01\0\0\0\x01\
    \0\0\0\0\0\0\0\x01\0\0\0\x01\
    \0\0\0\0\0\0\0\0\
    \0\0\0\0\0\0\0\0";

/// The same wait while the input is open, and no run is executing.
pub const AWAITING_ON_1: &[u8] = b"\0\x07\0\0\0\0\0\0\0\x2a\
    \0\
    \0\0\0\0\0\0\0\x01\0\0\0\x01\
    \0\0\0\0\0\0\0\x01\0\0\0\x01\
    \0\0\0\0\0\0\0\0\
    \0\0\0\0\0\0\0\0\
    \0";

/// The refusal of an await in replay.
pub const UNCOMPLETED: &[u8] = b"\0\x03\0\0\0\0\0\0\0\x3a\
    \0\0\x02\x3a\
    \0\0\0\0\0\0\0\x21UncompletedDoProgressDuringReplay\
    \0\0\0\0\0\0\0\0\
    \0\
    \0\
    \0\
    \0\
    \0";

/// The refusal of a sleep if the first command after the input is another.
pub const TYPE_MISMATCH: &[u8] = b"\0\x03\0\0\0\0\0\0\0\x39\
    \0\0\x02\x3a\
    \0\0\0\0\0\0\0\x18CommandTypeMismatchError\
    \0\0\0\0\0\0\0\0\
    \0\
    \x01\0\0\0\x01\
    \x01\0\0\0\x12\
    \0\
    \0";

/// The error `INPUT_CLOSED_WHILE_WAITING_ENTRIES`, of no command.
pub const ERROR_INPUT_CLOSED: &[u8] = b"\0\x03\0\0\0\0\0\0\0\x3b\
    \0\0\x02\x3b\
    \0\0\0\0\0\0\0\x22INPUT_CLOSED_WHILE_WAITING_ENTRIES\
    \0\0\0\0\0\0\0\0\
    \0\
    \0\
    \0\
    \0\
    \0";

/// The error `KNOWN_ENTRIES_IS_ZERO`, of no command.
pub const ERROR_KNOWN_ENTRIES: &[u8] = b"\0\x03\0\0\0\0\0\0\0\x2e\
    \0\0\x02\x3b\
    \0\0\0\0\0\0\0\x15KNOWN_ENTRIES_IS_ZERO\
    \0\0\0\0\0\0\0\0\
    \0\
    \0\
    \0\
    \0\
    \0";

/// The error `UnexpectedStateError`, of no command.
pub const ERROR_STATE: &[u8] = b"\0\x03\0\0\0\0\0\0\0\x2d\
    \0\0\x02\x3b\
    \0\0\0\0\0\0\0\x14UnexpectedStateError\
    \0\0\0\0\0\0\0\0\
    \0\
    \0\
    \0\
    \0\
    \0";

/// Clears all keys.
pub const CLEAR_ALL: &[u8] = b"\0\x11\0\0\0\0\0\0\0\x08\
    \0\0\0\0\0\0\0\0";

/// The front of `COMPLETION_1`: all but its last byte.
pub const CUT: &[u8] = b"\0\x1e\0\0\0\0\0\0\0\x06\0\0\0\0\x01";
