//! Frames of the handlers that call others, byte by byte as in `test_support`.

/// The invocation "abc", with 5 known entries and a part of the state, which is empty.
pub const START_5: &[u8] = b"\0\x01\0\0\0\0\0\0\0\x42\
    \0\0\0\0\0\0\0\x03abc\
    \0\0\0\0\0\0\0\x03abc\
    \0\0\0\0\0\0\0\0\
    \0\0\0\x05\
    \0\0\0\0\0\0\0\0\
    \x01\
    \0\0\0\0\
    \0\0\0\0\0\0\0\0\
    \0\0\0\0\0\0\0\0\
    \0\
    \0\
    \0";

/// The invocation "abc", with 6 known entries and a part of the state, which is empty.
pub const START_6: &[u8] = b"\0\x01\0\0\0\0\0\0\0\x42\
    \0\0\0\0\0\0\0\x03abc\
    \0\0\0\0\0\0\0\x03abc\
    \0\0\0\0\0\0\0\0\
    \0\0\0\x06\
    \0\0\0\0\0\0\0\0\
    \x01\
    \0\0\0\0\
    \0\0\0\0\0\0\0\0\
    \0\0\0\0\0\0\0\0\
    \0\
    \0\
    \0";

/// The invocation "abc", with 7 known entries and a part of the state, which is empty.
pub const START_7: &[u8] = b"\0\x01\0\0\0\0\0\0\0\x42\
    \0\0\0\0\0\0\0\x03abc\
    \0\0\0\0\0\0\0\x03abc\
    \0\0\0\0\0\0\0\0\
    \0\0\0\x07\
    \0\0\0\0\0\0\0\0\
    \x01\
    \0\0\0\0\
    \0\0\0\0\0\0\0\0\
    \0\0\0\0\0\0\0\0\
    \0\
    \0\
    \0";

/// Calls "greet" of "Greeter" with "Till"; its invocation comes under id 2, its result under id 3.
pub const CALL_GREET: &[u8] = b"\0\x13\0\0\0\0\0\0\0\x4b\
    \0\0\0\0\0\0\0\x07Greeter\
    \0\0\0\0\0\0\0\x05greet\
    \0\0\0\0\0\0\0\0\
    \0\
    \0\
    \0\
    \0\0\0\0\0\0\0\0\
    \0\0\0\0\0\0\0\x04Till\
    \0\0\0\x02\
    \0\0\0\0\0\0\0\0\
    \0\0\0\x03";

/// Calls "a" of "Child" with no bytes; its invocation comes under id 1, its result under id 2.
pub const CALL_A: &[u8] = b"\0\x13\0\0\0\0\0\0\0\x41\
    \0\0\0\0\0\0\0\x05Child\
    \0\0\0\0\0\0\0\x01a\
    \0\0\0\0\0\0\0\0\
    \0\
    \0\
    \0\
    \0\0\0\0\0\0\0\0\
    \0\0\0\0\0\0\0\0\
    \0\0\0\x01\
    \0\0\0\0\0\0\0\0\
    \0\0\0\x02";

/// Calls "b" of "Child" with no bytes; its invocation comes under id 3, its result under id 4.
pub const CALL_B: &[u8] = b"\0\x13\0\0\0\0\0\0\0\x41\
    \0\0\0\0\0\0\0\x05Child\
    \0\0\0\0\0\0\0\x01b\
    \0\0\0\0\0\0\0\0\
    \0\
    \0\
    \0\
    \0\0\0\0\0\0\0\0\
    \0\0\0\0\0\0\0\0\
    \0\0\0\x03\
    \0\0\0\0\0\0\0\0\
    \0\0\0\x04";

/// The invocation under id 1 is "inv_1".
pub const INVOCATION_1: &[u8] = b"\0\x1e\0\0\0\0\0\0\0\x13\
    \0\0\0\0\x01\
    \x04\0\0\0\0\0\0\0\x05inv_1";

/// The invocation under id 2 is "inv_1".
pub const INVOCATION_2: &[u8] = b"\0\x1e\0\0\0\0\0\0\0\x13\
    \0\0\0\0\x02\
    \x04\0\0\0\0\0\0\0\x05inv_1";

/// The invocation under id 3 is "inv_2".
pub const INVOCATION_3: &[u8] = b"\0\x1e\0\0\0\0\0\0\0\x13\
    \0\0\0\0\x03\
    \x04\0\0\0\0\0\0\0\x05inv_2";

/// Id 2 is completed, with "hi".
pub const RESULT_2: &[u8] = b"\0\x1e\0\0\0\0\0\0\0\x10\
    \0\0\0\0\x02\
    \x01\0\0\0\0\0\0\0\x02hi";

/// Id 3 is completed, with "hi".
pub const RESULT_3: &[u8] = b"\0\x1e\0\0\0\0\0\0\0\x10\
    \0\0\0\0\x03\
    \x01\0\0\0\0\0\0\0\x02hi";

/// Id 4 is completed, with "hi".
pub const RESULT_4: &[u8] = b"\0\x1e\0\0\0\0\0\0\0\x10\
    \0\0\0\0\x04\
    \x01\0\0\0\0\0\0\0\x02hi";

/// Id 3 is completed, with nothing.
pub const VOID_3: &[u8] = b"\0\x1e\0\0\0\0\0\0\0\x06\
    \0\0\0\0\x03\
    \0";

/// Id 2 failed, with the code 404 and the text "no".
pub const FAILURE_2: &[u8] = b"\0\x1e\0\0\0\0\0\0\0\x1c\
    \0\0\0\0\x02\
    \x02\0\0\x01\x94\
    \0\0\0\0\0\0\0\x02no\
    \0\0\0\0\0\0\0\0";

/// Id 3 failed, with the code 404 and the text "no".
pub const FAILURE_3: &[u8] = b"\0\x1e\0\0\0\0\0\0\0\x1c\
    \0\0\0\0\x03\
    \x02\0\0\x01\x94\
    \0\0\0\0\0\0\0\x02no\
    \0\0\0\0\0\0\0\0";

/// The invocation is cancelled: the signal 1 comes, with nothing.
pub const CANCEL: &[u8] = b"\0\x1e\0\0\0\0\0\0\0\x06\
    \x01\0\0\0\x01\
    \0";

/// The invocation "inv_1" is sent the signal 1, with nothing.
pub const CANCEL_INV_1: &[u8] = b"\0\x16\0\0\0\0\0\0\0\x13\
    \0\0\0\0\0\0\0\x05inv_1\
    \0\0\0\0\x01\
    \0";

/// The invocation "inv_2" is sent the signal 1, with nothing.
pub const CANCEL_INV_2: &[u8] = b"\0\x16\0\0\0\0\0\0\0\x13\
    \0\0\0\0\0\0\0\x05inv_2\
    \0\0\0\0\x01\
    \0";

/// The output "hi".
pub const OUTPUT_HI: &[u8] = b"\0\x1d\0\0\0\0\0\0\0\x0b\
    \0\
    \0\0\0\0\0\0\0\x02hi";

/// The output "timeout".
pub const OUTPUT_TIMEOUT: &[u8] = b"\0\x1d\0\0\0\0\0\0\0\x10\
    \0\
    \0\0\0\0\0\0\0\x07timeout";

/// The output "done".
pub const OUTPUT_DONE: &[u8] = b"\0\x1d\0\0\0\0\0\0\0\x0d\
    \0\
    \0\0\0\0\0\0\0\x04done";

/// The output is a failure, with the code 404 and the text "no".
pub const OUTPUT_NO: &[u8] = b"\0\x1d\0\0\0\0\0\0\0\x17\
    \x01\0\0\x01\x94\
    \0\0\0\0\0\0\0\x02no\
    \0\0\0\0\0\0\0\0";

/// The output is a failure, with the code 409 and the text "cancelled".
pub const OUTPUT_CANCELLED: &[u8] = b"\0\x1d\0\0\0\0\0\0\0\x1e\
    \x01\0\0\x01\x99\
    \0\0\0\0\0\0\0\x09cancelled\
    \0\0\0\0\0\0\0\0";

/// It waits for the cancel signal, or for the first of the ids 1 and 3.
pub const RACE_WAITS: &[u8] = b"\0\x02\0\0\0\0\0\0\0\x4e\
    \0\
    \0\0\0\0\0\0\0\0\
    \0\0\0\0\0\0\0\x01\0\0\0\x01\
    \0\0\0\0\0\0\0\0\
    \0\0\0\0\0\0\0\x01\
    \0\
    \0\0\0\0\0\0\0\x02\0\0\0\x01\0\0\0\x03\
    \0\0\0\0\0\0\0\0\
    \0\0\0\0\0\0\0\0\
    \0\0\0\0\0\0\0\0";

/// It waits for the cancel signal, or for both ids 2 and 4.
pub const PARENT_WAITS: &[u8] = b"\0\x02\0\0\0\0\0\0\0\x4e\
    \0\
    \0\0\0\0\0\0\0\0\
    \0\0\0\0\0\0\0\x01\0\0\0\x01\
    \0\0\0\0\0\0\0\0\
    \0\0\0\0\0\0\0\x01\
    \x01\
    \0\0\0\0\0\0\0\x02\0\0\0\x02\0\0\0\x04\
    \0\0\0\0\0\0\0\0\
    \0\0\0\0\0\0\0\0\
    \0\0\0\0\0\0\0\0";

/// It waits for the cancel signal, or for id 4, which is left of both.
pub const PARENT_WAITS_FOR_4: &[u8] = b"\0\x02\0\0\0\0\0\0\0\x4a\
    \0\
    \0\0\0\0\0\0\0\0\
    \0\0\0\0\0\0\0\x01\0\0\0\x01\
    \0\0\0\0\0\0\0\0\
    \0\0\0\0\0\0\0\x01\
    \x01\
    \0\0\0\0\0\0\0\x01\0\0\0\x04\
    \0\0\0\0\0\0\0\0\
    \0\0\0\0\0\0\0\0\
    \0\0\0\0\0\0\0\0";

/// It waits for id 1.
pub const SUSPENSION_FOR_1: &[u8] = b"\0\x02\0\0\0\0\0\0\0\x25\
    \0\
    \0\0\0\0\0\0\0\x01\0\0\0\x01\
    \0\0\0\0\0\0\0\0\
    \0\0\0\0\0\0\0\0\
    \0\0\0\0\0\0\0\0";

/// It waits for id 2.
pub const SUSPENSION_FOR_2: &[u8] = b"\0\x02\0\0\0\0\0\0\0\x25\
    \0\
    \0\0\0\0\0\0\0\x01\0\0\0\x02\
    \0\0\0\0\0\0\0\0\
    \0\0\0\0\0\0\0\0\
    \0\0\0\0\0\0\0\0";

/// It waits for id 3.
pub const SUSPENSION_FOR_3: &[u8] = b"\0\x02\0\0\0\0\0\0\0\x25\
    \0\
    \0\0\0\0\0\0\0\x01\0\0\0\x03\
    \0\0\0\0\0\0\0\0\
    \0\0\0\0\0\0\0\0\
    \0\0\0\0\0\0\0\0";
