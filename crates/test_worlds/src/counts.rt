// A count of 41 in the state, and the frames by which `counter` reads it and counts on.
use bytes::Bytes;
use std::alloc::{AllocError, Global};

/// The count is read, and is 41.
pub const READ_41: &[u8] = b"\0\x0b\0\0\0\0\0\0\0\x21\
    \0\0\0\0\0\0\0\0\
    \0\0\0\0\0\0\0\x05count\
    \x01\x01\0\0\0\0\0\0\0\x0241";

/// The count is set to 42.
pub const SET_42: &[u8] = b"\0\x0f\0\0\0\0\0\0\0\x1f\
    \0\0\0\0\0\0\0\0\
    \0\0\0\0\0\0\0\x05count\
    \0\0\0\0\0\0\0\x0242";

/// The output is 42.
pub const OUTPUT_42: &[u8] = b"\0\x1d\0\0\0\0\0\0\0\x0b\
    \0\
    \0\0\0\0\0\0\0\x0242";

/// The count is read, completed under id 1.
pub const LAZY_COUNT: &[u8] = b"\0\x0c\0\0\0\0\0\0\0\x19\
    \0\0\0\0\0\0\0\0\
    \0\0\0\0\0\0\0\x05count\
    \0\0\0\x01";

/// The state before any command.
pub fn state_of_41(alloc: Global) -> Result<Vec<(String, Bytes)>, AllocError> {
    let mut state = Vec::new(alloc);
    state.push((String::from_str(alloc, "count")?, Bytes::from_static(b"41")))?;
    Ok(state)
}
