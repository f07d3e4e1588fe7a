// Runs of the handler `counter` over the counts that it finds. The frames are put together from the layout: the type's
// number in two bytes, and the body with its length in eight bytes in front, as each text has.
use crate::vmrun::bench::assert_written;
use program_runs::exit_status::ExitStatus;
use std::alloc::{AllocError, Global};
use std::process::Abort;
use std::test::Fail;
use test_support::frames::{END, INPUT_TILL, START_1, START_3, SUSPENSION_ON_1};

const START: u8 = 1;

const GET_EAGER_STATE: u8 = 11;

const SET_STATE: u8 = 15;

const OUTPUT: u8 = 29;

const COMPLETION: u8 = 30;

/// A name that is absent, and the key "count".
const COUNT: &[u8] = b"\0\0\0\0\0\0\0\0\0\0\0\0\0\0\0\x05count";

/// The same, and that a value was found.
const FOUND: &[u8] = b"\0\0\0\0\0\0\0\0\0\0\0\0\0\0\0\x05count\x01\x01";

/// The count is read, completed under id 1.
const LAZY_READ: &[u8] = b"\0\x0c\0\0\0\0\0\0\0\x19\
    \0\0\0\0\0\0\0\0\
    \0\0\0\0\0\0\0\x05count\
    \0\0\0\x01";

/// Start of the invocation "abc", with 1 known entry and a state of one pair, up to the value of "count".
const START_UP_TO_COUNT: &[u8] = b"\0\0\0\0\0\0\0\x03abc\
    \0\0\0\0\0\0\0\x03abc\
    \0\0\0\0\0\0\0\0\
    \0\0\0\x01\
    \0\0\0\0\0\0\0\x01\0\0\0\0\0\0\0\x05count";

/// The bytes after the value: the state is whole, and all else is at its default.
const START_BEHIND_COUNT: &[u8] = &[0; 24];

/// Writes a frame of this type, whose body is these fields, this text with its length, and these bytes.
fn push_frame(
    frames: &mut Vec<u8>,
    ty: u8,
    fields: &[u8],
    text: &[u8],
    behind: &[u8],
) -> Result<(), AllocError> {
    let len = (fields.len() as u64)
        .saturating_add(8)
        .saturating_add(text.len() as u64)
        .saturating_add(behind.len() as u64);
    frames.extend_from_slice(&[0, ty])?;
    frames.extend_from_slice(&len.to_be_bytes())?;
    frames.extend_from_slice(fields)?;
    frames.extend_from_slice(&(text.len() as u64).to_be_bytes())?;
    frames.extend_from_slice(text)?;
    frames.extend_from_slice(behind)
}

/// What comes to an attempt whose state has this count.
fn input_with(alloc: Global, count: &[u8]) -> Result<Vec<u8>, AllocError> {
    let mut input = Vec::new(alloc);
    push_frame(
        &mut input,
        START,
        START_UP_TO_COUNT,
        count,
        START_BEHIND_COUNT,
    )?;
    input.extend_from_slice(INPUT_TILL)?;
    Ok(input)
}

/// What is written if this count was found, or asked for, and the next one set.
fn output_of(alloc: Global, found: Option<&[u8]>, next: &[u8]) -> Result<Vec<u8>, AllocError> {
    let mut output = Vec::new(alloc);
    if let Some(found) = found {
        push_frame(&mut output, GET_EAGER_STATE, FOUND, found, b"")?;
    }
    push_frame(&mut output, SET_STATE, COUNT, next, b"")?;
    push_frame(&mut output, OUTPUT, b"\0", next, b"")?;
    output.extend_from_slice(END)?;
    Ok(output)
}

/// Counts, and the next count of each.
static COUNTS: [(&[u8], &[u8]); 7] = [
    (b"41", b"42"),
    (b"007", b"8"),
    (b"999999999999999999", b"1000000000000000000"),
    (b"1000000000000000000", b"1"),
    (b"", b"1"),
    (b"+1", b"1"),
    (b"4x", b"1"),
];

fn assert_next(rt: &impl Abort, alloc: Global, found: &[u8], next: &[u8]) -> Result<(), Fail> {
    let input = input_with(alloc, found)?;
    let wanted = output_of(alloc, Some(found), next)?;
    assert_written(
        rt,
        alloc,
        "counter",
        input.as_slice(),
        wanted.as_slice(),
        ExitStatus::Done,
    );
    Ok(())
}

#[test]
fn counts_are_whole_numbers(rt: HostRuntime) -> Result<(), Fail> {
    for (found, next) in &COUNTS {
        assert_next(&rt, rt.alloc(), found, next)?;
    }
    Ok(())
}

#[test]
fn count_is_waited_for_where_it_is_unknown(rt: HostRuntime) -> Result<(), Fail> {
    let input = [START_1, INPUT_TILL].concat(rt.alloc())?;
    let wanted = [LAZY_READ, SUSPENSION_ON_1].concat(rt.alloc())?;
    assert_written(
        &rt,
        rt.alloc(),
        "counter",
        input.as_slice(),
        wanted.as_slice(),
        ExitStatus::Suspended,
    );
    Ok(())
}

#[test]
fn count_that_came_is_set(rt: HostRuntime) -> Result<(), Fail> {
    let mut input = [START_3, INPUT_TILL, LAZY_READ].concat(rt.alloc())?;
    push_frame(&mut input, COMPLETION, b"\0\0\0\0\x01\x01", b"41", b"")?;
    let wanted = output_of(rt.alloc(), None, b"42")?;
    assert_written(
        &rt,
        rt.alloc(),
        "counter",
        input.as_slice(),
        wanted.as_slice(),
        ExitStatus::Done,
    );
    Ok(())
}
