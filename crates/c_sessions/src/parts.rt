//! The parts of a reply: its texts and bytes, by their places.
ghost use Rattle.std.specs.Prelude.{◌≡◌, slice_get};
ghost use Rattle.std.specs.Option.{option_copied};
ghost use Rattle.c_sessions.specs.Replies.{one_part, in_answer, in_error, in_failure, in_headers, in_input, in_pairs, in_taken, in_value, part_of};

use journal_protocol::{Error, Header};
use plain::Text;
use vm_types::{Answer, Input, Reply, TerminalFailure, Value};

/// The bytes of a text.
fn bytes_of(text: &Text) -> &[u8]
    ensures { result.now ≡ text.now }
{
    text.as_str().as_bytes()
}

/// One part, at 0.
fn one_part(text: &[u8], at: usize) -> Option<&[u8]>
    ensures { option_copied result ≡ one_part text.now at }
{
    if at == 0 { Some(text) } else { None }
}

/// The keys and values of pairs in turn.
fn in_pairs(pairs: &[(Text, Text)], at: usize) -> Option<&[u8]>
    ensures { option_copied result ≡ in_pairs pairs.now at }
{
    let pair = pairs.get(at / 2)?;
    if at % 2 == 0 {
        Some(bytes_of(&pair.0))
    } else {
        Some(bytes_of(&pair.1))
    }
}

/// The keys and values of headers in turn.
fn in_headers(headers: &[Header], at: usize) -> Option<&[u8]>
    ensures { option_copied result ≡ in_headers headers.now at }
{
    let header = headers.get(at / 2)?;
    if at % 2 == 0 {
        Some(bytes_of(&header.key))
    } else {
        Some(bytes_of(&header.value))
    }
}

/// The bytes of a text that may be absent.
fn optional(text: &Option<Text>) -> Option<&[u8]>
    ensures { option_copied result ≡ text.now }
{
    match text {
        Some(text) => Some(bytes_of(text)),
        None => None,
    }
}

/// Of a failure: the message, then the metadata.
fn in_failure(failure: &TerminalFailure, at: usize) -> Option<&[u8]>
    ensures { option_copied result ≡ in_failure failure.now at }
{
    if at == 0 {
        return Some(bytes_of(&failure.message));
    }
    in_pairs(failure.metadata.as_slice(), at - 1)
}

/// One of the keys.
fn in_keys(keys: &[Text], at: usize) -> Option<&[u8]>
    ensures { option_copied result ≡ slice_get keys.now at }
{
    match keys.get(at) {
        Some(key) => Some(bytes_of(key)),
        None => None,
    }
}

/// Of a result: the bytes, the failure, the keys, or the id.
fn in_value(value: &Value, at: usize) -> Option<&[u8]>
    ensures { option_copied result ≡ in_value value.now at }
{
    match value {
        Value::Void => None,
        Value::Success(bytes) => one_part(bytes.as_slice(), at),
        Value::Failure(failure) => in_failure(failure, at),
        Value::StateKeys(keys) => in_keys(keys.as_slice(), at),
        Value::InvocationId(id) => one_part(bytes_of(id), at),
    }
}

/// Of the handler's input: the bytes, the invocation's id and key, what else the caller gave, then the headers.
fn in_input(input: &Input, at: usize) -> Option<&[u8]>
    ensures { option_copied result ≡ in_input input.now at }
{
    match at {
        0 => Some(input.input.as_slice()),
        1 => Some(bytes_of(&input.invocation_id)),
        2 => Some(bytes_of(&input.key)),
        3 => optional(&input.scope),
        4 => optional(&input.limit_key),
        5 => optional(&input.idempotency_key),
        _ => in_headers(input.headers.as_slice(), at - 6),
    }
}

/// Of what a handle has, if it has something.
pub(crate) fn in_taken(taken: &Option<Value>, at: usize) -> Option<&[u8]>
    ensures { option_copied result ≡ in_taken taken.now at }
{
    match taken {
        Some(value) => in_value(value, at),
        None => None,
    }
}

fn in_answer(answer: &Answer, at: usize) -> Option<&[u8]>
    ensures { option_copied result ≡ in_answer answer.now at }
{
    match answer {
        Answer::Input(input) => in_input(input, at),
        Answer::Awakeable(made) => one_part(bytes_of(&made.id), at),
        Answer::Taken(taken) => in_taken(taken, at),
        _ => None,
    }
}

/// Of an error: its text, its stack trace, and the name of the command that it relates to.
fn in_error(error: &Error, at: usize) -> Option<&[u8]>
    ensures { option_copied result ≡ in_error error.now at }
{
    match at {
        0 => Some(error.message.as_str().as_bytes()),
        1 => Some(error.stacktrace.as_str().as_bytes()),
        2 => match &error.related_command {
            Some(command) => Some(bytes_of(&command.name)),
            None => None,
        },
        _ => None,
    }
}

/// The part of a reply at this index, if it has one there.
pub(crate) fn part_of(reply: &Reply, at: usize) -> Option<&[u8]>
    ensures { option_copied result ≡ part_of reply.now at }
{
    match reply {
        Reply::Refused(error) => in_error(error, at),
        Reply::Head(head) => in_headers(head.headers.as_slice(), at),
        Reply::Output(bytes) => one_part(bytes.as_slice(), at),
        Reply::Answer(answer) => in_answer(answer, at),
        _ => None,
    }
}
