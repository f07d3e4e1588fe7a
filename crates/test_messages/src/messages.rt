// Streams and messages whose bytes were written out by hand from the layout; and that each call succeeds if there is memory.
use crate::deep_frames::{DEPTH, deep_body, deep_frame};
use crate::faults::says;
use crate::frame_rows::expect;
use crate::reading::{encoded, first_frame, sent_in};
use bytes::Bytes;
use journal_protocol::{
    Decoder, Error, Future, FutureKind, FutureNode, Message, RawMessage, ValueOrFailure,
    messages_of,
};
use journal_replay::header_eq;
use plain::{Fault, Items, Text, is_same};
use std::alloc::{AllocError, Global};
use std::test::Fail;
use wire::whole;

// A message is owned by a list: if a function lends one of its own, its proof takes all kinds of messages apart.

/// The message of a frame, as the only one.
fn message_of(alloc: Global, raw: &RawMessage) -> Result<Items<Message>, Error> {
    let mut messages = Items::new(alloc);
    messages.push(raw.decode(alloc)?)?;
    Ok(messages)
}

/// What is wrong with a frame: an error of the decoder, or of the body.
fn error_of(alloc: Global, frame: &'static [u8]) -> Option<Error> {
    match sent_in(alloc, Bytes::from_static(frame)) {
        Err(e) => Some(e),
        Ok(None) => None,
        Ok(Some(raw)) => raw.decode(alloc).err(),
    }
}

const NAP: &[u8] = b"\0\x12\0\0\0\0\0\0\0\x17\
    \0\0\x01\x90\xba\xf7\x79\x8e\
    \0\0\0\x01\
    \0\0\0\0\0\0\0\x03nap";

/// The message is an output of this value.
fn is_output(message: &Message, text: &str) -> bool {
    match message {
        Message::Output(output) => match &output.result {
            ValueOrFailure::Value(bytes) => bytes.as_slice() == text.as_bytes(),
            ValueOrFailure::Failure(_) => false,
        },
        _ => false,
    }
}

/// Each byte as a piece of its own.
fn pieces_of(alloc: Global, stream: &[u8]) -> Result<Vec<Bytes>, AllocError> {
    let mut pieces = Vec::new(alloc);
    for byte in stream {
        pieces.push(Bytes::copy_from_slice(alloc, &[*byte])?)?;
    }
    Ok(pieces)
}

fn read_byte_by_byte(alloc: Global, stream: &[u8]) -> Result<Vec<Message>, Fault> {
    let pieces = pieces_of(alloc, stream)?;
    let messages = messages_of(alloc, pieces.as_slice());
    drop(pieces);
    messages
}

/// The messages are an output and an end.
fn are_output_and_end(messages: &[Message]) -> bool {
    match messages {
        [first, last] => is_output(first, "ok") && matches!(last, Message::End),
        _ => false,
    }
}

#[test]
fn reads_a_stream_byte_by_byte(rt: HostRuntime) -> Result<(), Fail> {
    let stream = b"\0\x1d\0\0\0\0\0\0\0\x0b\0\0\0\0\0\0\0\0\x02ok\0\x04\0\0\0\0\0\0\0\0";
    let messages = read_byte_by_byte(rt.alloc(), stream)?;
    let is_told = are_output_and_end(messages.as_slice());
    drop(messages);
    expect("an output and an end", is_told)
}

/// What is no frame or no body, and why.
static REFUSED: [(&[u8], &str); 17] = [
    (b"\0\0", "type 0"),
    (b"\0\x1f", "type 31"),
    (b"\x01\x04\0\0\0\0\0\0\0\0", "type 260"),
    (
        b"\0\x04\0\0\0\0\0\0\0\x01\0",
        "a byte left over behind nothing",
    ),
    (
        b"\0\x1e\0\0\0\0\0\0\0\x07\0\0\0\0\x01\0\0",
        "a byte left over",
    ),
    (b"\0\x1e\0\0\0\0\0\0\0\x05\0\0\0\0\x01", "a byte too few"),
    (b"\0\x1e\0\0\0\0\0\0\0\x06\x03\0\0\0\x01\0", "no such id"),
    (
        b"\0\x1e\0\0\0\0\0\0\0\x06\0\0\0\0\x01\x05",
        "no such result",
    ),
    (
        b"\0\x1d\0\0\0\0\0\0\0\x0b\0\0\0\0\0\0\0\0\x03ab",
        "a value that is cut off",
    ),
    (
        b"\0\x12\0\0\0\0\0\0\0\x15\0\0\0\0\0\0\0\0\0\0\0\x01\0\0\0\0\0\0\0\x01\xff",
        "a name that is no text",
    ),
    (
        b"\0\x03\0\0\0\0\0\0\0\x19\0\0\x01\xf4\0\0\0\0\0\0\0\0\0\0\0\0\0\0\0\0\0\x02\0\0\0",
        "a flag that is 2",
    ),
    (
        b"\0\x03\0\0\0\0\0\0\0\x19\0\0\x01\xf4\0\0\0\0\0\0\0\0\0\0\0\0\0\0\0\0\x03\0\0\0\0",
        "no such behaviour",
    ),
    (
        b"\0\x0a\0\0\0\0\0\0\0\x08\x7f\xff\xff\xff\xff\xff\xff\xff",
        "headers that are not there",
    ),
    (
        b"\0\x1d\0\0\0\0\0\0\0\x09\0\xff\xff\xff\xff\xff\xff\xff\xff",
        "a value that is not there",
    ),
    (
        b"\0\x02\0\0\0\0\0\0\0\x21\
            \x04\0\0\0\0\0\0\0\0\0\0\0\0\0\0\0\0\0\0\0\0\0\0\0\0\xff\xff\xff\xff\xff\xff\xff\xff",
        "more nested futures than bytes",
    ),
    (
        b"\0\x02\0\0\0\0\0\0\0\x42\
            \x04\0\0\0\0\0\0\0\0\0\0\0\0\0\0\0\0\0\0\0\0\0\0\0\0\xff\xff\xff\xff\xff\xff\xff\xff\
            \x04\0\0\0\0\0\0\0\0\0\0\0\0\0\0\0\0\0\0\0\0\0\0\0\0\xff\xff\xff\xff\xff\xff\xff\xff",
        "more nested futures than a number counts",
    ),
    (
        b"\0\x02\0\0\0\0\0\0\0\x42\
            \x04\0\0\0\0\0\0\0\0\0\0\0\0\0\0\0\0\0\0\0\0\0\0\0\0\0\0\0\0\0\0\0\0\
            \x04\0\0\0\0\0\0\0\0\0\0\0\0\0\0\0\0\0\0\0\0\0\0\0\0\0\0\0\0\0\0\0\0",
        "a future left over",
    ),
];

fn is_bad_message(alloc: Global, frame: &'static [u8]) -> bool {
    match error_of(alloc, frame) {
        None => false,
        Some(error) => says(&error, 571, "BadMessage"),
    }
}

#[test]
fn refuses_what_is_no_message(rt: HostRuntime) -> Result<(), Fail> {
    for (frame, what) in &REFUSED {
        expect(what, is_bad_message(rt.alloc(), frame))?;
    }
    Ok(())
}

#[test]
fn waits_for_the_longest_body(rt: HostRuntime) -> Result<(), Fail> {
    let stream = Bytes::from_static(b"\0\x0a\xff\xff\xff\xff\xff\xff\xff\xff");
    let frame = sent_in(rt.alloc(), stream)?;
    expect("no frame", frame.is_none())
}

/// The one frame of a stream.
fn frame_of(alloc: Global, stream: Bytes) -> Result<RawMessage, Fail> {
    let length = stream.len();
    let raw = sent_in(alloc, stream)?.ok_or("no whole frame")?;
    // In front of a body stand its type and its length.
    if raw.body.len().wrapping_add(10) == length {
        Ok(raw)
    } else {
        Err(Fail::from("more than a frame"))
    }
}

/// Whether two frames have one message for replay.
fn are_alike(alloc: Global, a: &RawMessage, b: &RawMessage) -> Result<bool, Fail> {
    let (a, b) = (message_of(alloc, a)?, message_of(alloc, b)?);
    let a = a.get(0).ok_or("no message")?;
    let b = b.get(0).ok_or("no message")?;
    Ok(header_eq(a, b, false))
}

fn encoded_again(alloc: Global, raw: &RawMessage) -> Result<Bytes, Fail> {
    let messages = message_of(alloc, raw)?;
    let frame = encoded(alloc, messages.as_slice());
    drop(messages);
    Ok(frame?)
}

fn is_encoded_again(alloc: Global, raw: &RawMessage, frame: &[u8]) -> Result<bool, Fail> {
    let again = encoded_again(alloc, raw)?;
    Ok(again.as_slice() == frame)
}

/// The frame is encoded as it was, and is like itself and unlike the other.
fn expect_read(alloc: Global, frame: &Bytes, other: &RawMessage) -> Result<(), Fail> {
    let raw = frame_of(alloc, frame.clone()?)?;
    let is_encoded = is_encoded_again(alloc, &raw, frame.as_slice())?;
    expect("the frame, encoded again", is_encoded)?;
    expect("the frame and itself", are_alike(alloc, &raw, &raw)?)?;
    expect("the frame and the other", !are_alike(alloc, &raw, other)?)
}

fn read_deep(alloc: Global, kind: u8) -> Result<RawMessage, Fail> {
    frame_of(alloc, deep_frame(alloc, kind)?)
}

#[test]
fn nests_deeply(rt: HostRuntime) -> Result<(), Fail> {
    let frame = deep_frame(rt.alloc(), 4)?;
    let other = read_deep(rt.alloc(), 3)?;
    expect_read(rt.alloc(), &frame, &other)
}

fn future_of(alloc: Global, body: &Bytes) -> Result<Future, Fault> {
    whole::<Future>(alloc, body)
}

fn is_read_again(alloc: Global, body: &Bytes, future: &Future) -> Result<bool, Fault> {
    let again = future_of(alloc, body)?;
    Ok(is_same(future, &again))
}

/// Whether the body is a future of one node a level, and the same whenever it is read.
fn is_deep(alloc: Global, body: &Bytes) -> Result<bool, Fault> {
    let future = future_of(alloc, body)?;
    let is_same = is_read_again(alloc, body, &future);
    let has_each_level = future.nodes().len() == DEPTH;
    drop(future);
    Ok(has_each_level && is_same?)
}

/// Cuts the body off within its last node, which leaves no future.
fn is_refused_when_cut(alloc: Global, body: &mut Bytes) -> bool {
    let least = body.len().min(33);
    body.truncate(body.len() - least);
    matches!(future_of(alloc, body), Err(Fault::Malformed))
}

#[test]
fn refuses_a_deep_future_that_is_cut_off(rt: HostRuntime) -> Result<(), Fail> {
    let alloc = rt.alloc();
    let mut body = deep_body(alloc, 4)?;
    let is_deep = is_deep(alloc, &body);
    let is_refused = is_refused_when_cut(alloc, &mut body);
    drop(body);
    expect("a deep future", is_deep?)?;
    expect("a deep future that is cut off", is_refused)
}

/// A node in which this number of futures nest.
fn node(alloc: Global, nested: u64) -> FutureNode {
    FutureNode {
        kind: FutureKind::Unknown,
        waiting_completions: Items::new(alloc),
        waiting_signals: Items::new(alloc),
        waiting_named_signals: Items::new(alloc),
        nested,
    }
}

/// Whether nodes in which these numbers of futures nest are a future.
fn is_future(alloc: Global, nested: &[u64]) -> Result<bool, AllocError> {
    let mut nodes = Items::new(alloc);
    for n in nested {
        nodes.push(node(alloc, *n))?;
    }
    Ok(Future::from_nodes(nodes).is_some())
}

static NESTINGS: [(&[u64], bool, &str); 6] = [
    (&[0], true, "one node"),
    (
        &[2, 1, 0, 0],
        true,
        "two nested futures, one of them around another",
    ),
    (&[], false, "no node"),
    (&[1], false, "a nested one is missing"),
    (&[0, 0], false, "one is left over"),
    (&[u64::MAX, u64::MAX], false, "more than there can be"),
];

/// How many nodes a future has that waits for nothing.
fn nodes_of_one(alloc: Global) -> Result<usize, AllocError> {
    let one = Future::waiting(
        alloc,
        FutureKind::Unknown,
        Items::new(alloc),
        Items::new(alloc),
        Items::new(alloc),
    )?;
    Ok(one.nodes().len())
}

#[test]
fn takes_whole_futures(rt: HostRuntime) -> Result<(), Fail> {
    for (nested, is, what) in &NESTINGS {
        expect(what, is_future(rt.alloc(), nested)? == *is)?;
    }
    expect("a future of its own", nodes_of_one(rt.alloc())? == 1)
}

fn are_same(a: &Option<RawMessage>, b: &Option<RawMessage>) -> bool {
    match (a, b) {
        (Some(a), Some(b)) => a.ty == b.ty && a.body == b.body,
        _ => false,
    }
}

/// Whether the frame after what was dropped is the same as that before it.
fn is_let_go(decoder: &mut Decoder) -> Result<bool, Fault> {
    decoder.push(Bytes::from_static(NAP))?;
    let first = first_frame(decoder, Bytes::from_static(b"\0"))?;
    decoder.clear();
    let next = first_frame(decoder, Bytes::from_static(NAP))?;
    Ok(are_same(&first, &next))
}

#[test]
fn lets_go_of_what_waits(rt: HostRuntime) -> Result<(), Fail> {
    let mut decoder = Decoder::new(rt.alloc());
    let is_let_go = is_let_go(&mut decoder);
    drop(decoder);
    expect("a byte that waits", is_let_go?)
}
