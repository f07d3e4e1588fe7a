// Frames and messages, read and written: what several tests do. Each function drops the one thing that it makes.
use bytes::Bytes;
use journal_protocol::{Decoder, Encoder, Error, Message, RawMessage};
use plain::Fault;
use std::alloc::Global;
use std::test::Fail;

/// Takes the next piece of a stream; the frame at the front, if it is whole.
pub fn first_frame(decoder: &mut Decoder, stream: Bytes) -> Result<Option<RawMessage>, Fault> {
    decoder.push(stream)?;
    decoder.next_frame()
}

/// The first frame of a stream, if it is whole.
pub fn frame_in(alloc: Global, stream: Bytes) -> Result<Option<RawMessage>, Fault> {
    let mut decoder = Decoder::new(alloc);
    let frame = first_frame(&mut decoder, stream);
    drop(decoder);
    frame
}

/// The first frame of a stream, which has to be whole.
pub fn whole_in(alloc: Global, stream: Bytes) -> Result<RawMessage, Fail> {
    Ok(frame_in(alloc, stream)?.ok_or("no whole frame")?)
}

fn first_sent(decoder: &mut Decoder, stream: Bytes) -> Result<Option<RawMessage>, Error> {
    decoder.push(stream)?;
    decoder.next()
}

/// As `frame_in`, by the decoder's `next`.
pub fn sent_in(alloc: Global, stream: Bytes) -> Result<Option<RawMessage>, Error> {
    let mut decoder = Decoder::new(alloc);
    let frame = first_sent(&mut decoder, stream);
    drop(decoder);
    frame
}

/// The first of these messages, as a frame.
pub fn encoded(alloc: Global, messages: &[Message]) -> Result<Bytes, Fault> {
    let message = messages.first().ok_or(Fault::Malformed)?;
    Ok(Encoder::new(alloc).encode(message)?)
}
