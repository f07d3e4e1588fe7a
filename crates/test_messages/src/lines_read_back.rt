// Frames that are printed and read again.
use bytes::Bytes;
use frame_runs::round_trip::print_and_read;
use journal_protocol::{MessageType, RawMessage};
use std::alloc::Global;
use std::test::Fail;

// Suspended until signal 1 comes, or completion 1 or 3: one future nests in another.
const SUSPENSION_OF_A_RACE: &[u8] = b"\0\x02\0\0\0\0\0\0\0\x4e\
    \0\
    \0\0\0\0\0\0\0\0\
    \0\0\0\0\0\0\0\x01\0\0\0\x01\
    \0\0\0\0\0\0\0\0\
    \0\0\0\0\0\0\0\x01\
    \0\
    \0\0\0\0\0\0\0\x02\0\0\0\x01\0\0\0\x03\
    \0\0\0\0\0\0\0\0\
    \0\0\0\0\0\0\0\0\
    \0\0\0\0\0\0\0\0";

// Prints the frame of this type and reads the line. Its body stands after its type and its length.
fn comes_back(alloc: Global, ty: MessageType, frame: &[u8]) -> Result<(), Fail> {
    let body = Bytes::copy_from_slice(alloc, frame.get(10..).ok_or("no whole frame")?)?;
    let read = print_and_read(alloc, &RawMessage { ty, body })?;
    if read.as_slice() == frame {
        Ok(())
    } else {
        Err(Fail::new(format_args!("another frame was read")))
    }
}

#[test]
fn message_comes_back(rt: HostRuntime) -> Result<(), Fail> {
    let frame =
        b"\x00\x12\x00\x00\x00\x00\x00\x00\x00\x15\x00\x00\x01\x90\xba\xf7\x79\x8e\x00\x00\x00\x01\x00\x00\x00\x00\x00\x00\x00\x01n";
    comes_back(rt.alloc(), MessageType::SleepCommand, frame)
}

#[test]
fn future_comes_back(rt: HostRuntime) -> Result<(), Fail> {
    comes_back(rt.alloc(), MessageType::Suspension, SUSPENSION_OF_A_RACE)
}

#[test]
fn frame_without_a_message_comes_back(rt: HostRuntime) -> Result<(), Fail> {
    let frame = b"\x00\x04\x00\x00\x00\x00\x00\x00\x00\x01\xff";
    comes_back(rt.alloc(), MessageType::End, frame)
}
