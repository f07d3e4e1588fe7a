// Every body of up to two bytes, for every number of a type.
use bytes::Bytes;
use journal_protocol::{MessageType, RawMessage};
use plain::Fault;
use std::alloc::Global;
use std::test::Fail;

/// Whether a body is refused as no message's.
fn is_refused(alloc: Global, ty: MessageType, body: &[u8]) -> Result<bool, Fail> {
    let body = Bytes::copy_from_slice(alloc, body)?;
    let fault = RawMessage { ty, body }.read(alloc).err();
    Ok(fault == Some(Fault::Malformed))
}

/// Whether the body of this one byte, and each that has another byte after it, is refused.
fn refuses_behind(alloc: Global, ty: MessageType, first: u8) -> Result<bool, Fail> {
    if !is_refused(alloc, ty, &[first])? {
        return Ok(false);
    }
    for second in 0..=u8::MAX {
        if !is_refused(alloc, ty, &[first, second])? {
            return Ok(false);
        }
    }
    Ok(true)
}

/// Whether each body of one or two bytes is refused.
fn refuses_short(alloc: Global, ty: MessageType) -> Result<bool, Fail> {
    for first in 0..=u8::MAX {
        if !refuses_behind(alloc, ty, first)? {
            return Ok(false);
        }
    }
    Ok(true)
}

/// No message of these types has so short a body, but End, whose body is empty.
fn refuses_each(alloc: Global, first: u16, last: u16) -> Result<bool, Fail> {
    for number in first..=last {
        let ty = MessageType::from_number(number).ok_or("no type")?;
        if is_refused(alloc, ty, &[])? != (ty != MessageType::End) || !refuses_short(alloc, ty)? {
            return Ok(false);
        }
    }
    Ok(true)
}

#[test]
fn short_bodies_of_the_runtime(rt: HostRuntime) -> Result<(), Fail> {
    assert!(rt; refuses_each(rt.alloc(), 1, 9)?);
    Ok(())
}

#[test]
fn short_bodies_of_commands(rt: HostRuntime) -> Result<(), Fail> {
    assert!(rt; refuses_each(rt.alloc(), 10, 20)?);
    Ok(())
}

#[test]
fn short_bodies_of_further_commands(rt: HostRuntime) -> Result<(), Fail> {
    assert!(rt; refuses_each(rt.alloc(), 21, 30)?);
    Ok(())
}
