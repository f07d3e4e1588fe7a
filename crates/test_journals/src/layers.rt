// The second layer by its versions, and a stream's translation piece by piece.
use bytes::Bytes;
use journal_protocol::Version;
use std::alloc::{AllocError, Global};
use std::process::Abort;
use std::test::Fail;
use test_support::frames::{AWAITING_ON_1, COMPLETION_1, INPUT_TILL, SLEEP_TO_1000};
use vm_layers::{Layer, LayerFault, Own, Short, Translator, translate};

/// All of id 1, and of id 2, signal 17 and signal "a" the first.
const SUSPENSION_ON_A_TREE: &[u8] = b"\0\x02\0\0\0\0\0\0\0\x57\
    \x01\
    \0\0\0\0\0\0\0\x01\0\0\0\x01\
    \0\0\0\0\0\0\0\0\
    \0\0\0\0\0\0\0\0\
    \0\0\0\0\0\0\0\x01\
    \0\
    \0\0\0\0\0\0\0\x01\0\0\0\x02\
    \0\0\0\0\0\0\0\x01\0\0\0\x11\
    \0\0\0\0\0\0\0\x01\0\0\0\0\0\0\0\x01a\
    \0\0\0\0\0\0\0\0";

/// The same ids, without how they are combined.
const SUSPENSION_ON_ITS_IDS: &[u8] = b"\0\x02\0\0\0\0\0\0\0\x36\
    \x04\
    \0\0\0\0\0\0\0\x02\0\0\0\x01\0\0\0\x02\
    \0\0\0\0\0\0\0\x01\0\0\0\x11\
    \0\0\0\0\0\0\0\x01\0\0\0\0\0\0\0\x01a\
    \0\0\0\0\0\0\0\0";

fn short(alloc: Global, version: Version) -> Short {
    Short {
        alloc,
        mark: false,
        version,
    }
}

/// What a translation of these bytes puts out, and its fault.
fn translated<A: Layer, B: Layer>(
    alloc: Global,
    from: &A,
    to: &B,
    bytes: &[u8],
) -> Result<(Vec<u8>, Option<LayerFault>), AllocError> {
    let mut stream = Bytes::copy_from_slice(alloc, bytes)?;
    let mut out = Vec::new(alloc);
    match translate(alloc, from, to, &mut stream, &mut out) {
        Ok(()) => Ok((out, None)),
        Err(fault) => Ok((out, Some(fault))),
    }
}

/// What our frames are once they went over the layer.
fn read_over<L: Layer>(
    rt: &impl Abort,
    alloc: Global,
    layer: &L,
    frames: &[u8],
) -> Result<Vec<u8>, Fail> {
    let own = Own { alloc };
    let (sent, fault) = translated(alloc, &own, layer, frames)?;
    assert!(rt; fault.is_none());
    let (read, fault) = translated(alloc, layer, &own, sent.as_slice())?;
    assert!(rt; fault.is_none());
    Ok(read)
}

/// These frames, one after another.
fn joined(alloc: Global, frames: &[&[u8]]) -> Result<Vec<u8>, AllocError> {
    let mut bytes = Vec::new(alloc);
    for frame in frames {
        bytes.extend_from_slice(frame)?;
    }
    Ok(bytes)
}

#[test]
fn below_version_7_a_suspension_has_no_tree(rt: HostRuntime) -> Result<(), Fail> {
    let alloc = rt.alloc();
    let read = read_over(&rt, alloc, &short(alloc, Version::V6), SUSPENSION_ON_A_TREE)?;
    assert_eq!(rt; read.as_slice(), SUSPENSION_ON_ITS_IDS);
    let read = read_over(&rt, alloc, &short(alloc, Version::V7), SUSPENSION_ON_A_TREE)?;
    assert_eq!(rt; read.as_slice(), SUSPENSION_ON_A_TREE);
    Ok(())
}

#[test]
fn what_a_version_lacks_is_named_and_what_stood_before_it_is_sent(
    rt: HostRuntime,
) -> Result<(), Fail> {
    let alloc = rt.alloc();
    let own = Own { alloc };
    let frames = joined(alloc, &[SLEEP_TO_1000, AWAITING_ON_1, SLEEP_TO_1000])?;
    let (sent, fault) = translated(alloc, &own, &short(alloc, Version::V6), frames.as_slice())?;
    assert!(rt; fault == Some(LayerFault::NoSuchMessage));
    let (alone, fault) = translated(alloc, &own, &short(alloc, Version::V6), SLEEP_TO_1000)?;
    assert!(rt; fault.is_none());
    assert_eq!(rt; sent.as_slice(), alone.as_slice());
    // A newer peer's report is no frame of this version.
    let (sent, fault) = translated(alloc, &own, &short(alloc, Version::V8), frames.as_slice())?;
    assert!(rt; fault.is_none());
    let (read, fault) = translated(alloc, &short(alloc, Version::V6), &own, sent.as_slice())?;
    assert!(rt; fault == Some(LayerFault::Malformed));
    assert_eq!(rt; read.as_slice(), SLEEP_TO_1000);
    Ok(())
}

/// Pushes the bytes in pieces of this length, and translates after each; the last fault.
fn pushed(
    rt: &impl Abort,
    alloc: Global,
    translator: &mut Translator,
    bytes: &[u8],
    len: usize,
    out: &mut Vec<u8>,
) -> Result<Option<LayerFault>, Fail> {
    let layer = short(alloc, Version::V8);
    let own = Own { alloc };
    let mut last = None;
    for piece in bytes.chunks(len) {
        translator.push(Bytes::copy_from_slice(alloc, piece)?)?;
        match translator.translate(&layer, &own, out) {
            Ok(()) => assert!(rt; last.is_none()),
            Err(fault) => last = Some(fault),
        }
    }
    Ok(last)
}

/// However the stream is cut, these frames come out, with this fault, and this is left.
fn each_cut(
    rt: &impl Abort,
    alloc: Global,
    stream: &[u8],
    frames: &[u8],
    fault: Option<LayerFault>,
    left: &[u8],
) -> Result<(), Fail> {
    for len in 1..stream.len() + 1 {
        let mut translator = Translator::new(alloc);
        let mut out = Vec::new(alloc);
        let said = pushed(rt, alloc, &mut translator, stream, len, &mut out)?;
        assert!(rt; said == fault);
        assert_eq!(rt; translator.waiting(), left);
        assert_eq!(rt; out.as_slice(), frames);
    }
    Ok(())
}

#[test]
fn a_stream_may_be_cut_anywhere(rt: HostRuntime) -> Result<(), Fail> {
    let alloc = rt.alloc();
    let frames = joined(alloc, &[INPUT_TILL, SLEEP_TO_1000, COMPLETION_1])?;
    let layer = short(alloc, Version::V8);
    let (mut stream, fault) = translated(alloc, &Own { alloc }, &layer, frames.as_slice())?;
    assert!(rt; fault.is_none());
    each_cut(&rt, alloc, stream.as_slice(), frames.as_slice(), None, b"")?;
    // A mark of 2, and a frame after it.
    let left = b"\0\0\0\x01\x02\0\x04\0\0\0\x01\0\0\x04";
    stream.extend_from_slice(left)?;
    let fault = Some(LayerFault::Malformed);
    each_cut(
        &rt,
        alloc,
        stream.as_slice(),
        frames.as_slice(),
        fault,
        left,
    )
}

#[test]
fn what_is_no_frame_is_refused(rt: HostRuntime) -> Result<(), Fail> {
    let alloc = rt.alloc();
    let own = Own { alloc };
    // A mark of 2, no mark at all, and a type that there isn't.
    for bytes in [
        &b"\0\0\0\x01\x02\0\x04"[..],
        b"\0\0\0\0\0\x04",
        b"\0\0\0\x01\0\xff\xff",
    ] {
        let (out, fault) = translated(alloc, &short(alloc, Version::V8), &own, bytes)?;
        assert!(rt; fault == Some(LayerFault::Malformed) && out.as_slice().is_empty());
    }
    Ok(())
}
