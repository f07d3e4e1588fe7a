// The frame of a suspension on a future that nests deeply.
use bytes::Bytes;
use std::alloc::{AllocError, Global};

/// How deep the futures of the tests nest.
pub const DEPTH: usize = 100_000;

/// The bytes of nodes that each have one nested: a kind and four counts each.
fn outer_nodes(alloc: Global) -> Result<Vec<u8>, AllocError> {
    let mut body = Vec::new(alloc);
    for _ in 1..DEPTH {
        body.push(4)?;
        body.extend_from_slice(&[0; 31])?;
        body.push(1)?;
    }
    Ok(body)
}

/// The bytes of a suspension on a future that nests as deep, and whose deepest node is of this kind.
pub fn deep_body(alloc: Global, kind: u8) -> Result<Bytes, AllocError> {
    let mut body = outer_nodes(alloc)?;
    body.push(kind)?;
    body.extend_from_slice(&[0; 32])?;
    Ok(Bytes::from_vec(body)?)
}

fn head_and_body(alloc: Global, body: &[u8]) -> Result<Vec<u8>, AllocError> {
    let mut frame = Vec::new(alloc);
    frame.extend_from_slice(&[0, 2])?;
    frame.extend_from_slice(&(body.len() as u64).to_be_bytes())?;
    frame.extend_from_slice(body)?;
    Ok(frame)
}

/// The frame of that suspension.
pub fn deep_frame(alloc: Global, kind: u8) -> Result<Bytes, AllocError> {
    let body = deep_body(alloc, kind)?;
    let frame = head_and_body(alloc, body.as_slice());
    drop(body);
    Ok(Bytes::from_vec(frame?)?)
}
