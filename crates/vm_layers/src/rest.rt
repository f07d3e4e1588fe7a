//! What is left of a stream: bytes that are read without a copy, and to which pieces are added without a copy of what is there.
ghost use Rattle.std.specs.Prelude.{◌≡◌, [], ◌++◌, IfOk, MatchResult, OnErr, OnOk};
ghost use Rattle.vm_layers.specs.Rest.{rest_bytes};

use bytes::{Bytes, BytesMut};
use std::alloc::{AllocError, Global};
use std::mem;

/// The bytes that are left.
#[derive(Drop)]
pub enum Rest {
    /// To be read. They share the memory of a piece, or of several that were put together.
    Shared(Bytes),
    /// To be added to.
    Joined(BytesMut),
}

/// The bytes as a buffer of their own. If nobody else has their memory, it is that.
fn buffer_of(alloc: Global, bytes: Bytes) -> Result<BytesMut, Bytes>
    ensures { MatchResult result (λ b. b.items ≡ bytes) (λ b. b ≡ bytes) }
{
    match bytes.try_into_mut() {
        Ok(buffer) => Ok(buffer),
        Err(bytes) => match BytesMut::copy_from_slice(alloc, bytes.as_slice()) {
            Ok(buffer) => Ok(buffer),
            Err(_) => Err(bytes),
        },
    }
}

impl Rest {
    pub fn nothing() -> Rest
        ensures { rest_bytes result ≡ [] }
    {
        Rest::Shared(Bytes::new())
    }

    pub fn as_slice(&self) -> &[u8]
        ensures { result.now ≡ rest_bytes self.now }
    {
        match self {
            Rest::Shared(bytes) => bytes.as_slice(),
            Rest::Joined(buffer) => buffer.as_slice(),
        }
    }

    /// The same bytes, to be added to, if there is memory for that.
    fn joined(self, alloc: Global) -> Rest
        ensures { rest_bytes result ≡ rest_bytes self }
    {
        match self {
            Rest::Shared(bytes) => match buffer_of(alloc, bytes) {
                Ok(buffer) => Rest::Joined(buffer),
                Err(bytes) => Rest::Shared(bytes),
            },
            Rest::Joined(buffer) => Rest::Joined(buffer),
        }
    }

    /// The same bytes, to be read, if there is memory for that.
    fn shared(self) -> Rest
        ensures { rest_bytes result ≡ rest_bytes self }
    {
        match self {
            Rest::Shared(bytes) => Rest::Shared(bytes),
            Rest::Joined(buffer) => match buffer.freeze() {
                Ok(bytes) => Rest::Shared(bytes),
                Err(failed) => Rest::Joined(failed.value),
            },
        }
    }

    /// Adds a piece, which is copied only if bytes are left. An `Err` changes nothing.
    pub fn add(&mut self, alloc: Global, piece: Bytes) -> Result<(), AllocError>
        ensures ok { OnOk result (rest_bytes self.new ≡ rest_bytes self.old ++ piece) }
        ensures err { OnErr result (rest_bytes self.new ≡ rest_bytes self.old) }
    {
        if self.as_slice().is_empty() {
            *self = Rest::Shared(piece);
            return Ok(());
        }
        *self = mem::replace(self, Rest::nothing()).joined(alloc);
        match self {
            Rest::Shared(_) => Err(AllocError),
            Rest::Joined(buffer) => buffer.extend_from_slice(piece.as_slice()),
        }
    }

    /// The bytes, to be read.
    pub fn read(&mut self) -> Result<Bytes, AllocError>
        ensures bytes { IfOk result (λ b. b ≡ rest_bytes self.old) }
        ensures same { rest_bytes self.new ≡ rest_bytes self.old }
    {
        *self = mem::replace(self, Rest::nothing()).shared();
        match self {
            Rest::Shared(bytes) => bytes.clone(),
            Rest::Joined(_) => Err(AllocError),
        }
    }
}
