//! Whose signal completes an awakeable.
ghost use Rattle.std.specs.Prelude.{◌≡◌, length, IfOk};
ghost use Rattle.std.specs.Int.{w32, from_be_bytes};
ghost use Rattle.journal_store.specs.Awakeables.{awakeable_named, named_in};

use base64::DecodeAllocError;
use base64::engine::general_purpose::URL_SAFE_NO_PAD;
use bytes::Bytes;
use std::alloc::{AllocError, Global};

/// The number that four bytes are, the most significant first.
fn signal_in(last: &[u8]) -> u32
    requires { length last.now ≡ 4 }
    ensures { result ≡ from_be_bytes w32 last.now }
{
    u32::from_be_bytes([last[0], last[1], last[2], last[3]])
}

/// The invocation's id and the signal's: the last four bytes are the signal's.
fn named_in(alloc: Global, named: &[u8]) -> Result<Option<(Bytes, u32)>, AllocError>
    ensures { IfOk result (λ r. r ≡ named_in named.now) }
{
    if named.len() < 4 {
        return Ok(None);
    }
    let (id, last) = named.split_at(named.len() - 4);
    let signal = signal_in(last);
    Ok(Some((Bytes::copy_from_slice(alloc, id)?, signal)))
}

/// The invocation and the signal that an awakeable's id names, if it names one.
pub fn awakeable_named(alloc: Global, id: &str) -> Result<Option<(Bytes, u32)>, AllocError>
    ensures { IfOk result (λ r. r ≡ awakeable_named id.now) }
{
    let Some(text) = id.as_bytes().strip_prefix("sign_1".as_bytes()) else {
        return Ok(None);
    };
    match URL_SAFE_NO_PAD.decode(alloc, text) {
        Ok(named) => named_in(alloc, named.as_slice()),
        Err(DecodeAllocError::OutOfMemory) => Err(AllocError),
        Err(_) => Ok(None),
    }
}
