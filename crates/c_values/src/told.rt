//! What C gets of a call that tells a length.
ghost use Rattle.std.specs.Prelude.{◌≡◌, Ok};
ghost use Rattle.c_values.specs.Statuses.{IsStatus, status_by};
ghost use Rattle.c_values.specs.Written.{BytesWritten, WrittenOrWhy};

use crate::status::Status;
use bytes::Bytes;

/// How a call ended, and a length.
#[repr(C)]
#[derive(Drop)]
pub struct Told {
    pub status: u32,
    pub len: usize,
}

/// What a call returns to C: a status, and a length.
pub fn tell(status: Status, len: usize) -> Told
    ensures status { status_by result.status ≡ status }
    ensures known { IsStatus result.status }
    ensures len { result.len ≡ len }
{
    Told {
        status: status.code(),
        len,
    }
}

/// Writes bytes to the front of `out`, if there is room for them. Returns their number either way.
pub fn write(bytes: &[u8], out: &mut [u8]) -> (Status, usize)
    ensures { BytesWritten bytes.now result.0 result.1 out.old out.new }
{
    let len = bytes.len();
    if out.len() < len {
        return (Status::NoRoom, len);
    }
    out[..len].copy_from_slice(bytes);
    (Status::Done, len)
}

/// Writes bytes to the front of `out`, if there is room for them, and tells their number.
pub fn written(bytes: &[u8], out: &mut [u8]) -> Told
    ensures written { WrittenOrWhy (status_by result.status) (Ok bytes.now) result.len out.old
        out.new }
    ensures known { IsStatus result.status }
{
    let (status, len) = write(bytes, out);
    tell(status, len)
}

/// Writes bytes, or says why there are none.
pub fn answer(found: Result<Bytes, Status>, out: &mut [u8]) -> Told
    ensures written { WrittenOrWhy (status_by result.status) found result.len out.old
        out.new }
    ensures known { IsStatus result.status }
{
    match found {
        Ok(bytes) => written(bytes.as_slice(), out),
        Err(why) => tell(why, 0),
    }
}
