//! A row: an entry of a journal as a runtime stores it, with the completion id that it completes.
ghost use Rattle.std.specs.Prelude.{◌≡◌, None, Some, IfOk};
ghost use Rattle.c_journals.specs.Rows.{no_row, row_in, entry_row};
ghost use Rattle.c_values.specs.Statuses.{IsStatus, status_by};
ghost use Rattle.c_values.specs.declared.status.Status.TheVariants.{Done};

use bytes::Bytes;
use c_values::Status;
use journal_store::{Entered, entered_in};
use std::alloc::{AllocError, Global};

/// An entry as it is stored, or why there is none.
#[repr(C)]
#[derive(Drop)]
pub struct Row {
    pub status: u32,
    /// The type of its message.
    pub ty: u32,
    /// Whether it is a completion.
    pub is_completion: bool,
    /// The id that it completes, if it is a completion.
    pub completes: u32,
    /// How long it is, in bytes.
    pub len: usize,
}

/// How a store ended, how many rows are to be appended, and how many bytes are to be fed.
#[repr(C)]
#[derive(Drop)]
pub struct Stored {
    pub status: u32,
    pub rows: usize,
    pub feed: usize,
}

/// What C gets of a store.
pub(crate) fn answer_store(status: Status, rows: usize, feed: usize) -> Stored
    ensures status { status_by result.status ≡ status }
    ensures known { IsStatus result.status }
    ensures rows { result.rows ≡ rows }
    ensures feed { result.feed ≡ feed }
{
    Stored {
        status: status.code(),
        rows,
        feed,
    }
}

/// The row that C gets without an entry.
pub(crate) fn no_row(status: Status) -> Row
    ensures row { result ≡ no_row status }
    ensures status { status_by result.status ≡ status }
{
    Row {
        status: status.code(),
        ty: 0,
        is_completion: false,
        completes: 0,
        len: 0,
    }
}

/// The row of an entry of this length.
pub(crate) fn entry_row(entered: &Entered, len: usize) -> Row
    ensures row { result ≡ entry_row (Some entered.now) len }
    ensures done { status_by result.status ≡ Done }
{
    Row {
        status: 0,
        ty: u32::from(entered.ty.number()),
        is_completion: entered.completes.is_some(),
        completes: entered.completes.unwrap_or(0),
        len,
    }
}

/// The row of what is no frame.
fn unread_row(len: usize) -> Row
    ensures row { result ≡ entry_row None len }
    ensures done { status_by result.status ≡ Done }
{
    Row {
        status: 0,
        ty: 0,
        is_completion: false,
        completes: 0,
        len,
    }
}

/// An entry as a row.
pub(crate) fn row_in(alloc: Global, entry: &Bytes) -> Result<Row, AllocError>
    ensures row { IfOk result (λ row. row ≡ row_in entry.now) }
    ensures done { IfOk result (λ row. status_by row.status ≡ Done) }
{
    match entered_in(alloc, entry) {
        Err(error) => Err(error),
        Ok(None) => Ok(unread_row(entry.len())),
        Ok(Some(entered)) => Ok(entry_row(&entered, entry.len())),
    }
}
