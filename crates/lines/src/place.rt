//! A line of a text by its number.
ghost use Rattle.std.specs.Prelude.{◌≡◌, IfSome, option_map, slice_get};
ghost use Rattle.lines.specs.Places.{IsLineNumbered, text_lines};

use std::alloc::Global;

/// The line after this many others, without its end.
fn line_after(text: &[u8], others: usize) -> Option<&[u8]>
    ensures { option_map (λ line. line.now) result ≡ slice_get (text_lines text.now) others }
{
    text.split(|byte| *byte == b'\n').nth(others)
}

/// The line of this number, counted from 1, without its end.
fn line_numbered(text: &[u8], number: u64) -> Option<&[u8]>
    ensures { IfSome result (λ line. IsLineNumbered text.now number line.now) }
{
    let others = number.checked_sub(1)?;
    line_after(text, others as usize)
}

/// A copy of the line of this number, counted from 1, if there is memory for it.
pub fn copy_of_line(alloc: Global, text: &[u8], number: u64) -> Option<Vec<u8>>
    ensures { IfSome result (λ line. IsLineNumbered text.now number line.items) }
{
    line_numbered(text, number)?.to_vec(alloc).ok()
}
