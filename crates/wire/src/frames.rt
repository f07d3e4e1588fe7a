//! A frame's head: the number of its type in two bytes and the length of its body in eight. The body follows.
ghost use Rattle.std.specs.Prelude.{◌≡◌, ◌≤◌, ◌-◌, ◌++◌, take, drop, length, OnOk};
ghost use Rattle.wire.specs.Format.{u16s, u64s};

use std::alloc::AllocError;

/// Writes a frame's head, with a length of 0 for now.
#[tactic(auto, unfolding(crate::specs::Format::u16s, crate::specs::Format::u64s))]
pub fn put_head(number: u16, frame: &mut Vec<u8>) -> Result<(), AllocError>
    ensures { OnOk result (frame.new.items ≡ frame.old.items ++ (u16s number ++ u64s 0)) }
{
    let number = number.to_be_bytes();
    frame.extend_from_slice(&[number[0], number[1], 0, 0, 0, 0, 0, 0, 0, 0])
}

/// Writes the length of a frame's body to its place, after the type's number.
#[tactic(auto, unfolding(crate::specs::Format::u64s))]
pub fn set_length(frame: &mut Vec<u8>)
    requires { 10 ≤ length frame.old.items }
    ensures { frame.new.items ≡ take 2 frame.old.items
        ++ (u64s (length frame.old.items - 10) ++ drop 10 frame.old.items) }
{
    let len = (frame.len() - 10) as u64;
    frame[2..10].copy_from_slice(&len.to_be_bytes());
}
