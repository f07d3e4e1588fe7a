//! The bytes of a type: writing a value at the end of a buffer, reading one from the front of some bytes.
ghost use Rattle.std.specs.Prelude.{◌≡◌, ◌++◌, OnOk, IfOk};
ghost use Rattle.wire.specs.Format.{Format};
ghost use Rattle.wire.specs.Forms.{nothing_format, byte_format, u16_format, u32_format, u64_format, flag_format, bytes_format, text_format, pair_format, option_format, list_format};
ghost use Rattle.wire.specs.Reads.{Reads, ReadsAll};

use bytes::Bytes;
use plain::{Fault, Items, Text};
use std::alloc::{AllocError, Global};

/// A type whose values have a place in a message.
pub trait Wire: Drop {
    ghost format: { Format Self };

    /// Writes the value at the end.
    fn put(&self, out: &mut Vec<u8>) -> Result<(), AllocError>
        ensures written { OnOk result (out.new.items ≡ out.old.items ++ format.spelling self.now) }
        // A value of the program always has a spelling.
        ensures valid { OnOk result (format.valid self.now) };

    /// Reads a value from the front.
    fn get(alloc: Global, input: &mut Bytes) -> Result<Self, Fault>
        ensures { Reads format input.old result input.new };
}

impl Wire for () {
    ghost format = { nothing_format };

    fn put(&self, _out: &mut Vec<u8>) -> Result<(), AllocError> {
        Ok(())
    }

    fn get(_alloc: Global, _input: &mut Bytes) -> Result<(), Fault> {
        Ok(())
    }
}

#[tactic(auto, unfolding(crate::specs::Format::read_byte))]
impl Wire for u8 {
    ghost format = { byte_format };

    fn put(&self, out: &mut Vec<u8>) -> Result<(), AllocError> {
        out.push(*self)?;
        Ok(())
    }

    fn get(_alloc: Global, input: &mut Bytes) -> Result<u8, Fault> {
        let Some(n) = input.as_slice().first().copied() else {
            return Err(Fault::Malformed);
        };
        input.advance(1);
        Ok(n)
    }
}

#[tactic(auto, unfolding(crate::specs::Format::u16s))]
impl Wire for u16 {
    ghost format = { u16_format };

    fn put(&self, out: &mut Vec<u8>) -> Result<(), AllocError> {
        out.extend_from_slice(&self.to_be_bytes())
    }

    fn get(_alloc: Global, input: &mut Bytes) -> Result<u16, Fault> {
        let front = input.as_slice();
        if front.len() < 2 {
            return Err(Fault::Malformed);
        }
        let n = u16::from_be_bytes([front[0], front[1]]);
        input.advance(2);
        Ok(n)
    }
}

#[tactic(auto, unfolding(crate::specs::Format::u32s))]
impl Wire for u32 {
    ghost format = { u32_format };

    fn put(&self, out: &mut Vec<u8>) -> Result<(), AllocError> {
        out.extend_from_slice(&self.to_be_bytes())
    }

    fn get(_alloc: Global, input: &mut Bytes) -> Result<u32, Fault> {
        let front = input.as_slice();
        if front.len() < 4 {
            return Err(Fault::Malformed);
        }
        let n = u32::from_be_bytes([front[0], front[1], front[2], front[3]]);
        input.advance(4);
        Ok(n)
    }
}

#[tactic(auto, unfolding(crate::specs::Format::u64s))]
impl Wire for u64 {
    ghost format = { u64_format };

    fn put(&self, out: &mut Vec<u8>) -> Result<(), AllocError> {
        out.extend_from_slice(&self.to_be_bytes())
    }

    fn get(_alloc: Global, input: &mut Bytes) -> Result<u64, Fault> {
        let front = input.as_slice();
        if front.len() < 8 {
            return Err(Fault::Malformed);
        }
        let n = u64::from_be_bytes([
            front[0], front[1], front[2], front[3], front[4], front[5], front[6], front[7],
        ]);
        input.advance(8);
        Ok(n)
    }
}

#[tactic(auto, unfolding(crate::specs::Format::flag, crate::specs::Format::read_flag, crate::specs::Format::read_byte))]
impl Wire for bool {
    ghost format = { flag_format };

    fn put(&self, out: &mut Vec<u8>) -> Result<(), AllocError> {
        out.push(u8::from(*self))?;
        Ok(())
    }

    fn get(_alloc: Global, input: &mut Bytes) -> Result<bool, Fault> {
        match input.as_slice() {
            [0, ..] => {
                input.advance(1);
                Ok(false)
            }
            [1, ..] => {
                input.advance(1);
                Ok(true)
            }
            _ => Err(Fault::Malformed),
        }
    }
}

#[tactic(auto, unfolding(crate::specs::Format::bytes, crate::specs::Format::u64s, crate::specs::Format::read_bytes))]
impl Wire for Bytes {
    ghost format = { bytes_format };

    fn put(&self, out: &mut Vec<u8>) -> Result<(), AllocError> {
        out.extend_from_slice(&(self.len() as u64).to_be_bytes())?;
        out.extend_from_slice(self.as_slice())
    }

    fn get(alloc: Global, input: &mut Bytes) -> Result<Bytes, Fault> {
        let len = u64::get(alloc, input)?;
        if (input.len() as u64) < len {
            return Err(Fault::Malformed);
        }
        Ok(input.split_to(len as usize)?)
    }
}

#[tactic(auto, unfolding(crate::specs::Format::bytes, crate::specs::Format::u64s, crate::specs::Format::read_bytes, crate::specs::Format::read_text), using(crate::proofs::Read::is_text, crate::proofs::Read::no_text))]
impl Wire for Text {
    ghost format = { text_format };

    fn put(&self, out: &mut Vec<u8>) -> Result<(), AllocError> {
        let bytes = self.as_str().as_bytes();
        out.extend_from_slice(&(bytes.len() as u64).to_be_bytes())?;
        out.extend_from_slice(bytes)
    }

    fn get(alloc: Global, input: &mut Bytes) -> Result<Text, Fault> {
        let len = u64::get(alloc, input)?;
        let front = input.as_slice();
        if (front.len() as u64) < len {
            return Err(Fault::Malformed);
        }
        let len = len as usize;
        let Ok(text) = std::str::from_utf8(&front[..len]) else {
            return Err(Fault::Malformed);
        };
        let text = Text::from_str(alloc, text)?;
        input.advance(len);
        Ok(text)
    }
}

#[tactic(auto, unfolding(crate::specs::Format::read_pair))]
impl<A: Wire, B: Wire> Wire for (A, B) {
    ghost format = { pair_format A.format B.format };

    fn put(&self, out: &mut Vec<u8>) -> Result<(), AllocError> {
        self.0.put(out)?;
        self.1.put(out)
    }

    fn get(alloc: Global, input: &mut Bytes) -> Result<(A, B), Fault> {
        let first = A::get(alloc, input)?;
        let second = B::get(alloc, input)?;
        Ok((first, second))
    }
}

#[tactic(auto, unfolding(crate::specs::Format::option, crate::specs::Format::flag, crate::specs::Format::read_option))]
impl<T: Wire> Wire for Option<T> {
    ghost format = { option_format T.format };

    fn put(&self, out: &mut Vec<u8>) -> Result<(), AllocError> {
        match self {
            None => out.push(0)?,
            Some(value) => {
                out.push(1)?;
                value.put(out)?;
            }
        }
        Ok(())
    }

    fn get(alloc: Global, input: &mut Bytes) -> Result<Option<T>, Fault> {
        if bool::get(alloc, input)? {
            Ok(Some(T::get(alloc, input)?))
        } else {
            Ok(None)
        }
    }
}

#[tactic(auto, unfolding(crate::specs::Format::list, crate::specs::Format::u64s, crate::specs::Format::read_list))]
impl<T: Wire> Wire for Items<T> {
    ghost format = { list_format T.format };

    fn put(&self, out: &mut Vec<u8>) -> Result<(), AllocError> {
        out.extend_from_slice(&(self.len() as u64).to_be_bytes())?;
        for item in self.as_slice() {
            item.put(out)?;
        }
        Ok(())
    }

    fn get(alloc: Global, input: &mut Bytes) -> Result<Items<T>, Fault> {
        let count = u64::get(alloc, input)?;
        let mut items = Items::new(alloc);
        for _ in 0..count {
            items.push(T::get(alloc, input)?)?;
        }
        Ok(items)
    }
}

/// The value whose encoding is all of the bytes.
pub fn whole<T: Wire>(alloc: Global, bytes: &Bytes) -> Result<T, Fault>
    ensures { ReadsAll T.format bytes.now result }
{
    let mut input = bytes.clone()?;
    let value = T::get(alloc, &mut input)?;
    if !input.is_empty() {
        return Err(Fault::Malformed);
    }
    Ok(value)
}
