//! What messages are made of: headers, failures, values.
ghost use Rattle.std.specs.Prelude.{◌≡◌, refl};
ghost use Rattle.std.proofs.Common.{rules};
ghost use Rattle.std.specs.Cmp.Lexicographic.{bytes_decides};
ghost use Rattle.wire.specs.Same.{exact_on, exact_pair};

use bytes::Bytes;
use std::alloc::{AllocError, Global};
use wire::{Exact, Fault, Items, Plain, Text, Wire};

#[derive(Debug, Drop, Clone, PartialEq, Eq)]
pub struct Header {
    pub key: Text,
    pub value: Text,
}

#[derive(Drop, Clone, PartialEq, Eq)]
pub struct Failure {
    pub code: u32,
    pub message: Text,
    pub metadata: Items<(Text, Text)>,
}

#[derive(Drop, Clone, PartialEq, Eq)]
pub enum ValueOrFailure {
    Value(Bytes),
    Failure(Failure),
}

impl Exact for Header {
    ghost compares = { exact_on (λ h. (h.key, h.value)) (λ p. record { key = p.0; value = p.1 }) (λ _. refl) (exact_pair bytes_decides bytes_decides) };
}

impl Plain for Header {
    ghost copies = { λ a b. Prim.search rules };
}

impl Wire for Header {
    ghost use Rattle.journal_values.specs.Parts.{header_format};

    ghost format = { header_format };

    fn put(&self, out: &mut Vec<u8>) -> Result<(), AllocError> {
        self.key.put(out)?;
        self.value.put(out)
    }

    fn get(alloc: Global, input: &mut Bytes) -> Result<Header, Fault> {
        let (key, value) = <(Text, Text)>::get(alloc, input)?;
        Ok(Header { key, value })
    }
}

#[tactic(auto, unfolding(crate::specs::Encoding::failure))]
impl Wire for Failure {
    ghost use Rattle.journal_values.specs.Parts.{failure_format};

    ghost format = { failure_format };

    fn put(&self, out: &mut Vec<u8>) -> Result<(), AllocError> {
        self.code.put(out)?;
        self.message.put(out)?;
        self.metadata.put(out)
    }

    fn get(alloc: Global, input: &mut Bytes) -> Result<Failure, Fault> {
        let (code, (message, metadata)) = <(u32, (Text, Items<(Text, Text)>))>::get(alloc, input)?;
        Ok(Failure {
            code,
            message,
            metadata,
        })
    }
}

#[tactic(auto, unfolding(crate::specs::Parts::read_value))]
impl Wire for ValueOrFailure {
    ghost use Rattle.journal_values.specs.Parts.{value_format};

    ghost format = { value_format };

    fn put(&self, out: &mut Vec<u8>) -> Result<(), AllocError> {
        match self {
            ValueOrFailure::Value(value) => {
                out.push(0)?;
                value.put(out)
            }
            ValueOrFailure::Failure(failure) => {
                out.push(1)?;
                failure.put(out)
            }
        }
    }

    fn get(alloc: Global, input: &mut Bytes) -> Result<ValueOrFailure, Fault> {
        match u8::get(alloc, input)? {
            0 => Ok(ValueOrFailure::Value(Bytes::get(alloc, input)?)),
            1 => Ok(ValueOrFailure::Failure(Failure::get(alloc, input)?)),
            _ => Err(Fault::Malformed),
        }
    }
}
