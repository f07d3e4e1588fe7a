//! The commands on a workflow's promises, and their bytes.
ghost use Rattle.std.specs.Prelude.{◌≡◌};

use bytes::Bytes;
use journal_values::ValueOrFailure;
use std::alloc::{AllocError, Global};
use wire::{Fault, Text, Wire};

/// Awaits a promise, or looks at it.
#[derive(Drop)]
pub struct PromiseCommand {
    pub key: Text,
    pub result_completion_id: u32,
}

#[derive(Drop)]
pub struct CompletePromiseCommand {
    pub key: Text,
    pub completion: ValueOrFailure,
    pub result_completion_id: u32,
}

#[tactic(auto, unfolding(crate::specs::Encoding::promise_body))]
impl Wire for PromiseCommand {
    ghost use Rattle.journal_calls.specs.Bodies.{promise_format};

    ghost format = { promise_format };

    fn put(&self, out: &mut Vec<u8>) -> Result<(), AllocError> {
        self.key.put(out)?;
        self.result_completion_id.put(out)
    }

    fn get(alloc: Global, input: &mut Bytes) -> Result<PromiseCommand, Fault> {
        let (key, result_completion_id) = <(Text, u32)>::get(alloc, input)?;
        Ok(PromiseCommand {
            key,
            result_completion_id,
        })
    }
}

#[tactic(auto, unfolding(crate::specs::Encoding::complete_promise_body))]
impl Wire for CompletePromiseCommand {
    ghost use Rattle.journal_calls.specs.Bodies.{complete_promise_format};

    ghost format = { complete_promise_format };

    fn put(&self, out: &mut Vec<u8>) -> Result<(), AllocError> {
        self.key.put(out)?;
        self.completion.put(out)?;
        self.result_completion_id.put(out)
    }

    fn get(alloc: Global, input: &mut Bytes) -> Result<CompletePromiseCommand, Fault> {
        let (key, (completion, result_completion_id)) = <(Text, (ValueOrFailure, u32))>::get(
            alloc, input,
        )?;
        Ok(CompletePromiseCommand {
            key,
            completion,
            result_completion_id,
        })
    }
}
