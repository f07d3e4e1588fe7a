//! The command of a run, what is proposed as its result, and their bytes.
ghost use Rattle.std.specs.Prelude.{◌≡◌};

use bytes::Bytes;
use journal_values::ValueOrFailure;
use std::alloc::{AllocError, Global};
use wire::{Fault, Text, Wire};

#[derive(Drop)]
pub struct RunCommand {
    pub name: Text,
    pub result_completion_id: u32,
}

#[derive(Drop)]
pub struct ProposeRunCompletion {
    pub id: u32,
    pub result: ValueOrFailure,
}

/// The proposed result is kept.
#[derive(Drop)]
pub struct ProposeRunCompletionAck {
    pub id: u32,
}

#[tactic(auto, unfolding(crate::specs::Encoding::run_body))]
impl Wire for RunCommand {
    ghost use Rattle.journal_attempt.specs.Bodies.{run_format};

    ghost format = { run_format };

    fn put(&self, out: &mut Vec<u8>) -> Result<(), AllocError> {
        self.name.put(out)?;
        self.result_completion_id.put(out)
    }

    fn get(alloc: Global, input: &mut Bytes) -> Result<RunCommand, Fault> {
        let (name, result_completion_id) = <(Text, u32)>::get(alloc, input)?;
        Ok(RunCommand {
            name,
            result_completion_id,
        })
    }
}

#[tactic(auto, unfolding(crate::specs::Encoding::propose_run_completion))]
impl Wire for ProposeRunCompletion {
    ghost use Rattle.journal_attempt.specs.Bodies.{propose_run_completion_format};

    ghost format = { propose_run_completion_format };

    fn put(&self, out: &mut Vec<u8>) -> Result<(), AllocError> {
        self.id.put(out)?;
        self.result.put(out)
    }

    fn get(alloc: Global, input: &mut Bytes) -> Result<ProposeRunCompletion, Fault> {
        let (id, result) = <(u32, ValueOrFailure)>::get(alloc, input)?;
        Ok(ProposeRunCompletion { id, result })
    }
}

#[tactic(auto, unfolding(crate::specs::Encoding::propose_run_completion_ack))]
impl Wire for ProposeRunCompletionAck {
    ghost use Rattle.journal_attempt.specs.Bodies.{propose_run_completion_ack_format};

    ghost format = { propose_run_completion_ack_format };

    fn put(&self, out: &mut Vec<u8>) -> Result<(), AllocError> {
        self.id.put(out)
    }

    fn get(alloc: Global, input: &mut Bytes) -> Result<ProposeRunCompletionAck, Fault> {
        let id = u32::get(alloc, input)?;
        Ok(ProposeRunCompletionAck { id })
    }
}
