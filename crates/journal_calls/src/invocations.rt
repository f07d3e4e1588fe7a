//! The commands on an invocation that runs elsewhere, and their bytes.
ghost use Rattle.std.specs.Prelude.{◌≡◌};

use bytes::Bytes;
use std::alloc::{AllocError, Global};
use wire::{Fault, Text, Wire};

#[derive(Debug, Drop, PartialEq, Eq)]
pub struct WorkflowId {
    pub name: Text,
    pub key: Text,
    pub scope: Option<Text>,
}

#[derive(Debug, Drop, PartialEq, Eq)]
pub struct IdempotencyId {
    pub service_name: Text,
    pub service_key: Option<Text>,
    pub handler_name: Text,
    pub idempotency_key: Text,
    pub scope: Option<Text>,
}

/// Which invocation is meant.
#[derive(Debug, Drop, PartialEq, Eq)]
pub enum InvocationTarget {
    InvocationId(Text),
    WorkflowId(WorkflowId),
    IdempotencyId(IdempotencyId),
}

/// Attaches to an invocation, or asks for its output.
#[derive(Drop)]
pub struct InvocationCommand {
    pub target: InvocationTarget,
    pub result_completion_id: u32,
}

#[tactic(auto, unfolding(crate::specs::Encoding::workflow_id))]
impl Wire for WorkflowId {
    ghost use Rattle.journal_calls.specs.Choices.{workflow_id_format};

    ghost format = { workflow_id_format };

    fn put(&self, out: &mut Vec<u8>) -> Result<(), AllocError> {
        self.name.put(out)?;
        self.key.put(out)?;
        self.scope.put(out)
    }

    fn get(alloc: Global, input: &mut Bytes) -> Result<WorkflowId, Fault> {
        let (name, (key, scope)) = <(Text, (Text, Option<Text>))>::get(alloc, input)?;
        Ok(WorkflowId { name, key, scope })
    }
}

type Parts = (Text, (Option<Text>, (Text, (Text, Option<Text>))));

#[tactic(auto, unfolding(crate::specs::Encoding::idempotency_id))]
impl Wire for IdempotencyId {
    ghost use Rattle.journal_calls.specs.Choices.{idempotency_id_format};

    ghost format = { idempotency_id_format };

    fn put(&self, out: &mut Vec<u8>) -> Result<(), AllocError> {
        self.service_name.put(out)?;
        self.service_key.put(out)?;
        self.handler_name.put(out)?;
        self.idempotency_key.put(out)?;
        self.scope.put(out)
    }

    fn get(alloc: Global, input: &mut Bytes) -> Result<IdempotencyId, Fault> {
        let (service_name, (service_key, (handler_name, (idempotency_key, scope)))) = Parts::get(
            alloc, input,
        )?;
        Ok(IdempotencyId {
            service_name,
            service_key,
            handler_name,
            idempotency_key,
            scope,
        })
    }
}

#[tactic(auto, unfolding(crate::specs::Choices::read_target))]
impl Wire for InvocationTarget {
    ghost use Rattle.journal_calls.specs.Choices.{target_format};

    ghost format = { target_format };

    fn put(&self, out: &mut Vec<u8>) -> Result<(), AllocError> {
        match self {
            InvocationTarget::InvocationId(id) => {
                out.push(0)?;
                id.put(out)
            }
            InvocationTarget::WorkflowId(id) => {
                out.push(1)?;
                id.put(out)
            }
            InvocationTarget::IdempotencyId(id) => {
                out.push(2)?;
                id.put(out)
            }
        }
    }

    fn get(alloc: Global, input: &mut Bytes) -> Result<InvocationTarget, Fault> {
        match u8::get(alloc, input)? {
            0 => Ok(InvocationTarget::InvocationId(Text::get(alloc, input)?)),
            1 => Ok(InvocationTarget::WorkflowId(WorkflowId::get(alloc, input)?)),
            2 => Ok(InvocationTarget::IdempotencyId(IdempotencyId::get(alloc, input)?)),
            _ => Err(Fault::Malformed),
        }
    }
}

#[tactic(auto, unfolding(crate::specs::Encoding::invocation))]
impl Wire for InvocationCommand {
    ghost use Rattle.journal_calls.specs.Bodies.{invocation_format};

    ghost format = { invocation_format };

    fn put(&self, out: &mut Vec<u8>) -> Result<(), AllocError> {
        self.target.put(out)?;
        self.result_completion_id.put(out)
    }

    fn get(alloc: Global, input: &mut Bytes) -> Result<InvocationCommand, Fault> {
        let (target, result_completion_id) = <(InvocationTarget, u32)>::get(alloc, input)?;
        Ok(InvocationCommand {
            target,
            result_completion_id,
        })
    }
}
