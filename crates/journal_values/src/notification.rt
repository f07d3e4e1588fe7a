//! What comes in for an attempt: the result of a completion id or of a signal.
ghost use Rattle.std.specs.Prelude.{◌≡◌};

use crate::Failure;
use bytes::Bytes;
use std::alloc::{AllocError, Global};
use wire::{Fault, Items, Text, Wire};

#[derive(Drop, Clone, PartialEq, Eq)]
pub enum NotificationId {
    CompletionId(u32),
    SignalId(u32),
    SignalName(Text),
}

#[derive(Drop, PartialEq, Eq)]
pub enum NotificationResult {
    Void,
    Value(Bytes),
    Failure(Failure),
    StateKeys(Items<Bytes>),
    InvocationId(Text),
}

#[derive(Drop, PartialEq, Eq)]
pub struct Notification {
    pub id: NotificationId,
    pub result: NotificationResult,
}

#[tactic(auto, unfolding(crate::specs::Parts::read_id))]
impl Wire for NotificationId {
    ghost use Rattle.journal_values.specs.Parts.{id_format};

    ghost format = { id_format };

    fn put(&self, out: &mut Vec<u8>) -> Result<(), AllocError> {
        match self {
            NotificationId::CompletionId(id) => {
                out.push(0)?;
                id.put(out)
            }
            NotificationId::SignalId(id) => {
                out.push(1)?;
                id.put(out)
            }
            NotificationId::SignalName(name) => {
                out.push(2)?;
                name.put(out)
            }
        }
    }

    fn get(alloc: Global, input: &mut Bytes) -> Result<NotificationId, Fault> {
        match u8::get(alloc, input)? {
            0 => Ok(NotificationId::CompletionId(u32::get(alloc, input)?)),
            1 => Ok(NotificationId::SignalId(u32::get(alloc, input)?)),
            2 => Ok(NotificationId::SignalName(Text::get(alloc, input)?)),
            _ => Err(Fault::Malformed),
        }
    }
}

#[tactic(auto, unfolding(crate::specs::Parts::read_result))]
impl Wire for NotificationResult {
    ghost use Rattle.journal_values.specs.Parts.{result_format};

    ghost format = { result_format };

    fn put(&self, out: &mut Vec<u8>) -> Result<(), AllocError> {
        match self {
            NotificationResult::Void => Ok(out.push(0)?),
            NotificationResult::Value(value) => {
                out.push(1)?;
                value.put(out)
            }
            NotificationResult::Failure(failure) => {
                out.push(2)?;
                failure.put(out)
            }
            NotificationResult::StateKeys(keys) => {
                out.push(3)?;
                keys.put(out)
            }
            NotificationResult::InvocationId(id) => {
                out.push(4)?;
                id.put(out)
            }
        }
    }

    fn get(alloc: Global, input: &mut Bytes) -> Result<NotificationResult, Fault> {
        match u8::get(alloc, input)? {
            0 => Ok(NotificationResult::Void),
            1 => Ok(NotificationResult::Value(Bytes::get(alloc, input)?)),
            2 => Ok(NotificationResult::Failure(Failure::get(alloc, input)?)),
            3 => Ok(NotificationResult::StateKeys(<Items<Bytes> as Wire>::get(alloc, input)?)),
            4 => Ok(NotificationResult::InvocationId(Text::get(alloc, input)?)),
            _ => Err(Fault::Malformed),
        }
    }
}

#[tactic(auto, unfolding(crate::specs::Encoding::notification))]
impl Wire for Notification {
    ghost use Rattle.journal_values.specs.Bodies.{notification_format};

    ghost format = { notification_format };

    fn put(&self, out: &mut Vec<u8>) -> Result<(), AllocError> {
        self.id.put(out)?;
        self.result.put(out)
    }

    fn get(alloc: Global, input: &mut Bytes) -> Result<Notification, Fault> {
        let (id, result) = <(NotificationId, NotificationResult)>::get(alloc, input)?;
        Ok(Notification { id, result })
    }
}
