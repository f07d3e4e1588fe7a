//! What is written of an error, and its bytes.
ghost use Rattle.std.specs.Prelude.{◌≡◌};

use crate::ErrorBehavior;
use bytes::Bytes;
use std::alloc::{AllocError, Global};
use wire::{Fault, Text, Wire};

/// The attempt failed.
#[derive(Drop, PartialEq, Eq)]
pub struct ErrorMessage {
    pub code: u32,
    pub message: Text,
    pub stacktrace: Text,
    pub behavior: ErrorBehavior,
    pub index: Option<u32>,
    pub ty: Option<u32>,
    pub name: Option<Text>,
    pub delay: Option<u64>,
}

#[tactic(auto, unfolding(crate::specs::Parts::read_behavior))]
impl Wire for ErrorBehavior {
    ghost use Rattle.journal_errors.specs.Parts.{behavior_format};

    ghost format = { behavior_format };

    fn put(&self, out: &mut Vec<u8>) -> Result<(), AllocError> {
        let number = match self {
            ErrorBehavior::Retry => 0,
            ErrorBehavior::Pause => 1,
            ErrorBehavior::Fail => 2,
        };
        out.push(number)?;
        Ok(())
    }

    fn get(alloc: Global, input: &mut Bytes) -> Result<ErrorBehavior, Fault> {
        match u8::get(alloc, input)? {
            0 => Ok(ErrorBehavior::Retry),
            1 => Ok(ErrorBehavior::Pause),
            2 => Ok(ErrorBehavior::Fail),
            _ => Err(Fault::Malformed),
        }
    }
}

type Parts = (
    u32,
    (
        Text,
        (
            Text,
            (
                ErrorBehavior,
                (Option<u32>, (Option<u32>, (Option<Text>, Option<u64>))),
            ),
        ),
    ),
);

#[tactic(auto, unfolding(crate::specs::Encoding::error))]
impl Wire for ErrorMessage {
    ghost use Rattle.journal_errors.specs.Bodies.{error_format};

    ghost format = { error_format };

    fn put(&self, out: &mut Vec<u8>) -> Result<(), AllocError> {
        self.code.put(out)?;
        self.message.put(out)?;
        self.stacktrace.put(out)?;
        self.behavior.put(out)?;
        self.index.put(out)?;
        self.ty.put(out)?;
        self.name.put(out)?;
        self.delay.put(out)
    }

    fn get(alloc: Global, input: &mut Bytes) -> Result<ErrorMessage, Fault> {
        let (code, (message, (stacktrace, (behavior, (index, (ty, (name, delay))))))) = Parts::get(
            alloc, input,
        )?;
        Ok(ErrorMessage {
            code,
            message,
            stacktrace,
            behavior,
            index,
            ty,
            name,
            delay,
        })
    }
}
