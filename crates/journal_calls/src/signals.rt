//! The commands that complete an awakeable or a signal of another invocation, and their bytes.
ghost use Rattle.std.specs.Prelude.{◌≡◌};

use bytes::Bytes;
use journal_values::{Failure, ValueOrFailure};
use std::alloc::{AllocError, Global};
use wire::{Fault, Text, Wire};

#[derive(Drop)]
pub struct CompleteAwakeableCommand {
    pub awakeable_id: Text,
    pub result: ValueOrFailure,
}

#[derive(Drop, PartialEq, Eq)]
pub enum Signal {
    Index(u32),
    Name(Text),
}

#[derive(Drop, PartialEq, Eq)]
pub enum SignalResult {
    Void,
    Value(Bytes),
    Failure(Failure),
}

#[derive(Drop)]
pub struct SendSignalCommand {
    pub target_invocation_id: Text,
    pub signal: Signal,
    pub result: SignalResult,
}

#[tactic(auto, unfolding(crate::specs::Encoding::complete_awakeable_body))]
impl Wire for CompleteAwakeableCommand {
    ghost use Rattle.journal_calls.specs.Bodies.{complete_awakeable_format};

    ghost format = { complete_awakeable_format };

    fn put(&self, out: &mut Vec<u8>) -> Result<(), AllocError> {
        self.awakeable_id.put(out)?;
        self.result.put(out)
    }

    fn get(alloc: Global, input: &mut Bytes) -> Result<CompleteAwakeableCommand, Fault> {
        let (awakeable_id, result) = <(Text, ValueOrFailure)>::get(alloc, input)?;
        Ok(CompleteAwakeableCommand {
            awakeable_id,
            result,
        })
    }
}

#[tactic(auto, unfolding(crate::specs::Choices::read_signal))]
impl Wire for Signal {
    ghost use Rattle.journal_calls.specs.Choices.{signal_format};

    ghost format = { signal_format };

    fn put(&self, out: &mut Vec<u8>) -> Result<(), AllocError> {
        match self {
            Signal::Index(index) => {
                out.push(0)?;
                index.put(out)
            }
            Signal::Name(name) => {
                out.push(1)?;
                name.put(out)
            }
        }
    }

    fn get(alloc: Global, input: &mut Bytes) -> Result<Signal, Fault> {
        match u8::get(alloc, input)? {
            0 => Ok(Signal::Index(u32::get(alloc, input)?)),
            1 => Ok(Signal::Name(Text::get(alloc, input)?)),
            _ => Err(Fault::Malformed),
        }
    }
}

#[tactic(auto, unfolding(crate::specs::Choices::read_signal_result))]
impl Wire for SignalResult {
    ghost use Rattle.journal_calls.specs.Choices.{signal_result_format};

    ghost format = { signal_result_format };

    fn put(&self, out: &mut Vec<u8>) -> Result<(), AllocError> {
        match self {
            SignalResult::Void => Ok(out.push(0)?),
            SignalResult::Value(value) => {
                out.push(1)?;
                value.put(out)
            }
            SignalResult::Failure(failure) => {
                out.push(2)?;
                failure.put(out)
            }
        }
    }

    fn get(alloc: Global, input: &mut Bytes) -> Result<SignalResult, Fault> {
        match u8::get(alloc, input)? {
            0 => Ok(SignalResult::Void),
            1 => Ok(SignalResult::Value(Bytes::get(alloc, input)?)),
            2 => Ok(SignalResult::Failure(Failure::get(alloc, input)?)),
            _ => Err(Fault::Malformed),
        }
    }
}

#[tactic(auto, unfolding(crate::specs::Encoding::send_signal))]
impl Wire for SendSignalCommand {
    ghost use Rattle.journal_calls.specs.Bodies.{send_signal_format};

    ghost format = { send_signal_format };

    fn put(&self, out: &mut Vec<u8>) -> Result<(), AllocError> {
        self.target_invocation_id.put(out)?;
        self.signal.put(out)?;
        self.result.put(out)
    }

    fn get(alloc: Global, input: &mut Bytes) -> Result<SendSignalCommand, Fault> {
        let (target_invocation_id, (signal, result)) = <(Text, (Signal, SignalResult))>::get(
            alloc, input,
        )?;
        Ok(SendSignalCommand {
            target_invocation_id,
            signal,
            result,
        })
    }
}
