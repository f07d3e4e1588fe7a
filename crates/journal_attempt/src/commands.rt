//! The commands of a handler's journal, and their bytes.
ghost use Rattle.std.specs.Prelude.{◌≡◌};

use bytes::Bytes;
use journal_values::{Header, ValueOrFailure};
use std::alloc::{AllocError, Global};
use wire::{Fault, Items, Text, Wire};

#[derive(Drop)]
pub struct InputCommand {
    pub headers: Items<Header>,
    pub value: Bytes,
}

#[derive(Drop)]
pub struct SleepCommand {
    pub wake_up_time: u64,
    pub result_completion_id: u32,
    pub name: Text,
}

#[derive(Drop)]
pub struct OutputCommand {
    pub result: ValueOrFailure,
}

#[tactic(auto, unfolding(crate::specs::Encoding::input))]
impl Wire for InputCommand {
    ghost use Rattle.journal_attempt.specs.Bodies.{input_format};

    ghost format = { input_format };

    fn put(&self, out: &mut Vec<u8>) -> Result<(), AllocError> {
        self.headers.put(out)?;
        self.value.put(out)
    }

    fn get(alloc: Global, input: &mut Bytes) -> Result<InputCommand, Fault> {
        let (headers, value) = <(Items<Header>, Bytes)>::get(alloc, input)?;
        Ok(InputCommand { headers, value })
    }
}

#[tactic(auto, unfolding(crate::specs::Encoding::sleep_body))]
impl Wire for SleepCommand {
    ghost use Rattle.journal_attempt.specs.Bodies.{sleep_format};

    ghost format = { sleep_format };

    fn put(&self, out: &mut Vec<u8>) -> Result<(), AllocError> {
        self.wake_up_time.put(out)?;
        self.result_completion_id.put(out)?;
        self.name.put(out)
    }

    fn get(alloc: Global, input: &mut Bytes) -> Result<SleepCommand, Fault> {
        let (wake_up_time, (result_completion_id, name)) = <(u64, (u32, Text))>::get(alloc, input)?;
        Ok(SleepCommand {
            wake_up_time,
            result_completion_id,
            name,
        })
    }
}

#[tactic(auto, unfolding(crate::specs::Encoding::output_body))]
impl Wire for OutputCommand {
    ghost use Rattle.journal_attempt.specs.Bodies.{output_format};

    ghost format = { output_format };

    fn put(&self, out: &mut Vec<u8>) -> Result<(), AllocError> {
        self.result.put(out)
    }

    fn get(alloc: Global, input: &mut Bytes) -> Result<OutputCommand, Fault> {
        let result = ValueOrFailure::get(alloc, input)?;
        Ok(OutputCommand { result })
    }
}
