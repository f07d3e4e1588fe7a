//! The commands on a handler's state, and their bytes.
ghost use Rattle.std.specs.Prelude.{◌≡◌};

use bytes::Bytes;
use std::alloc::{AllocError, Global};
use wire::{Fault, Items, Text, Wire};

/// What stands under a key: nothing, or a value.
#[derive(Drop, Clone, PartialEq, Eq)]
pub enum VoidOrValue {
    Void,
    Value(Bytes),
}

/// Asks for what stands under a key. The journal doesn't keep it.
#[derive(Drop)]
pub struct GetStateEphemeralCommand {
    pub id: u32,
    pub key: Text,
}

#[derive(Drop)]
pub struct GetStateEphemeralNotification {
    pub id: u32,
    pub result: Option<VoidOrValue>,
}

#[derive(Drop)]
pub struct GetEagerStateCommand {
    pub name: Text,
    pub key: Text,
    pub result: Option<VoidOrValue>,
}

#[derive(Drop)]
pub struct GetLazyStateCommand {
    pub name: Text,
    pub key: Text,
    pub result_completion_id: u32,
}

#[derive(Drop)]
pub struct GetEagerStateKeysCommand {
    pub value: Option<Items<Bytes>>,
    pub name: Text,
}

#[derive(Drop)]
pub struct GetLazyStateKeysCommand {
    pub result_completion_id: u32,
    pub name: Text,
}

#[derive(Drop)]
pub struct SetStateCommand {
    pub name: Text,
    pub key: Text,
    pub value: Bytes,
}

#[derive(Drop)]
pub struct ClearStateCommand {
    pub name: Text,
    pub key: Text,
}

#[derive(Drop)]
pub struct ClearAllStateCommand {
    pub name: Text,
}

#[tactic(auto, unfolding(crate::specs::Choices::read_void_or_value))]
impl Wire for VoidOrValue {
    ghost use Rattle.journal_state.specs.Choices.{void_or_value_format};

    ghost format = { void_or_value_format };

    fn put(&self, out: &mut Vec<u8>) -> Result<(), AllocError> {
        match self {
            VoidOrValue::Void => Ok(out.push(0)?),
            VoidOrValue::Value(value) => {
                out.push(1)?;
                value.put(out)
            }
        }
    }

    fn get(alloc: Global, input: &mut Bytes) -> Result<VoidOrValue, Fault> {
        match u8::get(alloc, input)? {
            0 => Ok(VoidOrValue::Void),
            1 => Ok(VoidOrValue::Value(Bytes::get(alloc, input)?)),
            _ => Err(Fault::Malformed),
        }
    }
}

#[tactic(auto, unfolding(crate::specs::Encoding::get_state_ephemeral_command))]
impl Wire for GetStateEphemeralCommand {
    ghost use Rattle.journal_state.specs.Bodies.{get_state_ephemeral_command_format};

    ghost format = { get_state_ephemeral_command_format };

    fn put(&self, out: &mut Vec<u8>) -> Result<(), AllocError> {
        self.id.put(out)?;
        self.key.put(out)
    }

    fn get(alloc: Global, input: &mut Bytes) -> Result<GetStateEphemeralCommand, Fault> {
        let (id, key) = <(u32, Text)>::get(alloc, input)?;
        Ok(GetStateEphemeralCommand { id, key })
    }
}

#[tactic(auto, unfolding(crate::specs::Encoding::get_state_ephemeral_notification))]
impl Wire for GetStateEphemeralNotification {
    ghost use Rattle.journal_state.specs.Bodies.{get_state_ephemeral_notification_format};

    ghost format = { get_state_ephemeral_notification_format };

    fn put(&self, out: &mut Vec<u8>) -> Result<(), AllocError> {
        self.id.put(out)?;
        self.result.put(out)
    }

    fn get(alloc: Global, input: &mut Bytes) -> Result<GetStateEphemeralNotification, Fault> {
        let (id, result) = <(u32, Option<VoidOrValue>)>::get(alloc, input)?;
        Ok(GetStateEphemeralNotification { id, result })
    }
}

#[tactic(auto, unfolding(crate::specs::Encoding::get_eager_state))]
impl Wire for GetEagerStateCommand {
    ghost use Rattle.journal_state.specs.Bodies.{get_eager_state_format};

    ghost format = { get_eager_state_format };

    fn put(&self, out: &mut Vec<u8>) -> Result<(), AllocError> {
        self.name.put(out)?;
        self.key.put(out)?;
        self.result.put(out)
    }

    fn get(alloc: Global, input: &mut Bytes) -> Result<GetEagerStateCommand, Fault> {
        let (name, (key, result)) = <(Text, (Text, Option<VoidOrValue>))>::get(alloc, input)?;
        Ok(GetEagerStateCommand { name, key, result })
    }
}

#[tactic(auto, unfolding(crate::specs::Encoding::get_lazy_state))]
impl Wire for GetLazyStateCommand {
    ghost use Rattle.journal_state.specs.Bodies.{get_lazy_state_format};

    ghost format = { get_lazy_state_format };

    fn put(&self, out: &mut Vec<u8>) -> Result<(), AllocError> {
        self.name.put(out)?;
        self.key.put(out)?;
        self.result_completion_id.put(out)
    }

    fn get(alloc: Global, input: &mut Bytes) -> Result<GetLazyStateCommand, Fault> {
        let (name, (key, result_completion_id)) = <(Text, (Text, u32))>::get(alloc, input)?;
        Ok(GetLazyStateCommand {
            name,
            key,
            result_completion_id,
        })
    }
}

#[tactic(auto, unfolding(crate::specs::Encoding::get_eager_state_keys))]
impl Wire for GetEagerStateKeysCommand {
    ghost use Rattle.journal_state.specs.Bodies.{get_eager_state_keys_format};

    ghost format = { get_eager_state_keys_format };

    fn put(&self, out: &mut Vec<u8>) -> Result<(), AllocError> {
        self.value.put(out)?;
        self.name.put(out)
    }

    fn get(alloc: Global, input: &mut Bytes) -> Result<GetEagerStateKeysCommand, Fault> {
        let (value, name) = <(Option<Items<Bytes>>, Text)>::get(alloc, input)?;
        Ok(GetEagerStateKeysCommand { value, name })
    }
}

#[tactic(auto, unfolding(crate::specs::Encoding::get_lazy_state_keys))]
impl Wire for GetLazyStateKeysCommand {
    ghost use Rattle.journal_state.specs.Bodies.{get_lazy_state_keys_format};

    ghost format = { get_lazy_state_keys_format };

    fn put(&self, out: &mut Vec<u8>) -> Result<(), AllocError> {
        self.result_completion_id.put(out)?;
        self.name.put(out)
    }

    fn get(alloc: Global, input: &mut Bytes) -> Result<GetLazyStateKeysCommand, Fault> {
        let (result_completion_id, name) = <(u32, Text)>::get(alloc, input)?;
        Ok(GetLazyStateKeysCommand {
            result_completion_id,
            name,
        })
    }
}

#[tactic(auto, unfolding(crate::specs::Encoding::set_state))]
impl Wire for SetStateCommand {
    ghost use Rattle.journal_state.specs.Bodies.{set_state_format};

    ghost format = { set_state_format };

    fn put(&self, out: &mut Vec<u8>) -> Result<(), AllocError> {
        self.name.put(out)?;
        self.key.put(out)?;
        self.value.put(out)
    }

    fn get(alloc: Global, input: &mut Bytes) -> Result<SetStateCommand, Fault> {
        let (name, (key, value)) = <(Text, (Text, Bytes))>::get(alloc, input)?;
        Ok(SetStateCommand { name, key, value })
    }
}

#[tactic(auto, unfolding(crate::specs::Encoding::clear_state))]
impl Wire for ClearStateCommand {
    ghost use Rattle.journal_state.specs.Bodies.{clear_state_format};

    ghost format = { clear_state_format };

    fn put(&self, out: &mut Vec<u8>) -> Result<(), AllocError> {
        self.name.put(out)?;
        self.key.put(out)
    }

    fn get(alloc: Global, input: &mut Bytes) -> Result<ClearStateCommand, Fault> {
        let (name, key) = <(Text, Text)>::get(alloc, input)?;
        Ok(ClearStateCommand { name, key })
    }
}

#[tactic(auto, unfolding(crate::specs::Encoding::clear_all_state))]
impl Wire for ClearAllStateCommand {
    ghost use Rattle.journal_state.specs.Bodies.{clear_all_state_format};

    ghost format = { clear_all_state_format };

    fn put(&self, out: &mut Vec<u8>) -> Result<(), AllocError> {
        self.name.put(out)
    }

    fn get(alloc: Global, input: &mut Bytes) -> Result<ClearAllStateCommand, Fault> {
        let name = Text::get(alloc, input)?;
        Ok(ClearAllStateCommand { name })
    }
}
