//! A state read's command: eager where the state is known, lazy where it isn't; in replay the recorded form decides.
ghost use Rattle.std.specs.Prelude.{◌≡◌, IfOk};
ghost use Rattle.vm_asks.specs.StateReads.{eager_form, eager_type, form_of, keys_form, lazy_form, lazy_type, name_read, own_form, recorded_type, result_in, value_form, value_result};

use bytes::Bytes;
use journal_protocol::{
    GetEagerStateCommand, GetEagerStateKeysCommand, GetLazyStateCommand, GetLazyStateKeysCommand,
    Message, MessageType, NamedFault, NotificationResult, RawMessage, VoidOrValue,
};
use plain::{Items, Text, copy_of};
use std::alloc::{AllocError, Global};
use vm_state::{Known, StateKey, StateMap};

/// What a handler reads of its state, and the name of the command.
#[derive(Drop)]
pub enum StateRead {
    /// The value of a key.
    Value { key: StateKey, name: Text },
    /// The keys that have a value.
    Keys { name: Text },
}

/// The read of a value, by what is known of its key.
fn value_form(key: &Text, name: &Text, id: u32, known: Known) -> Result<Message, AllocError>
    ensures { IfOk result (λ form. form ≡ value_form key.now name.now id known) }
{
    let (name, key) = (copy_of(name)?, copy_of(key)?);
    let result = match known {
        Known::Unknown => {
            return Ok(Message::GetLazyState(GetLazyStateCommand {
                name,
                key,
                result_completion_id: id,
            }));
        }
        Known::Empty => VoidOrValue::Void,
        Known::Value(value) => VoidOrValue::Value(value),
    };
    Ok(Message::GetEagerState(GetEagerStateCommand {
        name,
        key,
        result: Some(result),
    }))
}

/// The read of the keys, where they are known.
fn keys_form(name: &Text, id: u32, keys: Option<Items<Bytes>>) -> Result<Message, AllocError>
    ensures { IfOk result (λ form. form ≡ keys_form name.now id keys) }
{
    let name = copy_of(name)?;
    match keys {
        None => Ok(Message::GetLazyStateKeys(GetLazyStateKeysCommand {
            result_completion_id: id,
            name,
        })),
        value => Ok(Message::GetEagerStateKeys(GetEagerStateKeysCommand { value, name })),
    }
}

/// What stands under a key, as a result.
fn value_result(stored: VoidOrValue) -> NotificationResult
    ensures { result ≡ value_result stored }
{
    match stored {
        VoidOrValue::Void => NotificationResult::Void,
        VoidOrValue::Value(value) => NotificationResult::Value(value),
    }
}

/// The result that a read's command brings; an eager one has to have one.
pub fn result_in(
    command: &Message,
) -> Result<Result<Option<NotificationResult>, NamedFault>, AllocError>
    ensures { IfOk result (λ given. given ≡ result_in command.now) }
{
    match command {
        Message::GetEagerState(command) => match &command.result {
            Some(stored) => Ok(Ok(Some(value_result(stored.clone()?)))),
            None => Ok(Err(NamedFault::EmptyGetEagerState)),
        },
        Message::GetEagerStateKeys(command) => match &command.value {
            Some(keys) => Ok(Ok(Some(NotificationResult::StateKeys(keys.clone()?)))),
            None => Ok(Err(NamedFault::EmptyGetEagerStateKeys)),
        },
        _ => Ok(Ok(None)),
    }
}

impl StateRead {
    pub fn lazy_type(&self) -> MessageType
        ensures { result ≡ lazy_type self.now }
    {
        match self {
            StateRead::Value { .. } => MessageType::GetLazyStateCommand,
            StateRead::Keys { .. } => MessageType::GetLazyStateKeysCommand,
        }
    }

    pub fn eager_type(&self) -> MessageType
        ensures { result ≡ eager_type self.now }
    {
        match self {
            StateRead::Value { .. } => MessageType::GetEagerStateCommand,
            StateRead::Keys { .. } => MessageType::GetEagerStateKeysCommand,
        }
    }

    pub fn name(&self) -> Result<Text, AllocError>
        ensures { IfOk result (λ name. name ≡ name_read self.now) }
    {
        match self {
            StateRead::Value { key: _, name } => copy_of(name),
            StateRead::Keys { name } => copy_of(name),
        }
    }

    /// The lazy form, whose result comes with a completion id.
    fn lazy_form(&self, id: u32) -> Result<Message, AllocError>
        ensures { IfOk result (λ form. form ≡ lazy_form self.now id) }
    {
        match self {
            StateRead::Value { key, name } => {
                value_form(key.as_text(), name, id, Known::Unknown)
            }
            StateRead::Keys { name } => keys_form(name, id, None),
        }
    }

    /// The eager form, without its result.
    fn eager_form(&self) -> Result<Message, AllocError>
        ensures { IfOk result (λ form. form ≡ eager_form self.now) }
    {
        match self {
            StateRead::Value { key, name } => Ok(Message::GetEagerState(GetEagerStateCommand {
                name: copy_of(name)?,
                key: copy_of(key.as_text())?,
                result: None,
            })),
            StateRead::Keys { name } => {
                Ok(Message::GetEagerStateKeys(GetEagerStateKeysCommand {
                    value: None,
                    name: copy_of(name)?,
                }))
            }
        }
    }

    /// The command of the read, by what is known of the state.
    pub fn own_form(&self, alloc: Global, id: u32, state: &StateMap) -> Result<Message, AllocError>
        ensures { IfOk result (λ form. form ≡ own_form self.now id state.now) }
    {
        match self {
            StateRead::Value { key, name } => {
                value_form(key.as_text(), name, id, state.get(key)?)
            }
            StateRead::Keys { name } => keys_form(name, id, state.keys(alloc)?),
        }
    }

    /// The form that a recorded command has to have, by its type.
    pub fn form_of(&self, id: u32, raw: &RawMessage) -> Result<Option<Message>, AllocError>
        ensures { IfOk result (λ form. form ≡ form_of self.now id raw.now) }
    {
        if raw.has_type(self.lazy_type()) {
            Ok(Some(self.lazy_form(id)?))
        } else if raw.has_type(self.eager_type()) {
            Ok(Some(self.eager_form()?))
        } else {
            Ok(None)
        }
    }

    /// The type that an error shows of a recorded read.
    pub fn recorded_type(&self, raw: &RawMessage) -> MessageType
        ensures { result ≡ recorded_type self.now raw.now }
    {
        if raw.has_type(self.lazy_type()) {
            self.lazy_type()
        } else {
            self.eager_type()
        }
    }
}
