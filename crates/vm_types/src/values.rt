//! The values that calls take and answer, and how they stand in messages.
ghost use Rattle.std.specs.Prelude.{◌≡◌, codes, IfOk};
ghost use Rattle.vm_types.specs.Values.{terminal_failure, failure_message, value_message, value_of, texts_in, case_name, as_value};

use bytes::Bytes;
use journal_errors::Version;
use journal_values::{Failure, Header, NotificationResult, ValueOrFailure};
use plain::{Items, Text};
use std::alloc::{AllocError, Global};

/// The head of the response to the request that brought the attempt.
#[derive(Debug, Drop)]
pub struct ResponseHead {
    pub status_code: u16,
    pub headers: Items<Header>,
    pub version: Version,
}

/// What the handler was called with.
#[derive(Debug, Drop, Clone, PartialEq, Eq)]
pub struct Input {
    pub invocation_id: Text,
    pub random_seed: u64,
    pub key: Text,
    pub headers: Items<Header>,
    pub input: Bytes,
    pub scope: Option<Text>,
    pub limit_key: Option<Text>,
    pub idempotency_key: Option<Text>,
}

/// Which handler is called, and how.
#[derive(Debug, Drop, PartialEq, Eq)]
pub struct Target {
    pub service: Text,
    pub handler: Text,
    pub key: Option<Text>,
    pub idempotency_key: Option<Text>,
    pub scope: Option<Text>,
    pub limit_key: Option<Text>,
    pub headers: Items<Header>,
}

/// A failure that isn't retried.
#[derive(Debug, Drop, Clone, PartialEq, Eq)]
pub struct TerminalFailure {
    pub code: u16,
    pub message: Text,
    pub metadata: Items<(Text, Text)>,
}

/// A result that is not void.
#[derive(Debug, Drop, Clone)]
pub enum NonEmptyValue {
    Success(Bytes),
    Failure(TerminalFailure),
}

/// What a notification brings to the handler.
#[derive(Debug, Drop, Clone, PartialEq, Eq)]
pub enum Value {
    Void,
    Success(Bytes),
    Failure(TerminalFailure),
    StateKeys(Items<Text>),
    InvocationId(Text),
}

impl Value {
    /// The name of the case.
    pub fn name(&self) -> &'static str
        ensures { result.now ≡ case_name self.now }
    {
        match self {
            Value::Void => "Void",
            Value::Success(_) => "Success",
            Value::Failure(_) => "Failure",
            Value::StateKeys(_) => "StateKeys",
            Value::InvocationId(_) => "InvocationId",
        }
    }
}

impl From<NonEmptyValue> for Value {
    ghost from_gives = { λ given value. value ≡ as_value given };

    fn from(given: NonEmptyValue) -> Value {
        match given {
            NonEmptyValue::Success(bytes) => Value::Success(bytes),
            NonEmptyValue::Failure(failure) => Value::Failure(failure),
        }
    }
}

/// A failure as it is read from a message: of its code the low sixteen bits count.
pub fn read_failure(failure: Failure) -> TerminalFailure
    ensures { result ≡ terminal_failure failure }
{
    let Failure {
        code,
        message,
        metadata,
    } = failure;
    TerminalFailure {
        code: (code % 65_536) as u16,
        message,
        metadata,
    }
}

/// A failure as it stands in a message.
pub fn write_failure(failure: TerminalFailure) -> Failure
    ensures { result ≡ failure_message failure }
{
    let TerminalFailure {
        code,
        message,
        metadata,
    } = failure;
    Failure {
        code: u32::from(code),
        message,
        metadata,
    }
}

/// A result as it stands in a message.
pub fn write_value(value: NonEmptyValue) -> ValueOrFailure
    ensures { result ≡ value_message value }
{
    match value {
        NonEmptyValue::Success(bytes) => ValueOrFailure::Value(bytes),
        NonEmptyValue::Failure(failure) => ValueOrFailure::Failure(write_failure(failure)),
    }
}

/// The keys as texts; none where one of them isn't UTF-8.
pub fn read_keys(alloc: Global, keys: &Items<Bytes>) -> Result<Option<Items<Text>>, AllocError>
    ensures { IfOk result (λ texts. texts ≡ texts_in keys.now) }
{
    let mut texts = Items::new(alloc);
    for key in keys.as_slice() {
        let Ok(text) = std::str::from_utf8(key.as_slice()) else {
            return Ok(None);
        };
        texts.push(Text::from_str(alloc, text)?)?;
    }
    Ok(Some(texts))
}

/// The result of a notification as the handler sees it; none where a state key isn't UTF-8.
pub fn read_result(alloc: Global, found: NotificationResult) -> Result<Option<Value>, AllocError>
    ensures { IfOk result (λ value. value ≡ value_of found) }
{
    match found {
        NotificationResult::Void => Ok(Some(Value::Void)),
        NotificationResult::Value(bytes) => Ok(Some(Value::Success(bytes))),
        NotificationResult::Failure(failure) => Ok(Some(Value::Failure(read_failure(failure)))),
        NotificationResult::StateKeys(keys) => match read_keys(alloc, &keys)? {
            Some(texts) => Ok(Some(Value::StateKeys(texts))),
            None => Ok(None),
        },
        NotificationResult::InvocationId(id) => Ok(Some(Value::InvocationId(id))),
    }
}
