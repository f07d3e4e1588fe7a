// The names that others read: versions, types of messages, faults and errors; and small values, copied and read.
use crate::frame_rows::expect;
use bytes::Bytes;
use journal_protocol::{Error, MessageType, NamedFault, Said, Version};
use plain::{Fault, Items, Text, copy_of, is_same};
use std::str::FromStr;
use std::test::Fail;
use wire::whole;

static VERSIONS: [(&str, Version); 8] = [
    ("application/vnd.restate.invocation.v1", Version::V1),
    ("application/vnd.restate.invocation.v2", Version::V2),
    ("application/vnd.restate.invocation.v3", Version::V3),
    ("application/vnd.restate.invocation.v4", Version::V4),
    ("application/vnd.restate.invocation.v5", Version::V5),
    ("application/vnd.restate.invocation.v6", Version::V6),
    ("application/vnd.restate.invocation.v7", Version::V7),
    ("application/vnd.restate.invocation.v8", Version::V8),
];

/// Whether the text is read as the version, and the version is written as the text.
fn is_text_of(text: &str, version: Version) -> bool {
    Version::from_str(text).ok() == Some(version) && version.content_type() == text
}

#[test]
fn knows_its_versions() -> Result<(), Fail> {
    for (text, version) in &VERSIONS {
        expect(text, is_text_of(text, *version))?;
    }
    let least = Version::minimum_supported_version();
    expect("the least version", Version::V4 < least)?;
    let greatest = Version::maximum_supported_version();
    expect("the greatest version", greatest == Version::V8)
}

static OTHER_VERSIONS: [&str; 8] = [
    "",
    "application/vnd.restate.invocation.v",
    "application/vnd.restate.invocation.v9",
    "application/vnd.restate.invocation.v77",
    "Application/vnd.restate.invocation.v7",
    "application/vnd.restate.invocation.V7",
    "application/vnd.restate.invocation.v7; charset=utf-8",
    " application/vnd.restate.invocation.v7",
];

/// Whether an error has this code and this text.
pub fn says(error: &Error, code: u16, text: &str) -> bool {
    error.code() == code && error.message() == text
}

/// Whether the text is refused as no version's.
fn is_refused(text: &str) -> bool {
    match Version::from_str(text) {
        Ok(_) => false,
        Err(error) => says(&error, 415, "BadContentType"),
    }
}

#[test]
fn refuses_other_versions() -> Result<(), Fail> {
    for text in &OTHER_VERSIONS {
        expect(text, is_refused(text))?;
    }
    Ok(())
}

static FAULTS: [(NamedFault, u16, &str); 39] = [
    (NamedFault::BadRequest, 400, "BAD_REQUEST"),
    (NamedFault::MissingContentType, 415, "MISSING_CONTENT_TYPE"),
    (NamedFault::BadContentType, 415, "BadContentType"),
    (
        NamedFault::UnsupportedMediaType,
        415,
        "UNSUPPORTED_MEDIA_TYPE",
    ),
    (
        NamedFault::CommandTypeMismatch,
        570,
        "CommandTypeMismatchError",
    ),
    (NamedFault::CommandMismatch, 570, "CommandMismatchError"),
    (
        NamedFault::UncompletedDoProgressDuringReplay,
        570,
        "UncompletedDoProgressDuringReplay",
    ),
    (NamedFault::UnsupportedFeature, 573, "UNSUPPORTED_FEATURE"),
    (
        NamedFault::UnsupportedFeatureForNegotiatedVersion,
        573,
        "UnsupportedFeatureForNegotiatedVersion",
    ),
    (NamedFault::Closed, 598, "ClosedError"),
    (NamedFault::Suspended, 599, "SUSPENDED"),
    (NamedFault::Memory, 500, ""),
    (
        NamedFault::EmptyIdempotencyKey,
        500,
        "EMPTY_IDEMPOTENCY_KEY",
    ),
    (NamedFault::EmptyScope, 500, "EMPTY_SCOPE"),
    (NamedFault::EmptyLimitKey, 500, "EMPTY_LIMIT_KEY"),
    (NamedFault::OutOfBoundsDuration, 500, "OutOfBoundsDuration"),
    (
        NamedFault::ExhaustedCompletionIds,
        500,
        "exhausted: completion ids",
    ),
    (NamedFault::ExhaustedSignalIds, 500, "exhausted: signal ids"),
    (NamedFault::ExhaustedHandles, 500, "exhausted: handles"),
    (
        NamedFault::ExhaustedCommandIndexes,
        500,
        "exhausted: command indexes",
    ),
    (
        NamedFault::ExhaustedEphemeralIds,
        500,
        "exhausted: ephemeral ids",
    ),
    (NamedFault::NoPendingRun, 500, "no pending run"),
    (NamedFault::BadMessage, 571, "BadMessage"),
    (NamedFault::BadEagerStateKey, 571, "BadEagerStateKeyError"),
    (NamedFault::KnownEntriesIsZero, 571, "KNOWN_ENTRIES_IS_ZERO"),
    (
        NamedFault::UnexpectedEntryMessage,
        571,
        "UNEXPECTED_ENTRY_MESSAGE",
    ),
    (NamedFault::UnexpectedState, 571, "UnexpectedStateError"),
    (
        NamedFault::UnexpectedInputMessage,
        571,
        "UNEXPECTED_INPUT_MESSAGE",
    ),
    (
        NamedFault::InputClosedWhileWaitingEntries,
        571,
        "INPUT_CLOSED_WHILE_WAITING_ENTRIES",
    ),
    (NamedFault::UnavailableEntry, 571, "UnavailableEntryError"),
    (NamedFault::EmptyGetEagerState, 571, "EMPTY_GET_EAGER_STATE"),
    (
        NamedFault::EmptyGetEagerStateKeys,
        571,
        "EMPTY_GET_EAGER_STATE_KEYS",
    ),
    (
        NamedFault::BadProposeRunCompletionAck,
        571,
        "BadProposeRunCompletionAck",
    ),
    (
        NamedFault::InputClosedWhileWaitingEphemeralNotifications,
        571,
        "INPUT_CLOSED_WHILE_WAITING_EPHEMERAL_NOTIFICATIONS",
    ),
    (
        NamedFault::EphemeralCommandDuringReplay,
        571,
        "EPHEMERAL_COMMAND_DURING_REPLAY",
    ),
    (
        NamedFault::EphemeralStateGetWithClosedInput,
        571,
        "EphemeralStateGetWithClosedInput",
    ),
    (
        NamedFault::EmptyGetStateEphemeralNotification,
        571,
        "EMPTY_GET_STATE_EPHEMERAL_NOTIFICATION",
    ),
    (
        NamedFault::UnexpectedInvocationIdResult,
        571,
        "unexpected result for an invocation id",
    ),
    (NamedFault::StateKeyIsNotUtf8, 571, "state key is not UTF-8"),
];

fn is_named(fault: NamedFault, code: u16, text: &str) -> bool {
    fault.code() == code && fault.text() == text
}

#[test]
fn names_its_faults() -> Result<(), Fail> {
    for (fault, code, text) in &FAULTS {
        expect(text, is_named(*fault, *code, text))?;
    }
    Ok(())
}

static TYPES: [(u16, MessageType); 8] = [
    (1, MessageType::Start),
    (7, MessageType::AwaitingOn),
    (10, MessageType::InputCommand),
    (11, MessageType::GetEagerStateCommand),
    (18, MessageType::SleepCommand),
    (22, MessageType::SendSignalCommand),
    (29, MessageType::OutputCommand),
    (30, MessageType::Notification),
];

/// Whether the number is read as the type's, and the type is of the kind that has such numbers.
fn is_number_of(number: u16, ty: MessageType) -> bool {
    MessageType::from_number(number) == Some(ty)
        && ty.number() == number
        && ty.is_command() == (10 <= number && number < 30)
        && ty.is_notification() == (number == 30)
}

#[test]
fn numbers_its_types(rt: HostRuntime) {
    for (number, ty) in &TYPES {
        assert!(rt; is_number_of(*number, *ty), "{number}");
    }
}

/// Whether the error of a fault has this code and this text.
fn is_told(fault: Fault, code: u16, text: &str) -> bool {
    let error = Error::from(fault);
    says(&error, code, text)
}

#[test]
fn tells_a_fault(rt: HostRuntime) {
    assert!(rt; is_told(Fault::Malformed, 571, "BadMessage"));
    assert!(rt; is_told(Fault::Memory, 500, ""));
}

#[test]
fn copies_texts(rt: HostRuntime) -> Result<(), Fail> {
    let alloc = rt.alloc();
    let text = Text::from_string(String::from_str(alloc, "text")?);
    assert!(rt; is_same(&text, &copy_of(&text)?));
    assert_eq!(rt; text.into_string().as_str(), "text");
    let said = Said::own(String::from_str(alloc, "own")?);
    assert_eq!(rt; said.clone()?.as_str(), "own");
    Ok(())
}

#[test]
fn reads_a_list(rt: HostRuntime) -> Result<(), Fail> {
    let numbers = whole::<Items<u32>>(
        rt.alloc(),
        &Bytes::from_static(b"\0\0\0\0\0\0\0\x01\0\0\0\x07"),
    )?;
    assert!(rt; numbers == numbers.clone()?);
    assert!(rt; Items::empty_like(&numbers).is_empty());
    assert_eq!(rt; numbers.get(0), Some(&7));
    assert_eq!(rt; numbers.into_vec().as_slice(), [7].as_slice());
    Ok(())
}
