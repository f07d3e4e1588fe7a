//! The faults that have a name: the code and the text of each.
ghost use Rattle.std.specs.Prelude.{◌≡◌};
ghost use Rattle.journal_errors.specs.Faults.{code_of, text_of};

/// A fault that has a name, which is the text of its error.
#[derive(Clone, Copy, Debug)]
pub enum NamedFault {
    BadRequest,
    MissingContentType,
    BadContentType,
    UnsupportedMediaType,
    CommandTypeMismatch,
    CommandMismatch,
    UncompletedDoProgressDuringReplay,
    UnsupportedFeature,
    UnsupportedFeatureForNegotiatedVersion,
    Closed,
    Suspended,
    Memory,
    EmptyIdempotencyKey,
    EmptyScope,
    EmptyLimitKey,
    OutOfBoundsDuration,
    ExhaustedCompletionIds,
    ExhaustedSignalIds,
    ExhaustedHandles,
    ExhaustedCommandIndexes,
    ExhaustedEphemeralIds,
    NoPendingRun,
    BadMessage,
    BadEagerStateKey,
    KnownEntriesIsZero,
    UnexpectedEntryMessage,
    UnexpectedState,
    UnexpectedInputMessage,
    InputClosedWhileWaitingEntries,
    UnavailableEntry,
    EmptyGetEagerState,
    EmptyGetEagerStateKeys,
    BadProposeRunCompletionAck,
    InputClosedWhileWaitingEphemeralNotifications,
    EphemeralCommandDuringReplay,
    EphemeralStateGetWithClosedInput,
    EmptyGetStateEphemeralNotification,
    UnexpectedInvocationIdResult,
    StateKeyIsNotUtf8,
}

impl NamedFault {
    pub fn code(&self) -> u16
        ensures { result ≡ code_of self.now }
    {
        match self {
            NamedFault::BadRequest => 400,
            NamedFault::MissingContentType
            | NamedFault::BadContentType
            | NamedFault::UnsupportedMediaType => 415,
            NamedFault::CommandTypeMismatch
            | NamedFault::CommandMismatch
            | NamedFault::UncompletedDoProgressDuringReplay => 570,
            NamedFault::UnsupportedFeature | NamedFault::UnsupportedFeatureForNegotiatedVersion =>
                573,
            NamedFault::Closed => 598,
            NamedFault::Suspended => 599,
            NamedFault::Memory
            | NamedFault::EmptyIdempotencyKey
            | NamedFault::EmptyScope
            | NamedFault::EmptyLimitKey
            | NamedFault::OutOfBoundsDuration
            | NamedFault::ExhaustedCompletionIds
            | NamedFault::ExhaustedSignalIds
            | NamedFault::ExhaustedHandles
            | NamedFault::ExhaustedCommandIndexes
            | NamedFault::ExhaustedEphemeralIds
            | NamedFault::NoPendingRun => 500,
            _ => 571,
        }
    }

    #[tactic(auto, unfolding(crate::specs::Faults::text_of))]
    pub fn text(&self) -> &'static str
        ensures { result.now ≡ text_of self.now }
    {
        match self {
            NamedFault::BadRequest => "BAD_REQUEST",
            NamedFault::MissingContentType => "MISSING_CONTENT_TYPE",
            NamedFault::BadContentType => "BadContentType",
            NamedFault::UnsupportedMediaType => "UNSUPPORTED_MEDIA_TYPE",
            NamedFault::CommandTypeMismatch => "CommandTypeMismatchError",
            NamedFault::CommandMismatch => "CommandMismatchError",
            NamedFault::UncompletedDoProgressDuringReplay => "UncompletedDoProgressDuringReplay",
            NamedFault::UnsupportedFeature => "UNSUPPORTED_FEATURE",
            NamedFault::UnsupportedFeatureForNegotiatedVersion =>
                "UnsupportedFeatureForNegotiatedVersion",
            NamedFault::Closed => "ClosedError",
            NamedFault::Suspended => "SUSPENDED",
            NamedFault::Memory => "",
            NamedFault::EmptyIdempotencyKey => "EMPTY_IDEMPOTENCY_KEY",
            NamedFault::EmptyScope => "EMPTY_SCOPE",
            NamedFault::EmptyLimitKey => "EMPTY_LIMIT_KEY",
            NamedFault::OutOfBoundsDuration => "OutOfBoundsDuration",
            NamedFault::ExhaustedCompletionIds => "exhausted: completion ids",
            NamedFault::ExhaustedSignalIds => "exhausted: signal ids",
            NamedFault::ExhaustedHandles => "exhausted: handles",
            NamedFault::ExhaustedCommandIndexes => "exhausted: command indexes",
            NamedFault::ExhaustedEphemeralIds => "exhausted: ephemeral ids",
            NamedFault::NoPendingRun => "no pending run",
            NamedFault::BadMessage => "BadMessage",
            NamedFault::BadEagerStateKey => "BadEagerStateKeyError",
            NamedFault::KnownEntriesIsZero => "KNOWN_ENTRIES_IS_ZERO",
            NamedFault::UnexpectedEntryMessage => "UNEXPECTED_ENTRY_MESSAGE",
            NamedFault::UnexpectedState => "UnexpectedStateError",
            NamedFault::UnexpectedInputMessage => "UNEXPECTED_INPUT_MESSAGE",
            NamedFault::InputClosedWhileWaitingEntries => "INPUT_CLOSED_WHILE_WAITING_ENTRIES",
            NamedFault::UnavailableEntry => "UnavailableEntryError",
            NamedFault::EmptyGetEagerState => "EMPTY_GET_EAGER_STATE",
            NamedFault::EmptyGetEagerStateKeys => "EMPTY_GET_EAGER_STATE_KEYS",
            NamedFault::BadProposeRunCompletionAck => "BadProposeRunCompletionAck",
            NamedFault::InputClosedWhileWaitingEphemeralNotifications =>
                "INPUT_CLOSED_WHILE_WAITING_EPHEMERAL_NOTIFICATIONS",
            NamedFault::EphemeralCommandDuringReplay => "EPHEMERAL_COMMAND_DURING_REPLAY",
            NamedFault::EphemeralStateGetWithClosedInput => "EphemeralStateGetWithClosedInput",
            NamedFault::EmptyGetStateEphemeralNotification =>
                "EMPTY_GET_STATE_EPHEMERAL_NOTIFICATION",
            NamedFault::UnexpectedInvocationIdResult => "unexpected result for an invocation id",
            NamedFault::StateKeyIsNotUtf8 => "state key is not UTF-8",
        }
    }
}
