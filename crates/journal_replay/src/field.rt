//! The fields that replay looks at, by the names that they have on the lines of frames.
ghost use Rattle.std.specs.Prelude.{◌≡◌};
ghost use Rattle.journal_replay.specs.Fields.{field_text, unless};

/// A field of a command.
#[derive(Clone, Copy, Debug, PartialEq, Eq)]
pub enum Field {
    /// The two are of different types.
    Type,
    ServiceName,
    HandlerName,
    Key,
    IdempotencyKey,
    Scope,
    LimitKey,
    Headers,
    Parameter,
    Name,
    Value,
    Result,
    Completion,
    AwakeableId,
    TargetInvocationId,
    Signal,
    Target,
    InvocationIdNotificationIdx,
    ResultCompletionId,
    /// The two are no commands, and aren't compared field by field.
    Body,
}

impl Field {
    /// The name that it has on the line of a frame.
    #[tactic(auto, unfolding(crate::specs::Fields::field_text))]
    pub fn name(&self) -> &'static str
        ensures { result.now ≡ field_text self.now }
    {
        match self {
            Field::Type => "type",
            Field::ServiceName => "service_name",
            Field::HandlerName => "handler_name",
            Field::Key => "key",
            Field::IdempotencyKey => "idempotency_key",
            Field::Scope => "scope",
            Field::LimitKey => "limit_key",
            Field::Headers => "headers",
            Field::Parameter => "parameter",
            Field::Name => "name",
            Field::Value => "value",
            Field::Result => "result",
            Field::Completion => "completion",
            Field::AwakeableId => "awakeable_id",
            Field::TargetInvocationId => "target_invocation_id",
            Field::Signal => "signal",
            Field::Target => "target",
            Field::InvocationIdNotificationIdx => "invocation_id_notification_idx",
            Field::ResultCompletionId => "result_completion_id",
            Field::Body => "body",
        }
    }
}

/// This field, if the two aren't the same in it; else what is found after it.
#[tactic(auto, unfolding(crate::specs::Fields::unless))]
pub fn unless(same: bool, field: Field, others: Option<Field>) -> Option<Field>
    ensures { result ≡ unless same field others }
{
    if same { others } else { Some(field) }
}
