//! What a version of the VM doesn't have.
use journal_protocol::{CallRequest, Message, Version};
use lines::line::Line;
use std::alloc::AllocError;
use vm_retries::RetryPolicy;
use vm_types::RunExitResult;

/// What some versions don't have.
#[derive(Clone, Copy)]
pub enum Feature {
    Metadata,
    Scope,
    LimitKey,
    PausingPolicy,
    Behaviour,
    EphemeralRead,
}

impl Feature {
    fn name(self) -> &'static str {
        match self {
            Feature::Metadata => "metadata of a failure",
            Feature::Scope => "a scope",
            Feature::LimitKey => "a limit key",
            Feature::PausingPolicy => "a policy that pauses",
            Feature::Behaviour => "another behaviour than retry",
            Feature::EphemeralRead => "an ephemeral read",
        }
    }

    /// The first version that has it.
    fn since(self) -> Version {
        match self {
            Feature::Metadata => Version::V6,
            Feature::Scope | Feature::LimitKey | Feature::PausingPolicy | Feature::Behaviour => {
                Version::V7
            }
            Feature::EphemeralRead => Version::V8,
        }
    }
}

/// Writes the number of a version, with which its content type ends.
fn show_number(version: Version, line: &mut Line) -> Result<(), AllocError> {
    let content_type = version.content_type();
    line.word(
        content_type
            .strip_prefix("application/vnd.restate.invocation.v")
            .unwrap_or(content_type),
    )
}

/// Writes since which version there is a feature, if this version doesn't have it.
pub fn explain_feature(
    feature: Feature,
    version: Version,
    line: &mut Line,
) -> Result<bool, AllocError> {
    if version >= feature.since() {
        return Ok(false);
    }
    line.word(feature.name())?;
    line.word(" needs version ")?;
    show_number(feature.since(), line)?;
    line.word(", and the VM has version ")?;
    show_number(version, line)?;
    Ok(true)
}

/// What a call of a handler may need.
fn feature_of_request(request: &CallRequest) -> Feature {
    if request.scope.is_some() {
        Feature::Scope
    } else {
        Feature::LimitKey
    }
}

/// What a command needs whose arguments are refused by a version.
fn feature_of(message: &Message) -> Feature {
    match message {
        Message::Call(command) => feature_of_request(&command.request),
        Message::OneWayCall(command) => feature_of_request(&command.request),
        Message::AttachInvocation(_) | Message::GetInvocationOutput(_) => Feature::Scope,
        _ => Feature::Metadata,
    }
}

/// Writes what a command needs that this version doesn't have.
pub fn explain_refused(
    message: &Message,
    version: Version,
    line: &mut Line,
) -> Result<bool, AllocError> {
    explain_feature(feature_of(message), version, line)
}

/// Writes what a proposal needs that this version doesn't have.
pub fn explain_proposal(
    exit: &RunExitResult,
    policy: &RetryPolicy,
    version: Version,
    line: &mut Line,
) -> Result<bool, AllocError> {
    if exit.has_metadata() && version < Version::V6 {
        return explain_feature(Feature::Metadata, version, line);
    }
    if policy.should_pause_on_max_attempts() {
        return explain_feature(Feature::PausingPolicy, version, line);
    }
    Ok(false)
}
