//! The words after `error`: what the handler's runner reports.
ghost use Rattle.std.specs.Prelude.{◌≡◌, [], IfErr, IfOk, codes, string_bytes};
ghost use Rattle.journal_protocol.specs.ErrorBehavior.TheVariants as behavior;
ghost use Rattle.lines.specs.Atoms.{IsText};
ghost use Rattle.lines.specs.Readings.{Blames};
ghost use Rattle.lines.specs.Fields.{IsOptional, IsSet, are_named, texts_named};
ghost use Rattle.line_parts.specs.Reports.{AreDetails, AreTypeAndName, IsBehavior, IsCommandText, IsCommandAt, IsCommandName, IsError, IsRelated, IsRelatedAlone, IsReport, IsType, delay_or, error_names, reported, stack_or, command_type_name};
ghost use Rattle.lines.specs.Durations.{IsTime};

use crate::arguments::optional_duration;
use journal_protocol::{Error, ErrorBehavior};
use lines::atoms::{string_of, text_of};
use lines::fields::{are_named, field_of, text_behind};
use lines::pieces::words_within;
use lines::words::{behind, string_in, u16_in, u32_in};
use plain::{Fault, Text};
use std::alloc::Global;
use std::time::Duration;
use vm_types::{CommandRelationship, CommandType};

/// The options of an error but the command that it relates to.
#[derive(Drop)]
pub struct Details {
    pub stack: Option<String>,
    pub behavior: ErrorBehavior,
    pub delay: Option<Duration>,
}

/// What is to be done after the error.
#[tactic(auto, using(crate::proofs::Reporting::no_behavior))]
fn behavior_of(text: &[u8]) -> Result<ErrorBehavior, Fault>
    ensures value { IfOk result (IsBehavior text.now) }
    ensures none { IfErr result (Blames (IsBehavior text.now)) }
{
    if text == b"retry".as_slice() {
        return Ok(ErrorBehavior::Retry);
    }
    if text == b"pause".as_slice() {
        return Ok(ErrorBehavior::Pause);
    }
    if text == b"fail".as_slice() {
        return Ok(ErrorBehavior::Fail);
    }
    Err(Fault::Malformed)
}

/// Each type of command.
static TYPES: [CommandType; 19] = [
    CommandType::Input,
    CommandType::Output,
    CommandType::GetState,
    CommandType::GetStateKeys,
    CommandType::SetState,
    CommandType::ClearState,
    CommandType::ClearAllState,
    CommandType::GetPromise,
    CommandType::PeekPromise,
    CommandType::CompletePromise,
    CommandType::Sleep,
    CommandType::Call,
    CommandType::OneWayCall,
    CommandType::SendSignal,
    CommandType::Run,
    CommandType::AttachInvocation,
    CommandType::GetInvocationOutput,
    CommandType::CompleteAwakeable,
    CommandType::CancelInvocation,
];

/// The name of a type of command.
#[tactic(auto, unfolding(crate::specs::Reports::command_type_name))]
fn name_of_type(ty: CommandType) -> &'static str
    ensures { result.now ≡ command_type_name ty }
{
    match ty {
        CommandType::Input => "Input",
        CommandType::Output => "Output",
        CommandType::GetState => "GetState",
        CommandType::GetStateKeys => "GetStateKeys",
        CommandType::SetState => "SetState",
        CommandType::ClearState => "ClearState",
        CommandType::ClearAllState => "ClearAllState",
        CommandType::GetPromise => "GetPromise",
        CommandType::PeekPromise => "PeekPromise",
        CommandType::CompletePromise => "CompletePromise",
        CommandType::Sleep => "Sleep",
        CommandType::Call => "Call",
        CommandType::OneWayCall => "OneWayCall",
        CommandType::SendSignal => "SendSignal",
        CommandType::Run => "Run",
        CommandType::AttachInvocation => "AttachInvocation",
        CommandType::GetInvocationOutput => "GetInvocationOutput",
        CommandType::CompleteAwakeable => "CompleteAwakeable",
        CommandType::CancelInvocation => "CancelInvocation",
    }
}

/// The type of command of this name.
fn command_type_of(text: &[u8]) -> Result<CommandType, Fault>
    ensures value { IfOk result (IsType text.now) }
    ensures none { IfErr result (Blames (IsType text.now)) }
{
    for ty in &TYPES {
        if text == name_of_type(*ty).as_bytes() {
            return Ok(*ty);
        }
    }
    Err(Fault::Malformed)
}

/// A text, or `-` for none.
#[tactic(auto, using(crate::proofs::Reporting::name_blamed), unfolding(crate::specs::Reports::IsCommandName))]
fn optional_of(alloc: Global, text: &[u8]) -> Result<Option<Text>, Fault>
    ensures value { IfOk result (IsCommandName text.now) }
    ensures none { IfErr result (Blames (IsCommandName text.now)) }
{
    if text == b"-".as_slice() {
        return Ok(None);
    }
    Ok(Some(text_of(alloc, text)?))
}

/// `TYPE NAME` alone.
#[tactic(auto, using(crate::proofs::Commands::count_blamed, crate::proofs::Commands::type_blamed, crate::proofs::Commands::name_blamed))]
fn type_and_name(alloc: Global, words: &[&[u8]]) -> Result<(CommandType, Option<Text>), Fault>
    ensures value { IfOk result (AreTypeAndName words.now) }
    ensures none { IfErr result (Blames (AreTypeAndName words.now)) }
{
    let [ty, name] = words else {
        return Err(Fault::Malformed);
    };
    let ty = command_type_of(*ty)?;
    let name = optional_of(alloc, *name)?;
    Ok((ty, name))
}

/// `(TYPE NAME)`.
#[tactic(auto, using(crate::proofs::Commands::unbracketed_blamed, crate::proofs::Commands::words_blamed))]
fn next_of(alloc: Global, text: &[u8]) -> Result<(CommandType, Option<Text>), Fault>
    ensures value { IfOk result (IsCommandText text.now) }
    ensures none { IfErr result (Blames (IsCommandText text.now)) }
{
    let words = words_within(alloc, text, b'(', b')')?;
    let (ty, name) = type_and_name(alloc, words.as_slice())?;
    Ok((ty, name))
}

/// `(N TYPE NAME)`.
#[tactic(auto, using(crate::proofs::Commands::at_unbracketed_blamed, crate::proofs::Commands::at_index_blamed, crate::proofs::Commands::command_at))]
fn specific_of(alloc: Global, text: &[u8]) -> Result<(u32, CommandType, Option<Text>), Fault>
    ensures value { IfOk result (IsCommandAt text.now) }
    ensures none { IfErr result (Blames (IsCommandAt text.now)) }
{
    let found = words_within(alloc, text, b'(', b')')?;
    let words = found.as_slice();
    let index = u32_in(words, 0)?;
    let (ty, name) = type_and_name(alloc, behind(words, 1))?;
    Ok((index, ty, name))
}

/// The command that an error relates to.
#[tactic(auto, using(crate::proofs::Reporting::next_blamed, crate::proofs::Reporting::at_blamed, crate::proofs::Reporting::unrelated_blamed))]
fn relationship_of(alloc: Global, text: &[u8]) -> Result<CommandRelationship, Fault>
    ensures value { IfOk result (IsRelated text.now) }
    ensures none { IfErr result (Blames (IsRelated text.now)) }
{
    if text == b"last".as_slice() {
        return Ok(CommandRelationship::Last);
    }
    if let Some(command) = text_behind(text, "next") {
        return match next_of(alloc, command) {
            Ok((ty, name)) => Ok(CommandRelationship::Next { ty, name }),
            Err(fault) => Err(fault),
        };
    }
    if let Some(command) = text_behind(text, "at") {
        return match specific_of(alloc, command) {
            Ok((command_index, ty, name)) => Ok(CommandRelationship::Specific {
                command_index,
                ty,
                name,
            }),
            Err(fault) => Err(fault),
        };
    }
    Err(Fault::Malformed)
}

/// `[rel=R]`, among other words.
#[tactic(auto, using(lines::proofs::Missing::optional_blamed))]
fn related_in(alloc: Global, words: &[&[u8]]) -> Result<Option<CommandRelationship>, Fault>
    ensures value { IfOk result (IsOptional IsRelated (texts_named (codes "rel=") words.now)) }
    ensures none { IfErr result
        (Blames (IsOptional IsRelated (texts_named (codes "rel=") words.now))) }
{
    match field_of(words, "rel=") {
        Ok(Some(text)) => match relationship_of(alloc, text) {
            Ok(relationship) => Ok(Some(relationship)),
            Err(fault) => Err(fault),
        },
        Ok(None) => Ok(None),
        Err(fault) => Err(fault),
    }
}

/// `[stack=T]`, among other words.
#[tactic(auto, using(lines::proofs::Missing::set_blamed, lines::proofs::Missing::twice_set))]
fn stack_in(alloc: Global, words: &[&[u8]]) -> Result<Option<String>, Fault>
    ensures value { IfOk result
        (λ stack. IsSet IsText [] (texts_named (codes "stack=") words.now) (stack_or stack [])) }
    ensures none { IfErr result
        (Blames (IsSet IsText [] (texts_named (codes "stack=") words.now))) }
{
    match field_of(words, "stack=") {
        Ok(Some(text)) => match string_of(alloc, text) {
            Ok(stack) => Ok(Some(stack)),
            Err(fault) => Err(fault),
        },
        Ok(None) => Ok(None),
        Err(fault) => Err(fault),
    }
}

/// `[behaviour=..]`, among other words.
#[tactic(auto, using(lines::proofs::Missing::set_blamed, lines::proofs::Missing::twice_set))]
fn behavior_in(words: &[&[u8]]) -> Result<ErrorBehavior, Fault>
    ensures value { IfOk result
        (IsSet IsBehavior behavior.Retry (texts_named (codes "behaviour=") words.now)) }
    ensures none { IfErr result
        (Blames (IsSet IsBehavior behavior.Retry (texts_named (codes "behaviour=") words.now))) }
{
    match field_of(words, "behaviour=") {
        Ok(Some(text)) => behavior_of(text),
        Ok(None) => Ok(ErrorBehavior::Retry),
        Err(fault) => Err(fault),
    }
}

/// `[stack=T] [behaviour=..] [delay=D]`, among other words.
fn details_in(alloc: Global, words: &[&[u8]]) -> Result<Details, Fault>
    ensures stack { IfOk result
        (λ details. IsSet IsText [] (texts_named (codes "stack=") words.now)
        (stack_or details.stack [])) }
    ensures behavior { IfOk result
        (λ details. IsSet IsBehavior behavior.Retry (texts_named (codes "behaviour=") words.now)
        details.behavior) }
    ensures delay { IfOk result
        (λ details. IsOptional IsTime (texts_named (codes "delay=") words.now) details.delay) }
    ensures none { IfErr result (Blames (AreDetails words.now)) }
{
    let stack = stack_in(alloc, words)?;
    let behavior = behavior_in(words)?;
    let delay = optional_duration(words, "delay=")?;
    Ok(Details {
        stack,
        behavior,
        delay,
    })
}

/// The error with a stack trace, if there is one.
fn stacked(error: Error, stack: Option<String>) -> Error
    ensures { result ≡ record error { stacktrace = stack_or stack error.stacktrace } }
{
    match stack {
        Some(stack) => error.with_stacktrace(stack),
        None => error,
    }
}

/// The error with a delay, if there is one.
fn delayed(error: Error, delay: Option<Duration>) -> Error
    ensures { result ≡ record error { next_retry_delay = delay_or delay error.next_retry_delay } }
{
    match delay {
        Some(delay) => error.with_next_retry_delay(delay),
        None => error,
    }
}

/// The error of these parts.
fn error_with(code: u16, message: String, details: Details) -> Error
    ensures { result ≡ reported code (string_bytes message) details }
{
    let Details {
        stack,
        behavior,
        delay,
    } = details;
    let error = Error::new(code, message).with_behavior(behavior);
    delayed(stacked(error, stack), delay)
}

/// `N T`, and among the words after them `[stack=T] [behaviour=..] [delay=D]`.
#[tactic(auto, using(crate::proofs::Reporting::code_blamed, crate::proofs::Reporting::message_blamed, crate::proofs::Reporting::details_blamed))]
pub fn error_of(alloc: Global, words: &[&[u8]]) -> Result<Error, Fault>
    ensures value { IfOk result (IsError words.now) }
    ensures none { IfErr result (Blames (IsError words.now)) }
{
    let code = u16_in(words, 0)?;
    let message = string_in(alloc, words, 1)?;
    let details = details_in(alloc, behind(words, 2))?;
    Ok(error_with(code, message, details))
}

/// Whether the words name options of an `error` line alone.
fn are_options(words: &[&[u8]]) -> bool
    ensures { result ≡ are_named error_names words.now }
{
    are_named(words, &["stack=", "behaviour=", "delay=", "rel="])
}

/// The command that an error relates to. `Malformed` if the error has other options than it may have.
#[tactic(auto, using(crate::proofs::Reporting::options_blamed, crate::proofs::Reporting::related_blamed))]
fn relationship_alone(
    alloc: Global,
    options: &[&[u8]],
) -> Result<Option<CommandRelationship>, Fault>
    ensures value { IfOk result (IsRelatedAlone options.now) }
    ensures none { IfErr result (Blames (IsRelatedAlone options.now)) }
{
    if !are_options(options) {
        return Err(Fault::Malformed);
    }
    let relationship = related_in(alloc, options)?;
    Ok(relationship)
}

/// The error that is reported, and the command that it relates to.
#[tactic(auto, using(crate::proofs::Reporting::error_blamed, crate::proofs::Reporting::alone_blamed))]
pub fn report_of(
    alloc: Global,
    words: &[&[u8]],
) -> Result<(Error, Option<CommandRelationship>), Fault>
    ensures value { IfOk result (IsReport words.now) }
    ensures none { IfErr result (Blames (IsReport words.now)) }
{
    let error = error_of(alloc, words)?;
    match relationship_alone(alloc, behind(words, 2)) {
        Ok(relationship) => Ok((error, relationship)),
        Err(fault) => {
            drop(error);
            Err(fault)
        }
    }
}
