//! Errors that C reports, and the commands that they relate to.
ghost use Rattle.std.specs.Prelude.{◌≡◌, Some, None, IfErr, IfOk, string_bytes};
ghost use Rattle.c_calls.specs.Given.{Misfits, optional_of, lent_texts};
ghost use Rattle.c_calls.specs.Reports.{IsErrorOf, IsRelatedOf, NamesNoCommand, behavior_at, texts_of_error, command_type_at};

use crate::given::{Lent, MayLend, optional_span, optional_text, two_strings};
use c_sessions::{Replied, VmCall, keep};
use c_values::Status;
use invocation_vm::{CoreVM, VM};
use journal_protocol::{Error, ErrorBehavior};
use plain::Text;
use std::alloc::Global;
use vm_calls::replies::fed;
use vm_types::{CommandRelationship, CommandType, Reply};

/// An error. Its texts are UTF-8.
#[repr(C)]
#[derive(Clone, Copy)]
pub struct GivenError<'a> {
    pub code: u16,
    /// 0: it is tried again. 1: the invocation pauses. 2: it fails.
    pub behavior: u32,
    pub message: Lent<'a>,
    pub stacktrace: Lent<'a>,
    /// The delay of the next try, in milliseconds.
    pub has_delay: bool,
    pub delay_millis: u64,
}

/// The command that an error relates to.
#[repr(C)]
#[derive(Clone, Copy)]
pub struct GivenCommand<'a> {
    /// 0: none. 1: the last. 2: the next. 3: the one of this index.
    pub kind: u32,
    pub index: u32,
    /// The type of the next one, or that of the index.
    pub ty: u32,
    pub name: MayLend<'a>,
}

/// What is to be done after an error.
fn behavior_of(code: u32) -> Option<ErrorBehavior>
    ensures { result ≡ behavior_at code }
{
    match code {
        0 => Some(ErrorBehavior::Retry),
        1 => Some(ErrorBehavior::Pause),
        2 => Some(ErrorBehavior::Fail),
        _ => None,
    }
}

/// The error, whose behavior is this.
fn error_with(
    given: &GivenError,
    message: String,
    stacktrace: String,
    behavior: ErrorBehavior,
) -> Error
    requires { (string_bytes message ≡ given.now.message.bytes.now)
        × (string_bytes stacktrace ≡ given.now.stacktrace.bytes.now)
        × (behavior_at given.now.behavior ≡ Some behavior) }
    ensures { IsErrorOf given.now result }
{
    let error = Error::new(given.code, message)
        .with_stacktrace(stacktrace)
        .with_behavior(behavior);
    match optional_span(given.has_delay, given.delay_millis) {
        Some(delay) => error.with_next_retry_delay(delay),
        None => error,
    }
}

/// The error.
#[tactic(auto, using(crate::proofs::Refusing::misfit))]
pub(crate) fn error_of(alloc: Global, given: &GivenError) -> Result<Error, Status>
    ensures ok { IfOk result (IsErrorOf given.now) }
    ensures err { IfErr result
        (Misfits (texts_of_error given.now) (behavior_at given.now.behavior ≡ None)) }
{
    let Some(behavior) = behavior_of(given.behavior) else {
        return Err(Status::BadNumber);
    };
    match two_strings(alloc, given.message.bytes, given.stacktrace.bytes) {
        Ok((message, stacktrace)) => Ok(error_with(given, message, stacktrace, behavior)),
        Err(status) => Err(status),
    }
}

/// The type of this number.
#[tactic(auto, unfolding(crate::specs::Reports::command_type_at))]
fn type_of(code: u32) -> Option<CommandType>
    ensures { result ≡ command_type_at code }
{
    match code {
        0 => Some(CommandType::Input),
        1 => Some(CommandType::Output),
        2 => Some(CommandType::GetState),
        3 => Some(CommandType::GetStateKeys),
        4 => Some(CommandType::SetState),
        5 => Some(CommandType::ClearState),
        6 => Some(CommandType::ClearAllState),
        7 => Some(CommandType::GetPromise),
        8 => Some(CommandType::PeekPromise),
        9 => Some(CommandType::CompletePromise),
        10 => Some(CommandType::Sleep),
        11 => Some(CommandType::Call),
        12 => Some(CommandType::OneWayCall),
        13 => Some(CommandType::SendSignal),
        14 => Some(CommandType::Run),
        15 => Some(CommandType::AttachInvocation),
        16 => Some(CommandType::GetInvocationOutput),
        17 => Some(CommandType::CompleteAwakeable),
        18 => Some(CommandType::CancelInvocation),
        _ => None,
    }
}

/// A command's type, and its name if it is given.
#[tactic(auto, using(crate::proofs::Refusing::misfit))]
fn type_and_name(alloc: Global, given: &GivenCommand) -> Result<(CommandType, Option<Text>), Status>
    ensures ty { IfOk result (λ it. command_type_at given.now.ty ≡ Some it.0) }
    ensures name { IfOk result (λ it. it.1 ≡ optional_of given.now.name) }
    ensures err { IfErr result
        (Misfits (lent_texts given.now.name) (command_type_at given.now.ty ≡ None)) }
{
    let Some(ty) = type_of(given.ty) else {
        return Err(Status::BadNumber);
    };
    match optional_text(alloc, &given.name) {
        Ok(name) => Ok((ty, name)),
        Err(status) => Err(status),
    }
}

/// The command that an error relates to, if it relates to one.
#[tactic(auto, using(crate::proofs::Refusing::misfit_type))]
fn related_of(alloc: Global, given: &GivenCommand) -> Result<Option<CommandRelationship>, Status>
    ensures ok { IfOk result (IsRelatedOf given.now) }
    ensures err { IfErr result (Misfits (lent_texts given.now.name) (NamesNoCommand given.now)) }
{
    match given.kind {
        0 => Ok(None),
        1 => Ok(Some(CommandRelationship::Last)),
        2 => match type_and_name(alloc, given) {
            Ok((ty, name)) => Ok(Some(CommandRelationship::Next { ty, name })),
            Err(status) => Err(status),
        },
        3 => match type_and_name(alloc, given) {
            Ok((ty, name)) => Ok(Some(CommandRelationship::Specific {
                command_index: given.index,
                ty,
                name,
            })),
            Err(status) => Err(status),
        },
        _ => Err(Status::BadNumber),
    }
}

/// The handler failed by an error of its own.
#[derive(Clone, Copy)]
pub struct ReportCall<'a> {
    pub error: GivenError<'a>,
    pub related: GivenCommand<'a>,
}

#[tactic(auto, using(crate::proofs::Refusing::misfit_first, crate::proofs::Refusing::misfit_last))]
impl<'a> VmCall for ReportCall<'a> {
    ghost use Rattle.c_calls.specs.Calls.{ReportsError};

    ghost does = { λ it. ReportsError it.error it.related };

    fn make(self, alloc: Global, vm: &mut CoreVM, kept: &mut Reply) -> Result<Replied, Status> {
        let error = error_of(alloc, &self.error)?;
        match related_of(alloc, &self.related) {
            Ok(related) => Ok(keep(kept, fed(vm.notify_error(error, related)))),
            Err(status) => {
                drop(error);
                Err(status)
            }
        }
    }
}
