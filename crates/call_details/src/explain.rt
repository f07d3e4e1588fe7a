//! What the error is about by which a call has failed a VM.
use crate::awaits::explain_await;
use crate::codes::name_of;
use crate::commands::{explain_command, explain_input, explain_read, explain_second};
use crate::features::{Feature, explain_feature, explain_proposal, explain_refused};
use crate::moment::Moment;
use invocation_vm::CoreVM;
use journal_protocol::{Error, ErrorBehavior};
use lines::line::Line;
use std::alloc::{AllocError, Global};
use vm_asks::{Ask, Command, asks};
use vm_types::{Call, NonDeterministicChecksOption, Step};

/// Whether by its options the VM compares no payloads in replay.
fn checks_are_off(vm: &CoreVM) -> bool {
    matches!(
        vm.machine.options.non_determinism_checks,
        NonDeterministicChecksOption::PayloadChecksDisabled
    )
}

/// Whether a call isn't as it is recorded.
fn is_mismatch(error: &Error) -> bool {
    error.code() == 570 || error.message() == "UnavailableEntryError"
}

/// Writes what the error is about of a call that has one command.
fn explain_one(
    vm: &CoreVM,
    moment: &Moment,
    command: &mut Command,
    error: &Error,
    line: &mut Line,
) -> Result<bool, AllocError> {
    if command.refusal.is_some() {
        if error.code() == 573 {
            return explain_refused(&command.message, vm.machine.version, line);
        }
        return Ok(false);
    }
    if !moment.is_replaying || !is_mismatch(error) {
        return Ok(false);
    }
    explain_command(vm.machine.alloc, moment, command, checks_are_off(vm), line)
}

/// Writes the same of a call that has two.
fn explain_both(
    vm: &CoreVM,
    moment: &Moment,
    first: &mut Command,
    second: &mut Command,
    error: &Error,
    line: &mut Line,
) -> Result<bool, AllocError> {
    if explain_one(vm, moment, first, error, line)? {
        return Ok(true);
    }
    if moment.after.is_none() || second.refusal.is_some() || !is_mismatch(error) {
        return Ok(false);
    }
    let (alloc, off) = (vm.machine.alloc, checks_are_off(vm));
    explain_second(alloc, moment, &first.message, second, off, line)
}

/// Writes what the error is about of a call that asks for this.
fn explain_ask(
    vm: &CoreVM,
    moment: &Moment,
    ask: &mut Ask,
    error: &Error,
    line: &mut Line,
) -> Result<bool, AllocError> {
    match ask {
        Ask::Command(command) => explain_one(vm, moment, command, error, line),
        Ask::Commands(_, first, second) => explain_both(vm, moment, first, second, error, line),
        Ask::Read(read) if moment.is_replaying && is_mismatch(error) => {
            explain_read(vm.machine.alloc, moment, read, line)
        }
        Ask::Await(future) if moment.is_replaying => {
            explain_await(vm, moment, future, error, line)
        }
        Ask::Awakeable if error.code() == 573 => {
            line.word("an awakeable needs replay, which is off")?;
            Ok(true)
        }
        _ => Ok(false),
    }
}

/// Writes what the error is about of a handler's call.
fn explain_step(
    vm: &CoreVM,
    moment: &Moment,
    step: Step,
    error: &Error,
    line: &mut Line,
) -> Result<bool, AllocError> {
    let mut ask = vm.ask_of(step);
    let told = explain_ask(vm, moment, &mut ask, error, line);
    drop(ask);
    told
}

/// Writes what the error is about of a run.
fn explain_run(
    vm: &CoreVM,
    moment: &Moment,
    mut command: Command,
    error: &Error,
    line: &mut Line,
) -> Result<bool, AllocError> {
    explain_one(vm, moment, &mut command, error, line)
}

/// Writes what the error is about that a runner reports, where the version has no such error.
fn explain_reported(vm: &CoreVM, reported: &Error, line: &mut Line) -> Result<bool, AllocError> {
    if matches!(reported.behavior, ErrorBehavior::Retry) {
        return Ok(false);
    }
    explain_feature(Feature::Behaviour, vm.machine.version, line)
}

/// Writes what the error is about by which this call has failed the VM.
fn explain_call(
    vm: &CoreVM,
    moment: &Moment,
    call: Call,
    error: &Error,
    line: &mut Line,
) -> Result<bool, AllocError> {
    let version = vm.machine.version;
    match call {
        Call::Step(step) => explain_step(vm, moment, step, error, line),
        Call::Run(name) => explain_run(vm, moment, asks::run(name), error, line),
        Call::SysInput if is_mismatch(error) => explain_input(moment, line),
        Call::Propose {
            handle: _,
            result,
            policy,
        } => explain_proposal(result.as_ref(), &policy, version, line),
        Call::EphemeralGet(_) => explain_feature(Feature::EphemeralRead, version, line),
        Call::Error(reported, _) => explain_reported(vm, reported.as_ref(), line),
        _ => Ok(false),
    }
}

/// An error of the VM's own: its code with its name, its text if that is another, and a colon.
pub fn shown_error(alloc: Global, error: &Error) -> Result<Line, AllocError> {
    let mut line = Line::new(alloc);
    line.number(u64::from(error.code()))?;
    line.word(" ")?;
    if let Some(name) = name_of(error.code())
        && name != error.message()
    {
        line.word(name)?;
        line.word(": ")?;
    }
    line.word(error.message())?;
    line.word(": ")?;
    Ok(line)
}

/// The error by which this call has failed the VM, and what it is about. The call is given on before anything can fail, since an exit on
/// which it is dropped is dear to prove.
fn explain_failure(
    alloc: Global,
    vm: &CoreVM,
    moment: &Moment,
    call: Call,
    error: &Error,
) -> Result<Option<Line>, AllocError> {
    let mut about = Line::new(alloc);
    if !explain_call(vm, moment, call, error, &mut about)? {
        return Ok(None);
    }
    let mut line = shown_error(alloc, error)?;
    line.word(about.as_str())?;
    Ok(Some(line))
}

/// The code and the text of the error by which this call has failed the VM, and what it is about. There is none if the VM hasn't failed, or
/// if the error says all that is known.
pub fn explained(
    alloc: Global,
    vm: &CoreVM,
    moment: &Moment,
    call: Call,
) -> Result<Option<Line>, AllocError> {
    match &vm.machine.failure {
        Some(error) => explain_failure(alloc, vm, moment, call, error),
        None => {
            drop(call);
            Ok(None)
        }
    }
}
