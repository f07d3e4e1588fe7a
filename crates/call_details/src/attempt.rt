//! An attempt of a handler, made once more to find what its error is about.
use crate::explain::explained;
use crate::moment::Moment;
use bytes::Bytes;
use invocation_vm::{CoreVM, Stepped, VM, supported};
use journal_protocol::Version;
use lines::line::Line;
use std::alloc::{AllocError, Global};
use vm_types::{Answer, AwaitResponse, Call, Handler, Step, VMOptions};

/// What a call of the handler returned.
#[derive(Drop)]
enum Went {
    Answered(Answer),
    /// No call follows: the handler has ended, or its await waits.
    Stopped,
    Failed,
}

/// Makes the call that a step is.
fn perform(vm: &mut CoreVM, step: Step) -> Went {
    match vm.step(step) {
        Ok(Stepped::Answer(answer)) => Went::Answered(answer),
        Ok(Stepped::Ended) => Went::Stopped,
        Ok(Stepped::Await(future)) => match vm.do_await(future) {
            Ok(AwaitResponse::AnyCompleted) => Went::Answered(Answer::Awake),
            Ok(AwaitResponse::CancelSignalReceived) => Went::Answered(Answer::Cancelled),
            Ok(_) => Went::Stopped,
            Err(_) => Went::Failed,
        },
        Err(_) => Went::Failed,
    }
}

/// Makes the handler's next call, and the first one as its input is read.
fn go_on<H: Handler>(vm: &mut CoreVM, handler: &H, answers: &[Answer]) -> Result<Went, AllocError> {
    if answers.is_empty() {
        return Ok(match vm.sys_input() {
            Ok(input) => Went::Answered(Answer::Input(input)),
            Err(_) => Went::Failed,
        });
    }
    Ok(perform(vm, handler.next(answers)?))
}

/// The call that comes after these answers.
fn call_after<H: Handler>(handler: &H, answers: &[Answer]) -> Result<Call, AllocError> {
    if answers.is_empty() {
        return Ok(Call::SysInput);
    }
    Ok(Call::Step(handler.next(answers)?))
}

/// Makes calls until one fails, and says what its error is about. There is nothing to say if none fails.
fn explain_calls<H: Handler>(
    alloc: Global,
    vm: &mut CoreVM,
    handler: &H,
) -> Result<Option<Line>, AllocError> {
    let mut answers = Vec::new(alloc);
    for _ in 0..u64::MAX {
        let Some(moment) = Moment::of(vm)? else {
            return Ok(None);
        };
        match go_on(vm, handler, answers.as_slice())? {
            Went::Answered(answer) => answers.push(answer)?,
            Went::Stopped => return Ok(None),
            Went::Failed => {
                let call = call_after(handler, answers.as_slice())?;
                return explained(alloc, vm, &moment, call);
            }
        }
    }
    Ok(None)
}

/// What the error is about by which an attempt of this handler over these bytes fails, whose input is closed after them or isn't. There is
/// none if it doesn't fail so, or if the error says all that is known.
pub fn explain_attempt<H: Handler>(
    alloc: Global,
    version: Version,
    options: VMOptions,
    handler: &H,
    input: Bytes,
    closes: bool,
) -> Result<Option<Line>, AllocError> {
    let Ok(version) = supported(version) else {
        return Ok(None);
    };
    let mut vm = CoreVM::for_version(alloc, version, options)?;
    vm.notify_input(input)?;
    if closes {
        vm.notify_input_closed()?;
    }
    match vm.is_ready_to_execute() {
        Ok(true) => explain_calls(alloc, &mut vm, handler),
        _ => Ok(None),
    }
}
