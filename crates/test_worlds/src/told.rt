//! What rows expect of an attempt: its answers, its errors and what it sends. A row that doesn't hold is a failure. The attempts are made
//! for the version 7, under the options by default.

use bytes::Bytes;
use std::alloc::Global;
use std::test::Fail;
use test_support::headers::Headers;
use vm_attempt::{Attempt, Progress};
use vm_types::{Answer, AwaitingOnPolicy, Handler, VMOptions, VMResult, Value};

/// An answer, as a row has it.
#[derive(Clone, Copy, Debug)]
pub enum Told {
    /// The input is "Till".
    Input,
    Handle(u32),
    /// An awakeable of this id and this handle.
    Awakeable(&'static str, u32),
    Unit,
    Awake,
    Completed(bool),
    /// What was taken.
    Void,
    Success(&'static [u8]),
    Failure(u16, &'static str),
}

fn is_taken(value: &Value, told: Told) -> bool {
    match (value, told) {
        (Value::Void, Told::Void) => true,
        (Value::Success(bytes), Told::Success(wanted)) => bytes.as_slice() == wanted,
        (Value::Failure(failure), Told::Failure(code, text)) => {
            failure.code == code && failure.message.as_str() == text && failure.metadata.is_empty()
        }
        _ => false,
    }
}

fn is_told(answer: &Answer, told: Told) -> bool {
    match (answer, told) {
        (Answer::Input(input), Told::Input) => input.input.as_slice() == b"Till".as_slice(),
        (Answer::Handle(handle), Told::Handle(wanted)) => handle.0 == wanted,
        (Answer::Awakeable(made), Told::Awakeable(id, handle)) => {
            made.id.as_str() == id && made.handle.0 == handle
        }
        (Answer::Unit, Told::Unit) => true,
        (Answer::Awake, Told::Awake) => true,
        (Answer::Completed(is), Told::Completed(wanted)) => *is == wanted,
        (Answer::Taken(Some(value)), _) => is_taken(value, told),
        _ => false,
    }
}

/// Fails unless these are the answers so far.
pub fn expect_answers(answers: &[Answer], wanted: &[Told]) -> Result<(), Fail> {
    if answers.len() != wanted.len() {
        return Err(Fail::new(format_args!("{answers:?} are not {wanted:?}")));
    }
    for (answer, told) in answers.iter().zip(wanted) {
        if !is_told(answer, *told) {
            return Err(Fail::new(format_args!("{answer:?} is not {told:?}")));
        }
    }
    Ok(())
}

/// Fails unless a step is answered with an error of this code and text.
pub fn expect_error<H: Handler>(
    attempt: &mut Attempt<H>,
    code: u16,
    text: &str,
) -> Result<(), Fail> {
    let error = attempt.step().err().ok_or("no error")?;
    if error.code() != code || error.message() != text {
        return Err(Fail::new(format_args!("{error:?} is not {code} {text}")));
    }
    Ok(())
}

/// Fails unless the attempt sends these frames, and nothing more.
pub fn expect_frames<H: Handler>(
    alloc: Global,
    attempt: &mut Attempt<H>,
    frames: &[&[u8]],
) -> Result<(), Fail> {
    let output = attempt.take_output()?;
    let wanted = frames.concat(alloc)?;
    if output.as_slice() != wanted.as_slice() {
        return Err(Fail::new(format_args!("{output:?} are not these frames")));
    }
    if !attempt.take_output()?.is_empty() {
        return Err(Fail::from("more frames"));
    }
    Ok(())
}

const HEADERS: Headers = Headers::ContentType("application/vnd.restate.invocation.v7");

/// A new attempt of this handler.
pub fn attempt_of<H: Handler + Drop>(alloc: Global, handler: H) -> VMResult<Attempt<H>> {
    Attempt::new(alloc, HEADERS, VMOptions::default(), handler)
}

/// A new attempt that doesn't say what it waits for, so that what it writes doesn't depend on how often it is asked.
pub fn quiet_attempt_of<H: Handler + Drop>(alloc: Global, handler: H) -> VMResult<Attempt<H>> {
    let mut options = VMOptions::default();
    options.awaiting_on_policy = AwaitingOnPolicy::DontSend;
    Attempt::new(alloc, HEADERS, options, handler)
}

/// More steps than any of these runs has.
const MOST_STEPS: usize = 20;

/// Makes steps until one gives no answer, and answers what that one did.
pub fn drive<H: Handler>(attempt: &mut Attempt<H>) -> VMResult<Progress> {
    for _ in 0..MOST_STEPS {
        let progress = attempt.step()?;
        if progress != Progress::Stepped {
            return Ok(progress);
        }
    }
    Ok(Progress::Stepped)
}

/// Whether steps are made until one that gives no answer, and that one does this.
pub fn drives_to<H: Handler>(attempt: &mut Attempt<H>, wanted: Progress) -> bool {
    match drive(attempt) {
        Ok(progress) => progress == wanted,
        Err(_) => false,
    }
}

/// Feeds a copy of these bytes.
pub fn feed_copy<H: Handler>(
    alloc: Global,
    attempt: &mut Attempt<H>,
    bytes: &[u8],
) -> Result<(), Fail> {
    let bytes = Bytes::copy_from_slice(alloc, bytes)?;
    attempt.feed(bytes)?;
    Ok(())
}
