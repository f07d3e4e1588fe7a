//! What C is given at once of a reply: numbers.
ghost use Rattle.std.specs.Prelude.{◌≡◌, ◌==◌, is_some};
ghost use Rattle.c_sessions.specs.Replies.{with_rows, error_told, error_numbers, flag_code, handles_told, kept_told, memory_told, mimics_by, number_told, reads_as_memory, response_told, state_code, taken_told, tells_memory, numbered_reply, numbers_by, told_of, unfailed_kind, value_told, version_code};

use crate::kind::Kind;
use c_values::Status;
use journal_protocol::{Error, Version};
use vm_types::{Answer, AwaitResponse, Reply, State, Value};

/// What C is given at once of a reply: how the call ended, what the reply is, the numbers in it, how many keys or pairs it has, and the
/// length of its first part.
#[repr(C)]
#[derive(Clone, Copy, Debug)]
pub struct Replied {
    pub status: u32,
    pub kind: u32,
    pub first: u32,
    pub second: u32,
    pub third: u32,
    pub number: u64,
    pub rows: usize,
    pub len: usize,
}

/// Of a reply with these three numbers.
pub(crate) fn numbered(kind: Kind, first: u32, second: u32, third: u32) -> Replied
    ensures { result ≡ numbered_reply kind first second third }
{
    Replied {
        status: 0,
        kind: kind.code(),
        first,
        second,
        third,
        number: 0,
        rows: 0,
        len: 0,
    }
}

/// Of a reply with a large number, and a count of keys or pairs.
fn with_rows(kind: Kind, number: u64, rows: usize) -> Replied
    ensures { result ≡ with_rows kind number rows }
{
    Replied {
        status: 0,
        kind: kind.code(),
        first: 0,
        second: 0,
        third: 0,
        number,
        rows,
        len: 0,
    }
}

fn flag(holds: bool) -> u32
    ensures { result ≡ flag_code holds }
{
    if holds { 1 } else { 0 }
}

fn state_code(state: State) -> u32
    ensures { result ≡ state_code state }
{
    match state {
        State::WaitingPreFlight => 0,
        State::Replaying => 1,
        State::Processing => 2,
        State::Closed => 3,
    }
}

fn version_code(version: Version) -> u32
    ensures { result ≡ version_code version }
{
    match version {
        Version::V1 => 1,
        Version::V2 => 2,
        Version::V3 => 3,
        Version::V4 => 4,
        Version::V5 => 5,
        Version::V6 => 6,
        Version::V7 => 7,
        Version::V8 => 8,
    }
}

/// Of an error with this code. It relates to a command if the first number is 1.
fn error_numbers(code: u16, is_related: u32, index: u32, ty: u32) -> Replied
    ensures { result ≡ error_numbers code is_related index ty }
{
    Replied {
        status: Status::Refused.code(),
        kind: Kind::Error.code(),
        first: is_related,
        second: index,
        third: ty,
        number: u64::from(code),
        rows: 0,
        len: 0,
    }
}

/// Of an error: its code; whether it relates to a command; and that command's index and type.
fn tell_error(error: &Error) -> Replied
    ensures { result ≡ error_told error.now }
{
    match &error.related_command {
        Some(command) => {
            error_numbers(error.code, 1, command.index, u32::from(command.ty.number()))
        },
        None => error_numbers(error.code, 0, 0, 0),
    }
}

fn tell_value(value: &Value) -> Replied
    ensures { result ≡ value_told value.now }
{
    match value {
        Value::Void => numbered(Kind::Void, 0, 0, 0),
        Value::Success(_) => numbered(Kind::Value, 0, 0, 0),
        Value::Failure(failure) => {
            with_rows(
                Kind::Failure,
                u64::from(failure.code),
                failure.metadata.len(),
            )
        },
        Value::StateKeys(keys) => with_rows(Kind::Keys, 0, keys.len()),
        Value::InvocationId(_) => numbered(Kind::InvocationId, 0, 0, 0),
    }
}

pub(crate) fn tell_taken(taken: &Option<Value>) -> Replied
    ensures { result ≡ taken_told taken.now }
{
    match taken {
        Some(value) => tell_value(value),
        None => numbered(Kind::Nothing, 0, 0, 0),
    }
}

pub(crate) fn tell_response(response: &AwaitResponse) -> Replied
    ensures { result ≡ response_told response.now }
{
    match response {
        AwaitResponse::AnyCompleted => numbered(Kind::Awake, 0, 0, 0),
        AwaitResponse::WaitingExternalProgress {
            waiting_input,
            waiting_run_proposal,
        } => numbered(
            Kind::Waiting,
            flag(*waiting_input),
            flag(*waiting_run_proposal),
            0,
        ),
        AwaitResponse::ExecuteRun(handle) => numbered(Kind::ExecuteRun, handle.0, 0, 0),
        AwaitResponse::CancelSignalReceived => numbered(Kind::Cancelled, 0, 0, 0),
        AwaitResponse::EphemeralNotificationReady(id) => numbered(Kind::Ephemeral, id.0, 0, 0),
    }
}

fn tell_answer(answer: &Answer) -> Replied
    ensures { result ≡ handles_told answer.now }
{
    match answer {
        Answer::Input(input) => with_rows(Kind::Input, input.random_seed, input.headers.len()),
        Answer::Handle(handle) => numbered(Kind::Handle, handle.0, 0, 0),
        Answer::Call(call) => numbered(
            Kind::Handle,
            call.invocation_id_notification_handle.0,
            call.call_notification_handle.0,
            0,
        ),
        Answer::CallWithDeadline(call) => numbered(
            Kind::Handle,
            call.invocation_id_notification_handle.0,
            call.call_notification_handle.0,
            call.deadline_notification_handle.0,
        ),
        Answer::Send(send) => {
            numbered(Kind::Handle, send.invocation_id_notification_handle.0, 0, 0)
        },
        Answer::Awakeable(made) => numbered(Kind::Awakeable, made.handle.0, 0, 0),
        Answer::Unit => numbered(Kind::Nothing, 0, 0, 0),
        Answer::Awake => numbered(Kind::Awake, 0, 0, 0),
        Answer::Cancelled => numbered(Kind::Cancelled, 0, 0, 0),
        Answer::Taken(taken) => tell_taken(taken),
        Answer::Completed(is) => numbered(Kind::Flag, flag(*is), 0, 0),
    }
}

/// Of the index of the last command; of kind `Nothing` if there is none.
fn tell_index(index: i64) -> Replied
    ensures { result ≡ number_told index }
{
    match u64::try_from(index) {
        Ok(number) => with_rows(Kind::Index, number, 0),
        Err(_) => numbered(Kind::Nothing, 0, 0, 0),
    }
}

/// Of a reply.
pub(crate) fn tell(reply: &Reply) -> Replied
    ensures { result ≡ told_of reply.now }
{
    match reply {
        Reply::Refused(error) => tell_error(error),
        Reply::Made(version) => numbered(Kind::Version, version_code(*version), 0, 0),
        Reply::Head(head) => {
            with_rows(Kind::Head, u64::from(head.status_code), head.headers.len())
        },
        Reply::Output(_) => numbered(Kind::Output, 0, 0, 0),
        Reply::Ready(is_ready) => numbered(Kind::Flag, flag(*is_ready), 0, 0),
        Reply::State(state) => numbered(Kind::State, state_code(*state), 0, 0),
        Reply::Index(index) => tell_index(*index),
        Reply::Awaited(response) => tell_response(response),
        Reply::Run(run) => numbered(Kind::Run, run.handle.0, flag(run.replayed), 0),
        Reply::Ephemeral(id) => numbered(Kind::Ephemeral, id.0, 0, 0),
        Reply::Answer(answer) => tell_answer(answer),
        Reply::Nothing | Reply::Bad | Reply::NoVm | Reply::Done => {
            numbered(Kind::Nothing, 0, 0, 0)
        },
    }
}

/// What an error of this code is by which no VM has failed.
fn unfailed_kind(code: u64) -> u32
    ensures { result ≡ unfailed_kind code }
{
    match code {
        599 => Kind::Suspended.code(),
        598 => Kind::Closed.code(),
        _ => Kind::OutOfMemory.code(),
    }
}

/// Whether an error reads as out of memory.
fn reads_as_memory(error: &Error) -> bool
    ensures { result ≡ reads_as_memory error.now }
{
    error.code == 500 && error.message().is_empty() && error.related_command.is_none()
}

/// Whether a reply is such an error.
fn tells_memory(told: &Replied) -> bool
    ensures { result ≡ tells_memory told.now }
{
    told.status == 5 && told.number == 500 && told.len == 0 && told.first == 0
}

/// Whether a VM's error is the caller's, and only reads as out of memory: it has failed by it in a call that wasn't refused. Of before the
/// call are whether it was so, and whether the VM had failed.
pub fn mimics_by(was: bool, had_failed: bool, failure: &Option<Error>, refused: bool) -> bool
    ensures { result ≡ mimics_by was had_failed failure.now refused }
{
    match failure {
        None => false,
        Some(error) => {
            if had_failed {
                was
            } else {
                reads_as_memory(error) && !refused
            }
        }
    }
}

/// Of an error that the VM has failed by. Out of memory has a status of its own.
fn memory_told(mimics: bool, told: Replied) -> Replied
    ensures { result ≡ memory_told mimics told }
{
    if !tells_memory(&told) || mimics {
        return told;
    }
    let mut starved = told;
    starved.status = Status::NoMemory.code();
    starved
}

/// Of a call of a VM that has failed then, or hasn't.
pub(crate) fn numbers_by(has_failed: bool, mimics: bool, told: Replied) -> Replied
    ensures { result ≡ numbers_by has_failed mimics told }
{
    if told.status != 5 {
        return told;
    }
    if has_failed {
        return memory_told(mimics, told);
    }
    let mut unfailed = told;
    unfailed.kind = unfailed_kind(told.number);
    unfailed
}

/// Of a call of a VM that had failed before or not, and has this error now, if one. `mimics` is whether that only reads as out of memory.
#[inline(always)]
pub(crate) fn tell_after(
    mimics: &mut bool,
    had_failed: bool,
    failure: &Option<Error>,
    told: Replied,
) -> Replied
    ensures mimics { mimics.new ≡ mimics_by mimics.old had_failed failure.now (told.status == 5) }
    ensures told { result ≡ numbers_by (is_some failure.now) mimics.new told }
{
    *mimics = mimics_by(*mimics, had_failed, failure, told.status == 5);
    numbers_by(failure.is_some(), *mimics, told)
}

/// Of a call that isn't made.
pub fn tell_status(status: Status) -> Replied
    ensures { result ≡ kept_told status }
{
    Replied {
        status: status.code(),
        kind: 0,
        first: 0,
        second: 0,
        third: 0,
        number: 0,
        rows: 0,
        len: 0,
    }
}
