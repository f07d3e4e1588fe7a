//! Calls of other handlers.
ghost use Rattle.std.specs.Prelude.{◌≡◌, IfOk, IfErr, string_bytes};
ghost use Rattle.vm_calls.specs.Called.{reply_of};
ghost use Rattle.c_calls.specs.Callees.{given_target, texts_of_call, texts_of_target};
ghost use Rattle.c_calls.specs.Given.{CannotCopy};
ghost use Rattle.c_calls.specs.Makes.{all_handles, call_handles_told, sent};

use crate::given::{
    Lent, MayLend, Pair, bytes_of, headers_of, optional_text, string_of, text_of, time_of,
};
use crate::values::payload;
use bytes::Bytes;
use c_sessions::{Replied, VmCall, keep};
use c_values::Status;
use invocation_vm::{CoreVM, VM};
use std::alloc::Global;
use vm_types::{Answer, CallHandle, DeadlineCallHandle, Reply, SendHandle, Target, VMResult};

/// Which handler is called, and how.
#[repr(C)]
#[derive(Clone, Copy)]
pub struct GivenTarget<'a> {
    pub service: Lent<'a>,
    pub handler: Lent<'a>,
    pub key: MayLend<'a>,
    pub idempotency_key: MayLend<'a>,
    pub scope: MayLend<'a>,
    pub limit_key: MayLend<'a>,
    pub headers: &'a [Pair<'a>],
}

/// Which handler is called, and how.
#[tactic(auto, using(crate::proofs::Refusing::front_refused, crate::proofs::Refusing::behind_refused))]
fn given_target(alloc: Global, given: &GivenTarget) -> Result<Target, Status>
    ensures ok { IfOk result (λ target. target ≡ given_target given.now) }
    ensures err { IfErr result (CannotCopy (texts_of_target given.now)) }
{
    let service = text_of(alloc, given.service.bytes)?;
    let handler = text_of(alloc, given.handler.bytes)?;
    let key = optional_text(alloc, &given.key)?;
    let idempotency_key = optional_text(alloc, &given.idempotency_key)?;
    let scope = optional_text(alloc, &given.scope)?;
    let limit_key = optional_text(alloc, &given.limit_key)?;
    let headers = headers_of(alloc, given.headers)?;
    Ok(Target {
        service,
        handler,
        key,
        idempotency_key,
        scope,
        limit_key,
        headers,
    })
}

/// The reply with a call's handles.
fn called(given: VMResult<CallHandle>) -> Reply
    ensures { result ≡ reply_of call_handles_told given }
{
    match given {
        Ok(call) => Reply::Answer(Answer::Call(call)),
        Err(error) => Reply::Refused(error),
    }
}

fn called_with_deadline(given: VMResult<DeadlineCallHandle>) -> Reply
    ensures { result ≡ reply_of all_handles given }
{
    match given {
        Ok(call) => Reply::Answer(Answer::CallWithDeadline(call)),
        Err(error) => Reply::Refused(error),
    }
}

fn sent(given: VMResult<SendHandle>) -> Reply
    ensures { result ≡ reply_of sent given }
{
    match given {
        Ok(send) => Reply::Answer(Answer::Send(send)),
        Err(error) => Reply::Refused(error),
    }
}

/// What a call of another handler has.
#[derive(Drop)]
struct Callee {
    target: Target,
    input: Bytes,
    name: String,
}

/// Which handler is called, with what, and under which name.
#[tactic(auto, using(crate::proofs::Refusing::no_memory))]
fn callee_of(
    alloc: Global,
    given: &GivenTarget,
    bytes: &[u8],
    name: &[u8],
) -> Result<Callee, Status>
    ensures target { IfOk result (λ callee. callee.target ≡ given_target given.now) }
    ensures input { IfOk result (λ callee. callee.input ≡ bytes.now) }
    ensures name { IfOk result (λ callee. string_bytes callee.name ≡ name.now) }
    ensures err { IfErr result (CannotCopy (texts_of_call given.now name.now)) }
{
    let target = given_target(alloc, given)?;
    let name = string_of(alloc, name)?;
    let input = bytes_of(alloc, bytes)?;
    Ok(Callee {
        target,
        input,
        name,
    })
}

/// Another handler is called. An empty name is none.
#[derive(Clone, Copy)]
pub struct CallCall<'a> {
    pub target: GivenTarget<'a>,
    pub input: Lent<'a>,
    pub name: Lent<'a>,
    pub unstable: bool,
}

impl<'a> VmCall for CallCall<'a> {
    ghost use Rattle.c_calls.specs.Calls.{CallsHandler};

    ghost does = { λ it. CallsHandler it.target it.input.bytes.now it.name.bytes.now it.unstable };

    fn make(self, alloc: Global, vm: &mut CoreVM, kept: &mut Reply) -> Result<Replied, Status> {
        let Callee {
            target,
            input,
            name,
        } = callee_of(alloc, &self.target, self.input.bytes, self.name.bytes)?;
        let options = payload(self.unstable);
        Ok(keep(
            kept,
            called(vm.sys_call(target, input, Some(name), options)),
        ))
    }
}

/// Another handler is called, with a deadline in milliseconds since the Unix epoch. An empty name is none.
#[derive(Clone, Copy)]
pub struct DeadlineCall<'a> {
    pub target: GivenTarget<'a>,
    pub input: Lent<'a>,
    pub deadline_millis: u64,
    pub name: Lent<'a>,
    pub unstable: bool,
}

impl<'a> VmCall for DeadlineCall<'a> {
    ghost use Rattle.c_calls.specs.Calls.{CallsWithDeadline};

    ghost does = { λ it. CallsWithDeadline it.target it.input.bytes.now it.deadline_millis it.name.bytes.now it.unstable };

    fn make(self, alloc: Global, vm: &mut CoreVM, kept: &mut Reply) -> Result<Replied, Status> {
        let Callee {
            target,
            input,
            name,
        } = callee_of(alloc, &self.target, self.input.bytes, self.name.bytes)?;
        let options = payload(self.unstable);
        let deadline = time_of(self.deadline_millis);
        let given = vm.sys_call_with_deadline(target, input, deadline, Some(name), options);
        Ok(keep(kept, called_with_deadline(given)))
    }
}

/// Another handler is called, at a time in milliseconds since the Unix epoch or at once if it is 0, and nobody waits for it. An empty name
/// is none.
#[derive(Clone, Copy)]
pub struct SendCall<'a> {
    pub target: GivenTarget<'a>,
    pub input: Lent<'a>,
    pub at_millis: u64,
    pub name: Lent<'a>,
    pub unstable: bool,
}

impl<'a> VmCall for SendCall<'a> {
    ghost use Rattle.c_calls.specs.Calls.{SendsTo};

    ghost does = { λ it. SendsTo it.target it.input.bytes.now it.at_millis it.name.bytes.now it.unstable };

    fn make(self, alloc: Global, vm: &mut CoreVM, kept: &mut Reply) -> Result<Replied, Status> {
        let Callee {
            target,
            input,
            name,
        } = callee_of(alloc, &self.target, self.input.bytes, self.name.bytes)?;
        let options = payload(self.unstable);
        let at = Some(time_of(self.at_millis));
        Ok(keep(
            kept,
            sent(vm.sys_send(target, input, at, Some(name), options)),
        ))
    }
}
