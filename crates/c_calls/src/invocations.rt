//! Invocations that run elsewhere: a call attaches to one, or asks for its output.
ghost use Rattle.std.specs.Prelude.{◌≡◌, Some, None, IfErr, IfOk};
ghost use Rattle.c_calls.specs.Given.{Misfits, CannotCopy};
ghost use Rattle.c_calls.specs.Invocations.{idempotency_of, invocation_of, texts_of_idempotency, texts_of_invocation, texts_of_workflow, workflow_of};

use crate::given::{Lent, MayLend, optional_text, text_of};
use c_sessions::{Replied, VmCall, keep_handle};
use c_values::Status;
use invocation_vm::{CoreVM, VM};
use journal_protocol::{IdempotencyId, InvocationTarget, WorkflowId};
use std::alloc::Global;
use vm_types::Reply;

/// Which invocation is meant.
#[repr(C)]
#[derive(Clone, Copy)]
pub struct GivenInvocation<'a> {
    /// 0: the one of this id. 1: a workflow. 2: the one of this idempotency key.
    pub kind: u32,
    /// The id, the workflow's name, or the service's.
    pub name: Lent<'a>,
    /// The workflow's key, or the idempotency key.
    pub key: Lent<'a>,
    /// The handler's name, of an idempotency key.
    pub handler: Lent<'a>,
    /// The service's key, of an idempotency key.
    pub service_key: MayLend<'a>,
    pub scope: MayLend<'a>,
}

/// A workflow.
#[tactic(auto, using(crate::proofs::Refusing::front_refused, crate::proofs::Refusing::behind_refused))]
fn workflow_of(alloc: Global, given: &GivenInvocation) -> Result<WorkflowId, Status>
    ensures ok { IfOk result (λ id. id ≡ workflow_of given.now) }
    ensures err { IfErr result (CannotCopy (texts_of_workflow given.now)) }
{
    let name = text_of(alloc, given.name.bytes)?;
    let key = text_of(alloc, given.key.bytes)?;
    match optional_text(alloc, &given.scope) {
        Ok(scope) => Ok(WorkflowId { name, key, scope }),
        Err(status) => {
            drop(name);
            drop(key);
            Err(status)
        }
    }
}

/// An idempotency key, with what it is of.
#[tactic(auto, using(crate::proofs::Refusing::front_refused, crate::proofs::Refusing::behind_refused))]
fn idempotency_of(alloc: Global, given: &GivenInvocation) -> Result<IdempotencyId, Status>
    ensures ok { IfOk result (λ id. id ≡ idempotency_of given.now) }
    ensures err { IfErr result (CannotCopy (texts_of_idempotency given.now)) }
{
    let service_name = text_of(alloc, given.name.bytes)?;
    let handler_name = text_of(alloc, given.handler.bytes)?;
    let idempotency_key = text_of(alloc, given.key.bytes)?;
    let service_key = optional_text(alloc, &given.service_key)?;
    let scope = optional_text(alloc, &given.scope)?;
    Ok(IdempotencyId {
        service_name,
        service_key,
        handler_name,
        idempotency_key,
        scope,
    })
}

/// The invocation that is meant.
#[tactic(auto, using(crate::proofs::Refusing::misfit))]
fn invocation_of(alloc: Global, given: &GivenInvocation) -> Result<InvocationTarget, Status>
    ensures ok { IfOk result (λ target. invocation_of given.now ≡ Some target) }
    ensures err { IfErr result
        (Misfits (texts_of_invocation given.now) (invocation_of given.now ≡ None)) }
{
    match given.kind {
        0 => match text_of(alloc, given.name.bytes) {
            Ok(id) => Ok(InvocationTarget::InvocationId(id)),
            Err(status) => Err(status),
        },
        1 => match workflow_of(alloc, given) {
            Ok(id) => Ok(InvocationTarget::WorkflowId(id)),
            Err(status) => Err(status),
        },
        2 => match idempotency_of(alloc, given) {
            Ok(id) => Ok(InvocationTarget::IdempotencyId(id)),
            Err(status) => Err(status),
        },
        _ => Err(Status::BadNumber),
    }
}

/// The handler attaches to another invocation.
#[derive(Clone, Copy)]
pub struct AttachCall<'a> {
    pub invocation: GivenInvocation<'a>,
}

impl<'a> VmCall for AttachCall<'a> {
    ghost use Rattle.c_calls.specs.Calls.{AttachesTo};

    ghost does = { λ it. AttachesTo it.invocation };

    fn make(self, alloc: Global, vm: &mut CoreVM, kept: &mut Reply) -> Result<Replied, Status> {
        let target = invocation_of(alloc, &self.invocation)?;
        Ok(keep_handle(kept, vm.sys_attach_invocation(target)))
    }
}

/// Another invocation's output is asked for.
#[derive(Clone, Copy)]
pub struct GetOutputCall<'a> {
    pub invocation: GivenInvocation<'a>,
}

impl<'a> VmCall for GetOutputCall<'a> {
    ghost use Rattle.c_calls.specs.Calls.{GetsOutput};

    ghost does = { λ it. GetsOutput it.invocation };

    fn make(self, alloc: Global, vm: &mut CoreVM, kept: &mut Reply) -> Result<Replied, Status> {
        let target = invocation_of(alloc, &self.invocation)?;
        Ok(keep_handle(kept, vm.sys_get_invocation_output(target)))
    }
}
