//! A copy of a step, so that a plan's step can be made as often as attempts come to it.
ghost use Rattle.std.specs.Prelude.{◌≡◌, IfOk};

use bytes::Bytes;
use journal_protocol::{IdempotencyId, InvocationTarget, WorkflowId};
use plain::{Plain, Text, copy_of};
use std::alloc::{AllocError, Global};
use vm_types::{Boxed, NonEmptyValue, Step, Target};

/// The step, or another value, that is made of a copy, if there was memory for it.
macro_rules! with_copy {
    ($copy:expr, $parts:pat => $made:expr) => {
        match $copy {
            Ok($parts) => Ok($made),
            Err(error) => Err(error),
        }
    };
}

/// Copies of two values.
fn both_copies<A: Plain + Drop, B: Plain>(a: &A, b: &B) -> Result<(A, B), AllocError>
    ensures { IfOk result (λ copy. copy ≡ (a.now, b.now)) }
{
    let a = copy_of(a)?;
    with_copy!(copy_of(b), b => (a, b))
}

fn target_copy(alloc: Global, target: &Target) -> Result<Boxed<Target>, AllocError>
    ensures { IfOk result (λ copy. copy ≡ target.now) }
{
    let (service, handler) = both_copies(&target.service, &target.handler)?;
    let (key, idempotency_key) = both_copies(&target.key, &target.idempotency_key)?;
    let (scope, limit_key) = both_copies(&target.scope, &target.limit_key)?;
    let headers = target.headers.clone()?;
    let copy = Target {
        service,
        handler,
        key,
        idempotency_key,
        scope,
        limit_key,
        headers,
    };
    Boxed::new(alloc, copy)
}

fn workflow_copy(id: &WorkflowId) -> Result<WorkflowId, AllocError>
    ensures { IfOk result (λ copy. copy ≡ id.now) }
{
    let (name, key) = both_copies(&id.name, &id.key)?;
    with_copy!(copy_of(&id.scope), scope => WorkflowId { name, key, scope })
}

fn idempotency_copy(id: &IdempotencyId) -> Result<IdempotencyId, AllocError>
    ensures { IfOk result (λ copy. copy ≡ id.now) }
{
    let (service_name, service_key) = both_copies(&id.service_name, &id.service_key)?;
    let (handler_name, idempotency_key) = both_copies(&id.handler_name, &id.idempotency_key)?;
    with_copy!(copy_of(&id.scope), scope => IdempotencyId {
        service_name,
        service_key,
        handler_name,
        idempotency_key,
        scope,
    })
}

fn invocation_copy(
    alloc: Global,
    target: &InvocationTarget,
) -> Result<Boxed<InvocationTarget>, AllocError>
    ensures { IfOk result (λ copy. copy ≡ target.now) }
{
    let copy = match target {
        InvocationTarget::InvocationId(id) => InvocationTarget::InvocationId(id.clone()?),
        InvocationTarget::WorkflowId(id) => InvocationTarget::WorkflowId(workflow_copy(id)?),
        InvocationTarget::IdempotencyId(id) => {
            InvocationTarget::IdempotencyId(idempotency_copy(id)?)
        }
    };
    Boxed::new(alloc, copy)
}

/// Copies of a value, and of the key, the name or the id that it is for.
fn value_copy(key: &Text, value: &NonEmptyValue) -> Result<(Text, NonEmptyValue), AllocError>
    ensures { IfOk result (λ copy. copy ≡ (key.now, value.now)) }
{
    let key = key.clone()?;
    with_copy!(value.clone(), value => (key, value))
}

/// Copies of a key, its value and a name.
fn entry_copy(
    key: &Text,
    value: &Bytes,
    name: &Option<Text>,
) -> Result<(Text, Bytes, Option<Text>), AllocError>
    ensures { IfOk result (λ copy. copy ≡ (key.now, value.now, name.now)) }
{
    let (key, value) = both_copies(key, value)?;
    with_copy!(copy_of(name), name => (key, value, name))
}

/// Copies of an invocation's id, and of a signal's name and value.
fn signal_copy(
    target: &Text,
    name: &Text,
    value: &NonEmptyValue,
) -> Result<(Text, Text, NonEmptyValue), AllocError>
    ensures { IfOk result (λ copy. copy ≡ (target.now, name.now, value.now)) }
{
    let (target, name) = both_copies(target, name)?;
    with_copy!(value.clone(), value => (target, name, value))
}

/// Copies of what each call and send has: its target, its input and its name.
fn called_copy(
    alloc: Global,
    target: &Boxed<Target>,
    input: &Bytes,
    name: &Option<Text>,
) -> Result<(Boxed<Target>, Bytes, Option<Text>), AllocError>
    ensures { IfOk result (λ copy. copy ≡ (target.now, input.now, name.now)) }
{
    let (input, name) = both_copies(input, name)?;
    with_copy!(target_copy(alloc, target.as_ref()), target => (target, input, name))
}

/// A copy of a step.
pub fn copy_of_step(alloc: Global, step: &Step) -> Result<Step, AllocError>
    ensures { IfOk result (λ copy. copy ≡ step.now) }
{
    match step {
        Step::Sleep {
            name,
            wake_up_time_since_unix_epoch,
            now_since_unix_epoch,
        } => with_copy!(name.clone(), name => Step::Sleep {
            name,
            wake_up_time_since_unix_epoch: *wake_up_time_since_unix_epoch,
            now_since_unix_epoch: *now_since_unix_epoch,
        }),
        Step::StateSet {
            key,
            value,
            name,
            options,
        } => with_copy!(entry_copy(key, value, name), (key, value, name) => Step::StateSet {
            key,
            value,
            name,
            options: *options,
        }),
        Step::StateClear { key, name } => {
            with_copy!(both_copies(key, name), (key, name) => Step::StateClear { key, name })
        }
        Step::StateClearAll { name } => {
            with_copy!(copy_of(name), name => Step::StateClearAll { name })
        }
        Step::StateGet { key, name, options } => {
            with_copy!(both_copies(key, name), (key, name) => Step::StateGet {
                key,
                name,
                options: *options,
            })
        }
        Step::StateGetKeys { name } => {
            with_copy!(copy_of(name), name => Step::StateGetKeys { name })
        }
        Step::Call {
            target,
            input,
            name,
            options,
        } => with_copy!(
            called_copy(alloc, target, input, name),
            (target, input, name) => Step::Call {
                target,
                input,
                name,
                options: *options,
            }
        ),
        Step::CallWithDeadline {
            target,
            input,
            wake_up_time_since_unix_epoch,
            name,
            options,
        } => with_copy!(
            called_copy(alloc, target, input, name),
            (target, input, name) => Step::CallWithDeadline {
                target,
                input,
                wake_up_time_since_unix_epoch: *wake_up_time_since_unix_epoch,
                name,
                options: *options,
            }
        ),
        Step::Send {
            target,
            input,
            execution_time_since_unix_epoch,
            name,
            options,
        } => with_copy!(
            called_copy(alloc, target, input, name),
            (target, input, name) => Step::Send {
                target,
                input,
                execution_time_since_unix_epoch: *execution_time_since_unix_epoch,
                name,
                options: *options,
            }
        ),
        Step::Awakeable => Ok(Step::Awakeable),
        Step::Signal { name } => with_copy!(name.clone(), name => Step::Signal { name }),
        Step::CompleteAwakeable { id, value, options } => {
            with_copy!(value_copy(id, value), (id, value) => Step::CompleteAwakeable {
                id,
                value,
                options: *options,
            })
        }
        Step::CompleteSignal {
            target_invocation_id,
            signal_name,
            value,
        } => with_copy!(
            signal_copy(target_invocation_id, signal_name, value),
            (target_invocation_id, signal_name, value) => Step::CompleteSignal {
                target_invocation_id,
                signal_name,
                value,
            }
        ),
        Step::CancelInvocation {
            target_invocation_id: id,
        } => with_copy!(id.clone(), target_invocation_id => Step::CancelInvocation {
            target_invocation_id,
        }),
        Step::GetPromise { key } => with_copy!(key.clone(), key => Step::GetPromise { key }),
        Step::PeekPromise { key } => with_copy!(key.clone(), key => Step::PeekPromise { key }),
        Step::CompletePromise {
            key,
            value,
            options,
        } => with_copy!(value_copy(key, value), (key, value) => Step::CompletePromise {
            key,
            value,
            options: *options,
        }),
        Step::Run { name } => with_copy!(name.clone(), name => Step::Run { name }),
        Step::AttachInvocation(target) => with_copy!(
            invocation_copy(alloc, target.as_ref()),
            target => Step::AttachInvocation(target)
        ),
        Step::GetInvocationOutput(target) => with_copy!(
            invocation_copy(alloc, target.as_ref()),
            target => Step::GetInvocationOutput(target)
        ),
        Step::WriteOutput(value, options) => {
            with_copy!(value.clone(), value => Step::WriteOutput(value, *options))
        }
        Step::Await(future) => with_copy!(future.clone(), future => Step::Await(future)),
        Step::Take(handle) => Ok(Step::Take(*handle)),
        Step::Completed(handle) => Ok(Step::Completed(*handle)),
        Step::End => Ok(Step::End),
    }
}
