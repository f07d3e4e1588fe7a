//! The invocation that a line names: by its id, by its workflow, or by an idempotency key.
ghost use Rattle.std.specs.Prelude.{IfErr, IfOk, codes};
ghost use Rattle.lines.specs.Readings.{Blames};
ghost use Rattle.line_parts.specs.Targets.{HasKeyAndScope, HasScope, IsCallOf, IsWorkflow, NamesBehind, NamesInvocation};

use crate::arguments::{optional_text, text_alone, three_texts, two_texts};
use journal_protocol::{IdempotencyId, InvocationTarget, WorkflowId};
use lines::fields::are_named;
use plain::{Fault, Text};
use std::alloc::Global;

/// `[scope=T]` alone.
fn scope_of(alloc: Global, words: &[&[u8]]) -> Result<Option<Text>, Fault>
    ensures value { IfOk result (HasScope words.now) }
    ensures none { IfErr result (Blames (HasScope words.now)) }
{
    if !are_named(words, &["scope="]) {
        return Err(Fault::Malformed);
    }
    optional_text(alloc, words, "scope=")
}

/// `T T [scope=T]`: name and key.
#[tactic(auto, using(crate::proofs::Targeting::workflow_texts_blamed))]
fn workflow_of(alloc: Global, words: &[&[u8]]) -> Result<WorkflowId, Fault>
    ensures value { IfOk result (IsWorkflow words.now) }
    ensures none { IfErr result (Blames (IsWorkflow words.now)) }
{
    let (name, key, options) = two_texts(alloc, words)?;
    match scope_of(alloc, options) {
        Ok(scope) => Ok(WorkflowId { name, key, scope }),
        Err(fault) => {
            drop((name, key));
            Err(fault)
        }
    }
}

/// `[skey=T] [scope=T]` alone.
fn key_and_scope(alloc: Global, words: &[&[u8]]) -> Result<(Option<Text>, Option<Text>), Fault>
    ensures value { IfOk result (HasKeyAndScope words.now) }
    ensures none { IfErr result (Blames (HasKeyAndScope words.now)) }
{
    if !are_named(words, &["skey=", "scope="]) {
        return Err(Fault::Malformed);
    }
    let key = optional_text(alloc, words, "skey=")?;
    let scope = optional_text(alloc, words, "scope=")?;
    Ok((key, scope))
}

/// `T T T [skey=T] [scope=T]`: service, handler and idempotency key.
#[tactic(auto, using(crate::proofs::Targeting::call_texts_blamed, crate::proofs::Targeting::call_options_blamed))]
fn call_of(alloc: Global, words: &[&[u8]]) -> Result<IdempotencyId, Fault>
    ensures value { IfOk result (IsCallOf words.now) }
    ensures none { IfErr result (Blames (IsCallOf words.now)) }
{
    let (service_name, handler_name, idempotency_key, options) = three_texts(alloc, words)?;
    match key_and_scope(alloc, options) {
        Ok((service_key, scope)) => Ok(IdempotencyId {
            service_name,
            service_key,
            handler_name,
            idempotency_key,
            scope,
        }),
        Err(fault) => {
            drop((service_name, handler_name));
            drop(idempotency_key);
            Err(fault)
        }
    }
}

/// `T` after `id`.
#[tactic(auto, using(crate::proofs::Targeting::id_blamed))]
fn target_by_id(alloc: Global, words: &[&[u8]]) -> Result<InvocationTarget, Fault>
    ensures value { IfOk result (NamesBehind (codes "id") words.now) }
    ensures none { IfErr result (Blames (NamesBehind (codes "id") words.now)) }
{
    match text_alone(alloc, words) {
        Ok(id) => Ok(InvocationTarget::InvocationId(id)),
        Err(fault) => Err(fault),
    }
}

/// `T T [scope=T]` after `workflow`.
#[tactic(auto, using(crate::proofs::Targeting::workflow_blamed))]
fn target_by_workflow(alloc: Global, words: &[&[u8]]) -> Result<InvocationTarget, Fault>
    ensures value { IfOk result (NamesBehind (codes "workflow") words.now) }
    ensures none { IfErr result (Blames (NamesBehind (codes "workflow") words.now)) }
{
    match workflow_of(alloc, words) {
        Ok(workflow) => Ok(InvocationTarget::WorkflowId(workflow)),
        Err(fault) => Err(fault),
    }
}

/// `T T T [skey=T] [scope=T]` after `idem`.
#[tactic(auto, using(crate::proofs::Targeting::call_blamed))]
fn target_by_call(alloc: Global, words: &[&[u8]]) -> Result<InvocationTarget, Fault>
    ensures value { IfOk result (NamesBehind (codes "idem") words.now) }
    ensures none { IfErr result (Blames (NamesBehind (codes "idem") words.now)) }
{
    match call_of(alloc, words) {
        Ok(call) => Ok(InvocationTarget::IdempotencyId(call)),
        Err(fault) => Err(fault),
    }
}

/// The invocation that this word and those after it name.
fn target_behind(alloc: Global, word: &[u8], others: &[&[u8]]) -> Result<InvocationTarget, Fault>
    ensures value { IfOk result (NamesBehind word.now others.now) }
    ensures none { IfErr result (Blames (NamesBehind word.now others.now)) }
{
    if word == b"id".as_slice() {
        return target_by_id(alloc, others);
    }
    if word == b"workflow".as_slice() {
        return target_by_workflow(alloc, others);
    }
    if word == b"idem".as_slice() {
        return target_by_call(alloc, others);
    }
    Err(Fault::Malformed)
}

/// `id T`, `workflow T T [scope=T]` or `idem T T T [skey=T] [scope=T]`.
pub fn target_of(alloc: Global, words: &[&[u8]]) -> Result<InvocationTarget, Fault>
    ensures value { IfOk result (NamesInvocation words.now) }
    ensures none { IfErr result (Blames (NamesInvocation words.now)) }
{
    let [word, others @ ..] = words else {
        return Err(Fault::Malformed);
    };
    target_behind(alloc, *word, others)
}
