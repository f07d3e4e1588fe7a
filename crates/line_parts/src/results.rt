//! The outcome of executing a run, as it is proposed: `H RESULT [policy=P]`.
ghost use Rattle.std.specs.Prelude.{◌≡◌, IfErr, IfOk};
ghost use Rattle.lines.specs.Readings.{Blames};
ghost use Rattle.lines.specs.Fields.{are_named};
ghost use Rattle.line_parts.specs.Results.{IsProposal, IsResult, IsRetryable, is_policy, retryable_names};
ghost use Rattle.line_parts.specs.Values.{but_last};

use crate::policies::policy_in;
use crate::report::error_of;
use crate::values::value_of;
use await_trees::NotificationHandle;
use journal_protocol::Error;
use lines::fields::are_named;
use lines::words::{behind, but_first, time_in, u32_in};
use plain::Fault;
use std::alloc::Global;
use std::time::Duration;
use vm_retries::RetryPolicy;
use vm_types::RunExitResult;

/// The result of a run, as it is proposed.
#[derive(Drop)]
pub struct Proposal {
    pub handle: NotificationHandle,
    pub result: RunExitResult,
    pub policy: RetryPolicy,
}

/// Whether the words name options of a failure that may be retried alone.
fn are_options(words: &[&[u8]]) -> bool
    ensures { result ≡ are_named retryable_names words.now }
{
    are_named(words, &["stack=", "behaviour=", "delay=", "policy="])
}

/// `D N T [stack=T] [behaviour=..] [delay=D]`, with or without a policy.
#[tactic(auto, using(crate::proofs::Proposing::duration_blamed, crate::proofs::Proposing::error_blamed, crate::proofs::Proposing::options_blamed))]
fn retryable_of(alloc: Global, words: &[&[u8]]) -> Result<(Duration, Error), Fault>
    ensures value { IfOk result (IsRetryable words.now) }
    ensures none { IfErr result (Blames (IsRetryable words.now)) }
{
    let duration = time_in(words, 0)?;
    let error = error_of(alloc, behind(words, 1))?;
    if !are_options(behind(words, 3)) {
        return Err(Fault::Malformed);
    }
    Ok((duration, error))
}

/// The words in front of a last one that names a policy.
fn before_policy<'w, 'a>(words: &'w [&'a [u8]]) -> &'w [&'a [u8]]
    ensures { result.now ≡ but_last is_policy words.now }
{
    let Some((last, front)) = words.split_last() else {
        return words;
    };
    if last.starts_with(b"policy=") {
        return front;
    }
    words
}

/// `V`, or `retryable` and the failure's details, with or without a policy.
#[tactic(auto, using(crate::proofs::Proposing::retryable_blamed, crate::proofs::Proposing::value_blamed, crate::proofs::Proposing::nothing_blamed))]
fn result_of(alloc: Global, words: &[&[u8]]) -> Result<RunExitResult, Fault>
    ensures value { IfOk result (IsResult words.now) }
    ensures none { IfErr result (Blames (IsResult words.now)) }
{
    let [word, others @ ..] = words else {
        return Err(Fault::Malformed);
    };
    if *word == b"retryable".as_slice() {
        let (attempt_duration, error) = retryable_of(alloc, others)?;
        return Ok(RunExitResult::RetryableFailure {
            attempt_duration,
            error,
        });
    }
    let value = value_of(alloc, before_policy(words))?;
    Ok(RunExitResult::of_value(value))
}

/// `H RESULT [policy=P]`.
#[tactic(auto, using(crate::proofs::Proposing::handle_blamed, crate::proofs::Proposing::result_blamed, crate::proofs::Proposing::policy_blamed))]
pub fn proposal_of(alloc: Global, arguments: &[&[u8]]) -> Result<Proposal, Fault>
    ensures value { IfOk result (IsProposal arguments.now) }
    ensures none { IfErr result (Blames (IsProposal arguments.now)) }
{
    let handle = NotificationHandle(u32_in(arguments, 0)?);
    let others = but_first(arguments);
    let result = result_of(alloc, others)?;
    match policy_in(alloc, others) {
        Ok(policy) => Ok(Proposal {
            handle,
            result,
            policy,
        }),
        Err(fault) => {
            drop(result);
            Err(fault)
        }
    }
}
