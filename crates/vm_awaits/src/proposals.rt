//! The result of executing a run: it is proposed, or the attempt fails.
ghost use Rattle.std.specs.Prelude.{◌≡◌, ◌++◌, ◌∷◌, [], Some, IfNone, IfOk, IfSome, OnOk, OnErr};
ghost use Rattle.std.specs.Duration.{as_nanos};
ghost use Rattle.journal_protocol.specs.Frames.{IsWhole, encoding};
ghost use Rattle.journal_protocol.specs.Message.TheVariants as message;
ghost use Rattle.vm_runs.specs.Pending.{has_handle};
ghost use Rattle.vm_machine.specs.Outcomes.{GivesBy, lasting};
ghost use Rattle.vm_machine.specs.Proposals.{Proposes, Settled, SettlesAs, earlier_count, earlier_nanos, proposal_kept, proposal_fault, proposed, run_at, without_run};

use await_trees::NotificationHandle;
use journal_protocol::{Message, NamedFault, ProposeRunCompletion, ValueOrFailure, Version};
use std::alloc::AllocError;
use std::time::Duration;
use vm_machine::{Fault, Machine, refuse};
use vm_parts::StartInfo;
use vm_retries::{EntryRetryInfo, RetryPolicy};
use vm_runs::{PendingRun, Settlement, settle};
use vm_types::RunExitResult;

/// Why the version can't take a run's result, if it can't.
fn proposal_fault(
    exit: &RunExitResult,
    policy: &RetryPolicy,
    version: Version,
) -> Option<NamedFault>
    ensures { result ≡ proposal_fault exit.now policy.now version }
{
    let has_metadata = exit.has_metadata() && version < Version::V6;
    let may_pause = policy.should_pause_on_max_attempts() && version < Version::V7;
    if has_metadata || may_pause {
        return Some(NamedFault::UnsupportedFeatureForNegotiatedVersion);
    }
    None
}

/// How often and for how long the run failed in earlier attempts. What Start says counts only if no command was written after the
/// recorded ones.
fn earlier_failures(start: &StartInfo, wrote_command: bool) -> EntryRetryInfo
    ensures count { result.retry_count ≡ earlier_count start.now wrote_command }
    ensures nanos { as_nanos result.retry_loop_duration
        ≡ earlier_nanos start.now wrote_command }
{
    if wrote_command || start.retry_count == 0 {
        EntryRetryInfo {
            retry_count: 0,
            retry_loop_duration: Duration::ZERO,
        }
    } else {
        EntryRetryInfo {
            retry_count: start.retry_count,
            retry_loop_duration: Duration::from_millis(start.duration),
        }
    }
}

/// The result is kept until it is acknowledged, where the version has acknowledgements.
fn keep_proposal(machine: &mut Machine, id: u32, given: &ValueOrFailure) -> Result<(), AllocError>
    ensures ok { OnOk result (machine.new ≡ proposal_kept id given.now machine.old) }
    ensures err { OnErr result (lasting machine.new ≡ lasting machine.old) }
{
    if machine.version >= Version::V7 {
        machine.proposals.keep(id, given.clone()?)?;
    }
    Ok(())
}

/// A result is proposed under the run's completion id.
fn propose(machine: &mut Machine, id: u32, given: ValueOrFailure) -> Result<(), AllocError>
    ensures ok { OnOk result (machine.new ≡ proposed id given machine.old) }
    ensures whole { OnOk result
        (IsWhole (message.ProposeRunCompletion (record { id = id; result = given }))) }
    ensures err { OnErr result (lasting machine.new ≡ lasting machine.old) }
{
    keep_proposal(machine, id, &given)?;
    let message = Message::ProposeRunCompletion(ProposeRunCompletion { id, result: given });
    machine.output.write(machine.alloc, &message)
}

/// What becomes of a run is done.
fn settle_as(machine: &mut Machine, id: u32, settlement: Settlement) -> Result<(), Fault>
    ensures { GivesBy (SettlesAs id settlement machine.old) result machine.old machine.new }
{
    match settlement {
        Settlement::Proposed(given) => Ok(propose(machine, id, given)?),
        Settlement::Failed(error) => Err(Fault::Refused(error)),
    }
}

/// The pending run of a handle that wasn't taken, which isn't pending any more.
#[tactic(auto, using(vm_runs::proofs::Finding::not_found))]
fn take_run(machine: &mut Machine, handle: NotificationHandle) -> Option<PendingRun>
    ensures run { result ≡ run_at handle.0 machine.old }
    ensures some { IfSome result (λ run. machine.new ≡ without_run handle machine.old) }
    ensures none { IfNone result (machine.new ≡ machine.old) }
{
    if machine.results.find(handle.0).is_none() {
        return None;
    }
    match machine.runs.notify_execution_completed(handle) {
        Some(run) => Some(run),
        None => None,
    }
}

/// Settles the run of a handle by its result.
#[tactic(auto, using(crate::proofs::Running::settled_none, crate::proofs::Running::settled_some))]
fn settle_run(
    machine: &mut Machine,
    handle: NotificationHandle,
    exit: RunExitResult,
    policy: &RetryPolicy,
) -> Result<(), Fault>
    ensures { GivesBy (Settled handle exit policy.now (run_at handle.0 machine.old) machine.old)
        result machine.old machine.new }
{
    let Some(run) = take_run(machine, handle) else {
        return Err(refuse(NamedFault::NoPendingRun));
    };
    let id = run.completion_id;
    let earlier = earlier_failures(&machine.start, machine.wrote_command);
    let settlement = settle(machine.alloc, run, exit, policy, earlier)?;
    settle_as(machine, id, settlement)
}

/// The handler's runner hands in the result of executing a run.
pub fn finish_run(
    machine: &mut Machine,
    handle: NotificationHandle,
    exit: RunExitResult,
    policy: &RetryPolicy,
) -> Result<(), Fault>
    ensures { GivesBy (Proposes handle exit policy.now machine.old) result machine.old machine.new }
{
    if let Some(fault) = proposal_fault(&exit, policy, machine.version) {
        return Err(refuse(fault));
    }
    if !machine.phase.is_processing() {
        return Ok(());
    }
    settle_run(machine, handle, exit, policy)
}
