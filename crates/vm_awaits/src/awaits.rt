//! Awaits of trees: notifications are used until the tree is awake, or the cancel signal is there; else the machine waits for what is
//! left of the tree.
ghost use Rattle.std.specs.Prelude.{◌≡◌, ◌∷◌, ◌++◌, [], Err, None, false, find, IfNone, IfOk, IfSome, OnOk, OnErr};
ghost use Rattle.std.specs.List.{list_any};
ghost use Rattle.std.specs.Option.{option_and_then, option_map};
ghost use Rattle.await_trees.specs.Tree.{leaf, tree_of};
ghost use Rattle.await_trees.specs.Wires.{sent};
ghost use Rattle.await_tries.specs.Await.{LeftPending};
ghost use Rattle.await_tries.specs.Left.{tree_left};
ghost use Rattle.await_tries.specs.Message.{ids};
ghost use Rattle.await_tries.specs.Pairs.{first_of_two};
ghost use Rattle.journal_protocol.specs.Errors.{named_error};
ghost use Rattle.journal_protocol.specs.Frames.{encoding};
ghost use Rattle.journal_protocol.specs.NamedFault.TheVariants.{Suspended};
ghost use Rattle.journal_protocol.specs.SignalDelivery.{SignalDelivery as Delivery};
ghost use Rattle.vm_runs.specs.Pending.{handle_of, is_executing, may_execute};
ghost use Rattle.vm_runs.specs.Settling.{run_as_related};
ghost use Rattle.journal_protocol.specs.Message.TheVariants as message;
ghost use Rattle.vm_machine.specs.Outcomes.{Gives, GivesBy};
ghost use Rattle.vm_types.specs.Options.{ends_awaits};
ghost use Rattle.vm_parts.specs.Ephemerals.{any_in_flight};
ghost use Rattle.vm_parts.specs.Tracked.{id_of_result, unresolved_handles};
ghost use Rattle.vm_machine.specs.Phases.{is_replaying};
ghost use Rattle.vm_awaits.specs.Awaits.{Awaits, EndsBy, Gathers, ReadsId, Tries, TriesOrCancels, allows, awaiting_said, executed, has_woken, is_cancelled, is_first_of_none, last_run, or_cancelled, pending_on, result_at, says_so, signal_in, suspended, waiting, waits_by};
ghost use Rattle.vm_machine.specs.Proposals.{run_at};
ghost use Rattle.vm_awaits.specs.Cancels.{cancel_taken};

use crate::awaited::Awaited;
use await_trees::{CANCEL_NOTIFICATION_HANDLE, NotificationHandle, UnresolvedFuture};
use await_tries::{
    Residue, Resolution, future_of, future_of_two, has_leaf, list_handles, lone_handle, try_future,
    use_all, use_first, uses_until_either,
};
use journal_protocol::{
    AwaitingOn, Error, Future, Message, MessageType, NamedFault, NotificationId,
    NotificationResult, RelatedCommand, Suspension, Version,
};
use plain::{Items, Text, copy_of};
use std::alloc::{AllocError, Global};
use vm_machine::{Fault, Machine, Phase, refuse};
use vm_types::{AwaitResponse, AwaitingOnPolicy, ImplicitCancellationOption};

/// Whether an await that waits may say what for, by whether any run is executing.
fn allows(policy: AwaitingOnPolicy, executing: bool) -> bool
    ensures { result ≡ allows policy executing }
{
    match policy {
        AwaitingOnPolicy::SendAlways => true,
        AwaitingOnPolicy::DontSendWhenExecutingRun => !executing,
        AwaitingOnPolicy::DontSend => false,
    }
}

/// Whether the cancel signal ends awaits.
fn ends_awaits(option: ImplicitCancellationOption) -> bool
    ensures { result ≡ ends_awaits option }
{
    matches!(option, ImplicitCancellationOption::Enabled { .. })
}

/// Whether an await has woken.
fn has_woken(answer: &Awaited) -> bool
    ensures { result ≡ has_woken answer.now }
{
    matches!(answer.response(), Some(AwaitResponse::AnyCompleted))
}

/// Whether it is the first of none.
fn is_first_of_none(future: &UnresolvedFuture) -> bool
    ensures { result ≡ is_first_of_none (tree_of future.now) }
{
    match future {
        UnresolvedFuture::FirstCompleted(children) => children.is_empty(),
        _ => false,
    }
}

/// A future that the cancel signal ends too.
fn or_cancelled(alloc: Global, future: UnresolvedFuture) -> Result<UnresolvedFuture, AllocError>
    ensures { IfOk result (λ both. tree_of both ≡ or_cancelled (tree_of future)) }
{
    let mut children = Vec::with_capacity(alloc, 2)?;
    if is_first_of_none(&future) {
        drop(future);
    } else {
        children.push(future)?;
    }
    children.push(UnresolvedFuture::Single(CANCEL_NOTIFICATION_HANDLE))?;
    Ok(UnresolvedFuture::FirstCompleted(Items::from_vec(children)))
}

/// The invocation is suspended on a future.
fn suspend(machine: &mut Machine, future: Future) -> Result<Awaited, AllocError>
    ensures ok { IfOk result (λ answer. answer ≡ Err (named_error Suspended None)) }
    ensures done { OnOk result (machine.new ≡ suspended future machine.old) }
    ensures err { OnErr result (machine.new ≡ machine.old) }
{
    let message = Message::Suspension(Suspension { future });
    machine.output.write(machine.alloc, &message)?;
    machine.output_ended = true;
    machine.phase = Phase::Closed;
    Ok(Awaited::suspended())
}

/// The invocation is suspended on what is left of a tree.
fn suspend_on(machine: &mut Machine, left: &Residue) -> Result<Awaited, AllocError>
    ensures ok { IfOk result (λ answer. answer ≡ Err (named_error Suspended None)) }
    ensures done { OnOk result (machine.new
        ≡ suspended (sent (ids machine.old.results) (tree_left left.now)) machine.old) }
    ensures err { OnErr result (machine.new ≡ machine.old) }
{
    let future = future_of(machine.alloc, &machine.results, left)?;
    suspend(machine, future)
}

/// Whether an await that waits says what for.
fn says_so(machine: &Machine, left: &Residue) -> Result<bool, AllocError>
    ensures { IfOk result (λ says. says
        ≡ says_so machine.now.version machine.now.options.awaiting_on_policy
        (list_any is_executing machine.now.runs) (tree_left left.now)) }
{
    let executing = machine.runs.any_executing();
    if machine.version < Version::V7 || !allows(machine.options.awaiting_on_policy, executing) {
        return Ok(false);
    }
    has_leaf(machine.alloc, left)
}

/// Says that an await waits for a future.
fn say(machine: &mut Machine, future: Future) -> Result<(), AllocError>
    ensures ok { OnOk result (machine.new
        ≡ record machine.old {
          output = machine.old.output
              ++ encoding (message.AwaitingOn
              (record { future = future; executing_side_effects = false })) ∷ [];
        }) }
    ensures err { OnErr result (machine.new ≡ machine.old) }
{
    let message = Message::AwaitingOn(AwaitingOn {
        future,
        executing_side_effects: false,
    });
    machine.output.write(machine.alloc, &message)
}

/// Says that an await waits for what is left of its tree. That of a leaf takes no memory for lists.
fn say_left(machine: &mut Machine, left: &Residue) -> Result<(), AllocError>
    ensures ok { OnOk result (machine.new ≡ awaiting_said (tree_left left.now) machine.old) }
    ensures err { OnErr result (machine.new ≡ machine.old) }
{
    if let Some(handle) = lone_handle(left) {
        if let Some(id) = machine.results.find(handle) {
            return machine.output.write_awaiting(machine.alloc, id, None);
        }
    }
    let future = future_of(machine.alloc, &machine.results, left)?;
    say(machine, future)
}

/// An await waits for what is left of its tree, and says so.
fn wait_on(machine: &mut Machine, left: &Residue) -> Result<(), AllocError>
    ensures ok { OnOk result (machine.new ≡ waiting (tree_left left.now) machine.old) }
    ensures err { OnErr result (machine.new ≡ machine.old) }
{
    if !says_so(machine, left)? {
        return Ok(());
    }
    say_left(machine, left)
}

/// The pending run of a handle that wasn't taken, as an error that relates to its command shows it.
fn related_run(machine: &Machine, handle: u32) -> Result<Option<RelatedCommand>, AllocError>
    ensures { IfOk result (λ related. related
        ≡ option_map run_as_related (run_at handle machine.now)) }
{
    if machine.results.find(handle).is_none() {
        return Ok(None);
    }
    match machine.runs.get_run_info(&NotificationHandle(handle)) {
        None => Ok(None),
        Some((index, name)) => Ok(Some(RelatedCommand {
            index,
            ty: MessageType::RunCommand,
            name: Text::from_str(machine.alloc, name)?,
        })),
    }
}

/// The run of the last of these handles that has one, as an error that relates to its command shows it.
fn last_related_run(
    machine: &Machine,
    handles: &[u32],
) -> Result<Option<RelatedCommand>, AllocError>
    ensures { IfOk result (λ related. related
        ≡ option_map run_as_related (last_run handles.now machine.now)) }
{
    let mut found = None;
    for handle in handles {
        found = related_run(machine, *handle)?.or(found);
    }
    Ok(found)
}

/// The first of the runs with these handles that isn't executing is executed from now on.
fn execute_run(machine: &mut Machine, handles: &[u32]) -> Option<NotificationHandle>
    ensures run { result ≡ option_map handle_of (find (may_execute handles.now) machine.old.runs) }
    ensures some { IfSome result (λ run. machine.new ≡ executed handles.now machine.old) }
    ensures none { IfNone result (machine.new ≡ machine.old) }
{
    match machine.runs.try_execute_run(handles) {
        Some(run) => Some(run),
        None => None,
    }
}

/// An await waits for input and for the results of runs, by whether a run that it waits for is executing. If no input comes any
/// more, no ephemeral read may be in flight; if no run's result can come either, the invocation is suspended.
fn wait_or_suspend(machine: &mut Machine, left: &Residue, executing: bool) -> Result<Awaited, Fault>
    ensures { Gives (waits_by machine.old.input_closed (any_in_flight machine.old.ephemeral)
        executing (tree_left left.now) machine.old) result machine.old machine.new }
{
    if !machine.input_closed {
        wait_on(machine, left)?;
        return Ok(Awaited::with(AwaitResponse::WaitingExternalProgress {
            waiting_input: true,
            waiting_run_proposal: executing,
        }));
    }
    if machine.ephemeral.any_in_flight() {
        return Err(refuse(NamedFault::InputClosedWhileWaitingEphemeralNotifications));
    }
    if executing {
        return Ok(Awaited::with(AwaitResponse::WaitingExternalProgress {
            waiting_input: false,
            waiting_run_proposal: true,
        }));
    }
    Ok(suspend_on(machine, left)?)
}

/// An await that stays pending on what is left of a tree.
#[inline(never)]
fn pend_on(machine: &mut Machine, left: &Residue) -> Result<Awaited, Fault>
    ensures { Gives (pending_on (tree_left left.now) machine.old) result machine.old machine.new }
{
    let handles = list_handles(machine.alloc, left)?;
    if machine.phase.is_replaying() {
        let related = last_related_run(machine, handles.as_slice())?;
        let fault = NamedFault::UncompletedDoProgressDuringReplay;
        return Err(Fault::Refused(Error::named(fault, related)));
    }
    if let Some(run) = execute_run(machine, handles.as_slice()) {
        return Ok(Awaited::with(AwaitResponse::ExecuteRun(run)));
    }
    let executing = machine.runs.any_executing_in_this_set(handles.as_slice());
    wait_or_suspend(machine, left, executing)
}

/// The signal that a handle stands for, if it does for one by number.
fn signal_of(machine: &Machine, handle: u32) -> Option<u32>
    ensures { result ≡ signal_in (ids machine.now.results handle) }
{
    match machine.results.find(handle) {
        Some(NotificationId::SignalId(signal)) => Some(*signal),
        _ => None,
    }
}

/// Says that an await waits for the first of two handles. That of an id and a signal takes no memory for lists.
fn say_two(machine: &mut Machine, one: u32, other: u32) -> Result<(), AllocError>
    ensures ok { OnOk result (machine.new ≡ awaiting_said (first_of_two one other) machine.old) }
    ensures err { OnErr result (machine.new ≡ machine.old) }
{
    if let Some(signal) = signal_of(machine, other) {
        if let Some(id) = machine.results.find(one) {
            return machine
                .output
                .write_awaiting(machine.alloc, id, Some(signal));
        }
    }
    let future = future_of_two(machine.alloc, &machine.results, one, other)?;
    say(machine, future)
}

/// An await of a handle, or of the cancel signal, waits, and says so: a leaf is left in any case.
fn wait_on_either(machine: &mut Machine, handle: u32) -> Result<(), AllocError>
    ensures ok { OnOk result (machine.new ≡ waiting (or_cancelled (leaf handle)) machine.old) }
    ensures err { OnErr result (machine.new ≡ machine.old) }
{
    let executing = machine.runs.any_executing();
    if machine.version < Version::V7 || !allows(machine.options.awaiting_on_policy, executing) {
        return Ok(());
    }
    say_two(machine, handle, CANCEL_NOTIFICATION_HANDLE.0)
}

/// The invocation is suspended on a handle or the cancel signal.
fn suspend_on_either(machine: &mut Machine, handle: u32) -> Result<Awaited, AllocError>
    ensures ok { IfOk result (λ answer. answer ≡ Err (named_error Suspended None)) }
    ensures done { OnOk result (machine.new
        ≡ suspended (sent (ids machine.old.results) (or_cancelled (leaf handle))) machine.old) }
    ensures err { OnErr result (machine.new ≡ machine.old) }
{
    let cancel = CANCEL_NOTIFICATION_HANDLE.0;
    let future = future_of_two(machine.alloc, &machine.results, handle, cancel)?;
    suspend(machine, future)
}

/// As `wait_or_suspend`, of a handle or the cancel signal.
fn wait_or_suspend_either(
    machine: &mut Machine,
    handle: u32,
    executing: bool,
) -> Result<Awaited, Fault>
    ensures { Gives (waits_by machine.old.input_closed (any_in_flight machine.old.ephemeral)
        executing (or_cancelled (leaf handle)) machine.old) result machine.old machine.new }
{
    if !machine.input_closed {
        wait_on_either(machine, handle)?;
        return Ok(Awaited::with(AwaitResponse::WaitingExternalProgress {
            waiting_input: true,
            waiting_run_proposal: executing,
        }));
    }
    match (machine.ephemeral.any_in_flight(), executing) {
        (true, _) => Err(refuse(NamedFault::InputClosedWhileWaitingEphemeralNotifications)),
        (false, true) => Ok(Awaited::with(AwaitResponse::WaitingExternalProgress {
            waiting_input: false,
            waiting_run_proposal: true,
        })),
        (false, false) => Ok(suspend_on_either(machine, handle)?),
    }
}

/// As `pend_on`, of a handle or the cancel signal, in Processing.
#[inline(never)]
fn pend_on_either(machine: &mut Machine, handle: u32) -> Result<Awaited, Fault>
    requires past { is_replaying machine.old.phase ≡ false }
    ensures { Gives (pending_on (or_cancelled (leaf handle)) machine.old) result
        machine.old
        machine.new }
{
    let handles = [handle, CANCEL_NOTIFICATION_HANDLE.0];
    if let Some(run) = execute_run(machine, &handles) {
        return Ok(Awaited::with(AwaitResponse::ExecuteRun(run)));
    }
    let executing = machine.runs.any_executing_in_this_set(&handles);
    wait_or_suspend_either(machine, handle, executing)
}

/// One try of a future by the notifications alone; it may stay pending.
#[tactic(auto, using(crate::proofs::Resolving::stays_pending))]
fn try_alone(machine: &mut Machine, future: &UnresolvedFuture) -> Result<Awaited, Fault>
    ensures { GivesBy (Tries (tree_of future.now) machine.old) result machine.old machine.new }
{
    let delivery = machine.options.signal_delivery;
    match try_future(machine.alloc, &mut machine.results, delivery, future)? {
        Resolution::AnyCompleted => Ok(Awaited::with(AwaitResponse::AnyCompleted)),
        Resolution::Pending(left) => pend_on(machine, &left),
    }
}

/// Whether the cancel signal is there.
fn is_cancelled(machine: &Machine) -> bool
    ensures { result ≡ is_cancelled machine.now }
{
    let delivery = machine.options.signal_delivery;
    machine
        .results
        .present(delivery, CANCEL_NOTIFICATION_HANDLE.0)
        .is_some()
}

/// The invocation's id that the present result of a handle is.
fn id_at(machine: &Machine, handle: u32) -> Result<Option<Text>, AllocError>
    ensures { IfOk result (λ id. id ≡ option_and_then id_of_result (result_at handle machine.now)) }
{
    match machine
        .results
        .present(machine.options.signal_delivery, handle)
    {
        Some(NotificationResult::InvocationId(id)) => Ok(Some(copy_of(id)?)),
        _ => Ok(None),
    }
}

/// Awaits the handle of a tracked call's id by itself, the first whose id isn't known, and reads the id.
fn read_id(machine: &mut Machine, handle: u32) -> Result<Awaited, Fault>
    ensures { GivesBy (ReadsId handle machine.old) result machine.old machine.new }
{
    let future = UnresolvedFuture::Single(NotificationHandle(handle));
    let given = try_alone(machine, &future);
    drop(future);
    let answer = given?;
    if !has_woken(&answer) {
        return Ok(answer);
    }
    match id_at(machine, handle)? {
        Some(id) => machine.tracked.resolve_first(id),
        None => return Err(refuse(NamedFault::UnexpectedInvocationIdResult)),
    }
    Ok(Awaited::with(AwaitResponse::AnyCompleted))
}

/// Reads the ids of tracked calls that aren't known, as they come.
#[inline(never)]
fn gather_ids(machine: &mut Machine) -> Result<Awaited, Fault>
    ensures { GivesBy (Gathers (unresolved_handles machine.old.tracked) machine.old) result
        machine.old
        machine.new }
{
    while let Some(handle) = machine.tracked.first_unresolved() {
        let answer = read_id(machine, handle)?;
        if !has_woken(&answer) {
            return Ok(answer);
        }
    }
    Ok(Awaited::with(AwaitResponse::CancelSignalReceived))
}

/// One try of a future, or of the cancel signal, by a walk over the tree of both.
fn try_both(machine: &mut Machine, future: UnresolvedFuture) -> Result<Awaited, Fault>
    ensures { GivesBy (Tries (or_cancelled (tree_of future)) machine.old) result
        machine.old
        machine.new }
{
    let future = or_cancelled(machine.alloc, future)?;
    let given = try_alone(machine, &future);
    drop(future);
    given
}

/// Ends an await that has woken, by whether the cancel signal is there.
fn end_awake(machine: &mut Machine) -> Result<Awaited, Fault>
    ensures { GivesBy (EndsBy (is_cancelled machine.old) machine.old) result
        machine.old
        machine.new }
{
    if !is_cancelled(machine) {
        return Ok(Awaited::with(AwaitResponse::AnyCompleted));
    }
    gather_ids(machine)
}

/// Awaits a future, or the cancel signal, by a walk over the tree of both.
#[inline(never)]
fn try_or_cancel(machine: &mut Machine, future: UnresolvedFuture) -> Result<Awaited, Fault>
    ensures { GivesBy (TriesOrCancels (tree_of future) machine.old) result machine.old machine.new }
{
    let answer = try_both(machine, future)?;
    if !has_woken(&answer) {
        return Ok(answer);
    }
    end_awake(machine)
}

/// Awaits a handle that isn't there, or the cancel signal, which isn't either. It needs no tree, except in replay.
#[inline(never)]
fn pend_or_cancel(machine: &mut Machine, handle: u32) -> Result<Awaited, Fault>
    requires { (delivery : Delivery)
        → LeftPending delivery machine.old.results (first_of_two handle 1) (first_of_two handle 1) }
    ensures { GivesBy (TriesOrCancels (leaf handle) machine.old) result machine.old machine.new }
{
    if !machine.phase.is_replaying() {
        use_all(&mut machine.results);
        return pend_on_either(machine, handle);
    }
    try_or_cancel(
        machine,
        UnresolvedFuture::Single(NotificationHandle(handle)),
    )
}

/// Awaits a handle, or the cancel signal. What wakes at once is most usual, so all else is apart.
fn await_either(machine: &mut Machine, handle: u32) -> Result<Awaited, Fault>
    ensures { GivesBy (TriesOrCancels (leaf handle) machine.old) result machine.old machine.new }
{
    let cancel = CANCEL_NOTIFICATION_HANDLE.0;
    match uses_until_either(&machine.results, handle, cancel) {
        Some(enough) => {
            use_first(&mut machine.results, enough);
            end_awake(machine)
        }
        None => pend_or_cancel(machine, handle),
    }
}

/// Awaits a future, or the cancel signal. That of one handle needs no tree.
fn await_or_cancel(machine: &mut Machine, future: UnresolvedFuture) -> Result<Awaited, Fault>
    ensures { GivesBy (TriesOrCancels (tree_of future) machine.old) result machine.old machine.new }
{
    if let UnresolvedFuture::Single(handle) = &future {
        return await_either(machine, handle.0);
    }
    try_or_cancel(machine, future)
}

/// Awaits a future by the notifications alone.
#[inline(never)]
fn try_future_alone(machine: &mut Machine, future: UnresolvedFuture) -> Result<Awaited, Fault>
    ensures { GivesBy (Tries (tree_of future) machine.old) result machine.old machine.new }
{
    let given = try_alone(machine, &future);
    drop(future);
    given
}

/// The handler awaits a tree. The inner error is an answer by which the machine doesn't fail.
pub fn await_tree(machine: &mut Machine, future: UnresolvedFuture) -> Result<Awaited, Fault>
    ensures { GivesBy (Awaits (tree_of future) machine.old) result machine.old machine.new }
{
    if !machine.phase.is_running() {
        return Err(refuse(machine.phase.fault()));
    }
    if ends_awaits(machine.options.implicit_cancellation) {
        return await_or_cancel(machine, future);
    }
    try_future_alone(machine, future)
}

/// Takes one result of the cancel handle.
pub fn drop_cancel(machine: &mut Machine)
    ensures { machine.new ≡ cancel_taken machine.old }
{
    let delivery = machine.options.signal_delivery;
    let _ = machine.results.take(delivery, CANCEL_NOTIFICATION_HANDLE.0);
}
