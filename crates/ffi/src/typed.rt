//! The typed calls of the VM.
ghost use Rattle.std.specs.Prelude.{◌≡◌};
ghost use Rattle.c_sessions.specs.Calls.{CalledFromC, OwnFromC, PartRead};
ghost use Rattle.c_sessions.specs.Retries.{retry_in};
ghost use Rattle.c_values.specs.Statuses.{IsStatus, status_by};
ghost use Rattle.c_calls.specs.Making.{MakesAsGiven};
ghost use Rattle.c_calls.specs.Calls.{AsksCompleted, AsksIndex, AsksReady, AsksState, AttachesTo, AwaitsHandle, AwaitsNodes, CallsHandler, CallsWithDeadline, CancelsInvocation, ClearsAllState, ClearsState, ClosesInput, CompletesAwakeable, CompletesPromise, CompletesSignal, EndsHandler, GetsOutput, GetsPromise, MakesAwakeable, MakesSignal, PeeksPromise, ProposesResult, ProposesRetryable, ReadsEphemerally, ReadsHead, ReadsInput, ReadsKeys, ReadsState, ReportsError, CallsARun, SendsTo, SetsState, CallsSleep, TakesResult, TakesEphemeral, TakesOutputOf, WritesOutput};

use c_calls::awaits::{AwaitCall, AwaitTreeCall, TakeCall};
use c_calls::callees::{CallCall, DeadlineCall, GivenTarget, SendCall};
use c_calls::given::{Lent, MayLend};
use c_calls::invocations::{AttachCall, GetOutputCall, GivenInvocation};
use c_calls::journal::{
    AwakeableCall, CancelCall, CompleteAwakeableCall, CompletePromiseCall, CompleteSignalCall,
    EndCall, GetPromiseCall, PeekPromiseCall, SignalCall, SleepCall, WriteOutputCall,
};
use c_calls::making::{GivenOptions, make_vm};
use c_calls::nodes::Node;
use c_calls::policies::GivenPolicy;
use c_calls::queries::{
    CloseCall, CompletedCall, HeadCall, IndexCall, InputCall, OutputCall, ReadyCall, StateCall,
};
use c_calls::reports::{GivenCommand, GivenError, ReportCall};
use c_calls::run_calls::{ProposeCall, ProposeRetryableCall, RunCall};
use c_calls::state::{
    ClearAllCall, ClearCall, EphemeralGetCall, GetCall, GetKeysCall, SetCall, TakeEphemeralCall,
};
use c_calls::values::GivenValue;
use c_sessions::vm_call::{call, call_own, read_part, read_retry};
use c_sessions::{Replied, Retry, Vm};
use c_values::Told;
use std::alloc::Global;

/// Writes a part of the last reply to the front of `out`, if it has room for it. Returns the part's length either way.
#[unsafe(no_mangle)]
pub extern "C" fn proved_part(alloc: Global, vm: &mut Vm, at: usize, out: &mut [u8]) -> Told
    ensures kept { vm.new.value ≡ vm.old.value }
    ensures known { IsStatus result.status }
    ensures read { PartRead at (status_by result.status) result.len out.old out.new
        vm.old.value }
{
    read_part(alloc, vm, at, out)
}

/// What is done after the error that the last reply is: what comes of the invocation, and the delay of the next try.
#[unsafe(no_mangle)]
pub extern "C" fn proved_next_retry(alloc: Global, vm: &mut Vm) -> Retry
    ensures kept { vm.new.value ≡ vm.old.value }
    ensures read { result ≡ retry_in vm.old.value }
{
    read_retry(alloc, vm)
}

/// Makes a VM, which replaces the last one.
#[unsafe(no_mangle)]
pub extern "C" fn proved_make(
    alloc: Global,
    vm: &mut Vm,
    content_type: MayLend,
    options: &GivenOptions,
) -> Replied
    ensures { MakesAsGiven alloc content_type.entry options.now result vm.old.value vm.new.value }
{
    make_vm(alloc, vm, content_type, options)
}

/// Fails the VM by an error of the handler's own.
#[unsafe(no_mangle)]
pub extern "C" fn proved_report_error(
    alloc: Global,
    vm: &mut Vm,
    error: &GivenError,
    related: &GivenCommand,
) -> Replied
    ensures { CalledFromC (ReportsError error.now related.now) result vm.old.value vm.new.value }
{
    call(
        alloc,
        vm,
        ReportCall {
            error: *error,
            related: *related,
        },
    )
}

/// Attaches to another invocation.
#[unsafe(no_mangle)]
pub extern "C" fn proved_attach(alloc: Global, vm: &mut Vm, invocation: &GivenInvocation) -> Replied
    ensures { CalledFromC (AttachesTo invocation.now) result vm.old.value vm.new.value }
{
    call(
        alloc,
        vm,
        AttachCall {
            invocation: *invocation,
        },
    )
}

/// Looks whether another invocation has an output.
#[unsafe(no_mangle)]
pub extern "C" fn proved_get_output(
    alloc: Global,
    vm: &mut Vm,
    invocation: &GivenInvocation,
) -> Replied
    ensures { CalledFromC (GetsOutput invocation.now) result vm.old.value vm.new.value }
{
    call(
        alloc,
        vm,
        GetOutputCall {
            invocation: *invocation,
        },
    )
}

/// A sleep until a time, in milliseconds since the Unix epoch.
#[unsafe(no_mangle)]
pub extern "C" fn proved_sleep(
    alloc: Global,
    vm: &mut Vm,
    name: Lent,
    wake_up_millis: u64,
) -> Replied
    ensures { CalledFromC (CallsSleep name.entry.bytes.now wake_up_millis)
        result vm.old.value vm.new.value }
{
    call(
        alloc,
        vm,
        SleepCall {
            name,
            wake_up_millis,
        },
    )
}

/// Makes an awakeable.
#[unsafe(no_mangle)]
pub extern "C" fn proved_awakeable(alloc: Global, vm: &mut Vm) -> Replied
    ensures { CalledFromC MakesAwakeable result vm.old.value vm.new.value }
{
    call(alloc, vm, AwakeableCall)
}

/// A handle for the signal of this name.
#[unsafe(no_mangle)]
pub extern "C" fn proved_signal(alloc: Global, vm: &mut Vm, name: Lent) -> Replied
    ensures { CalledFromC (MakesSignal name.entry.bytes.now) result vm.old.value vm.new.value }
{
    call(alloc, vm, SignalCall { name })
}

/// Awaits a promise of the workflow.
#[unsafe(no_mangle)]
pub extern "C" fn proved_get_promise(alloc: Global, vm: &mut Vm, key: Lent) -> Replied
    ensures { CalledFromC (GetsPromise key.entry.bytes.now) result vm.old.value vm.new.value }
{
    call(alloc, vm, GetPromiseCall { key })
}

/// Looks whether a promise of the workflow is completed.
#[unsafe(no_mangle)]
pub extern "C" fn proved_peek_promise(alloc: Global, vm: &mut Vm, key: Lent) -> Replied
    ensures { CalledFromC (PeeksPromise key.entry.bytes.now) result vm.old.value vm.new.value }
{
    call(alloc, vm, PeekPromiseCall { key })
}

/// Completes a promise of the workflow.
#[unsafe(no_mangle)]
pub extern "C" fn proved_complete_promise(
    alloc: Global,
    vm: &mut Vm,
    key: Lent,
    value: &GivenValue,
    unstable: bool,
) -> Replied
    ensures { CalledFromC (CompletesPromise key.entry.bytes.now value.now unstable)
        result vm.old.value vm.new.value }
{
    call(
        alloc,
        vm,
        CompletePromiseCall {
            key,
            value: *value,
            unstable,
        },
    )
}

/// Completes the awakeable of this id.
#[unsafe(no_mangle)]
pub extern "C" fn proved_complete_awakeable(
    alloc: Global,
    vm: &mut Vm,
    id: Lent,
    value: &GivenValue,
    unstable: bool,
) -> Replied
    ensures { CalledFromC (CompletesAwakeable id.entry.bytes.now value.now unstable)
        result vm.old.value vm.new.value }
{
    call(
        alloc,
        vm,
        CompleteAwakeableCall {
            id,
            value: *value,
            unstable,
        },
    )
}

/// Sends a named signal to another invocation.
#[unsafe(no_mangle)]
pub extern "C" fn proved_complete_signal(
    alloc: Global,
    vm: &mut Vm,
    target: Lent,
    name: Lent,
    value: &GivenValue,
) -> Replied
    ensures { CalledFromC (CompletesSignal target.entry.bytes.now name.entry.bytes.now value.now)
        result vm.old.value vm.new.value }
{
    call(
        alloc,
        vm,
        CompleteSignalCall {
            target,
            name,
            value: *value,
        },
    )
}

/// Sends the cancel signal to another invocation.
#[unsafe(no_mangle)]
pub extern "C" fn proved_cancel_invocation(alloc: Global, vm: &mut Vm, target: Lent) -> Replied
    ensures { CalledFromC (CancelsInvocation target.entry.bytes.now)
        result vm.old.value vm.new.value }
{
    call(alloc, vm, CancelCall { target })
}

/// The handler's result.
#[unsafe(no_mangle)]
pub extern "C" fn proved_write_output(
    alloc: Global,
    vm: &mut Vm,
    value: &GivenValue,
    unstable: bool,
) -> Replied
    ensures { CalledFromC (WritesOutput value.now unstable) result vm.old.value vm.new.value }
{
    call(
        alloc,
        vm,
        WriteOutputCall {
            value: *value,
            unstable,
        },
    )
}

/// The handler ends.
#[unsafe(no_mangle)]
pub extern "C" fn proved_end(alloc: Global, vm: &mut Vm) -> Replied
    ensures { CalledFromC EndsHandler result vm.old.value vm.new.value }
{
    call(alloc, vm, EndCall)
}

/// Gives a key of the state a value.
#[unsafe(no_mangle)]
pub extern "C" fn proved_state_set(
    alloc: Global,
    vm: &mut Vm,
    key: Lent,
    value: Lent,
    name: Lent,
    unstable: bool,
) -> Replied
    ensures { CalledFromC (SetsState key.entry.bytes.now value.entry.bytes.now
        name.entry.bytes.now unstable)
        result vm.old.value vm.new.value }
{
    call(
        alloc,
        vm,
        SetCall {
            key,
            value,
            name,
            unstable,
        },
    )
}

/// Takes a key's value away.
#[unsafe(no_mangle)]
pub extern "C" fn proved_state_clear(alloc: Global, vm: &mut Vm, key: Lent, name: Lent) -> Replied
    ensures { CalledFromC (ClearsState key.entry.bytes.now name.entry.bytes.now)
        result vm.old.value vm.new.value }
{
    call(alloc, vm, ClearCall { key, name })
}

/// Takes each key's value away.
#[unsafe(no_mangle)]
pub extern "C" fn proved_state_clear_all(alloc: Global, vm: &mut Vm, name: Lent) -> Replied
    ensures { CalledFromC (ClearsAllState name.entry.bytes.now) result vm.old.value vm.new.value }
{
    call(alloc, vm, ClearAllCall { name })
}

/// Reads a key's value.
#[unsafe(no_mangle)]
pub extern "C" fn proved_state_get(alloc: Global, vm: &mut Vm, key: Lent, name: Lent) -> Replied
    ensures { CalledFromC (ReadsState key.entry.bytes.now name.entry.bytes.now)
        result vm.old.value vm.new.value }
{
    call(alloc, vm, GetCall { key, name })
}

/// Reads the keys that have a value.
#[unsafe(no_mangle)]
pub extern "C" fn proved_state_get_keys(alloc: Global, vm: &mut Vm, name: Lent) -> Replied
    ensures { CalledFromC (ReadsKeys name.entry.bytes.now) result vm.old.value vm.new.value }
{
    call(alloc, vm, GetKeysCall { name })
}

/// Reads a key's value, and leaves nothing of it in the journal.
#[unsafe(no_mangle)]
pub extern "C" fn proved_ephemeral_state_get(alloc: Global, vm: &mut Vm, key: Lent) -> Replied
    ensures { CalledFromC (ReadsEphemerally key.entry.bytes.now) result vm.old.value vm.new.value }
{
    call(alloc, vm, EphemeralGetCall { key })
}

/// Takes the value of an ephemeral read.
#[unsafe(no_mangle)]
pub extern "C" fn proved_take_ephemeral(alloc: Global, vm: &mut Vm, id: u32) -> Replied
    ensures { CalledFromC (TakesEphemeral id) result vm.old.value vm.new.value }
{
    call(alloc, vm, TakeEphemeralCall { id })
}

/// Awaits a handle.
#[unsafe(no_mangle)]
pub extern "C" fn proved_await(alloc: Global, vm: &mut Vm, handle: u32) -> Replied
    ensures { CalledFromC (AwaitsHandle handle) result vm.old.value vm.new.value }
{
    call(alloc, vm, AwaitCall { handle })
}

/// Awaits the tree that nodes are: each node over the last of the trees in front of it.
#[unsafe(no_mangle)]
pub extern "C" fn proved_await_tree(alloc: Global, vm: &mut Vm, nodes: &[Node]) -> Replied
    ensures { CalledFromC (AwaitsNodes nodes.now) result vm.old.value vm.new.value }
{
    call(alloc, vm, AwaitTreeCall { nodes })
}

/// Takes the result of a handle.
#[unsafe(no_mangle)]
pub extern "C" fn proved_take(alloc: Global, vm: &mut Vm, handle: u32) -> Replied
    ensures { CalledFromC (TakesResult handle) result vm.old.value vm.new.value }
{
    call(alloc, vm, TakeCall { handle })
}

/// The head of the response.
#[unsafe(no_mangle)]
pub extern "C" fn proved_head(alloc: Global, vm: &mut Vm) -> Replied
    ensures { CalledFromC ReadsHead result vm.old.value vm.new.value }
{
    call(alloc, vm, HeadCall)
}

/// No more input comes.
#[unsafe(no_mangle)]
pub extern "C" fn proved_close_input(alloc: Global, vm: &mut Vm) -> Replied
    ensures { CalledFromC ClosesInput result vm.old.value vm.new.value }
{
    call(alloc, vm, CloseCall)
}

/// Takes the bytes that wait to be sent: the VM's own, so a session whose peer speaks another layer is given none.
#[unsafe(no_mangle)]
pub extern "C" fn proved_output(alloc: Global, vm: &mut Vm) -> Replied
    ensures { OwnFromC TakesOutputOf result vm.old.value vm.new.value }
{
    call_own(alloc, vm, OutputCall)
}

/// Whether the handler may be run.
#[unsafe(no_mangle)]
pub extern "C" fn proved_is_ready(alloc: Global, vm: &mut Vm) -> Replied
    ensures { CalledFromC AsksReady result vm.old.value vm.new.value }
{
    call(alloc, vm, ReadyCall)
}

/// Whether a handle has a result.
#[unsafe(no_mangle)]
pub extern "C" fn proved_is_completed(alloc: Global, vm: &mut Vm, handle: u32) -> Replied
    ensures { CalledFromC (AsksCompleted handle) result vm.old.value vm.new.value }
{
    call(alloc, vm, CompletedCall { handle })
}

/// How far the VM is.
#[unsafe(no_mangle)]
pub extern "C" fn proved_state(alloc: Global, vm: &mut Vm) -> Replied
    ensures { CalledFromC AsksState result vm.old.value vm.new.value }
{
    call(alloc, vm, StateCall)
}

/// The index of the last command.
#[unsafe(no_mangle)]
pub extern "C" fn proved_last_command_index(alloc: Global, vm: &mut Vm) -> Replied
    ensures { CalledFromC AsksIndex result vm.old.value vm.new.value }
{
    call(alloc, vm, IndexCall)
}

/// What the handler was called with.
#[unsafe(no_mangle)]
pub extern "C" fn proved_input(alloc: Global, vm: &mut Vm) -> Replied
    ensures { CalledFromC ReadsInput result vm.old.value vm.new.value }
{
    call(alloc, vm, InputCall)
}

/// Calls a run.
#[unsafe(no_mangle)]
pub extern "C" fn proved_run(alloc: Global, vm: &mut Vm, name: Lent) -> Replied
    ensures { CalledFromC (CallsARun name.entry.bytes.now) result vm.old.value vm.new.value }
{
    call(alloc, vm, RunCall { name })
}

/// Gives the result of a run that was executed, under a policy.
#[unsafe(no_mangle)]
pub extern "C" fn proved_propose(
    alloc: Global,
    vm: &mut Vm,
    handle: u32,
    value: &GivenValue,
    policy: &GivenPolicy,
) -> Replied
    ensures { CalledFromC (ProposesResult handle value.now policy.now) result vm.old.value
        vm.new.value }
{
    call(
        alloc,
        vm,
        ProposeCall {
            handle,
            value: *value,
            policy: *policy,
        },
    )
}

/// Proposes the error of a run that was executed for this number of milliseconds; its policy says whether it is tried again.
#[unsafe(no_mangle)]
pub extern "C" fn proved_propose_retryable(
    alloc: Global,
    vm: &mut Vm,
    handle: u32,
    duration_millis: u64,
    error: &GivenError,
    policy: &GivenPolicy,
) -> Replied
    ensures { CalledFromC (ProposesRetryable handle duration_millis error.now policy.now)
        result vm.old.value vm.new.value }
{
    call(
        alloc,
        vm,
        ProposeRetryableCall {
            handle,
            duration_millis,
            error: *error,
            policy: *policy,
        },
    )
}

/// Calls another handler.
#[unsafe(no_mangle)]
pub extern "C" fn proved_call(
    alloc: Global,
    vm: &mut Vm,
    target: &GivenTarget,
    input: Lent,
    name: Lent,
    unstable: bool,
) -> Replied
    ensures { CalledFromC (CallsHandler target.now input.entry.bytes.now name.entry.bytes.now
        unstable)
        result vm.old.value vm.new.value }
{
    call(
        alloc,
        vm,
        CallCall {
            target: *target,
            input,
            name,
            unstable,
        },
    )
}

/// Calls another handler, with a deadline in milliseconds since the Unix epoch.
#[unsafe(no_mangle)]
pub extern "C" fn proved_call_with_deadline(
    alloc: Global,
    vm: &mut Vm,
    target: &GivenTarget,
    input: Lent,
    deadline_millis: u64,
    name: Lent,
    unstable: bool,
) -> Replied
    ensures { CalledFromC (CallsWithDeadline target.now input.entry.bytes.now deadline_millis
        name.entry.bytes.now unstable)
        result vm.old.value vm.new.value }
{
    call(
        alloc,
        vm,
        DeadlineCall {
            target: *target,
            input,
            deadline_millis,
            name,
            unstable,
        },
    )
}

/// Calls another handler, at once or at a time, and waits for no result.
#[unsafe(no_mangle)]
pub extern "C" fn proved_send(
    alloc: Global,
    vm: &mut Vm,
    target: &GivenTarget,
    input: Lent,
    at_millis: u64,
    name: Lent,
    unstable: bool,
) -> Replied
    ensures { CalledFromC (SendsTo target.now input.entry.bytes.now at_millis
        name.entry.bytes.now unstable)
        result vm.old.value vm.new.value }
{
    call(
        alloc,
        vm,
        SendCall {
            target: *target,
            input,
            at_millis,
            name,
            unstable,
        },
    )
}
