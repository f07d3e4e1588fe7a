//! The calls of a VM, each with what it does to the view of it.
ghost use Rattle.std.specs.Prelude.{◌≡◌, ◌/◌, [], IfOk, OnOk, OnErr, None, Ok, true, string_bytes, codes, ◌∷◌};
ghost use Rattle.std.specs.Duration.{as_nanos};
ghost use Rattle.vm_asks.specs.Asks.{attach_invocation_command, call_command, call_handles, cancel_invocation_command, clear_all_state_command, clear_state_command, complete_awakeable_command, complete_promise_command, complete_signal_command, deadline_handles, get_invocation_output_command, get_promise_command, millis_of, output_command, peek_promise_command, send_command, send_handle, set_state_command, sleep_command};
ghost use Rattle.vm_machine.specs.Ephemerals.{ephemeral_step, take_ephemeral_step};
ghost use Rattle.vm_machine.specs.Takes.{is_completed, take_step};
ghost use Rattle.vm_machine.specs.Queries.{IsReadyAt, last_index, state_of};
ghost use Rattle.vm_machine.specs.Inputs.{end_step, input_step};
ghost use Rattle.vm_machine.specs.declared.phase.Phase.TheVariants.{Closed};
ghost use Rattle.vm_machine.specs.Phases.{is_waiting};
ghost use Rattle.vm_machine.specs.Signals.{signal_step};
ghost use Rattle.vm_types.specs.Options.{skips_replay};
ghost use Rattle.vm_asks.specs.Carried.{AreBelow, all_carried};
ghost use Rattle.vm_asks.specs.declared.state_read.StateRead.TheVariants as reads;
ghost use Rattle.invocation_vm.specs.Calls.{CallsAllFor, CallsCommand, CallsFlatAwait, CallsFor, CallsProposal, CallsRead, CallsRun, CallsUnit, name_or_empty, new_awakeable_step};
ghost use Rattle.invocation_vm.specs.Making.{Makes, response_head, version_in};
ghost use Rattle.invocation_vm.specs.Views.{View, Calls, Leaves, TakesOutput, after_closing, after_error, after_input, messages_in_bytes};

use await_trees::{NotificationHandle, UnresolvedFuture};
use bytes::Bytes;
use journal_protocol::{Error, HeaderMap, InvocationTarget};
use std::alloc::{AllocError, Global};
use std::time::Duration;
use vm_retries::RetryPolicy;
use vm_types::{
    AwaitResponse, AwakeableHandle, CallHandle, CommandRelationship, DeadlineCallHandle,
    EphemeralCompletionId, Input, NonEmptyValue, PayloadOptions, ResponseHead, RunExitResult,
    RunHandle, SendHandle, State, Target, VMOptions, VMResult, Value,
};

/// One attempt of an invocation: the bytes of its journal come in, the handler's calls are answered, and the bytes
/// of its commands go out.
///
/// A call that is refused fails the VM, which then answers that first error to each later call. Out of memory is
/// answered only if a growth was refused.
pub trait VM: Sized {
    ghost view: { Self → View };

    /// A VM for the version that the header `content-type` names.
    fn new<H: HeaderMap>(alloc: Global, headers: H, options: VMOptions) -> VMResult<Self>
        ensures { Makes alloc options (version_in (H.found headers (codes "content-type"))) view
            result };

    /// The head of the response: status 200, and the content type of the version.
    fn get_response_head(&self) -> Result<ResponseHead, AllocError>
        ensures { IfOk result (λ head. head ≡ response_head (view self.now).machine.version) };

    /// The next bytes of the attempt, cut anywhere. What they spell may fail the VM; the answer is Ok then too.
    fn notify_input(&mut self, bytes: Bytes) -> Result<(), AllocError>
        ensures { Leaves (messages_in_bytes (view self.old) bytes)
            (after_input (view self.old) bytes) result
            (view self.old) (view self.new) };

    /// No more bytes are to be waited for. Memory is taken only where known entries are missing, for the error.
    fn notify_input_closed(&mut self) -> Result<(), AllocError>
        ensures does { Leaves [] (after_closing (view self.old)) result (view self.old)
            (view self.new) }
        ensures ample { OnErr result (is_waiting (view self.old).machine.phase ≡ true) };

    /// The handler's runner reports an error, which fails the VM; a VM that has failed keeps its first error. Before V7
    /// an error that isn't to be retried becomes UnsupportedFeatureForNegotiatedVersion.
    fn notify_error(
        &mut self,
        error: Error,
        command_relationship: Option<CommandRelationship>,
    ) -> Result<(), AllocError>
        ensures { Leaves [] (after_error (view self.old) error command_relationship) result
            (view self.old) (view self.new) };

    /// Takes all bytes that wait to be sent, whole frames in order.
    fn take_output(&mut self) -> Result<Bytes, AllocError>
        ensures { TakesOutput result (view self.old) (view self.new) };

    /// Whether the handler may be run: not before the known entries are there. A closed VM answers an error by which
    /// it doesn't fail.
    fn is_ready_to_execute(&self) -> VMResult<bool>
        ensures { IsReadyAt (view self.now).machine.failure (view self.now).machine.phase result };

    /// Whether a take of the handle would answer a value.
    fn is_completed(&self, handle: NotificationHandle) -> bool
        ensures { result ≡ is_completed handle.0 (view self.now).machine };

    /// In Processing an ephemeral read whose value is there is answered before all else, and again until it is taken. Else
    /// notifications are used in order of arrival until the future is done. Where it stays pending: in replay the VM
    /// fails; in Processing each run that it waits for is to be executed, by one answer a run; then with open input the caller is
    /// to wait. With closed input an ephemeral read in flight fails the VM; else the caller is to wait as long as such a run is
    /// executing; else the invocation is suspended, the VM is closed and answers the error 599. By the options the cancel signal ends it too: once the ids are there of all invocations that
    /// are cancelled with the handler's, each is sent the cancel signal, by a command each, and `CancelSignalReceived` is answered.
    fn do_await(&mut self, future: UnresolvedFuture) -> VMResult<AwaitResponse>
        ensures { CallsFlatAwait future result (view self.old) (view self.new) };

    /// Takes the result that a handle has; the handle then stands for nothing more, except the cancel handle.
    fn take_notification(&mut self, handle: NotificationHandle) -> VMResult<Option<Value>>
        ensures { Calls (take_step handle.0) result (view self.old) (view self.new) };

    /// What the handler was called with; its first call. If the options disable replay, the recorded commands after the input
    /// are dropped: each has to be readable, they are counted, and the completion ids of later calls are past all that they carry.
    fn sys_input(&mut self) -> VMResult<Input>
        ensures does { Calls input_step result (view self.old) (view self.new) }
        ensures fresh { skips_replay (view self.old).machine.options.journal_replay ≡ true
            → OnOk result (AreBelow (view self.new).machine.counters.completion
            (all_carried (view self.old).machine.commands)) };

    /// A sleep to a time since the Unix epoch, in whole ms, rounded down. The present time has no effect.
    fn sys_sleep(
        &mut self,
        name: String,
        wake_up_time_since_unix_epoch: Duration,
        now_since_unix_epoch: Option<Duration>,
    ) -> VMResult<NotificationHandle>
        ensures { CallsCommand (sleep_command (as_nanos wake_up_time_since_unix_epoch / 1_000_000)
            (string_bytes name)) result (view self.old) (view self.new) };

    /// Reads the value of a state key and leaves nothing of it in the journal, for what doesn't steer the handler. Where the VM knows
    /// the key the value is there at once; else it is asked for, which closed input refuses. It needs V8, and is refused in replay.
    fn ephemeral_state_get(&mut self, key: String) -> VMResult<EphemeralCompletionId>
        ensures { Calls (ephemeral_step (string_bytes key)) result (view self.old)
            (view self.new) };

    /// Takes the value of an ephemeral read, where it is there: void, where the key has no value. In replay it is refused.
    fn take_ephemeral_notification(&mut self, id: EphemeralCompletionId) -> VMResult<Option<Value>>
        ensures { Calls (take_ephemeral_step id.0) result (view self.old) (view self.new) };

    /// Gives a state key a value.
    fn sys_state_set(
        &mut self,
        key: String,
        value: Bytes,
        name: Option<String>,
        options: PayloadOptions,
    ) -> VMResult<()>
        ensures { CallsUnit (set_state_command (string_bytes key) value (name_or_empty name)
            options) result (view self.old) (view self.new) };

    /// Takes a state key's value away.
    fn sys_state_clear(&mut self, key: String, name: Option<String>) -> VMResult<()>
        ensures { CallsUnit (clear_state_command (string_bytes key) (name_or_empty name)) result
            (view self.old) (view self.new) };

    /// Takes each state key's value away.
    fn sys_state_clear_all(&mut self, name: Option<String>) -> VMResult<()>
        ensures { CallsUnit (clear_all_state_command (name_or_empty name)) result (view self.old)
            (view self.new) };

    /// Calls another handler, and answers the handles of the invocation's id and of its result. Of the target's texts an empty
    /// idempotency key, scope or limit key is refused; a scope and a limit key need V7.
    fn sys_call(
        &mut self,
        target: Target,
        input: Bytes,
        name: Option<String>,
        options: PayloadOptions,
    ) -> VMResult<CallHandle>
        ensures { CallsFor call_handles
            (call_command target input (name_or_empty name) options (view self.old).machine.version)
            result (view self.old) (view self.new) };

    /// As `sys_call`, and after it a sleep to a time since the Unix epoch, in whole ms, rounded down, without a name: its handle is the
    /// third. What both commands need is checked before the first is made. A time that no `u64` holds is refused. If the second
    /// is refused, or no memory is found for it, the first was made.
    fn sys_call_with_deadline(
        &mut self,
        target: Target,
        input: Bytes,
        wake_up_time_since_unix_epoch: Duration,
        name: Option<String>,
        options: PayloadOptions,
    ) -> VMResult<DeadlineCallHandle>
        ensures { CallsAllFor deadline_handles
            (call_command target input (name_or_empty name) options (view self.old).machine.version)
            (sleep_command (as_nanos wake_up_time_since_unix_epoch / 1_000_000) [] ∷ []) result
            (view self.old) (view self.new) };

    /// As `sys_call`, but nobody waits for the result; the handler is called at once, or at a time, in ms since the Unix epoch
    /// rounded down. A time that no `u64` holds is refused.
    fn sys_send(
        &mut self,
        target: Target,
        input: Bytes,
        execution_time_since_unix_epoch: Option<Duration>,
        name: Option<String>,
        options: PayloadOptions,
    ) -> VMResult<SendHandle>
        ensures { CallsFor send_handle
            (send_command target input (millis_of execution_time_since_unix_epoch)
            (name_or_empty name) options (view self.old).machine.version) result (view self.old)
            (view self.new) };

    /// Reads the value of a state key. If the VM knows the key, the answer's result is ready at once. In replay the recorded
    /// command alone decides that. The options change nothing: a recorded result is taken as it is.
    fn sys_state_get(
        &mut self,
        key: String,
        name: Option<String>,
        options: PayloadOptions,
    ) -> VMResult<NotificationHandle>
        ensures { CallsRead (reads.Value (string_bytes key) (name_or_empty name)) result
            (view self.old) (view self.new) };

    /// As `sys_state_get`, of the keys that have a value, sorted by their bytes.
    fn sys_state_get_keys(&mut self, name: Option<String>) -> VMResult<NotificationHandle>
        ensures { CallsRead (reads.Keys (name_or_empty name)) result (view self.old)
            (view self.new) };

    /// Makes an awakeable: an id for others to complete it by, and a handle to await it by. It has no command, and is
    /// refused where the options disable replay.
    fn sys_awakeable(&mut self) -> VMResult<AwakeableHandle>
        ensures { Calls new_awakeable_step result (view self.old) (view self.new) };

    /// Gives a handle for the signal of this name. Where signals queue, each of its handles takes the next delivery. It has no
    /// command.
    fn create_signal_handle(&mut self, signal_name: String) -> VMResult<NotificationHandle>
        ensures { Calls (signal_step (string_bytes signal_name)) result (view self.old)
            (view self.new) };

    /// Gives the awakeable of this id its result. A failure with metadata needs V6.
    fn sys_complete_awakeable(
        &mut self,
        id: String,
        value: NonEmptyValue,
        options: PayloadOptions,
    ) -> VMResult<()>
        ensures { CallsUnit (complete_awakeable_command (string_bytes id) value options
            (view self.old).machine.version) result (view self.old) (view self.new) };

    /// Sends a named signal to another invocation. A failure with metadata needs V6.
    fn sys_complete_signal(
        &mut self,
        target_invocation_id: String,
        signal_name: String,
        value: NonEmptyValue,
    ) -> VMResult<()>
        ensures { CallsUnit (complete_signal_command (string_bytes target_invocation_id)
            (string_bytes signal_name) value (view self.old).machine.version) result (view self.old)
            (view self.new) };

    /// Sends the built-in cancel signal to another invocation.
    fn sys_cancel_invocation(&mut self, target_invocation_id: String) -> VMResult<()>
        ensures { CallsUnit (cancel_invocation_command (string_bytes target_invocation_id)) result
            (view self.old) (view self.new) };

    /// Awaits a promise of the workflow, and answers the handle of its value.
    fn sys_get_promise(&mut self, key: String) -> VMResult<NotificationHandle>
        ensures { CallsCommand (get_promise_command (string_bytes key)) result (view self.old)
            (view self.new) };

    /// Looks whether a promise of the workflow is completed, and answers the handle of its value, or of nothing.
    fn sys_peek_promise(&mut self, key: String) -> VMResult<NotificationHandle>
        ensures { CallsCommand (peek_promise_command (string_bytes key)) result (view self.old)
            (view self.new) };

    /// Completes a promise of the workflow, and answers the handle of whether that was done: void, or a failure where it had been
    /// completed before. A failure with metadata needs V6.
    fn sys_complete_promise(
        &mut self,
        key: String,
        value: NonEmptyValue,
        options: PayloadOptions,
    ) -> VMResult<NotificationHandle>
        ensures { CallsCommand (complete_promise_command (string_bytes key) value options
            (view self.old).machine.version) result (view self.old) (view self.new) };

    /// Attaches to another invocation, and answers the handle of its result. An empty scope is refused; a scope needs V7.
    fn sys_attach_invocation(&mut self, target: InvocationTarget) -> VMResult<NotificationHandle>
        ensures { CallsCommand (attach_invocation_command target (view self.old).machine.version)
            result (view self.old) (view self.new) };

    /// Looks whether another invocation has an output, and answers the handle of it, or of nothing. An empty scope is refused; a
    /// scope needs V7.
    fn sys_get_invocation_output(
        &mut self,
        target: InvocationTarget,
    ) -> VMResult<NotificationHandle>
        ensures { CallsCommand (get_invocation_output_command target
            (view self.old).machine.version) result (view self.old) (view self.new) };

    /// A run: an effect that the caller executes outside the VM, once an await that waits for it answers `ExecuteRun`, and whose
    /// result it then proposes. Where the journal has the result, the run is `replayed` and isn't executed.
    fn sys_run(&mut self, name: String) -> VMResult<RunHandle>
        ensures { CallsRun (string_bytes name) result (view self.old) (view self.new) };

    /// The result of executing the run of this handle. A value and a terminal failure are proposed; of another failure the policy
    /// says whether it is proposed too, or fails the VM so that it is retried after a delay or paused. From V7 on a proposed result
    /// is kept, and comes as the run's completion once it is acknowledged. Metadata needs V6, a policy that may pause V7; a handle
    /// without a pending run is refused. Outside Processing nothing is done.
    fn propose_run_completion(
        &mut self,
        notification_handle: NotificationHandle,
        run_exit_result: RunExitResult,
        retry_policy: RetryPolicy,
    ) -> VMResult<()>
        ensures { CallsProposal notification_handle run_exit_result retry_policy result
            (view self.old) (view self.new) };

    /// The handler's result. A failure with metadata needs V6.
    fn sys_write_output(&mut self, value: NonEmptyValue, options: PayloadOptions) -> VMResult<()>
        ensures { CallsUnit (output_command value options (view self.old).machine.version) result
            (view self.old) (view self.new) };

    /// The handler ends; its last call. A closed VM takes no memory for it.
    fn sys_end(&mut self) -> VMResult<()>
        ensures does { Calls end_step result (view self.old) (view self.new) }
        ensures ample { (view self.old).machine.failure ≡ None → (view self.old).machine.phase
            ≡ Closed → result ≡ Ok tt };

    fn state(&self) -> State
        ensures { result ≡ state_of (view self.now).machine };

    /// The index of the last command; -1 before any.
    fn last_command_index(&self) -> i64
        ensures { result ≡ last_index (view self.now).machine.counters.command };
}
