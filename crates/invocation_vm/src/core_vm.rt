//! `CoreVM`: the VM over a decoder and a machine.
ghost use Rattle.std.specs.Prelude.{◌≡◌, ◌∷◌, [], IfOk, false, is_some};
ghost use Rattle.std.specs.List.{concat};
ghost use Rattle.vm_parts.specs.Outboxes.{WholeFrames, WholeStream, len_of};
ghost use Rattle.vm_asks.specs.Asks.{AnswerFits, all_ids, ask_of, call_handles, deadline_handles, send_handle};
ghost use Rattle.vm_asks.specs.Requests.{ids_of};
ghost use Rattle.vm_awaits.specs.Cancels.{Cancels};
ghost use Rattle.vm_machine.specs.Outcomes.{Lives};
ghost use Rattle.vm_parts.specs.Tracked.{invocation_ids};
ghost use Rattle.invocation_vm.specs.Calls.{CallsAll, CallsAllFor, CallsAwait, CallsAwaitBy, CallsBefore, CallsCommand, CallsFlatAwait, CallsFor, CallsRead, CallsTry, CallsUnit, run_handle};
ghost use Rattle.invocation_vm.specs.Making.{IsSupported, made};
ghost use Rattle.invocation_vm.specs.Seen.{seen};
ghost use Rattle.invocation_vm.specs.Views.{Calls};
ghost use Rattle.await_trees.specs.declared.tree.UnresolvedFuture.TheVariants.{Single};

use crate::shared::{
    answered_so, both_handles, first_error, id_handle, make_awakeable, name_text, run_handle,
    sends_cancels, three_handles, unanswered,
};
use crate::versions::{response_head, version_in};
use crate::vm::VM;
use crate::waking::wakes_at_once;
use await_trees::{NotificationHandle, UnresolvedFuture};
use bytes::Bytes;
use journal_protocol::{Decoder, Error, HeaderMap, InvocationTarget, Version};
use plain::Text;
use std::alloc::{AllocError, Global};
use std::fmt;
use std::mem::forget;
use std::time::Duration;
use vm_asks::{Ask, Command, StateRead, asks};
use vm_awaits::{
    Awaited, await_tree, drop_cancel, finish_run, flatten, is_completed, read_ephemeral,
    ready_ephemeral, signal, take, take_ephemeral,
};
use vm_inputs::{close_input, command_before, end, make_read, read_input, report};
use vm_machine::Machine;
use vm_retries::RetryPolicy;
use vm_state::{StateKey, TrackedCall};
use vm_types::{
    AwaitResponse, AwakeableHandle, CallHandle, CommandRelationship, DeadlineCallHandle,
    EphemeralCompletionId, Input, NonEmptyValue, PayloadOptions, ResponseHead, RunExitResult,
    RunHandle, SendHandle, State, Step, Target, VMOptions, VMResult, Value,
};

/// The invocation VM.
pub struct CoreVM {
    pub(crate) decoder: Decoder,
    /// The record that each call's contract speaks of. It may be any machine: no contract of a call asks how the VM came to it.
    pub machine: Machine,
}

/// Written out, so that who lets a VM go calls this: a derived drop is proved once more in each crate above.
impl Drop for CoreVM {
    fn drop(self) {
        let Self { decoder, machine } = self;
        drop(decoder);
        // Its larger parts one by one: a machine that is taken apart at once is dear to prove.
        let Machine {
            start,
            failure,
            results,
            ..
        } = machine;
        drop(start);
        drop(failure);
        drop(results);
    }
}

impl fmt::Debug for CoreVM {
    fn fmt<W: fmt::Write>(&self, f: &mut fmt::Formatter<W>) -> fmt::Result {
        let state = self.machine.state();
        let index = self.machine.last_index();
        write!(
            f,
            "CoreVM {{ state: {state:?}, last_command_index: {index} }}"
        )
    }
}

#[tactic(auto, using(crate::proofs::Calls::does_called, crate::proofs::Calls::does_failed, crate::proofs::Calls::does_one, crate::proofs::Calls::does_none, crate::proofs::Calls::first_does, crate::proofs::Calls::answered_does, crate::proofs::Calls::settled_does, crate::proofs::Calls::first_sent, crate::proofs::Calls::first_fits, crate::proofs::Calls::answered_sent, crate::proofs::Calls::answered_fits, crate::proofs::Calls::settles_fits, crate::proofs::Calls::settles_sent, crate::proofs::Calls::called_by, crate::proofs::Calls::sent_by, crate::proofs::Calls::fits_both, crate::proofs::Several::settles_all, crate::proofs::Several::makes_both, crate::proofs::Several::makes_none, crate::proofs::Several::fits_three))]
impl CoreVM {
    /// A VM for a version that `supported` or `version_named` returned. Its one error is out of memory.
    pub fn for_version(
        alloc: Global,
        version: Version,
        options: VMOptions,
    ) -> Result<CoreVM, AllocError>
        requires { IsSupported version }
        ensures { IfOk result (λ vm. seen vm ≡ made alloc options version) }
    {
        let machine = Machine::new(alloc, version, options)?;
        Ok(CoreVM {
            decoder: Decoder::new(alloc),
            machine,
        })
    }

    /// The version of the journal protocol that the VM was made for.
    pub fn version(&self) -> Version
        ensures { result ≡ (seen self.now).machine.version }
    {
        self.machine.version
    }

    pub fn has_failed(&self) -> bool
        ensures { result ≡ is_some (seen self.now).machine.failure }
    {
        self.machine.has_failed()
    }

    /// The first error of a failed VM.
    pub fn first_error(&self) -> VMResult<()>
        ensures { Lives (seen self.now).machine.failure result }
    {
        self.machine.live()
    }

    fn call(&mut self, command: &mut Command) -> VMResult<NotificationHandle>
        ensures { CallsCommand command.old result (seen self.old) (seen self.new) }
    {
        frequent_event!(self.machine, self.machine.command(command))
    }

    /// What a step asks for.
    pub fn ask_of(&self, step: Step) -> Ask
        ensures ask { result ≡ ask_of (seen self.now).machine.version step }
        ensures fits { AnswerFits result }
    {
        asks::ask_of(self.machine.alloc, self.machine.version, step)
    }

    /// A call that has a command.
    pub fn command(&mut self, mut command: Command) -> VMResult<NotificationHandle>
        ensures { CallsCommand command result (seen self.old) (seen self.new) }
    {
        self.call(&mut command)
    }

    /// The first of two commands of a call: what both need is looked for before.
    fn call_before(&mut self, first: &mut Command, second: &Command) -> VMResult<NotificationHandle>
        ensures { CallsBefore first.old (second.now ∷ []) result (seen self.old) (seen self.new) }
    {
        event!(
            self.machine,
            command_before(&mut self.machine, first, second)
        )
    }

    fn call_both(
        &mut self,
        first: &mut Command,
        second: &mut Command,
    ) -> VMResult<NotificationHandle>
        ensures { CallsAll first.old (second.old ∷ []) result (seen self.old) (seen self.new) }
    {
        match self.call_before(first, second) {
            Ok(handle) => answered_so(handle, self.call(second)),
            Err(error) => Err(error),
        }
    }

    /// A call that has two commands: it is answered by the first one's handle.
    pub fn commands(
        &mut self,
        mut first: Command,
        mut second: Command,
    ) -> VMResult<NotificationHandle>
        ensures { CallsAll first (second ∷ []) result (seen self.old) (seen self.new) }
    {
        self.call_both(&mut first, &mut second)
    }

    /// A state read.
    pub fn read(&mut self, read: StateRead) -> VMResult<NotificationHandle>
        ensures { CallsRead read result (seen self.old) (seen self.new) }
    {
        frequent_event!(self.machine, make_read(&mut self.machine, &read))
    }

    /// A call that has a command and answers nothing.
    fn unit_of(&mut self, command: &mut Command) -> VMResult<()>
        ensures { CallsUnit command.old result (seen self.old) (seen self.new) }
    {
        unanswered(self.call(command))
    }

    /// As `unit_of`, where the command isn't used again.
    fn unit(&mut self, mut command: Command) -> VMResult<()>
        ensures { CallsUnit command result (seen self.old) (seen self.new) }
    {
        self.unit_of(&mut command)
    }

    /// A run, by whether its result is there already.
    fn run_of(&mut self, replayed: bool, command: &mut Command) -> VMResult<RunHandle>
        ensures { CallsFor (run_handle replayed) command.old result (seen self.old)
            (seen self.new) }
    {
        run_handle(replayed, self.call(command))
    }

    /// A call of another handler.
    fn call_of(&mut self, command: Command) -> VMResult<CallHandle>
        requires { ids_of command.message ≡ 2 }
        ensures { CallsFor call_handles command result (seen self.old) (seen self.new) }
    {
        both_handles(self.command(command))
    }

    /// A call of another handler with a deadline.
    fn deadline_call_of(&mut self, call: Command, deadline: Command) -> VMResult<DeadlineCallHandle>
        requires { all_ids call (deadline ∷ []) ≡ 3 }
        ensures { CallsAllFor deadline_handles call (deadline ∷ []) result (seen self.old)
            (seen self.new) }
    {
        three_handles(self.commands(call, deadline))
    }

    /// A call whose result nobody waits for.
    fn send_of(&mut self, command: Command) -> VMResult<SendHandle>
        ensures { CallsFor send_handle command result (seen self.old) (seen self.new) }
    {
        id_handle(self.command(command))
    }

    /// The first part of an await: notifications are used, and the ids are read of the invocations that are to be cancelled.
    fn await_tree(&mut self, future: UnresolvedFuture) -> VMResult<Awaited>
        ensures { CallsTry future result (seen self.old) (seen self.new) }
    {
        event!(self.machine, await_tree(&mut self.machine, future))
    }

    /// The second part of a cancelled await: each of these invocations is sent the cancel signal.
    fn cancel_all(&mut self, calls: Vec<TrackedCall>) -> VMResult<Awaited>
        ensures does { Cancels (invocation_ids calls.items) result (seen self.old).machine
            (seen self.new).machine }
        ensures same { (seen self.new).undecoded ≡ (seen self.old).undecoded }
    {
        for call in calls {
            if let Some(id) = call.invocation_id {
                if let Err(error) = self.command(asks::cancel_invocation(id)) {
                    return Err(error);
                }
            }
        }
        drop_cancel(&mut self.machine);
        Ok(Awaited::with(AwaitResponse::CancelSignalReceived))
    }

    /// As `do_await`, where an error by which the VM doesn't fail is an answer.
    pub fn try_await(&mut self, future: UnresolvedFuture) -> VMResult<Awaited>
        ensures { CallsAwait future result (seen self.old) (seen self.new) }
    {
        let given = self.await_tree(future);
        if !sends_cancels(&given) {
            return given;
        }
        let calls = self.machine.tracked.take_all();
        self.cancel_all(calls)
    }

    /// As `try_await`, of which an error is returned as one. It is apart from the awaits that wake at once.
    #[inline(never)]
    fn await_any(&mut self, future: UnresolvedFuture) -> VMResult<AwaitResponse>
        ensures { CallsAwaitBy false future result (seen self.old) (seen self.new) }
    {
        flatten(self.try_await(future))
    }

    /// The bytes that wait to be sent, which stay there: whole frames.
    pub fn waiting_output(&self) -> Result<Bytes, AllocError>
        ensures bytes { IfOk result (λ bytes. bytes ≡ concat (seen self.now).machine.output) }
        ensures whole { IfOk result WholeStream }
        ensures frames { WholeFrames (seen self.now).machine.output }
    {
        self.machine.output.bytes(self.machine.alloc)
    }

    /// The bytes that wait to be sent, where they lie: whole frames.
    pub fn waiting_bytes(&self) -> &[u8]
        ensures bytes { result.now ≡ concat (seen self.now).machine.output }
        ensures whole { WholeStream result.now }
    {
        self.machine.output.as_slice()
    }

    /// How many bytes wait to be sent, as far as a `usize` goes; they are whole frames.
    pub fn waiting_len(&self) -> usize
        ensures len { result ≡ len_of (seen self.now).machine.output }
        ensures whole { WholeFrames (seen self.now).machine.output }
    {
        self.machine.output.len()
    }

    /// Drops the bytes that wait to be sent, once they were sent.
    pub fn clear_output(&mut self)
        ensures { seen self.new ≡ record (seen self.old)
            { machine = record (seen self.old).machine { output = [] } } }
    {
        self.machine.output.clear();
    }
}

#[tactic(auto, using(crate::proofs::AtOnce::awakes, crate::proofs::AtOnce::stays, crate::proofs::AtOnce::awaits_any, crate::proofs::Calls::answers_read))]
impl CoreVM {
    /// As `do_await`, of one handle. Most such awaits wake at once, and need no tree.
    pub fn await_handle(&mut self, handle: NotificationHandle) -> VMResult<AwaitResponse>
        ensures { CallsFlatAwait (Single handle) result (seen self.old) (seen self.new) }
    {
        if let Some(id) = ready_ephemeral(&self.machine) {
            let response = AwaitResponse::EphemeralNotificationReady(id);
            return Ok(response);
        }
        if wakes_at_once(&mut self.machine, handle.0) {
            return Ok(AwaitResponse::AnyCompleted);
        }
        self.await_any(UnresolvedFuture::Single(handle))
    }
}

#[tactic(auto, using(crate::proofs::AtOnce::awakes, crate::proofs::AtOnce::stays, crate::proofs::AtOnce::awaits_any, crate::proofs::Calls::answers_read, crate::proofs::Calls::does_called, crate::proofs::Calls::does_failed, crate::proofs::Calls::first_does, crate::proofs::Calls::answered_does, crate::proofs::Calls::settled_does, crate::proofs::Calls::first_does_one, crate::proofs::Calls::answered_does_one, crate::proofs::Calls::settled_does_one, crate::proofs::Feeds::leaves_called, crate::proofs::Feeds::stays_called))]
impl VM for CoreVM {
    ghost view = { λ s. record { undecoded = s.decoder; machine = s.machine } };

    fn new<H: HeaderMap>(alloc: Global, headers: H, options: VMOptions) -> VMResult<Self> {
        let version = match version_in(&headers) {
            Ok(version) => version,
            Err(error) => return Err(error),
        };
        // As `for_version`: a VM is large to hand on.
        match Machine::new(alloc, version, options) {
            Ok(machine) => Ok(CoreVM {
                decoder: Decoder::new(alloc),
                machine,
            }),
            Err(error) => Err(Error::from(error)),
        }
    }

    fn get_response_head(&self) -> Result<ResponseHead, AllocError> {
        response_head(self.machine.alloc, self.machine.version)
    }

    fn notify_input(&mut self, bytes: Bytes) -> Result<(), AllocError> {
        if self.machine.has_failed() {
            return Ok(());
        }
        match self.decoder.push(bytes) {
            Ok(()) => {}
            Err(error) => {
                starve!(self.machine);
                return Err(error);
            }
        }
        self.consume()
    }

    fn notify_input_closed(&mut self) -> Result<(), AllocError> {
        if self.machine.has_failed() {
            return Ok(());
        }
        quiet_event!(self.machine, close_input(&mut self.machine))
    }

    fn notify_error(
        &mut self,
        error: Error,
        command_relationship: Option<CommandRelationship>,
    ) -> Result<(), AllocError> {
        if self.machine.has_failed() {
            return Ok(());
        }
        quiet_event!(
            self.machine,
            report(&mut self.machine, error, command_relationship)
        )
    }

    fn take_output(&mut self) -> Result<Bytes, AllocError> {
        let bytes = match self.waiting_output() {
            Ok(bytes) => bytes,
            Err(error) => return Err(error),
        };
        self.clear_output();
        Ok(bytes)
    }

    fn is_ready_to_execute(&self) -> VMResult<bool> {
        self.machine.is_ready()
    }

    fn is_completed(&self, handle: NotificationHandle) -> bool {
        is_completed(&self.machine, handle)
    }

    fn do_await(&mut self, future: UnresolvedFuture) -> VMResult<AwaitResponse> {
        if let UnresolvedFuture::Single(handle) = &future {
            return self.await_handle(*handle);
        }
        if let Some(id) = ready_ephemeral(&self.machine) {
            return Ok(AwaitResponse::EphemeralNotificationReady(id));
        }
        self.await_any(future)
    }

    fn take_notification(&mut self, handle: NotificationHandle) -> VMResult<Option<Value>> {
        if self.machine.has_failed() {
            return first_error(&self.machine);
        }
        settled_event!(self.machine, take(&mut self.machine, handle), settle)
    }

    fn sys_input(&mut self) -> VMResult<Input> {
        event!(self.machine, read_input(&mut self.machine))
    }

    fn sys_sleep(
        &mut self,
        name: String,
        wake_up_time_since_unix_epoch: Duration,
        now_since_unix_epoch: Option<Duration>,
    ) -> VMResult<NotificationHandle> {
        let is_named = name.capacity() > 0;
        let mut command = asks::sleep(Text::from_string(name), wake_up_time_since_unix_epoch);
        let given = self.call(&mut command);
        if !is_named {
            forget(command); // it owns no memory, and a message is large to drop
        }
        given
    }

    fn ephemeral_state_get(&mut self, key: String) -> VMResult<EphemeralCompletionId> {
        event!(
            self.machine,
            read_ephemeral(&mut self.machine, Text::from_string(key))
        )
    }

    fn take_ephemeral_notification(
        &mut self,
        id: EphemeralCompletionId,
    ) -> VMResult<Option<Value>> {
        event!(self.machine, take_ephemeral(&mut self.machine, id))
    }

    fn sys_state_set(
        &mut self,
        key: String,
        value: Bytes,
        name: Option<String>,
        options: PayloadOptions,
    ) -> VMResult<()> {
        let name = name_text(self.machine.alloc, name);
        let mut command = asks::set_state(Text::from_string(key), value, name, options);
        self.unit_of(&mut command)
    }

    fn sys_state_clear(&mut self, key: String, name: Option<String>) -> VMResult<()> {
        let name = name_text(self.machine.alloc, name);
        self.unit(asks::clear_state(Text::from_string(key), name))
    }

    fn sys_state_clear_all(&mut self, name: Option<String>) -> VMResult<()> {
        let name = name_text(self.machine.alloc, name);
        self.unit(asks::clear_all_state(name))
    }

    fn sys_call(
        &mut self,
        target: Target,
        input: Bytes,
        name: Option<String>,
        options: PayloadOptions,
    ) -> VMResult<CallHandle> {
        let alloc = self.machine.alloc;
        let version = self.machine.version;
        let name = name_text(alloc, name);
        self.call_of(asks::call(alloc, target, input, name, options, version))
    }

    fn sys_call_with_deadline(
        &mut self,
        target: Target,
        input: Bytes,
        wake_up_time_since_unix_epoch: Duration,
        name: Option<String>,
        options: PayloadOptions,
    ) -> VMResult<DeadlineCallHandle> {
        let alloc = self.machine.alloc;
        let version = self.machine.version;
        let name = name_text(alloc, name);
        let call = asks::call(alloc, target, input, name, options, version);
        let deadline = asks::sleep(Text::empty(alloc), wake_up_time_since_unix_epoch);
        self.deadline_call_of(call, deadline)
    }

    fn sys_send(
        &mut self,
        target: Target,
        input: Bytes,
        execution_time_since_unix_epoch: Option<Duration>,
        name: Option<String>,
        options: PayloadOptions,
    ) -> VMResult<SendHandle> {
        let alloc = self.machine.alloc;
        let version = self.machine.version;
        let name = name_text(alloc, name);
        let time = execution_time_since_unix_epoch;
        self.send_of(asks::send(alloc, target, input, time, name, options, version))
    }

    fn sys_state_get(
        &mut self,
        key: String,
        name: Option<String>,
        _: PayloadOptions,
    ) -> VMResult<NotificationHandle> {
        let name = name_text(self.machine.alloc, name);
        let key = StateKey::new(Text::from_string(key));
        self.read(StateRead::Value { key, name })
    }

    fn sys_state_get_keys(&mut self, name: Option<String>) -> VMResult<NotificationHandle> {
        let name = name_text(self.machine.alloc, name);
        self.read(StateRead::Keys { name })
    }

    fn sys_awakeable(&mut self) -> VMResult<AwakeableHandle> {
        event!(self.machine, make_awakeable(&mut self.machine))
    }

    fn create_signal_handle(&mut self, signal_name: String) -> VMResult<NotificationHandle> {
        frequent_event!(
            self.machine,
            signal(&mut self.machine, Text::from_string(signal_name))
        )
    }

    fn sys_complete_awakeable(
        &mut self,
        id: String,
        value: NonEmptyValue,
        options: PayloadOptions,
    ) -> VMResult<()> {
        let version = self.machine.version;
        self.unit(asks::complete_awakeable(Text::from_string(id), value, options, version))
    }

    fn sys_complete_signal(
        &mut self,
        target_invocation_id: String,
        signal_name: String,
        value: NonEmptyValue,
    ) -> VMResult<()> {
        let target = Text::from_string(target_invocation_id);
        let signal = Text::from_string(signal_name);
        self.unit(asks::complete_signal(target, signal, value, self.machine.version))
    }

    fn sys_cancel_invocation(&mut self, target_invocation_id: String) -> VMResult<()> {
        self.unit(asks::cancel_invocation(Text::from_string(target_invocation_id)))
    }

    fn sys_get_promise(&mut self, key: String) -> VMResult<NotificationHandle> {
        self.command(asks::get_promise(Text::from_string(key)))
    }

    fn sys_peek_promise(&mut self, key: String) -> VMResult<NotificationHandle> {
        self.command(asks::peek_promise(Text::from_string(key)))
    }

    fn sys_complete_promise(
        &mut self,
        key: String,
        value: NonEmptyValue,
        options: PayloadOptions,
    ) -> VMResult<NotificationHandle> {
        let version = self.machine.version;
        self.command(asks::complete_promise(Text::from_string(key), value, options, version))
    }

    fn sys_attach_invocation(&mut self, target: InvocationTarget) -> VMResult<NotificationHandle> {
        let version = self.machine.version;
        self.command(asks::attach_invocation(target, version))
    }

    fn sys_get_invocation_output(
        &mut self,
        target: InvocationTarget,
    ) -> VMResult<NotificationHandle> {
        let version = self.machine.version;
        self.command(asks::get_invocation_output(target, version))
    }

    fn sys_run(&mut self, name: String) -> VMResult<RunHandle> {
        let replayed = self.machine.knows_next();
        let mut command = asks::run(Text::from_string(name));
        self.run_of(replayed, &mut command)
    }

    fn propose_run_completion(
        &mut self,
        notification_handle: NotificationHandle,
        run_exit_result: RunExitResult,
        retry_policy: RetryPolicy,
    ) -> VMResult<()> {
        frequent_event!(
            self.machine,
            finish_run(
                &mut self.machine,
                notification_handle,
                run_exit_result,
                &retry_policy
            )
        )
    }

    fn sys_write_output(&mut self, value: NonEmptyValue, options: PayloadOptions) -> VMResult<()> {
        let version = self.machine.version;
        self.unit(asks::output(value, options, version))
    }

    fn sys_end(&mut self) -> VMResult<()> {
        event!(self.machine, end(&mut self.machine))
    }

    fn state(&self) -> State {
        self.machine.state()
    }

    fn last_command_index(&self) -> i64 {
        self.machine.last_index()
    }
}
