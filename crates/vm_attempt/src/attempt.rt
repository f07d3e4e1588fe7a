//! One attempt of a handler: bytes in, steps, bytes out. Its answers are at all times those of the handler's run over its journal.
ghost use Rattle.std.specs.Prelude.{codes};

use crate::inner::Inner;
use crate::progress::Progress;
use await_trees::NotificationHandle;
use bytes::Bytes;
use invocation_vm::{CoreVM, VM, version_in};
use journal_protocol::{Error, HeaderMap, Version};
use std::alloc::{AllocError, Global};
use std::marker::Model;
use vm_retries::RetryPolicy;
use vm_types::{Answer, Handler, RunExitResult, State, VMOptions, VMResult};

/// An attempt of a handler over the VM. It keeps a record: each piece of input until the VM failed or closed, the pieces that
/// came to a closed VM after them, whether the input was closed, the run whose result failed the VM, the answers, and all output, from
/// which the proposals are read.
pub struct Attempt<H: Handler> {
    version: Version,
    options: VMOptions,
    inner: Inner<H>,
}

/// Written out, so that dropping an attempt calls this: a derived drop is proved once more in each crate above.
impl<H: Handler + Drop> Drop for Attempt<H> {
    fn drop(self) {
        let Self {
            version: _,
            options: _,
            inner,
        } = self;
        drop(inner);
    }
}

impl<H: Handler> Model for Attempt<H> {
    ghost use Rattle.vm_attempt.specs.Record.{AttemptView};
    ghost use Rattle.vm_attempt.specs.Inside.{the_record};
    ghost use Rattle.vm_model.specs.Fixed.{fixed_by};
    ghost use Rattle.vm_attempt.specs.Invariant.{AlwaysHolds};
    ghost use Rattle.await_trees.specs.contracts.tree.UnresolvedFuture as future;
    ghost use Rattle.std.specs.Coded.{codes};

    ghost Value = { AttemptView H };

    ghost coded = { Prim.hlevel (codes, future.the_row.coded) };

    ghost view = { λ a. record { handler = a.inner.handler; version = a.version; options = a.options; record_of = the_record a.inner } };

    ghost invariant = { λ a. AlwaysHolds (fixed_by (H.meaning a.inner.handler) a.version a.options) (the_record a.inner) };
}

impl<H: Handler> Attempt<H> {
    ghost use Rattle.std.specs.Prelude.{◌≡◌, ◌⊎◌, [], IfErr, IfOk, None, Ok};
    ghost use Rattle.invocation_vm.specs.Making.{IsSupported, version_in};
    ghost use Rattle.vm_parts.specs.Outboxes.{WholeStream};
    ghost use Rattle.vm_attempt.specs.Stepping.{MakesAttempt, StepDoes, FeedDoes, FinishDoes, CloseDoes, IfWaits, IsReplaying, Takes, output_len};
    ghost use Rattle.vm_attempt.specs.Attempts.{AnswersAsTold, CarriesNewIds, HasCause, IsHonestlyFed, IsItsOwn, IsWellFed, IsWellFedInReplay, ProvesItsJournal, StepReplays, WaitsRightly};
    ghost use Rattle.vm_machine.specs.Queries.{state_of};
    ghost use Rattle.vm_types.specs.declared.types.State.TheVariants as state;
    ghost use Rattle.vm_attempt.specs.Fixed.{fixed_of};
    ghost use Rattle.vm_attempt.specs.Blames.{IfError};
    ghost use Rattle.vm_attempt.specs.Heard.{proposals_in};
    ghost use Rattle.vm_attempt.specs.Record.{bytes_written};
    ghost use Rattle.vm_attempt.specs.Told.{HasCome, written_by};

    /// An attempt for the version that the header `content-type` names; the VM's refusals are its own.
    pub fn new<M: HeaderMap>(
        alloc: Global,
        headers: M,
        options: VMOptions,
        handler: H,
    ) -> VMResult<Self>
    where
        H: Drop,
        ensures { MakesAttempt alloc options handler
            (version_in (M.found headers (codes "content-type"))) result }
    {
        let version = match version_in(&headers) {
            Ok(version) => version,
            Err(error) => return Err(error),
        };
        match Attempt::for_version(alloc, version, options, handler) {
            Ok(attempt) => Ok(attempt),
            Err(error) => Err(Error::from(error)),
        }
    }

    /// An attempt for a version that `supported` or `version_named` returned. Its one error is out of memory.
    pub fn for_version(
        alloc: Global,
        version: Version,
        options: VMOptions,
        handler: H,
    ) -> Result<Self, AllocError>
    where
        H: Drop,
        requires { IsSupported version }
        ensures { IfOk result (λ a. MakesAttempt alloc options handler (Ok version) (Ok a)) }
    {
        match CoreVM::for_version(alloc, version, options) {
            Ok(vm) => Ok(Attempt {
                version,
                options,
                inner: Inner::new(alloc, vm, handler),
            }),
            Err(error) => Err(error),
        }
    }

    /// The next bytes of the attempt, cut anywhere. Once the attempt is out of memory it does nothing.
    pub fn feed(&mut self, piece: Bytes) -> Result<(), AllocError>
        ensures does { FeedDoes self.old.record_of.starved piece
            self.old.record_of result self.new.record_of }
        ensures handler { self.new.handler ≡ self.old.handler }
        ensures made_for { (self.new.version ≡ self.old.version)
            × (self.new.options ≡ self.old.options) }
    {
        let fed = self.inner.feed(piece);
        // What waits now is whole frames, from which the record reads what was proposed.
        let _ = self.inner.output_len();
        fed
    }

    /// No more bytes come. Once the attempt is out of memory it does nothing.
    pub fn close(&mut self) -> Result<(), AllocError>
        ensures does { CloseDoes self.old.record_of.starved
            self.old.record_of result self.new.record_of }
        ensures handler { self.new.handler ≡ self.old.handler }
        ensures made_for { (self.new.version ≡ self.old.version)
            × (self.new.options ≡ self.old.options) }
    {
        let closed = self.inner.close();
        // What waits now is whole frames, from which the record reads what was proposed.
        let _ = self.inner.output_len();
        closed
    }

    /// Asks the handler, and the VM, for one answer more.
    pub fn step(&mut self) -> VMResult<Progress>
        ensures does { StepDoes (H.meaning self.old.handler)
            self.old.record_of result self.new.record_of }
        // Under the premises it waits or is suspended only if no number of the arrivals wakes the handler's await.
        ensures waits { IsWellFed
            (fixed_of (H.meaning self.old.handler) self.old) self.old.record_of
            → IfWaits result (WaitsRightly
            (fixed_of (H.meaning self.old.handler) self.old) self.new.record_of) }
        // While recorded commands are left, the handler's next call is answered, or it is refused if no move over the journal
        // leads on. This asks nothing of what comes once none is left.
        ensures replays { IsReplaying self.old.record_of
            → IsWellFedInReplay (fixed_of (H.meaning self.old.handler) self.old) self.old.record_of
            → StepReplays (fixed_of (H.meaning self.old.handler) self.old)
            self.old.record_of result self.new.record_of }
        // An error is out of memory, a frame or bytes that were refused, input closed too early, a journal without input, a call that was
        // refused, or a run's result that failed the VM: one of the results that were reported, with what the VM returned for it. Each error
        // but out of memory is that by which one of the attempt's calls failed the VM.
        ensures blamed { IfError result (HasCause
            (fixed_of (H.meaning self.old.handler) self.old) self.new.record_of) }
        // If the bytes are an honest attempt's over a history of the handler, an error is only out of memory, input that was closed
        // too early, a call's own refusal once no recorded command is left, or that of a run's result that failed the VM.
        ensures honest { IsHonestlyFed
            (fixed_of (H.meaning self.old.handler) self.old) self.new.record_of
            → IfError result (IsItsOwn
            (fixed_of (H.meaning self.old.handler) self.old) self.new.record_of) }
        // Where the options disable replay, the completion ids of the commands that it has written are greater than all that the commands of its
        // journal carry.
        ensures fresh { CarriesNewIds
            (fixed_of (H.meaning self.old.handler) self.old) self.new.record_of }
        ensures handler { self.new.handler ≡ self.old.handler }
        ensures made_for { (self.new.version ≡ self.old.version)
            × (self.new.options ≡ self.old.options) }
    {
        let progress = self.inner.step();
        // What waits now is whole frames, from which the clauses read the commands.
        let _ = self.inner.output_len();
        progress
    }

    /// The result of executing the run of this handle, outside the attempt. The VM proposes it, or fails, so that the run is tried again
    /// or the invocation paused; outside the handler's own calls it is ignored. Once the attempt is out of memory it stays so.
    pub fn run_result(
        &mut self,
        handle: NotificationHandle,
        exit: RunExitResult,
        policy: RetryPolicy,
    ) -> VMResult<()>
        ensures does { FinishDoes self.old.record_of.starved handle exit policy
            self.old.record_of result self.new.record_of }
        // An error is out of memory, the VM's first error, or that of this result, which is refused, or by which the run is tried again or
        // the invocation paused. Each error but out of memory is that by which one of the attempt's calls failed the VM.
        ensures blamed { IfErr result (HasCause
            (fixed_of (H.meaning self.old.handler) self.old) self.new.record_of) }
        ensures honest { IsHonestlyFed
            (fixed_of (H.meaning self.old.handler) self.old) self.new.record_of
            → IfErr result (IsItsOwn
            (fixed_of (H.meaning self.old.handler) self.old) self.new.record_of) }
        ensures handler { self.new.handler ≡ self.old.handler }
        ensures made_for { (self.new.version ≡ self.old.version)
            × (self.new.options ≡ self.old.options) }
    {
        let told = self.inner.run_result(handle, exit, policy);
        // What waits now is whole frames, from which the record reads what was proposed.
        let _ = self.inner.output_len();
        told
    }

    /// Takes all bytes that wait to be sent, whole frames in order. Out of memory changes nothing.
    pub fn take_output(&mut self) -> Result<Bytes, AllocError>
        ensures does { Takes self.old.record_of result self.new.record_of }
        ensures handler { self.new.handler ≡ self.old.handler }
        ensures made_for { (self.new.version ≡ self.old.version)
            × (self.new.options ≡ self.old.options) }
    {
        let taken = self.inner.take_output();
        // What waits now is whole frames, from which the record reads what was proposed.
        let _ = self.inner.output_len();
        taken
    }

    /// The answers so far; the first is the input. They are those of a point that is reached on the attempt's journal.
    pub fn answers(&self) -> &[Answer]
        ensures answers { result.now ≡ self.now.record_of.answers }
        // Before the input nothing is answered.
        ensures came { HasCome
            (fixed_of (H.meaning self.now.handler) self.now) self.now.record_of }
        ensures begins { self.now.record_of.answers ≡ [] → written_by self.now.record_of ≡ [] }
        // Under the premises they are those of a point that is reached on the journal, which is what was fed, followed by the
        // commands that were written; no command is written while recorded ones are left.
        ensures told { IsWellFed
            (fixed_of (H.meaning self.now.handler) self.now) self.now.record_of
            → (self.now.record_of.answers ≡ []) ⊎ AnswersAsTold
            (fixed_of (H.meaning self.now.handler) self.now) self.now.record_of }
        // The same while recorded commands are left, without a premise of what comes later.
        ensures replayed { IsReplaying self.now.record_of
            → IsWellFedInReplay (fixed_of (H.meaning self.now.handler) self.now) self.now.record_of
            → AnswersAsTold (fixed_of (H.meaning self.now.handler) self.now) self.now.record_of }
        ensures fresh { CarriesNewIds
            (fixed_of (H.meaning self.now.handler) self.now) self.now.record_of }
    {
        // What waits now is whole frames, from which the clauses read the commands.
        let _ = self.inner.output_len();
        self.inner.answers.as_slice()
    }

    /// The VM's state. In `Processing` no recorded command is left: then what was fed, if it was Start and a journal alone, proves
    /// that the journal is a history of the handler. So this is the check that a handler can replay a journal.
    pub fn state(&self) -> State
        ensures state { result ≡ state_of self.now.record_of.vm.machine }
        ensures proves { result ≡ state.Processing
            → IsWellFedInReplay (fixed_of (H.meaning self.now.handler) self.now) self.now.record_of
            → ProvesItsJournal (fixed_of (H.meaning self.now.handler) self.now) self.now.record_of }
    {
        self.inner.vm.state()
    }

    /// How many bytes the attempt has written, taken or not, as far as a `usize` goes.
    pub fn output_len(&self) -> usize
        ensures len { result ≡ output_len self.now.record_of }
        // Each frame that was written is whole: commands, proposals, errors, a suspension and the end.
        ensures whole { WholeStream (bytes_written self.now.record_of) }
        // The record's proposals are those among these frames.
        ensures proposed { self.now.record_of.proposed
            ≡ proposals_in (bytes_written self.now.record_of) }
    {
        self.inner.output_len()
    }
}
