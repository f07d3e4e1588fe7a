//! The fields of an attempt, and what its calls do to them.
ghost use Rattle.std.specs.Prelude.{◌≡◌, ◌≤◌, ◌+◌, IfOk, OnOk, OnErr, vec_len, vec_capacity};
ghost use Rattle.journal_protocol.specs.Errors.{no_memory};
ghost use Rattle.vm_parts.specs.Outboxes.{WholeFrames};
ghost use Rattle.invocation_vm.specs.Seen.{seen};
ghost use Rattle.vm_attempt.specs.Stepping.{fresh_record, replied, future_in, progress_of, asked_from, Advances, StepDoes, FeedDoes, CloseDoes, TellsUnless, Takes, output_len, with_piece_kept};

use crate::perform::perform;
use crate::progress::{Fed, Progress, Reply};
use crate::taken::Taken;
use await_trees::{NotificationHandle, UnresolvedFuture};
use bytes::Bytes;
use invocation_vm::{CoreVM, VM};
use journal_protocol::{Error, NamedFault};
use std::alloc::{AllocError, Global};
use vm_retries::RetryPolicy;
use vm_types::{Answer, Handler, RunExitResult, State, Step, VMResult};

/// The fields of an attempt.
#[derive(Drop)]
pub struct Inner<H> {
    pub fed: Vec<Fed>,
    pub late: Vec<Fed>,
    pub closed: bool,
    /// The run whose result failed the VM.
    pub failed_by: Option<NotificationHandle>,
    pub answers: Vec<Answer>,
    pub taken: Taken,
    pub waiting: Option<UnresolvedFuture>,
    pub starved: bool,
    pub over: Option<Progress>,
    pub vm: CoreVM,
    pub handler: H,
}

fn memory_error() -> Error
    ensures { result ≡ no_memory }
{
    Error::named(NamedFault::Memory, None)
}

/// A copy of the future that the step awaits.
fn kept_future(step: &Step) -> Result<Option<UnresolvedFuture>, AllocError>
    ensures { IfOk result (λ kept. kept ≡ future_in step.now) }
{
    match step {
        Step::Await(future) => Ok(Some(future.clone()?)),
        _ => Ok(None),
    }
}

/// The step that is asked next: that of the await that waits, else the handler's.
fn next_step<H: Handler>(
    handler: &H,
    waiting: &Option<UnresolvedFuture>,
    answers: &[Answer],
) -> Result<Step, AllocError>
    ensures { IfOk result (λ step. step
        ≡ asked_from waiting.now (H.meaning handler.now answers.now)) }
{
    match waiting {
        Some(future) => Ok(Step::Await(future.clone()?)),
        None => handler.next(answers),
    }
}

impl<H: Handler> Inner<H> {
    ghost use Rattle.vm_attempt.specs.Inside.{the_fields};

    pub fn new(alloc: Global, vm: CoreVM, handler: H) -> Inner<H>
        ensures record { the_fields result ≡ fresh_record (seen vm) }
        ensures handler { result.handler ≡ handler }
    {
        Inner {
            fed: Vec::new(alloc),
            late: Vec::new(alloc),
            closed: false,
            failed_by: None,
            answers: Vec::new(alloc),
            taken: Taken::new(alloc),
            waiting: None,
            starved: false,
            over: None,
            vm,
            handler,
        }
    }

    /// Takes up the VM's reply.
    fn settle(
        &mut self,
        future: Option<UnresolvedFuture>,
        reply: VMResult<Reply>,
    ) -> VMResult<Progress>
        requires { vec_len self.old.answers + 1 ≤ vec_capacity self.old.answers }
        ensures record { the_fields self.new
            ≡ replied (the_fields self.old) future reply (seen self.old.vm) }
        ensures handler { self.new.handler ≡ self.old.handler }
        ensures progress { result ≡ progress_of reply }
    {
        match reply {
            Ok(Reply::Answer(answer)) => {
                self.answers.push(answer).unwrap();
                self.waiting = None;
                Ok(Progress::Stepped)
            }
            Ok(Reply::Waiting { input, run }) => {
                self.waiting = future;
                Ok(Progress::Waiting { input, run })
            }
            Ok(Reply::Execute(run)) => {
                self.waiting = future;
                Ok(Progress::ExecuteRun(run))
            }
            Ok(Reply::Suspended) => {
                self.over = Some(Progress::Suspended);
                Ok(Progress::Suspended)
            }
            Ok(Reply::Ended) => {
                self.over = Some(Progress::Ended);
                Ok(Progress::Ended)
            }
            Err(error) => Err(error),
        }
    }

    /// The step of an attempt whose VM is ready.
    fn advance(&mut self) -> VMResult<Progress>
        ensures does { Advances (H.meaning self.old.handler) (the_fields self.old) result
            (the_fields self.new) }
        ensures handler { self.new.handler ≡ self.old.handler }
    {
        if self.answers.reserve(1).is_err() {
            self.starved = true;
            return Err(memory_error());
        }
        if self.answers.as_slice().is_empty() {
            let input = match self.vm.sys_input() {
                Ok(input) => input,
                Err(error) => return Err(error),
            };
            self.answers.push(Answer::Input(input)).unwrap();
            return Ok(Progress::Stepped);
        }
        let Ok(step) = next_step(&self.handler, &self.waiting, self.answers.as_slice()) else {
            self.starved = true;
            return Err(memory_error());
        };
        let Ok(future) = kept_future(&step) else {
            drop(step);
            self.starved = true;
            return Err(memory_error());
        };
        let reply = perform(&mut self.vm, step);
        self.settle(future, reply)
    }

    pub fn step(&mut self) -> VMResult<Progress>
        ensures does { StepDoes (H.meaning self.old.handler) (the_fields self.old) result
            (the_fields self.new) }
        ensures handler { self.new.handler ≡ self.old.handler }
    {
        if self.starved {
            return Err(memory_error());
        }
        if let Err(error) = self.vm.first_error() {
            return Err(error);
        }
        if let Some(progress) = self.over {
            return Ok(progress);
        }
        match self.vm.is_ready_to_execute() {
            Ok(true) => {}
            Ok(false) => return Ok(Progress::NotReady),
            Err(error) => return Err(error),
        }
        self.advance()
    }

    /// How many bytes stand in the output, as far as a `usize` goes; those that wait are whole frames.
    pub fn output_len(&self) -> usize
        ensures len { result ≡ output_len (the_fields self.now) }
        ensures whole { WholeFrames (the_fields self.now).vm.machine.output }
    {
        self.taken.len().saturating_add(self.vm.waiting_len())
    }

    /// Keeps a piece, unless the VM has failed.
    fn keep(&mut self, piece: &Bytes) -> Result<(), AllocError>
        ensures ok { OnOk result (the_fields self.new
            ≡ with_piece_kept piece.now (the_fields self.old)) }
        ensures err { OnErr result (the_fields self.new ≡ the_fields self.old) }
        ensures vm { seen self.new.vm ≡ seen self.old.vm }
        ensures handler { self.new.handler ≡ self.old.handler }
    {
        if self.vm.has_failed() {
            return Ok(());
        }
        let fed = Fed {
            piece: piece.clone()?,
            answers: self.answers.len(),
            output: self.output_len(),
        };
        if matches!(self.vm.state(), State::Closed) {
            self.late.push(fed)?;
        } else {
            self.fed.push(fed)?;
        }
        Ok(())
    }

    pub fn feed(&mut self, piece: Bytes) -> Result<(), AllocError>
        ensures does { FeedDoes self.old.starved piece (the_fields self.old) result
            (the_fields self.new) }
        ensures handler { self.new.handler ≡ self.old.handler }
    {
        if self.starved {
            return Ok(());
        }
        if let Err(error) = self.keep(&piece) {
            self.starved = true;
            return Err(error);
        }
        self.vm.notify_input(piece)
    }

    pub fn close(&mut self) -> Result<(), AllocError>
        ensures does { CloseDoes self.old.starved (the_fields self.old) result
            (the_fields self.new) }
        ensures handler { self.new.handler ≡ self.old.handler }
    {
        if self.starved {
            return Ok(());
        }
        self.closed = true;
        self.vm.notify_input_closed()
    }

    /// Reports the outcome of an executed run to the VM, and notes the run if that fails a VM that hadn't failed.
    pub fn run_result(
        &mut self,
        handle: NotificationHandle,
        exit: RunExitResult,
        policy: RetryPolicy,
    ) -> VMResult<()>
        ensures does { TellsUnless self.old.starved handle exit policy (the_fields self.old) result
            (the_fields self.new) }
        ensures handler { self.new.handler ≡ self.old.handler }
    {
        if self.starved {
            return Err(memory_error());
        }
        let had_failed = self.vm.has_failed();
        let told = self.vm.propose_run_completion(handle, exit, policy);
        if told.is_err() && !had_failed {
            self.failed_by = Some(handle);
        }
        told
    }

    pub fn take_output(&mut self) -> Result<Bytes, AllocError>
        ensures does { Takes (the_fields self.old) result (the_fields self.new) }
        ensures handler { self.new.handler ≡ self.old.handler }
    {
        let bytes = self.vm.waiting_output()?;
        self.taken.push(bytes.clone()?)?;
        self.vm.clear_output();
        Ok(bytes)
    }
}
