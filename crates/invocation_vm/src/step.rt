//! The call that a step of a handler is: one arm a kind of what steps ask for.
ghost use Rattle.std.specs.Prelude.{◌≡◌, ◌∷◌, []};
ghost use Rattle.vm_asks.specs.Asks.{AnswerFits, AnswerTakes, all_ids, answer_by, command_answer};
ghost use Rattle.vm_types.specs.declared.steps.Answer.TheVariants as answer;
ghost use Rattle.invocation_vm.specs.Calls.{CallsAll, CallsCommand, result_by};
ghost use Rattle.invocation_vm.specs.Seen.{seen};
ghost use Rattle.invocation_vm.specs.Steps.{CallsAsked, CallsStep, CallsWith};
ghost use Rattle.invocation_vm.specs.declared.step.Stepped.TheVariants as stepped;

use crate::core_vm::CoreVM;
use crate::vm::VM;
use await_trees::{NotificationHandle, UnresolvedFuture};
use vm_asks::asks::{AnswerKind, command_answer};
use vm_asks::{Ask, Command};
use vm_types::{Answer, AwakeableHandle, Step, VMResult, Value};

/// What the call of a step returned.
#[derive(Drop)]
pub enum Stepped {
    Answer(Answer),
    /// The handler has ended.
    Ended,
    /// The step awaits this tree. No call was made: the caller makes it, by `VM::do_await` or by `CoreVM::try_await`.
    Await(UnresolvedFuture),
}

fn awakeable(given: VMResult<AwakeableHandle>) -> VMResult<Stepped>
    ensures { result ≡ result_by (λ made. stepped.Answer (answer.Awakeable made)) given }
{
    match given {
        Ok(awakeable) => Ok(Stepped::Answer(Answer::Awakeable(awakeable))),
        Err(error) => Err(error),
    }
}

fn handle(given: VMResult<NotificationHandle>) -> VMResult<Stepped>
    ensures { result ≡ result_by (λ handle. stepped.Answer (answer.Handle handle)) given }
{
    match given {
        Ok(handle) => Ok(Stepped::Answer(Answer::Handle(handle))),
        Err(error) => Err(error),
    }
}

fn taken(given: VMResult<Option<Value>>) -> VMResult<Stepped>
    ensures { result ≡ result_by (λ value. stepped.Answer (answer.Taken value)) given }
{
    match given {
        Ok(value) => Ok(Stepped::Answer(Answer::Taken(value))),
        Err(error) => Err(error),
    }
}

fn ended(given: VMResult<()>) -> VMResult<Stepped>
    ensures { result ≡ result_by (λ _. stepped.Ended) given }
{
    match given {
        Ok(()) => Ok(Stepped::Ended),
        Err(error) => Err(error),
    }
}

impl CoreVM {
    /// Makes a call that has a command.
    #[tactic(auto, using(crate::proofs::Stepping::carried, vm_machine::proofs::Answering::handles_fit))]
    fn carry(&mut self, command: Command) -> VMResult<Stepped>
        ensures { CallsWith (λ handle. stepped.Answer (command_answer command.message handle))
            (CallsCommand command) result (seen self.old) (seen self.new) }
    {
        let kind = command.answer_kind();
        match self.command(command) {
            Ok(handle) => Ok(Stepped::Answer(command_answer(kind, handle))),
            Err(error) => Err(error),
        }
    }

    /// Makes a call that has two commands.
    #[tactic(auto, using(crate::proofs::Stepping::all_carried, vm_machine::proofs::Answering::several_fit))]
    fn carry_both(&mut self, kind: AnswerKind, first: Command, second: Command) -> VMResult<Stepped>
        requires { AnswerTakes kind (all_ids first (second ∷ [])) }
        ensures { CallsWith (λ handle. stepped.Answer (answer_by kind handle))
            (CallsAll first (second ∷ [])) result (seen self.old) (seen self.new) }
    {
        match self.commands(first, second) {
            Ok(handle) => Ok(Stepped::Answer(command_answer(kind, handle))),
            Err(error) => Err(error),
        }
    }

    /// Makes the call that is asked for.
    #[tactic(auto, using(crate::proofs::Stepping::answered, crate::proofs::Stepping::state_read))]
    fn perform(&mut self, ask: Ask) -> VMResult<Stepped>
        requires { AnswerFits ask }
        ensures { CallsAsked ask result (seen self.old) (seen self.new) }
    {
        match ask {
            Ask::Command(command) => self.carry(command),
            Ask::Commands(kind, first, second) => self.carry_both(kind, first, second),
            Ask::Awakeable => awakeable(self.sys_awakeable()),
            Ask::Read(read) => handle(self.read(read)),
            Ask::Signal(name) => handle(self.create_signal_handle(name.into_string())),
            Ask::Await(future) => Ok(Stepped::Await(future)),
            Ask::Take(handle) => taken(self.take_notification(handle)),
            Ask::Completed(handle) => {
                Ok(Stepped::Answer(Answer::Completed(self.is_completed(handle))))
            }
            Ask::End => ended(self.sys_end()),
        }
    }

    /// Makes the call that a step of a handler is, unless it is an await, which its caller makes.
    pub fn step(&mut self, step: Step) -> VMResult<Stepped>
        ensures { CallsStep step result (seen self.old) (seen self.new) }
    {
        let ask = self.ask_of(step);
        self.perform(ask)
    }
}
