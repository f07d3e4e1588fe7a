//! A call of the VM, made.
ghost use Rattle.invocation_vm.specs.Seen.{seen};
ghost use Rattle.vm_calls.specs.Called.{Called, StepDone};

use crate::replies::{awaited, ended, ephemeral, fed, head, input, output, ran, ready, taken};
use invocation_vm::{CoreVM, Stepped, VM};
use vm_types::{Answer, Call, Reply, Step};

/// Makes the call that a step of a handler asks for. It is apart, as `perform_any` is.
#[tactic(auto, using(crate::proofs::Steps::done_answer, crate::proofs::Steps::done_end, crate::proofs::Steps::done_await, crate::proofs::Steps::done_refusal))]
#[inline(never)]
fn perform_asked(vm: &mut CoreVM, step: Step) -> Reply
    ensures { StepDone step result (seen vm.old) (seen vm.new) }
{
    match vm.step(step) {
        Ok(Stepped::Answer(answer)) => Reply::Answer(answer),
        Ok(Stepped::Ended) => Reply::Answer(Answer::Unit),
        Ok(Stepped::Await(future)) => awaited(vm.do_await(future)),
        Err(error) => Reply::Refused(error),
    }
}

/// Makes the call that a step of a handler is: an await or a take at once, since most calls are one.
#[tactic(auto, using(crate::proofs::Told::answers, crate::proofs::Told::awaits))]
fn perform_step(vm: &mut CoreVM, step: Step) -> Reply
    ensures { StepDone step result (seen vm.old) (seen vm.new) }
{
    match step {
        Step::Await(future) => awaited(vm.do_await(future)),
        Step::Take(handle) => taken(vm.take_notification(handle)),
        step => perform_asked(vm, step),
    }
}

/// Makes a call, whichever it is. It is apart, since what its arms hold is set to zero where it begins.
#[tactic(auto, using(crate::proofs::Told::answers, crate::proofs::Told::feeds, crate::proofs::Told::drains, crate::proofs::Told::runs, crate::proofs::Told::proposes))]
#[inline(never)]
fn perform_any(vm: &mut CoreVM, call: Call) -> Reply
    ensures { Called call result (seen vm.old) (seen vm.new) }
{
    match call {
        Call::Head => head(vm.get_response_head()),
        Call::Input(bytes) => fed(vm.notify_input(bytes)),
        Call::Close => fed(vm.notify_input_closed()),
        Call::Output => output(vm.take_output()),
        Call::Ready => ready(vm.is_ready_to_execute()),
        Call::State => Reply::State(vm.state()),
        Call::Index => Reply::Index(vm.last_command_index()),
        Call::Error(error, relationship) => {
            fed(vm.notify_error(error.into_inner(), relationship))
        },
        Call::SysInput => input(vm.sys_input()),
        Call::Run(name) => ran(vm.sys_run(name.into_string())),
        Call::Propose {
            handle,
            result,
            policy,
        } => ended(vm.propose_run_completion(handle, result.into_inner(), policy)),
        Call::EphemeralGet(key) => ephemeral(vm.ephemeral_state_get(key.into_string())),
        Call::TakeEphemeral(id) => taken(vm.take_ephemeral_notification(id)),
        Call::Step(step) => perform_step(vm, step),
    }
}

/// Makes a call: an input and a step at once, since most calls are one.
#[tactic(auto, using(crate::proofs::Told::feeds))]
#[inline(always)]
pub fn perform_call(vm: &mut CoreVM, call: Call) -> Reply
    ensures { Called call result (seen vm.old) (seen vm.new) }
{
    match call {
        Call::Input(bytes) => fed(vm.notify_input(bytes)),
        Call::Step(step) => perform_step(vm, step),
        call => perform_any(vm, call),
    }
}
