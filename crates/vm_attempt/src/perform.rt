//! The call of the VM that a step of a handler is, and what its answer is to the handler.
ghost use Rattle.std.specs.Prelude.{◌≡◌};
ghost use Rattle.invocation_vm.specs.Seen.{seen};
ghost use Rattle.vm_attempt.specs.Steps.{Asked, Awaited, StepMade, await_reply};

use crate::progress::Reply;
use await_trees::UnresolvedFuture;
use invocation_vm::{CoreVM, Stepped};
use vm_types::{Answer, AwaitResponse, Step, VMResult};

fn reply_of(response: VMResult<AwaitResponse>) -> Reply
    ensures { result ≡ await_reply response }
{
    match response {
        Ok(AwaitResponse::AnyCompleted) => Reply::Answer(Answer::Awake),
        Ok(AwaitResponse::CancelSignalReceived) => Reply::Answer(Answer::Cancelled),
        Ok(
            AwaitResponse::WaitingExternalProgress {
                waiting_input,
                waiting_run_proposal,
            },
        ) => Reply::Waiting {
            input: waiting_input,
            run: waiting_run_proposal,
        },
        Ok(AwaitResponse::ExecuteRun(run)) => Reply::Execute(run),
        // A handler's steps make no ephemeral read.
        Ok(AwaitResponse::EphemeralNotificationReady(_)) => Reply::Waiting {
            input: true,
            run: false,
        },
        Err(_) => Reply::Suspended,
    }
}

#[tactic(auto, using(crate::proofs::Replies::awaits_reply))]
fn wait(vm: &mut CoreVM, future: UnresolvedFuture) -> VMResult<Reply>
    ensures { Asked (Awaited future) result (seen vm.old) (seen vm.new) }
{
    match vm.try_await(future) {
        Ok(awaited) => Ok(reply_of(awaited.into_result())),
        Err(error) => Err(error),
    }
}

/// Makes the call that a step is.
#[tactic(auto, using(crate::proofs::Replies::made_answer, crate::proofs::Replies::made_end, crate::proofs::Replies::made_await, crate::proofs::Replies::made_refusal))]
pub fn perform(vm: &mut CoreVM, step: Step) -> VMResult<Reply>
    ensures { StepMade step result (seen vm.old) (seen vm.new) }
{
    match vm.step(step) {
        Ok(Stepped::Answer(answer)) => Ok(Reply::Answer(answer)),
        Ok(Stepped::Ended) => Ok(Reply::Ended),
        Ok(Stepped::Await(future)) => wait(vm, future),
        Err(error) => Err(error),
    }
}
