//! What is asked of a VM beside the handler's calls: its head, state and output, and the handler's input.

use await_trees::NotificationHandle;
use c_sessions::{Replied, VmCall, keep};
use c_values::Status;
use invocation_vm::{CoreVM, VM};
use std::alloc::Global;
use vm_calls::replies::{fed, head, input, output, ready};
use vm_types::{Answer, Reply};

/// The head of the response.
#[derive(Clone, Copy)]
pub struct HeadCall;

impl VmCall for HeadCall {
    ghost use Rattle.c_calls.specs.Calls.{ReadsHead};

    ghost does = { λ it. ReadsHead };

    fn make(self, alloc: Global, vm: &mut CoreVM, kept: &mut Reply) -> Result<Replied, Status> {
        Ok(keep(kept, head(vm.get_response_head())))
    }
}

/// No more input comes.
#[derive(Clone, Copy)]
pub struct CloseCall;

impl VmCall for CloseCall {
    ghost use Rattle.c_calls.specs.Calls.{ClosesInput};

    ghost does = { λ it. ClosesInput };

    fn make(self, alloc: Global, vm: &mut CoreVM, kept: &mut Reply) -> Result<Replied, Status> {
        Ok(keep(kept, fed(vm.notify_input_closed())))
    }
}

/// The bytes that wait to be sent are taken.
#[derive(Clone, Copy)]
pub struct OutputCall;

impl VmCall for OutputCall {
    ghost use Rattle.c_calls.specs.Calls.{TakesOutputOf};

    ghost does = { λ it. TakesOutputOf };

    fn make(self, alloc: Global, vm: &mut CoreVM, kept: &mut Reply) -> Result<Replied, Status> {
        Ok(keep(kept, output(vm.take_output())))
    }
}

/// Whether the handler may be run.
#[derive(Clone, Copy)]
pub struct ReadyCall;

impl VmCall for ReadyCall {
    ghost use Rattle.c_calls.specs.Calls.{AsksReady};

    ghost does = { λ it. AsksReady };

    fn make(self, alloc: Global, vm: &mut CoreVM, kept: &mut Reply) -> Result<Replied, Status> {
        Ok(keep(kept, ready(vm.is_ready_to_execute())))
    }
}

/// Whether a handle has a result.
#[derive(Clone, Copy)]
pub struct CompletedCall {
    pub handle: u32,
}

impl VmCall for CompletedCall {
    ghost use Rattle.c_calls.specs.Calls.{AsksCompleted};

    ghost does = { λ it. AsksCompleted it.handle };

    fn make(self, alloc: Global, vm: &mut CoreVM, kept: &mut Reply) -> Result<Replied, Status> {
        let is = vm.is_completed(NotificationHandle(self.handle));
        Ok(keep(kept, Reply::Answer(Answer::Completed(is))))
    }
}

/// The state.
#[derive(Clone, Copy)]
pub struct StateCall;

impl VmCall for StateCall {
    ghost use Rattle.c_calls.specs.Calls.{AsksState};

    ghost does = { λ it. AsksState };

    fn make(self, alloc: Global, vm: &mut CoreVM, kept: &mut Reply) -> Result<Replied, Status> {
        Ok(keep(kept, Reply::State(vm.state())))
    }
}

/// The index of the last command.
#[derive(Clone, Copy)]
pub struct IndexCall;

impl VmCall for IndexCall {
    ghost use Rattle.c_calls.specs.Calls.{AsksIndex};

    ghost does = { λ it. AsksIndex };

    fn make(self, alloc: Global, vm: &mut CoreVM, kept: &mut Reply) -> Result<Replied, Status> {
        Ok(keep(kept, Reply::Index(vm.last_command_index())))
    }
}

/// What the handler was called with.
#[derive(Clone, Copy)]
pub struct InputCall;

impl VmCall for InputCall {
    ghost use Rattle.c_calls.specs.Calls.{ReadsInput};

    ghost does = { λ it. ReadsInput };

    fn make(self, alloc: Global, vm: &mut CoreVM, kept: &mut Reply) -> Result<Replied, Status> {
        Ok(keep(kept, input(vm.sys_input())))
    }
}
