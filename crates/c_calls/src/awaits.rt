//! Awaits, and the takes of results.

use crate::nodes::{Node, future_of};
use await_trees::NotificationHandle;
use c_sessions::{Replied, VmCall, keep_awaited, keep_taken};
use c_values::Status;
use invocation_vm::{CoreVM, VM};
use std::alloc::Global;
use vm_types::Reply;

/// A handle is awaited.
#[derive(Clone, Copy)]
pub struct AwaitCall {
    pub handle: u32,
}

impl VmCall for AwaitCall {
    ghost use Rattle.c_calls.specs.Calls.{AwaitsHandle};

    ghost does = { λ it. AwaitsHandle it.handle };

    fn make(self, alloc: Global, vm: &mut CoreVM, kept: &mut Reply) -> Result<Replied, Status> {
        Ok(keep_awaited(kept, vm.await_handle(NotificationHandle(self.handle))))
    }
}

/// The tree that the nodes are is awaited.
#[derive(Clone, Copy)]
pub struct AwaitTreeCall<'a> {
    pub nodes: &'a [Node],
}

impl<'a> VmCall for AwaitTreeCall<'a> {
    ghost use Rattle.c_calls.specs.Calls.{AwaitsNodes};

    ghost does = { λ it. AwaitsNodes it.nodes.now };

    fn make(self, alloc: Global, vm: &mut CoreVM, kept: &mut Reply) -> Result<Replied, Status> {
        let future = future_of(alloc, self.nodes)?;
        Ok(keep_awaited(kept, vm.do_await(future)))
    }
}

/// The result of a handle is taken.
#[derive(Clone, Copy)]
pub struct TakeCall {
    pub handle: u32,
}

impl VmCall for TakeCall {
    ghost use Rattle.c_calls.specs.Calls.{TakesResult};

    ghost does = { λ it. TakesResult it.handle };

    fn make(self, alloc: Global, vm: &mut CoreVM, kept: &mut Reply) -> Result<Replied, Status> {
        Ok(keep_taken(kept, vm.take_notification(NotificationHandle(self.handle))))
    }
}
