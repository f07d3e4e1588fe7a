//! The calls of a handler that have one text or one value: sleeps, awakeables, signals, promises, and its end.

use crate::given::{Lent, string_of, time_of, two_strings};
use crate::values::{GivenValue, given_value, payload};
use c_sessions::{Replied, VmCall, keep, keep_ended, keep_handle};
use c_values::Status;
use invocation_vm::{CoreVM, VM};
use std::alloc::Global;
use vm_calls::replies::awakeable;
use vm_types::Reply;

/// A sleep until a time, in milliseconds since the Unix epoch. An empty name is none.
#[derive(Clone, Copy)]
pub struct SleepCall<'a> {
    pub name: Lent<'a>,
    pub wake_up_millis: u64,
}

impl<'a> VmCall for SleepCall<'a> {
    ghost use Rattle.c_calls.specs.Calls.{CallsSleep};

    ghost does = { λ it. CallsSleep it.name.bytes.now it.wake_up_millis };

    fn make(self, alloc: Global, vm: &mut CoreVM, kept: &mut Reply) -> Result<Replied, Status> {
        let name = string_of(alloc, self.name.bytes)?;
        Ok(keep_handle(kept, vm.sys_sleep(name, time_of(self.wake_up_millis), None)))
    }
}

/// An awakeable is made.
#[derive(Clone, Copy)]
pub struct AwakeableCall;

impl VmCall for AwakeableCall {
    ghost use Rattle.c_calls.specs.Calls.{MakesAwakeable};

    ghost does = { λ it. MakesAwakeable };

    fn make(self, alloc: Global, vm: &mut CoreVM, kept: &mut Reply) -> Result<Replied, Status> {
        Ok(keep(kept, awakeable(vm.sys_awakeable())))
    }
}

/// A handle for the signal of this name.
#[derive(Clone, Copy)]
pub struct SignalCall<'a> {
    pub name: Lent<'a>,
}

impl<'a> VmCall for SignalCall<'a> {
    ghost use Rattle.c_calls.specs.Calls.{MakesSignal};

    ghost does = { λ it. MakesSignal it.name.bytes.now };

    fn make(self, alloc: Global, vm: &mut CoreVM, kept: &mut Reply) -> Result<Replied, Status> {
        let name = string_of(alloc, self.name.bytes)?;
        Ok(keep_handle(kept, vm.create_signal_handle(name)))
    }
}

/// A promise of the workflow is awaited.
#[derive(Clone, Copy)]
pub struct GetPromiseCall<'a> {
    pub key: Lent<'a>,
}

impl<'a> VmCall for GetPromiseCall<'a> {
    ghost use Rattle.c_calls.specs.Calls.{GetsPromise};

    ghost does = { λ it. GetsPromise it.key.bytes.now };

    fn make(self, alloc: Global, vm: &mut CoreVM, kept: &mut Reply) -> Result<Replied, Status> {
        let key = string_of(alloc, self.key.bytes)?;
        Ok(keep_handle(kept, vm.sys_get_promise(key)))
    }
}

/// Whether a promise of the workflow is completed.
#[derive(Clone, Copy)]
pub struct PeekPromiseCall<'a> {
    pub key: Lent<'a>,
}

impl<'a> VmCall for PeekPromiseCall<'a> {
    ghost use Rattle.c_calls.specs.Calls.{PeeksPromise};

    ghost does = { λ it. PeeksPromise it.key.bytes.now };

    fn make(self, alloc: Global, vm: &mut CoreVM, kept: &mut Reply) -> Result<Replied, Status> {
        let key = string_of(alloc, self.key.bytes)?;
        Ok(keep_handle(kept, vm.sys_peek_promise(key)))
    }
}

/// A promise of the workflow is completed.
#[derive(Clone, Copy)]
pub struct CompletePromiseCall<'a> {
    pub key: Lent<'a>,
    pub value: GivenValue<'a>,
    pub unstable: bool,
}

impl<'a> VmCall for CompletePromiseCall<'a> {
    ghost use Rattle.c_calls.specs.Calls.{CompletesPromise};

    ghost does = { λ it. CompletesPromise it.key.bytes.now it.value it.unstable };

    fn make(self, alloc: Global, vm: &mut CoreVM, kept: &mut Reply) -> Result<Replied, Status> {
        let key = string_of(alloc, self.key.bytes)?;
        match given_value(alloc, &self.value) {
            Ok(value) => Ok(keep_handle(
                kept,
                vm.sys_complete_promise(key, value, payload(self.unstable)),
            )),
            Err(status) => {
                drop(key);
                Err(status)
            }
        }
    }
}

/// The awakeable of this id is completed.
#[derive(Clone, Copy)]
pub struct CompleteAwakeableCall<'a> {
    pub id: Lent<'a>,
    pub value: GivenValue<'a>,
    pub unstable: bool,
}

impl<'a> VmCall for CompleteAwakeableCall<'a> {
    ghost use Rattle.c_calls.specs.Calls.{CompletesAwakeable};

    ghost does = { λ it. CompletesAwakeable it.id.bytes.now it.value it.unstable };

    fn make(self, alloc: Global, vm: &mut CoreVM, kept: &mut Reply) -> Result<Replied, Status> {
        let id = string_of(alloc, self.id.bytes)?;
        match given_value(alloc, &self.value) {
            Ok(value) => Ok(keep_ended(
                kept,
                vm.sys_complete_awakeable(id, value, payload(self.unstable)),
            )),
            Err(status) => {
                drop(id);
                Err(status)
            }
        }
    }
}

/// A named signal is sent to another invocation.
#[derive(Clone, Copy)]
pub struct CompleteSignalCall<'a> {
    pub target: Lent<'a>,
    pub name: Lent<'a>,
    pub value: GivenValue<'a>,
}

impl<'a> VmCall for CompleteSignalCall<'a> {
    ghost use Rattle.c_calls.specs.Calls.{CompletesSignal};

    ghost does = { λ it. CompletesSignal it.target.bytes.now it.name.bytes.now it.value };

    fn make(self, alloc: Global, vm: &mut CoreVM, kept: &mut Reply) -> Result<Replied, Status> {
        let (target, name) = two_strings(alloc, self.target.bytes, self.name.bytes)?;
        match given_value(alloc, &self.value) {
            Ok(value) => Ok(keep_ended(kept, vm.sys_complete_signal(target, name, value))),
            Err(status) => {
                drop(target);
                drop(name);
                Err(status)
            }
        }
    }
}

/// The cancel signal is sent to another invocation.
#[derive(Clone, Copy)]
pub struct CancelCall<'a> {
    pub target: Lent<'a>,
}

impl<'a> VmCall for CancelCall<'a> {
    ghost use Rattle.c_calls.specs.Calls.{CancelsInvocation};

    ghost does = { λ it. CancelsInvocation it.target.bytes.now };

    fn make(self, alloc: Global, vm: &mut CoreVM, kept: &mut Reply) -> Result<Replied, Status> {
        let target = string_of(alloc, self.target.bytes)?;
        Ok(keep_ended(kept, vm.sys_cancel_invocation(target)))
    }
}

/// The handler's result.
#[derive(Clone, Copy)]
pub struct WriteOutputCall<'a> {
    pub value: GivenValue<'a>,
    pub unstable: bool,
}

impl<'a> VmCall for WriteOutputCall<'a> {
    ghost use Rattle.c_calls.specs.Calls.{WritesOutput};

    ghost does = { λ it. WritesOutput it.value it.unstable };

    fn make(self, alloc: Global, vm: &mut CoreVM, kept: &mut Reply) -> Result<Replied, Status> {
        let value = given_value(alloc, &self.value)?;
        Ok(keep_ended(kept, vm.sys_write_output(value, payload(self.unstable))))
    }
}

/// The handler ends.
#[derive(Clone, Copy)]
pub struct EndCall;

impl VmCall for EndCall {
    ghost use Rattle.c_calls.specs.Calls.{EndsHandler};

    ghost does = { λ it. EndsHandler };

    fn make(self, alloc: Global, vm: &mut CoreVM, kept: &mut Reply) -> Result<Replied, Status> {
        Ok(keep_ended(kept, vm.sys_end()))
    }
}
