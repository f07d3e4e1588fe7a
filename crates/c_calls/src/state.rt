//! The calls of a handler on its state.

use crate::given::{Lent, bytes_of, string_of, two_strings};
use crate::values::payload;
use c_sessions::{Replied, VmCall, keep, keep_ended, keep_handle, keep_taken};
use c_values::Status;
use invocation_vm::{CoreVM, VM};
use std::alloc::Global;
use vm_calls::replies::ephemeral;
use vm_types::{EphemeralCompletionId, Reply};

/// A key is given a value. An empty name is none.
#[derive(Clone, Copy)]
pub struct SetCall<'a> {
    pub key: Lent<'a>,
    pub value: Lent<'a>,
    pub name: Lent<'a>,
    pub unstable: bool,
}

impl<'a> VmCall for SetCall<'a> {
    ghost use Rattle.c_calls.specs.Calls.{SetsState};

    ghost does = { λ it. SetsState it.key.bytes.now it.value.bytes.now it.name.bytes.now it.unstable };

    fn make(self, alloc: Global, vm: &mut CoreVM, kept: &mut Reply) -> Result<Replied, Status> {
        let (key, name) = two_strings(alloc, self.key.bytes, self.name.bytes)?;
        match bytes_of(alloc, self.value.bytes) {
            Ok(value) => {
                let options = payload(self.unstable);
                Ok(keep_ended(kept, vm.sys_state_set(key, value, Some(name), options)))
            }
            Err(status) => {
                drop(key);
                drop(name);
                Err(status)
            }
        }
    }
}

/// A key's value is taken away. An empty name is none.
#[derive(Clone, Copy)]
pub struct ClearCall<'a> {
    pub key: Lent<'a>,
    pub name: Lent<'a>,
}

impl<'a> VmCall for ClearCall<'a> {
    ghost use Rattle.c_calls.specs.Calls.{ClearsState};

    ghost does = { λ it. ClearsState it.key.bytes.now it.name.bytes.now };

    fn make(self, alloc: Global, vm: &mut CoreVM, kept: &mut Reply) -> Result<Replied, Status> {
        let (key, name) = two_strings(alloc, self.key.bytes, self.name.bytes)?;
        Ok(keep_ended(kept, vm.sys_state_clear(key, Some(name))))
    }
}

/// Each key's value is taken away. An empty name is none.
#[derive(Clone, Copy)]
pub struct ClearAllCall<'a> {
    pub name: Lent<'a>,
}

impl<'a> VmCall for ClearAllCall<'a> {
    ghost use Rattle.c_calls.specs.Calls.{ClearsAllState};

    ghost does = { λ it. ClearsAllState it.name.bytes.now };

    fn make(self, alloc: Global, vm: &mut CoreVM, kept: &mut Reply) -> Result<Replied, Status> {
        let name = string_of(alloc, self.name.bytes)?;
        Ok(keep_ended(kept, vm.sys_state_clear_all(Some(name))))
    }
}

/// A key's value is read. An empty name is none.
#[derive(Clone, Copy)]
pub struct GetCall<'a> {
    pub key: Lent<'a>,
    pub name: Lent<'a>,
}

impl<'a> VmCall for GetCall<'a> {
    ghost use Rattle.c_calls.specs.Calls.{ReadsState};

    ghost does = { λ it. ReadsState it.key.bytes.now it.name.bytes.now };

    fn make(self, alloc: Global, vm: &mut CoreVM, kept: &mut Reply) -> Result<Replied, Status> {
        let (key, name) = two_strings(alloc, self.key.bytes, self.name.bytes)?;
        Ok(keep_handle(kept, vm.sys_state_get(key, Some(name), payload(false))))
    }
}

/// The keys that have a value are read. An empty name is none.
#[derive(Clone, Copy)]
pub struct GetKeysCall<'a> {
    pub name: Lent<'a>,
}

impl<'a> VmCall for GetKeysCall<'a> {
    ghost use Rattle.c_calls.specs.Calls.{ReadsKeys};

    ghost does = { λ it. ReadsKeys it.name.bytes.now };

    fn make(self, alloc: Global, vm: &mut CoreVM, kept: &mut Reply) -> Result<Replied, Status> {
        let name = string_of(alloc, self.name.bytes)?;
        Ok(keep_handle(kept, vm.sys_state_get_keys(Some(name))))
    }
}

/// A key's value is read, and nothing of it is left in the journal.
#[derive(Clone, Copy)]
pub struct EphemeralGetCall<'a> {
    pub key: Lent<'a>,
}

impl<'a> VmCall for EphemeralGetCall<'a> {
    ghost use Rattle.c_calls.specs.Calls.{ReadsEphemerally};

    ghost does = { λ it. ReadsEphemerally it.key.bytes.now };

    fn make(self, alloc: Global, vm: &mut CoreVM, kept: &mut Reply) -> Result<Replied, Status> {
        let key = string_of(alloc, self.key.bytes)?;
        Ok(keep(kept, ephemeral(vm.ephemeral_state_get(key))))
    }
}

/// The value of an ephemeral read is taken.
#[derive(Clone, Copy)]
pub struct TakeEphemeralCall {
    pub id: u32,
}

impl VmCall for TakeEphemeralCall {
    ghost use Rattle.c_calls.specs.Calls.{TakesEphemeral};

    ghost does = { λ it. TakesEphemeral it.id };

    fn make(self, alloc: Global, vm: &mut CoreVM, kept: &mut Reply) -> Result<Replied, Status> {
        Ok(keep_taken(
            kept,
            vm.take_ephemeral_notification(EphemeralCompletionId(self.id)),
        ))
    }
}
