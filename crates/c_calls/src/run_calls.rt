//! Runs: effects that the caller executes, and their results.

use crate::given::{Lent, span_of, string_of};
use crate::policies::{GivenPolicy, policy_of};
use crate::reports::{GivenError, error_of};
use crate::values::{GivenValue, given_value};
use await_trees::NotificationHandle;
use c_sessions::{Replied, VmCall, keep, keep_ended};
use c_values::Status;
use invocation_vm::{CoreVM, VM};
use std::alloc::Global;
use vm_calls::replies::ran;
use vm_types::{Reply, RunExitResult};

/// A run is called.
#[derive(Clone, Copy)]
pub struct RunCall<'a> {
    pub name: Lent<'a>,
}

impl<'a> VmCall for RunCall<'a> {
    ghost use Rattle.c_calls.specs.Calls.{CallsARun};

    ghost does = { λ it. CallsARun it.name.bytes.now };

    fn make(self, alloc: Global, vm: &mut CoreVM, kept: &mut Reply) -> Result<Replied, Status> {
        let name = string_of(alloc, self.name.bytes)?;
        Ok(keep(kept, ran(vm.sys_run(name))))
    }
}

/// The result of a run that was executed, and the policy that it was under.
#[derive(Clone, Copy)]
pub struct ProposeCall<'a> {
    pub handle: u32,
    pub value: GivenValue<'a>,
    pub policy: GivenPolicy,
}

#[tactic(auto, using(crate::proofs::Refusing::misfit))]
impl<'a> VmCall for ProposeCall<'a> {
    ghost use Rattle.c_calls.specs.Calls.{ProposesResult};

    ghost does = { λ it. ProposesResult it.handle it.value it.policy };

    fn make(self, alloc: Global, vm: &mut CoreVM, kept: &mut Reply) -> Result<Replied, Status> {
        let Some(policy) = policy_of(&self.policy) else {
            return Err(Status::BadNumber);
        };
        match given_value(alloc, &self.value) {
            Ok(value) => {
                let handle = NotificationHandle(self.handle);
                Ok(keep_ended(
                    kept,
                    vm.propose_run_completion(handle, RunExitResult::of_value(value), policy),
                ))
            }
            Err(status) => Err(status),
        }
    }
}

/// A run that was executed failed after this number of milliseconds, and may be tried again by a policy.
#[derive(Clone, Copy)]
pub struct ProposeRetryableCall<'a> {
    pub handle: u32,
    pub duration_millis: u64,
    pub error: GivenError<'a>,
    pub policy: GivenPolicy,
}

#[tactic(auto, using(crate::proofs::Refusing::misfit_more))]
impl<'a> VmCall for ProposeRetryableCall<'a> {
    ghost use Rattle.c_calls.specs.Calls.{ProposesRetryable};

    ghost does = { λ it. ProposesRetryable it.handle it.duration_millis it.error it.policy };

    fn make(self, alloc: Global, vm: &mut CoreVM, kept: &mut Reply) -> Result<Replied, Status> {
        let Some(policy) = policy_of(&self.policy) else {
            return Err(Status::BadNumber);
        };
        match error_of(alloc, &self.error) {
            Ok(error) => {
                let handle = NotificationHandle(self.handle);
                let failed = RunExitResult::RetryableFailure {
                    attempt_duration: span_of(self.duration_millis),
                    error,
                };
                Ok(keep_ended(kept, vm.propose_run_completion(handle, failed, policy)))
            }
            Err(status) => Err(status),
        }
    }
}
