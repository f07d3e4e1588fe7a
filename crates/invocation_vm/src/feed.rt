//! Bytes that come in: the decoder's frames are handed to the machine, one after another.
ghost use Rattle.std.specs.Prelude.{◌≡◌, ◌++◌, List, ℕ, IfOk, OnErr, None};
ghost use Rattle.journal_protocol.specs.Errors.{no_memory};
ghost use Rattle.vm_machine.specs.Outcomes.{IsStarved};
ghost use Rattle.journal_protocol.specs.Frames.{Malformed, next_of};
ghost use Rattle.journal_entries.specs.Frames.{frames_of};
ghost use Rattle.invocation_vm.specs.Seen.{seen};
ghost use Rattle.invocation_vm.specs.Views.{View, Goes, Leaves, consumed, after_input};

use crate::core_vm::CoreVM;
use plain::Fault;
use std::alloc::AllocError;
use vm_inputs::{receive, receive_malformed};

impl CoreVM {
    /// Takes one frame; answers whether there may be more.
    fn take_frame(&mut self) -> Result<bool, AllocError>
        requires { self.old.machine.failure ≡ None }
        ensures ok { IfOk result (λ more. Goes more (seen self.old) (seen self.new)) }
        ensures err { OnErr result (IsStarved self.old.machine no_memory self.new.machine) }
    {
        let next = match self.decoder.next_frame() {
            Ok(next) => next,
            Err(Fault::Memory) => {
                starve!(self.machine);
                return Err(AllocError);
            }
            Err(Fault::Malformed) => return self.take_garbage(),
        };
        let Some(raw) = next else {
            return Ok(false);
        };
        let before = self.machine.counters;
        let given = receive(&mut self.machine, raw);
        if let Ok(()) = &given {
            return Ok(true);
        }
        match self.machine.settle_quietly(before, given) {
            Ok(()) => {}
            Err(error) => return Err(error),
        }
        if self.machine.has_failed() {
            self.decoder.clear();
            return Ok(false);
        }
        Ok(true)
    }

    /// Fails the machine on bytes that no frame begins with, and drops them.
    fn take_garbage(&mut self) -> Result<bool, AllocError>
        requires live { self.old.machine.failure ≡ None }
        requires garbage { next_of self.old.decoder ≡ Malformed }
        ensures ok { IfOk result (λ more. Goes more (seen self.old) (seen self.new)) }
        ensures err { OnErr result (IsStarved self.old.machine no_memory self.new.machine) }
    {
        match quiet_event!(self.machine, receive_malformed(&mut self.machine)) {
            Ok(()) => {}
            Err(error) => return Err(error),
        }
        self.decoder.clear();
        Ok(false)
    }

    /// Takes the whole frames.
    pub(crate) fn consume(&mut self) -> Result<(), AllocError>
        requires { self.old.machine.failure ≡ None }
        ensures { Leaves (frames_of self.old.decoder).0
            (consumed (frames_of self.old.decoder) self.old.machine) result (seen self.old)
            (seen self.new) }
    {
        'frames: loop {
            match self.take_frame() {
                Ok(true) => {}
                Ok(false) => return Ok(()),
                Err(error) => return Err(error),
            }
        }
    }
}

/// Bytes that come in two pieces do what they do in one: it doesn't matter how the input is cut.
#[tactic(auto, using(crate::proofs::Cuts::any_cut))]
pub fn any_cut()
    ensures { (v : View) (xs ys : List ℕ) → after_input (after_input v xs) ys
        ≡ after_input v (xs ++ ys) }
{}
