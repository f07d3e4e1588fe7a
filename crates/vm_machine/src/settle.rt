//! The error rule: what becomes of a machine whose event was refused or found no memory.
ghost use Rattle.std.specs.Prelude.{◌≡◌, ◌∷◌, ◌++◌, [], IfOk, OnOk, OnErr, IsErr, Ok, Some, is_some};
ghost use Rattle.journal_protocol.specs.Errors.{no_memory, error_message};
ghost use Rattle.journal_protocol.specs.Frames.{encoding};
ghost use Rattle.journal_protocol.specs.Message.TheVariants as message;
ghost use Rattle.vm_machine.specs.Outcomes.{ruled, failed, starved, Rules, Settles, Lives, mismatch_behavior};
ghost use Rattle.vm_machine.specs.Inputs.{Quiets};

use crate::fault::Fault;
use crate::machine::Machine;
use journal_protocol::{Error, ErrorBehavior, Message, NamedFault, Version};
use std::alloc::{AllocError, Global};
use vm_state::Counters;
use vm_types::JournalMismatchRetryBehavior;

fn mismatch_behavior(option: JournalMismatchRetryBehavior) -> ErrorBehavior
    ensures { result ≡ mismatch_behavior option }
{
    match option {
        JournalMismatchRetryBehavior::Pause => ErrorBehavior::Pause,
        JournalMismatchRetryBehavior::FailTerminally => ErrorBehavior::Fail,
        JournalMismatchRetryBehavior::FollowRetryPolicy => ErrorBehavior::Retry,
    }
}

/// The first error, answered once more. It is apart, as `stop` is, since a function sets all that its ways hold to zero where
/// it begins: what is rare stands outside the usual way.
#[inline(never)]
fn said_again(first: &Error) -> Result<(), Error>
    ensures { Lives (Some first.now) result }
{
    match first.clone() {
        Ok(error) => Err(error),
        Err(_) => Err(Error::named(NamedFault::Memory, None)),
    }
}

impl Machine {
    /// Answers the first error of a failed machine.
    pub fn live(&self) -> Result<(), Error>
        ensures { Lives self.now.failure result }
    {
        match &self.failure {
            None => Ok(()),
            Some(error) => said_again(error),
        }
    }

    pub fn has_failed(&self) -> bool
        ensures { result ≡ is_some self.now.failure }
    {
        self.failure.is_some()
    }

    fn rule(&self, error: Error) -> Error
        ensures { result ≡ ruled self.now error }
    {
        if error.code == 570 && self.version >= Version::V7 {
            return error.with_behavior(mismatch_behavior(
                self.options.journal_mismatch_retry_behavior,
            ));
        }
        error
    }

    fn write_error(&mut self, error: &Error) -> Result<(), AllocError>
        ensures ok { OnOk result (self.new
            ≡ record self.old {
              output = self.old.output
                  ++ encoding (message.Error (error_message error.now)) ∷ [];
            }) }
        ensures err { OnErr result (self.new ≡ self.old) }
    {
        let message = Message::Error(error.to_message(self.alloc)?);
        self.output.write(self.alloc, &message)
    }

    fn fail(&mut self, error: &Error) -> Result<(), AllocError>
        ensures ok { OnOk result (self.new ≡ failed error.now self.old) }
        ensures err { OnErr result (self.new ≡ self.old) }
    {
        let kept = error.clone()?;
        if !self.phase.is_closed() {
            self.write_error(error)?;
        }
        self.failure = Some(kept);
        self.output_ended = true;
        Ok(())
    }

    /// Fails by out of memory, with the counters that the call began with.
    pub fn starve(&mut self, before: Counters) -> Error
        ensures state { self.new ≡ starved before self.old }
        ensures error { result ≡ no_memory }
    {
        self.counters = before;
        self.failure = Some(Error::named(NamedFault::Memory, None));
        self.output_ended = true;
        Error::named(NamedFault::Memory, None)
    }

    /// The error rule, where an event wasn't carried out.
    #[inline(never)]
    fn stop(&mut self, before: Counters, fault: Fault) -> Error
        ensures { Rules before fault result self.old self.new }
    {
        match fault {
            Fault::Memory => self.starve(before),
            Fault::Refused(error) => {
                let error = self.rule(error);
                match self.fail(&error) {
                    Ok(()) => error,
                    Err(_) => self.starve(before),
                }
            }
        }
    }

    /// Ends an event by the error rule, in a call that began with these counters.
    #[tactic(auto, using(crate::proofs::Ruling::settles_by))]
    pub fn settle<T: Drop>(&mut self, before: Counters, given: Result<T, Fault>) -> Result<T, Error>
        ensures { Settles before given result self.old self.new }
    {
        match given {
            Ok(answer) => Ok(answer),
            Err(fault) => Err(self.stop(before, fault)),
        }
    }

    /// As `settle`, of a call whose one error is out of memory.
    pub fn settle_quietly(
        &mut self,
        before: Counters,
        given: Result<(), Fault>,
    ) -> Result<(), AllocError>
        ensures { Quiets before given result self.old self.new }
    {
        match given {
            Ok(()) => Ok(()),
            Err(Fault::Memory) => {
                let _ = self.starve(before);
                Err(AllocError)
            }
            Err(Fault::Refused(error)) => {
                let error = self.rule(error);
                match self.fail(&error) {
                    Ok(()) => Ok(()),
                    Err(_) => {
                        let _ = self.starve(before);
                        Err(AllocError)
                    }
                }
            }
        }
    }
}
