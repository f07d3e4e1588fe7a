//! The steps of an attempt that replays.
ghost use Rattle.std.specs.Prelude.{◌≡◌, ◌≢◌, false, IfOk};
ghost use Rattle.journal_protocol.specs.Errors.{no_memory};
ghost use Rattle.world_laws.specs.Replays.{StepsShow, shown_at};
ghost use Rattle.world_laws.specs.declared.outcome.ReplayOutcome.TheVariants as outcome;

use crate::outcome::ReplayOutcome;
use journal_protocol::{Error, NamedFault};
use std::alloc::AllocError;
use vm_attempt::Attempt;
use vm_types::{Handler, State};

/// Whether the error is that of memory that ran out.
fn is_memory(error: &Error) -> bool
    ensures { result ≡ false → error.now ≢ no_memory }
{
    error.code() == 500 && error.message() == NamedFault::Memory.text()
}

/// A refused step, unless memory ran out.
fn refused(error: Error) -> Result<ReplayOutcome, AllocError>
    ensures differs { IfOk result (λ o. o ≡ outcome.Differs error) }
    ensures memory { IfOk result (λ o. error ≢ no_memory) }
{
    if is_memory(&error) {
        return Err(AllocError);
    }
    Ok(ReplayOutcome::Differs(error))
}

/// What the state of an attempt shows that makes no further step.
fn shown_at(state: State) -> ReplayOutcome
    ensures { result ≡ shown_at state }
{
    match state {
        State::Processing => ReplayOutcome::GoesOn,
        State::Replaying => ReplayOutcome::TooFewSteps,
        State::WaitingPreFlight | State::Closed => ReplayOutcome::NotReplayed,
    }
}

/// Makes steps of an attempt until no recorded command is left, this many at most. It errs if memory runs out.
pub fn replay_steps<H: Handler>(
    attempt: &mut Attempt<&H>,
    steps: u64,
) -> Result<ReplayOutcome, AllocError>
    ensures shown { IfOk result (λ o. StepsShow (H.meaning attempt.old.handler.now) steps
        attempt.old.record_of attempt.new.record_of o) }
{
    let mut left = steps;
    while left > 0 {
        let state = attempt.state();
        if !state.is_replaying() {
            return Ok(shown_at(state));
        }
        if let Err(error) = attempt.step() {
            return refused(error);
        }
        left -= 1;
    }
    Ok(shown_at(attempt.state()))
}
