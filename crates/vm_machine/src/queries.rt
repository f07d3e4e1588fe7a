//! What can be asked of a machine at any time.
ghost use Rattle.std.specs.Prelude.{◌≡◌};
ghost use Rattle.vm_machine.specs.Queries.{IsReadyAt, state_of, last_index};

use crate::machine::Machine;
use crate::phase::Phase;
use journal_protocol::{Error, NamedFault};
use vm_types::State;

impl Machine {
    /// Whether the handler may run.
    pub fn is_ready(&self) -> Result<bool, Error>
        ensures { IsReadyAt self.now.failure self.now.phase result }
    {
        match self.live() {
            Ok(()) => {}
            Err(error) => return Err(error),
        }
        match self.phase {
            Phase::WaitingStart | Phase::WaitingReplayEntries => Ok(false),
            Phase::Replaying | Phase::Processing => Ok(true),
            Phase::Closed => Err(Error::named(NamedFault::Closed, None)),
        }
    }

    pub fn state(&self) -> State
        ensures { result ≡ state_of self.now }
    {
        if self.failure.is_some() {
            return State::Closed;
        }
        self.phase.shown()
    }

    /// The index of the last command; -1 before any.
    pub fn last_index(&self) -> i64
        ensures { result ≡ last_index self.now.counters.command }
    {
        match self.counters.command {
            None => -1,
            Some(index) => i64::from(index),
        }
    }
}
