//! How far a machine is: before Start, waiting for the known entries, replaying them, writing new commands, closed.
ghost use Rattle.std.specs.Prelude.{◌≡◌};
ghost use Rattle.vm_machine.specs.Phases.{is_running, is_processing, is_replaying, is_closed, state_fault, shown_state};

use journal_protocol::NamedFault;
use vm_types::State;

/// The state of a machine that hasn't failed.
#[derive(Clone, Copy)]
pub enum Phase {
    WaitingStart,
    WaitingReplayEntries,
    Replaying,
    Processing,
    Closed,
}

impl Phase {
    /// Whether the handler runs.
    pub fn is_running(self) -> bool
        ensures { result ≡ is_running self }
    {
        matches!(self, Phase::Replaying | Phase::Processing)
    }

    pub fn is_processing(self) -> bool
        ensures { result ≡ is_processing self }
    {
        matches!(self, Phase::Processing)
    }

    pub fn is_replaying(self) -> bool
        ensures { result ≡ is_replaying self }
    {
        matches!(self, Phase::Replaying)
    }

    pub fn is_closed(self) -> bool
        ensures { result ≡ is_closed self }
    {
        matches!(self, Phase::Closed)
    }

    /// Why a call is refused that may not be made in this phase.
    pub fn fault(self) -> NamedFault
        ensures { result ≡ state_fault self }
    {
        match self {
            Phase::Closed => NamedFault::Closed,
            _ => NamedFault::UnexpectedState,
        }
    }

    /// The phase as a handler's runner sees it.
    pub fn shown(self) -> State
        ensures { result ≡ shown_state self }
    {
        match self {
            Phase::WaitingStart | Phase::WaitingReplayEntries => State::WaitingPreFlight,
            Phase::Replaying => State::Replaying,
            Phase::Processing => State::Processing,
            Phase::Closed => State::Closed,
        }
    }
}
