//! The small public types of calls and their answers: ids, groups of handles and states.
ghost use Rattle.std.specs.Prelude.{◌≡◌, IsTrue, ◌↔◌};
ghost use Rattle.vm_types.specs.declared.types.State.TheVariants as state;

use await_trees::NotificationHandle;
use plain::Text;

/// Names an ephemeral read of the state; counted from 1.
#[derive(Clone, Copy, Debug, PartialEq, Eq, PartialOrd, Ord, Hash)]
pub struct EphemeralCompletionId(pub u32);

impl From<u32> for EphemeralCompletionId {
    ghost from_gives = { λ number id. id.0 ≡ number };

    fn from(number: u32) -> EphemeralCompletionId {
        EphemeralCompletionId(number)
    }
}

impl From<EphemeralCompletionId> for u32 {
    ghost from_gives = { λ id number. number ≡ id.0 };

    fn from(id: EphemeralCompletionId) -> u32 {
        id.0
    }
}

/// An awakeable: the id by which others complete it, and the handle by which the handler awaits it.
#[derive(Clone, Debug, Drop, PartialEq, Eq)]
pub struct AwakeableHandle {
    pub id: Text,
    pub handle: NotificationHandle,
}

/// A call of another handler: the handle of the invocation's id, and that of its result, which is the next one.
#[derive(Clone, Copy, Debug, PartialEq, Eq)]
pub struct CallHandle {
    pub invocation_id_notification_handle: NotificationHandle,
    pub call_notification_handle: NotificationHandle,
}

/// A call of another handler with a deadline: the handles of the invocation's id, of its result and of the deadline, each of which
/// is the next one.
#[derive(Clone, Copy, Debug, PartialEq, Eq)]
pub struct DeadlineCallHandle {
    pub invocation_id_notification_handle: NotificationHandle,
    pub call_notification_handle: NotificationHandle,
    pub deadline_notification_handle: NotificationHandle,
}

/// A call whose result nobody waits for: the handle of the invocation's id.
#[derive(Clone, Copy, Debug, PartialEq, Eq)]
pub struct SendHandle {
    pub invocation_id_notification_handle: NotificationHandle,
}

/// What an await answers.
#[derive(Clone, Copy, Debug, PartialEq, Eq)]
pub enum AwaitResponse {
    /// The future is done, or can be acted on.
    AnyCompleted,
    /// Nothing more can be done before input comes or a run's result is proposed.
    WaitingExternalProgress {
        waiting_input: bool,
        waiting_run_proposal: bool,
    },
    /// The run of this handle is to be executed now, outside the VM; its result is to be proposed.
    ExecuteRun(NotificationHandle),
    /// The handler is cancelled: the cancel signal came, and each invocation that is cancelled with it was sent one.
    CancelSignalReceived,
    /// The value of this ephemeral read is there, and wasn't taken yet.
    EphemeralNotificationReady(EphemeralCompletionId),
}

/// How far a VM is, as a handler's runner sees it.
#[derive(Clone, Copy, Debug, PartialEq, Eq)]
pub enum State {
    WaitingPreFlight = 0,
    Replaying = 1,
    Processing = 2,
    Closed = 3,
}

impl State {
    pub fn is_waiting_pre_flight(&self) -> bool
        ensures { IsTrue result ↔ (self.now ≡ state.WaitingPreFlight) }
    {
        matches!(self, State::WaitingPreFlight)
    }

    pub fn is_replaying(&self) -> bool
        ensures { IsTrue result ↔ (self.now ≡ state.Replaying) }
    {
        matches!(self, State::Replaying)
    }

    pub fn is_processing(&self) -> bool
        ensures { IsTrue result ↔ (self.now ≡ state.Processing) }
    {
        matches!(self, State::Processing)
    }

    pub fn is_closed(&self) -> bool
        ensures { IsTrue result ↔ (self.now ≡ state.Closed) }
    {
        matches!(self, State::Closed)
    }
}
