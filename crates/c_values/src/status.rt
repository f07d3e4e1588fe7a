//! How a call from C ends.
ghost use Rattle.std.specs.Prelude.{◌≡◌};
ghost use Rattle.c_values.specs.Statuses.{IsStatus, status_by, status_number};

/// How a call from C ended: of a session, of a journal or on frames.
#[derive(Clone, Copy, Debug, PartialEq, Eq)]
pub enum Status {
    /// It was done.
    Done,
    /// No memory was found.
    NoMemory,
    /// There is no session: it was never made, or it was dropped.
    NoSession,
    /// The session has no VM.
    NoVm,
    /// There is no room for what was asked for.
    NoRoom,
    /// The VM refused the call.
    Refused,
    /// A text isn't UTF-8.
    BadText,
    /// Nodes aren't one tree.
    BadTree,
    /// A number names no case of what it is to name.
    BadNumber,
    /// The reply has no such part.
    NoPart,
    /// An attempt's output isn't whole frames.
    BadOutput,
    /// What arrives isn't one whole frame of a notification.
    NotANotification,
    /// No stored command carries the completion id.
    NoSuchId,
    /// The completion id was completed before.
    SecondCompletion,
    /// An invocation's id is completed by another result, or another id by one.
    WrongKind,
    /// A run is completed by its proposal alone.
    RunIsProposed,
    /// The journal has no place for an entry more.
    JournalFull,
    /// A given journal has an entry that can't stand there.
    BadJournal,
    /// Bytes aren't one whole frame.
    NotAFrame,
    /// A line has no meaning.
    BadLine,
    /// A frame has no result.
    NoResult,
    /// A frame is no suspension.
    NotASuspension,
    /// There is no journal: it was never made, or it was dropped.
    NoJournal,
    /// The last store has no such row.
    NoRow,
    /// Bytes aren't whole frames.
    NotFrames,
    /// The next message of the output has no frame in the layer that the session's peer speaks.
    NoFrame,
    /// The session's peer speaks another layer, and the call is in the VM's own bytes.
    Layered,
}

impl Status {
    /// The number that C sees.
    #[tactic(auto, using(crate::proofs::StatusNumbers::named_again))]
    pub fn code(self) -> u32
        ensures code { result ≡ status_number self }
        ensures status { status_by result ≡ self }
        ensures known { IsStatus result }
    {
        match self {
            Status::Done => 0,
            Status::NoMemory => 1,
            Status::NoSession => 2,
            Status::NoVm => 3,
            Status::NoRoom => 4,
            Status::Refused => 5,
            Status::BadText => 6,
            Status::BadTree => 7,
            Status::BadNumber => 8,
            Status::NoPart => 9,
            Status::BadOutput => 10,
            Status::NotANotification => 11,
            Status::NoSuchId => 12,
            Status::SecondCompletion => 13,
            Status::WrongKind => 14,
            Status::RunIsProposed => 15,
            Status::JournalFull => 16,
            Status::BadJournal => 17,
            Status::NotAFrame => 18,
            Status::BadLine => 19,
            Status::NoResult => 20,
            Status::NotASuspension => 21,
            Status::NoJournal => 22,
            Status::NoRow => 23,
            Status::NotFrames => 24,
            Status::NoFrame => 28,
            Status::Layered => 29,
        }
    }
}
