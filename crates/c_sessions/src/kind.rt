//! What a reply to C is.
ghost use Rattle.std.specs.Prelude.{◌≡◌};
ghost use Rattle.c_sessions.specs.Replies.{kind_code};

/// What the VM answered a call.
#[derive(Clone, Copy, Debug, PartialEq, Eq)]
pub enum Kind {
    /// Nothing; or a handle has no result.
    Nothing,
    /// Handles: up to three.
    Handle,
    /// An awakeable: its handle, and its id.
    Awakeable,
    /// A run: its handle, and whether its result is there.
    Run,
    /// An ephemeral read: its id.
    Ephemeral,
    /// Whether something holds.
    Flag,
    /// The state of the VM.
    State,
    /// The index of the last command.
    Index,
    /// The version that the VM was made for.
    Version,
    /// The head of the response.
    Head,
    /// Bytes to be sent.
    Output,
    /// What the handler was called with.
    Input,
    /// An await is done.
    Awake,
    /// An await waits for input or the result of a run.
    Waiting,
    /// A run is to be executed.
    ExecuteRun,
    /// The handler is cancelled.
    Cancelled,
    /// A result: void.
    Void,
    /// A result: bytes.
    Value,
    /// A result: a failure.
    Failure,
    /// A result: keys of the state.
    Keys,
    /// A result: the id of an invocation.
    InvocationId,
    /// An error.
    Error,
    /// The error of an await by which no VM has failed: the invocation is suspended.
    Suspended,
    /// Another error by which no VM has failed: a call found no memory.
    OutOfMemory,
    /// The error of a query by which no VM has failed: the handler has ended, or the invocation is suspended.
    Closed,
}

impl Kind {
    /// The number that C sees.
    pub fn code(self) -> u32
        ensures { result ≡ kind_code self }
    {
        match self {
            Kind::Nothing => 0,
            Kind::Handle => 1,
            Kind::Awakeable => 2,
            Kind::Run => 3,
            Kind::Ephemeral => 4,
            Kind::Flag => 5,
            Kind::State => 6,
            Kind::Index => 7,
            Kind::Version => 8,
            Kind::Head => 9,
            Kind::Output => 10,
            Kind::Input => 11,
            Kind::Awake => 12,
            Kind::Waiting => 13,
            Kind::ExecuteRun => 14,
            Kind::Cancelled => 15,
            Kind::Void => 16,
            Kind::Value => 17,
            Kind::Failure => 18,
            Kind::Keys => 19,
            Kind::InvocationId => 20,
            Kind::Error => 21,
            Kind::Suspended => 22,
            Kind::OutOfMemory => 23,
            Kind::Closed => 24,
        }
    }
}
