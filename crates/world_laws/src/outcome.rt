//! What a replay of a stored journal shows.

use journal_protocol::Error;

/// What a replay of a stored journal shows.
#[derive(Debug, Drop)]
pub enum ReplayOutcome {
    /// The handler makes each recorded command: its attempts go on after the last one.
    GoesOn,
    /// A call of the handler is refused while recorded commands are left. The error says why, and its related command is the call: the
    /// index, the type and the name. The journal's command of that index is the recorded one.
    Differs(Error),
    /// No attempt is made in this version of the protocol.
    UnsupportedVersion(Error),
    /// Recorded commands were left after as many steps as were allowed.
    TooFewSteps,
    /// The VM takes no call: it refused the bytes of the journal.
    NotReplayed,
}
