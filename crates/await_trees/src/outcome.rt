//! The outcome of a leaf or a node.
ghost use Rattle.std.specs.Prelude.{◌≡◌};
ghost use Rattle.await_trees.specs.Outcomes.{outcome_of, is_done, fires_on, waits_for};

use journal_attempt::FutureKind;

#[derive(Clone, Copy, PartialEq, Eq)]
pub enum Outcome {
    Pending,
    Succeeded,
    Failed,
}

impl Outcome {
    /// Whether it is an outcome at all.
    pub fn is_done(self) -> bool
        ensures { result ≡ is_done self }
    {
        match self {
            Outcome::Pending => false,
            Outcome::Succeeded | Outcome::Failed => true,
        }
    }
}

/// Whether a child with this outcome wakes the await that its node stands in.
pub fn fires_on(kind: FutureKind, child: Outcome) -> bool
    ensures { result ≡ fires_on kind child }
{
    match kind {
        FutureKind::FirstCompleted | FutureKind::Unknown => child != Outcome::Pending,
        FutureKind::AllCompleted => false,
        FutureKind::FirstSucceededOrAllFailed => child == Outcome::Succeeded,
        FutureKind::AllSucceededOrFirstFailed => child == Outcome::Failed,
    }
}

/// Whether this outcome of a child is one that its node waits for.
pub fn waits_for(kind: FutureKind, child: Outcome) -> bool
    ensures { result ≡ waits_for kind child }
{
    child.is_done() && !fires_on(kind, child)
}

/// The outcome of a node that has no child left to wait for.
pub fn outcome_of(kind: FutureKind) -> Outcome
    ensures { result ≡ outcome_of kind }
{
    match kind {
        FutureKind::FirstCompleted | FutureKind::Unknown => Outcome::Pending,
        FutureKind::AllCompleted | FutureKind::AllSucceededOrFirstFailed => Outcome::Succeeded,
        FutureKind::FirstSucceededOrAllFailed => Outcome::Failed,
    }
}
