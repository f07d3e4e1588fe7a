//! Whose `==` says whether two values are the same.
ghost use Rattle.journal_calls.specs.Same.{signal_exact, signal_result_exact, attach_target_exact};

use crate::{InvocationTarget, Signal, SignalResult};
use wire::Exact;

impl Exact for Signal {
    ghost compares = { signal_exact };
}

impl Exact for SignalResult {
    ghost compares = { signal_result_exact };
}

impl Exact for InvocationTarget {
    ghost compares = { attach_target_exact };
}
