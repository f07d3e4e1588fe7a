//! Whose `==` says whether two values are the same.
ghost use Rattle.journal_attempt.specs.Same.{start_exact, node_exact, future_exact};

use crate::{Future, FutureNode, Start};
use wire::Exact;

impl Exact for Start {
    ghost compares = { start_exact };
}

impl Exact for FutureNode {
    ghost compares = { node_exact };
}

impl Exact for Future {
    ghost compares = { future_exact };
}
