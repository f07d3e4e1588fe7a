//! Whose `==` says whether two values are the same.
ghost use Rattle.journal_state.specs.Same.{void_or_value_exact};

use crate::VoidOrValue;
use wire::Exact;

impl Exact for VoidOrValue {
    ghost compares = { void_or_value_exact };
}
