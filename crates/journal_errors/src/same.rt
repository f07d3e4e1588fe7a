//! Whose `==` says whether two values are the same.
ghost use Rattle.journal_errors.specs.Same.{error_exact};

use crate::ErrorMessage;
use wire::Exact;

impl Exact for ErrorMessage {
    ghost compares = { error_exact };
}
