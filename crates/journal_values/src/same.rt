//! Whose `==` says whether two values are the same.
ghost use Rattle.std.proofs.Common.{rules};
ghost use Rattle.journal_values.specs.Same.{value_exact, notification_exact, failure_exact, id_exact, result_exact};

use crate::{Failure, Notification, NotificationId, NotificationResult, ValueOrFailure};
use wire::{Exact, Plain};

impl Exact for ValueOrFailure {
    ghost compares = { value_exact };
}

impl Exact for Notification {
    ghost compares = { notification_exact };
}

impl Exact for Failure {
    ghost compares = { failure_exact };
}

impl Exact for NotificationId {
    ghost compares = { id_exact };
}

impl Plain for NotificationId {
    ghost copies = { λ a b. Prim.search rules };
}

impl Exact for NotificationResult {
    ghost compares = { result_exact };
}
