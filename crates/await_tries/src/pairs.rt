//! The first of two leaves, judged without a walk over nodes, and without memory.
ghost use Rattle.std.specs.Prelude.{IfNone, IfSome};
ghost use Rattle.await_tries.specs.Await.{LeastAwake, LeftPending};
ghost use Rattle.await_tries.specs.Pairs.{first_of_two};
ghost use Rattle.journal_values.specs.declared.delivery.SignalDelivery.{SignalDelivery as Delivery};

use crate::course::sooner;
use vm_parts::AsyncResults;

/// How many notifications it takes until the first of two handles wakes: as many as give one of them a result. If all that came are
/// too few, both are left.
pub fn uses_until_either(results: &AsyncResults, one: u32, other: u32) -> Option<usize>
    ensures least { IfSome result (λ n. (delivery : Delivery)
        → LeastAwake delivery results.now (first_of_two one other) n) }
    ensures left { IfNone result ((delivery : Delivery)
        → LeftPending delivery results.now (first_of_two one other) (first_of_two one other)) }
{
    sooner(results.uses_until(one), results.uses_until(other))
}
