//! A law of the log, as a function that does nothing.
ghost use Rattle.std.specs.Prelude.{◌*◌, ◌≤◌, length};
ghost use Rattle.await_arrivals.specs.Entries.{Tracked};
ghost use Rattle.await_arrivals.specs.Ids.{held_for_ids};
ghost use Rattle.await_arrivals.specs.declared.log.Log.TheInside.{Inside};

/// A log takes memory in proportion to how many notifications came, for any ids that they claim. The invariant of each `Log` is
/// `Tracked`; by it a log has no more slots than entries, and four places and keys at most for each of them.
pub fn logs_are_in_proportion()
    ensures slots { (log : Inside) → Tracked log.entries.items log.index log.slots.items
        → length log.slots.items ≤ length log.entries.items }
    ensures held { (log : Inside) → Tracked log.entries.items log.index log.slots.items
        → held_for_ids log.index ≤ 4 * length log.entries.items }
{}
