//! Laws of the numbers that calls are given.
ghost use Rattle.std.specs.Prelude.{◌≡◌, ◌+◌, List, ℕ, Some};
ghost use Rattle.journal_protocol.specs.InputCommand.{InputCommand};
ghost use Rattle.journal_protocol.specs.RawMessage.{RawMessage};
ghost use Rattle.journal_protocol.specs.Notification.{Notification};
ghost use Rattle.vm_model.specs.Calls.{Setup, Meaning};
ghost use Rattle.vm_model.specs.Moves.{Point, after, start};
ghost use Rattle.vm_model.specs.Sums.{calls_for, completion_ids, handles, signal_ids, total};

/// The next numbers of a run are sums over the calls that brought its answers: completion ids from 1, signal ids and
/// handles from 17.
pub fn numbers_are_sums()
    ensures { (s : Setup) (m : Meaning) (n : ℕ) (input : InputCommand) (ns : List Notification)
        (cs : List RawMessage) (q : Point) → after s m n (start s input ns cs) ≡ Some q
        → (q.derived.counters.completion
        ≡ 1 + total (completion_ids s.version) (calls_for m q.answers))
        × (q.derived.counters.signal
        ≡ 17 + total (signal_ids s.version) (calls_for m q.answers))
        × (q.derived.counters.handle ≡ 17 + total (handles s.version) (calls_for m q.answers)) }
{}
