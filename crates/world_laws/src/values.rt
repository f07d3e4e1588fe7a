//! The law of the values that a handler is given.
ghost use Rattle.std.specs.Prelude.{◌≡◌, List, ℕ, Some};
ghost use Rattle.std.specs.List.{AllByRecursion};
ghost use Rattle.journal_protocol.specs.InputCommand.{InputCommand};
ghost use Rattle.journal_protocol.specs.RawMessage.{RawMessage};
ghost use Rattle.journal_protocol.specs.Notification.{Notification};
ghost use Rattle.journal_entries.specs.Journal.{Entry, notifications_in};
ghost use Rattle.vm_state.specs.declared.state_map.StateMap.{StateMap};
ghost use Rattle.vm_model.specs.Calls.{Meaning, Setup};
ghost use Rattle.vm_model.specs.Histories.{History};
ghost use Rattle.vm_model.specs.Moves.{Point, after, start};
ghost use Rattle.world_laws.specs.Values.{ValueCame};

/// No value is invented: each value that a handler gets is that of a notification that came, or
/// that of a recorded eager read.
pub fn answers_bring_what_came()
    ensures run { (s : Setup) (m : Meaning) (n : ℕ) (input : InputCommand)
        (ns : List Notification) (cs : List RawMessage) (q : Point)
        → after s m n (start s input ns cs) ≡ Some q
        → AllByRecursion (ValueCame ns cs) q.answers }
    ensures history { (s : Setup) (m : Meaning) (base : StateMap) (journal : List Entry)
        (h : History s m base journal)
        → AllByRecursion (ValueCame (notifications_in journal) h.rest) h.at.answers }
{}
