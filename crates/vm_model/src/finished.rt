//! Laws of a handler that has ended.
ghost use Rattle.std.specs.Prelude.{◌≡◌, ◌++◌, List, []};
ghost use Rattle.journal_protocol.specs.RawMessage.{RawMessage};
ghost use Rattle.journal_protocol.specs.Notification.{Notification};
ghost use Rattle.vm_state.specs.declared.state_map.StateMap.{StateMap};
ghost use Rattle.vm_model.specs.Calls.{Setup, Meaning};
ghost use Rattle.journal_entries.specs.Journal.{Entry, commands_in, notifications_in};
ghost use Rattle.vm_model.specs.Histories.{Honest, IsPrefix, Undisturbed, Whole};
ghost use Rattle.vm_model.specs.HonestRounds.{Attempted, HonestRounds, IsOneRun, IsToldOn};
ghost use Rattle.vm_model.specs.Finished.{HasFinished};

/// Once the handler has ended it has ended for good. An attempt writes no command and gets no further answer, and
/// honest rounds leave the journal's commands as they are. A run that nothing interrupts makes no command beyond the journal's.
pub fn finished_stays_finished()
    ensures attempt { (s : Setup) (m : Meaning) (journal : List Entry) (h : HasFinished s m journal)
        (a : Attempted) → IsToldOn s m journal a
        → (commands_in a.course ≡ []) × IsPrefix a.answers h.at.answers }
    ensures rounds { (s : Setup) (m : Meaning) (base : StateMap) (before : List Entry)
        (attempts : List Attempted) (after : List Entry) → HasFinished s m before
        → HonestRounds s m (Honest base) before attempts after
        → HasFinished s m after × (commands_in after ≡ commands_in before) }
    ensures undisturbed { (s : Setup) (m : Meaning) (base : StateMap) (journal : List Entry)
        (one : IsOneRun s m (Whole base) journal) → HasFinished s m journal
        → (more : List Notification) (cs : List RawMessage)
        → Undisturbed s m base one.input (notifications_in journal ++ more) cs
        → IsPrefix cs one.rest }
{}
