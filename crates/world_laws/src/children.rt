//! The law of the cancel signals to a handler's children.
ghost use Rattle.std.specs.Prelude.{◌≡◌, List, ℕ, Some};
ghost use Rattle.journal_protocol.specs.InputCommand.{InputCommand};
ghost use Rattle.journal_protocol.specs.RawMessage.{RawMessage};
ghost use Rattle.journal_protocol.specs.Notification.{Notification};
ghost use Rattle.journal_entries.specs.Journal.{Entry, notifications_in};
ghost use Rattle.vm_state.specs.declared.state_map.StateMap.{StateMap};
ghost use Rattle.vm_model.specs.Calls.{Meaning, Setup};
ghost use Rattle.vm_model.specs.Histories.{History};
ghost use Rattle.vm_model.specs.Moves.{Point, after, start};
ghost use Rattle.world_laws.specs.Children.{EachChildOnce};

/// Each call that is cancelled with its handler is sent the cancel signal once at most, over all attempts: in a run, and so over a
/// journal that is a history of the handler, the commands of awaits are one cancel signal to each child that a cancelled await
/// had, in the order of the calls; and each child that was made is among these or has none yet.
pub fn children_are_cancelled_once()
    ensures run { (s : Setup) (m : Meaning) (n : ℕ) (input : InputCommand)
        (ns : List Notification) (cs : List RawMessage) (q : Point)
        → after s m n (start s input ns cs) ≡ Some q
        → EachChildOnce s m n (start s input ns cs) q }
    ensures history { (s : Setup) (m : Meaning) (base : StateMap) (journal : List Entry)
        (h : History s m base journal) → EachChildOnce s m h.told.0
        (start s h.input (notifications_in journal) h.rest) h.at }
{}
