//! Laws of handles: which of them are gone, and for which ids they stand.
ghost use Rattle.std.specs.Prelude.{◌≡◌, List, ℕ, Some};
ghost use Rattle.await_trees.specs.declared.handle.NotificationHandle.{NotificationHandle};
ghost use Rattle.journal_protocol.specs.InputCommand.{InputCommand};
ghost use Rattle.journal_protocol.specs.RawMessage.{RawMessage};
ghost use Rattle.journal_protocol.specs.Notification.{Notification};
ghost use Rattle.vm_types.specs.declared.steps.Answer.{Answer};
ghost use Rattle.vm_model.specs.Calls.{Meaning, Setup};
ghost use Rattle.vm_model.specs.Moves.{Point, after, start};
ghost use Rattle.vm_model.specs.NamedHandles.{Gets, Names};
ghost use Rattle.vm_model.specs.TakenHandles.{IsGone, TookValue};

/// A take that was answered with a value removes its handle, except the cancel handle. If it was that of a call whose invocation's
/// id wasn't known, the id is known from then on; of all other calls it is known or not as before.
pub fn taken_handles_go()
    ensures { (s : Setup) (m : Meaning) (n : ℕ) (input : InputCommand) (ns : List Notification)
        (cs : List RawMessage) (p q : Point) (handle : NotificationHandle)
        → after s m n (start s input ns cs) ≡ Some p
        → TookValue s m handle p q → IsGone handle p q }
{}

/// The handles of an answer stand for the ids that the commands of its own call carry: of a call the first for the invocation's
/// id and the second for the result, of a send for the invocation's id, of a call with a deadline also the third for the end of
/// the sleep, and of each other call, and of a state read in its lazy form, for the result. The handle of an awakeable or of a
/// named signal stands for the signal.
pub fn handles_name_ids()
    ensures { (s : Setup) (m : Meaning) (n : ℕ) (input : InputCommand) (ns : List Notification)
        (cs : List RawMessage) (p q : Point) (a : Answer)
        → after s m n (start s input ns cs) ≡ Some p → Gets s m a p q → Names s m p q a }
{}
