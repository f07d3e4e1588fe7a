//! Laws of honest rounds, whoever runs their attempts.
ghost use Rattle.std.specs.Prelude.{◌≡◌, ◌∷◌, ◌++◌, List, length};
ghost use Rattle.journal_protocol.specs.InputCommand.{InputCommand};
ghost use Rattle.journal_protocol.specs.RawMessage.{RawMessage};
ghost use Rattle.journal_protocol.specs.Notification.{Notification};
ghost use Rattle.vm_state.specs.declared.state_map.StateMap.{StateMap};
ghost use Rattle.vm_state.specs.Entries.{IsInOrder};
ghost use Rattle.vm_model.specs.Calls.{Setup, Meaning};
ghost use Rattle.journal_entries.specs.Journal.{Entry, Recorded, commands_in, notifications_in};
ghost use Rattle.vm_model.specs.Moves.{Point};
ghost use Rattle.vm_model.specs.ComparedSets.{SetsAreCompared};
ghost use Rattle.vm_model.specs.Histories.{History, Honest, IsPrefix, OneBegins, Told, Undisturbed, Whole};
ghost use Rattle.vm_model.specs.HonestRounds.{Attempted, HonestRound, HonestRounds, IsHanded, IsOneRun, IsToldOn};
ghost use Rattle.vm_model.specs.SoundHistories.{SoundHistory};
ghost use Rattle.vm_model.specs.Sums.{calls_for};

/// Honest rounds over a journal that one run of the handler made leave such a journal, with the very commands of its calls, if
/// each attempt is the handler's run over its journal, and what it is handed of the state is right. Such a journal is a sound
/// history.
pub fn honest_rounds()
    ensures round { (s : Setup) (m : Meaning) (base : StateMap) (before : List Entry)
        (a : Attempted) (after : List Entry) → IsInOrder base.entries
        → IsOneRun s m (Honest base) before → IsHanded (Honest base) before a
        → IsToldOn s m before a → HonestRound before a.course after
        → IsOneRun s m (Honest base) after }
    ensures rounds { (s : Setup) (m : Meaning) (base : StateMap) (before : List Entry)
        (attempts : List Attempted) (after : List Entry) → IsInOrder base.entries
        → IsOneRun s m (Honest base) before → HonestRounds s m (Honest base) before attempts after
        → IsOneRun s m (Honest base) after }
    ensures sound { (s : Setup) (m : Meaning) (base : StateMap) (journal : List Entry)
        → IsOneRun s m (Honest base) journal → SoundHistory s m base journal }
{}

/// Honest rounds over a sound history, whoever made it, leave a sound history.
pub fn sound_histories_last()
    ensures round { (s : Setup) (m : Meaning) (base : StateMap)
        (before : List Entry) (a : Attempted) (after : List Entry)
        → IsInOrder base.entries → SoundHistory s m base before
        → IsHanded (Honest base) before a → IsToldOn s m before a
        → HonestRound before a.course after → SoundHistory s m base after }
    ensures rounds { (s : Setup) (m : Meaning) (base : StateMap)
        (before : List Entry) (attempts : List Attempted) (after : List Entry)
        → IsInOrder base.entries → SoundHistory s m base before
        → HonestRounds s m (Honest base) before attempts after → SoundHistory s m base after }
{}

/// Where the values that the calls of a history set are compared, the history is sound by itself.
pub fn compared_histories_are_sound()
    ensures { (s : Setup) (m : Meaning) (base : StateMap) (journal : List Entry)
        (h : History s m base journal) → SetsAreCompared s (calls_for m h.at.answers)
        → SoundHistory s m base journal }
{}

/// If each attempt is handed all of the state, the commands stay those of an undisturbed run: where the rounds stopped leaves
/// no trace. Those after the input are its first ones.
pub fn whole_rounds()
    ensures round { (s : Setup) (m : Meaning) (base : StateMap) (before : List Entry)
        (a : Attempted) (after : List Entry) → IsInOrder base.entries
        → IsOneRun s m (Whole base) before → IsHanded (Whole base) before a → IsToldOn s m before a
        → HonestRound before a.course after → IsOneRun s m (Whole base) after }
    ensures rounds { (s : Setup) (m : Meaning) (base : StateMap) (before : List Entry)
        (attempts : List Attempted) (after : List Entry) → IsInOrder base.entries
        → IsOneRun s m (Whole base) before → HonestRounds s m (Whole base) before attempts after
        → IsOneRun s m (Whole base) after }
    ensures undisturbed { (s : Setup) (m : Meaning) (base : StateMap) (journal : List Entry)
        (h : IsOneRun s m (Whole base) journal)
        → Undisturbed s m base h.input (notifications_in journal) h.rest }
{}

/// Of two undisturbed runs one makes a beginning of the other's commands, also where more arrives.
pub fn one_undisturbed()
    ensures { (s : Setup) (m : Meaning) (base : StateMap) (input : InputCommand)
        (ns more : List Notification) (cs ds : List RawMessage) → Undisturbed s m base input ns cs
        → Undisturbed s m base input (ns ++ more) ds → OneBegins cs ds }
{}

/// In the journal that an honest round leaves, each new command stands after all that was delivered before it was written. Cut
/// the course before a command, and what was added before the one with the same index: it is the same command, and what was
/// delivered before it stands before it.
pub fn commands_stand_behind()
    ensures { (before course after : List Entry) → HonestRound before course after
        → (ahead behind earlier later : List Entry) (command written : RawMessage) → after ≡ before
        ++ (ahead ++ Recorded command ∷ behind) → course ≡ earlier ++ Recorded written ∷ later
        → length (commands_in ahead) ≡ length (commands_in earlier)
        → (command ≡ written) × IsPrefix (notifications_in earlier) (notifications_in ahead) }
{}

/// The answers at a point that is reached on an earlier journal, and those of a later attempt: one list is a prefix of the other.
pub fn attempts_agree()
    ensures { (s : Setup) (m : Meaning) (journal more : List Entry) (a : Attempted)
        (t : IsToldOn s m (journal ++ more) a) (rest : List RawMessage) → commands_in journal
        ≡ t.first ∷ rest → (p : Point) → Told s m t.input (notifications_in journal) rest p
        → OneBegins p.answers a.answers }
{}
