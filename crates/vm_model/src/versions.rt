//! Laws of new versions of a handler: when what a journal is for the one it is for the other.
ghost use Rattle.std.specs.Prelude.{◌≡◌, List, [], ◌∷◌, Some};
ghost use Rattle.journal_protocol.specs.InputCommand.{InputCommand};
ghost use Rattle.journal_protocol.specs.RawMessage.{RawMessage};
ghost use Rattle.vm_state.specs.declared.state_map.StateMap.{StateMap};
ghost use Rattle.vm_model.specs.Calls.{Setup, Meaning};
ghost use Rattle.journal_entries.specs.Journal.{Entry, notifications_in};
ghost use Rattle.vm_model.specs.Histories.{EagerFrom, History, Honest, Whole};
ghost use Rattle.vm_model.specs.HonestRounds.{Attempted, IsOneRun, IsToldOn};
ghost use Rattle.vm_model.specs.SoundHistories.{SoundHistory};
ghost use Rattle.vm_model.specs.Versions.{AgreeOn};

/// A replay check proves a history: if an attempt on a journal was delivered nothing else and has used all recorded commands, then the
/// journal is a history of its handler, from each state by which the journal's eager reads are right. What the attempt wrote after
/// that doesn't matter.
pub fn replays_prove_histories()
    ensures { (s : Setup) (m : Meaning) (base : StateMap) (journal : List Entry) (a : Attempted)
        (t : IsToldOn s m journal a) → notifications_in a.course ≡ [] → t.at.left ≡ []
        → EagerFrom base t.rest → History s m base journal }
{}

/// If two versions of a handler make the same calls after all answers that a journal tells, the journal is a history, a sound
/// history or one run of the one if it is that of the other.
pub fn versions_share_journals()
    ensures back { (s : Setup) (m other : Meaning) (journal : List Entry)
        → AgreeOn s m other journal → AgreeOn s other m journal }
    ensures history { (s : Setup) (m other : Meaning) (base : StateMap) (journal : List Entry)
        → AgreeOn s m other journal → History s m base journal → History s other base journal }
    ensures sound { (s : Setup) (m other : Meaning) (base : StateMap) (journal : List Entry)
        → AgreeOn s m other journal → SoundHistory s m base journal
        → SoundHistory s other base journal }
    ensures one_run { (s : Setup) (m other : Meaning) (base : StateMap) (journal : List Entry)
        → AgreeOn s m other journal → IsOneRun s m (Honest base) journal
        → IsOneRun s other (Honest base) journal }
    ensures undisturbed { (s : Setup) (m other : Meaning) (base : StateMap) (journal : List Entry)
        → AgreeOn s m other journal → IsOneRun s m (Whole base) journal
        → IsOneRun s other (Whole base) journal }
{}
