//! The law of where results and values come from that rounds store and return.
ghost use Rattle.std.specs.Prelude.{List, ℕ};
ghost use Rattle.world_rounds.specs.declared.types.Setting.{Setting};
ghost use Rattle.vm_model.specs.Calls.{Meaning};
ghost use Rattle.world_rounds.specs.Families.{AreAlikeTo, Played, PlayedDo};
ghost use Rattle.world_rounds.specs.Guarantees.{IsReplayable};
ghost use Rattle.world_rounds.specs.Rounds.{ReportView};
ghost use Rattle.world_rounds.specs.Worlds.{IsJournal};
ghost use Rattle.world_laws.specs.Reported.{EachBringsWhatCame, ResultsWereTold};

/// No result is invented. Each notification that rounds add to a journal arrived in one of them, or
/// completes a run: an event of that round reported the outcome of executing this very run, and the
/// notification has the result that becomes of it. And no value is: each one that an attempt's
/// answers bring is that of a notification, or of an eager read that is recorded or that the
/// attempt wrote.
pub fn results_are_reported()
    ensures results { (w : Setting) (played : List Played) (old : List (List ℕ))
        (reports : List ReportView) (new : List (List ℕ)) → IsJournal old
        → (d : PlayedDo w played old reports new) → ResultsWereTold w played old reports new d }
    ensures values { (w : Setting) (m : Meaning) (played : List Played)
        (old new : List (List ℕ)) (reports : List ReportView) → AreAlikeTo w m played
        → IsJournal old → IsReplayable (record { handler = m; setting = w }) old
        → (d : PlayedDo w played old reports new) → EachBringsWhatCame w played old reports new d }
{}
