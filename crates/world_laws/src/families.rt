//! The law of rounds in which each attempt may run another handler of a family: each is honest, and faults come from outside.
ghost use Rattle.std.specs.Prelude.{List, ℕ};
ghost use Rattle.journal_entries.specs.declared.fault.JournalFault.{JournalFault};
ghost use Rattle.vm_model.specs.Calls.{Meaning};
ghost use Rattle.world_rounds.specs.declared.types.Setting.{Setting};
ghost use Rattle.world_rounds.specs.Families.{AreAlikeTo, Played, PlayedDo};
ghost use Rattle.world_rounds.specs.Fresh.{Skips};
ghost use Rattle.world_rounds.specs.Guarantees.{HasRightKinds, IsReplayable};
ghost use Rattle.world_rounds.specs.Rounds.{Fault, OutsideFault, ReportView};
ghost use Rattle.world_rounds.specs.Worlds.{IsJournal};
ghost use Rattle.world_laws.specs.PlayedRounds.{EachIsFresh, EachIsHonest, PlayedFaultBy};

/// What `run_rounds` says of the rounds of one handler holds of rounds of a family too: each round is honest for its own handler, and what
/// an attempt wrote can always be stored; each result of an invocation's id is one; and if replay is disabled, new ids are new.
pub fn families_keep_each_round()
    ensures honest { (w : Setting) (m : Meaning) (played : List Played)
        (old new : List (List ℕ)) (reports : List ReportView) → AreAlikeTo w m played
        → IsJournal old → IsReplayable (record { handler = m; setting = w }) old
        → (d : PlayedDo w played old reports new) → EachIsHonest w played old reports new d }
    ensures kinds { (w : Setting) (m : Meaning) (played : List Played)
        (old new : List (List ℕ)) (reports : List ReportView) → AreAlikeTo w m played
        → IsJournal old → IsReplayable (record { handler = m; setting = w }) old
        → PlayedDo w played old reports new → HasRightKinds new }
    ensures outside { (w : Setting) (m : Meaning) (played : List Played) (old : List (List ℕ))
        (f : JournalFault) → AreAlikeTo w m played → IsJournal old
        → IsReplayable (record { handler = m; setting = w }) old
        → PlayedFaultBy Fault w played old f → PlayedFaultBy OutsideFault w played old f }
    // This asks nothing of the handlers, nor of the journal but that it is one.
    ensures fresh { (w : Setting) (played : List Played) (old new : List (List ℕ))
        (reports : List ReportView) → Skips w.options → IsJournal old
        → (d : PlayedDo w played old reports new) → EachIsFresh w played old reports new d }
{}
