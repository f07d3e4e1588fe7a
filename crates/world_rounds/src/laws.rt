//! Laws of rounds: a new version of the handler, and a handler that has ended.
ghost use Rattle.std.specs.Prelude.{◌≡◌, ◌++◌, List, ℕ, map};
ghost use Rattle.vm_types.specs.declared.options.NonDeterministicChecksOption.TheVariants as checks;
ghost use Rattle.vm_types.specs.declared.steps.Answer.{Answer};
ghost use Rattle.journal_protocol.specs.Version.TheVariants as version;
ghost use Rattle.vm_model.specs.Alike.{AlikeHandlers, AlikeOn, LeaveAlikeOn};
ghost use Rattle.vm_model.specs.Calls.{Meaning};
ghost use Rattle.vm_model.specs.ComparedSets.{IsNoUnstableSet};
ghost use Rattle.vm_model.specs.Finished.{HasFinished};
ghost use Rattle.journal_entries.specs.Journal.{commands_in};
ghost use Rattle.vm_model.specs.Versions.{AgreeOn};
ghost use Rattle.journal_entries.specs.Entries.{journal_entries};
ghost use Rattle.world_rounds.specs.Worlds.{IsJournal, setup_of};
ghost use Rattle.world_rounds.specs.declared.types.Round.{Round};
ghost use Rattle.world_rounds.specs.declared.types.Setting.{Setting};
ghost use Rattle.await_trees.specs.declared.handle.NotificationHandle.{NotificationHandle};
ghost use Rattle.world_rounds.specs.Executing.{Executes, IsUnfinished};
ghost use Rattle.world_rounds.specs.Executions.{IsOneExecution};
ghost use Rattle.world_rounds.specs.Families.{AreAlikeTo, EachCanReplay, EachIsOwn, NoneIsPartial, Played, PlayedDo, played_by};
ghost use Rattle.world_rounds.specs.Guarantees.{AttemptsAgree, HasOneResultEach, HasRightReads, IsExactlyOnce, IsExactlyOnceAlike, IsHistory, IsReplayable, IsUninterrupted, IsUninterruptedAlike};
ghost use Rattle.world_rounds.specs.Origins.{NothingIsInvented};
ghost use Rattle.world_rounds.specs.Rounds.{ReplaysAndQueues, ReportView, RoundsDo};

/// One execution of a handler made a journal exactly if one run did, as the model of replay has it: a run in which nothing is
/// recorded.
pub fn executions_are_runs()
    ensures run { (m : Meaning) (w : Setting) (journal : List (List ℕ))
        → IsOneExecution m w journal → IsExactlyOnce (record { handler = m; setting = w }) journal }
    ensures execution { (m : Meaning) (w : Setting) (journal : List (List ℕ))
        → IsExactlyOnce (record { handler = m; setting = w }) journal
        → IsOneExecution m w journal }
{}

/// A new version of a handler takes over where it makes the same calls as the old one after all answers that the journal tells:
/// then what the journal is for the old version it is for the new one, and rounds of the new one keep it.
pub fn versions_take_over()
    ensures replayable { (w : Setting) (m other : Meaning) (journal : List (List ℕ))
        → AgreeOn (setup_of w) m other (journal_entries journal)
        → IsReplayable (record { handler = m; setting = w }) journal
        → IsReplayable (record { handler = other; setting = w }) journal }
    ensures one_run { (w : Setting) (m other : Meaning) (journal : List (List ℕ))
        → AgreeOn (setup_of w) m other (journal_entries journal)
        → IsExactlyOnce (record { handler = m; setting = w }) journal
        → IsExactlyOnce (record { handler = other; setting = w }) journal }
    ensures undisturbed { (w : Setting) (m other : Meaning) (journal : List (List ℕ))
        → AgreeOn (setup_of w) m other (journal_entries journal)
        → IsUninterrupted (record { handler = m; setting = w }) journal
        → IsUninterrupted (record { handler = other; setting = w }) journal }
    // That its eager reads are right, and that no completion id has two results, any version says.
    ensures reads { (w : Setting) (m other : Meaning) (journal : List (List ℕ))
        → IsHistory (record { handler = m; setting = w }) journal
        → HasRightReads (record { handler = other; setting = w }) journal }
    ensures once { (w : Setting) (m other : Meaning) (journal : List (List ℕ)) → IsJournal journal
        → IsHistory (record { handler = m; setting = w }) journal
        → HasOneResultEach (record { handler = other; setting = w }) journal }
    ensures rounds { (w : Setting) (m other : Meaning) (old mid new : List (List ℕ))
        (earlier later : List Round) (told more : List ReportView) → IsJournal old
        → IsReplayable (record { handler = m; setting = w }) old
        → RoundsDo m w earlier old told mid
        → AgreeOn (setup_of w) m other (journal_entries mid)
        → RoundsDo other w later mid more new
        → IsReplayable (record { handler = other; setting = w }) new }
{}

/// A handler that takes the time anew in each attempt, or whose payloads may differ where these aren't compared, is another one in
/// each of its rounds. If replay can't tell these apart, and their calls leave the same of the state, the rounds keep the journal
/// a history of each of them, whichever of them runs in which round.
pub fn families_keep_histories()
    ensures replayable { (w : Setting) (m : Meaning) (played : List Played)
        (old new : List (List ℕ)) (reports : List ReportView) → AreAlikeTo w m played
        → IsJournal old → IsReplayable (record { handler = m; setting = w }) old
        → PlayedDo w played old reports new
        → (other : Meaning) → AlikeHandlers (setup_of w) m other
        → IsReplayable (record { handler = other; setting = w }) new }
    // If one run made the journal, each call of which may be that of another one of them, as it made a new world's, then one such
    // run makes the new journal, each command once.
    ensures one_run { (w : Setting) (m : Meaning) (played : List Played)
        (old new : List (List ℕ)) (reports : List ReportView) → ReplaysAndQueues w.options
        → AreAlikeTo w m played → IsJournal old
        → IsExactlyOnceAlike (record { handler = m; setting = w }) old
        → PlayedDo w played old reports new
        → IsExactlyOnceAlike (record { handler = m; setting = w }) new }
    // If no round is partial, so does a run that nothing interrupts.
    ensures undisturbed { (w : Setting) (m : Meaning) (played : List Played)
        (old new : List (List ℕ)) (reports : List ReportView) → ReplaysAndQueues w.options
        → NoneIsPartial played → AreAlikeTo w m played → IsJournal old
        → IsUninterruptedAlike (record { handler = m; setting = w }) old
        → PlayedDo w played old reports new
        → IsUninterruptedAlike (record { handler = m; setting = w }) new }
    // So each round has the guarantees that ask for a journal that its handler can replay.
    ensures each { (w : Setting) (m : Meaning) (played : List Played)
        (old new : List (List ℕ)) (reports : List ReportView) → AreAlikeTo w m played
        → IsJournal old → IsReplayable (record { handler = m; setting = w }) old
        → (d : PlayedDo w played old reports new) → EachCanReplay w played old reports new d }
    // Each report's error is its own attempt's, and no mismatch is among them.
    ensures errors { (w : Setting) (m : Meaning) (played : List Played)
        (old new : List (List ℕ)) (reports : List ReportView) → AreAlikeTo w m played
        → IsJournal old → IsReplayable (record { handler = m; setting = w }) old
        → (d : PlayedDo w played old reports new) → EachIsOwn w played old reports new d }
    // The attempts of all of them agree with what the journal tells any one, and no completion id has two results.
    ensures agree { (w : Setting) (m : Meaning) (played : List Played)
        (old new : List (List ℕ)) (reports : List ReportView) → AreAlikeTo w m played
        → IsJournal old → IsReplayable (record { handler = m; setting = w }) old
        → PlayedDo w played old reports new
        → (other : Meaning) → AlikeHandlers (setup_of w) m other
        → AttemptsAgree (record { handler = other; setting = w }) new reports }
    ensures once { (w : Setting) (m : Meaning) (played : List Played)
        (old new : List (List ℕ)) (reports : List ReportView) → AreAlikeTo w m played
        → IsJournal old → IsReplayable (record { handler = m; setting = w }) old
        → PlayedDo w played old reports new
        → (other : Meaning) → AlikeHandlers (setup_of w) m other
        → HasOneResultEach (record { handler = other; setting = w }) new }
    // Once one of them has ended they all have, for good.
    ensures finished { (w : Setting) (m : Meaning) (played : List Played)
        (old new : List (List ℕ)) (reports : List ReportView) → AreAlikeTo w m played
        → IsJournal old → IsReplayable (record { handler = m; setting = w }) old
        → HasFinished (setup_of w) m (journal_entries old) → PlayedDo w played old reports new
        → ((other : Meaning) → AlikeHandlers (setup_of w) m other
        → HasFinished (setup_of w) other (journal_entries new))
        × (commands_in (journal_entries new) ≡ commands_in (journal_entries old)) }
    // Rounds of one handler are such rounds, and so are such rounds one after another.
    ensures of_one { (m : Meaning) (w : Setting) (rounds : List Round) (old : List (List ℕ))
        (reports : List ReportView) (new : List (List ℕ)) → RoundsDo m w rounds old reports new
        → PlayedDo w (map (played_by m) rounds) old reports new }
    ensures joined { (w : Setting) (earlier later : List Played) (old mid new : List (List ℕ))
        (reports more : List ReportView) → PlayedDo w earlier old reports mid
        → PlayedDo w later mid more new → PlayedDo w (earlier ++ later) old (reports ++ more) new }
{}

/// A new version of a handler takes over too where replay can't tell its calls from the old one's, after all answers that the
/// journal tells; and if these calls leave the same of the state, the journal can be replayed as all guarantees of rounds ask.
pub fn alike_versions_take_over()
    ensures history { (w : Setting) (m other : Meaning) (journal : List (List ℕ))
        → AlikeOn (setup_of w) m other (journal_entries journal)
        → IsHistory (record { handler = m; setting = w }) journal
        → IsHistory (record { handler = other; setting = w }) journal }
    ensures replayable { (w : Setting) (m other : Meaning) (journal : List (List ℕ))
        → AlikeOn (setup_of w) m other (journal_entries journal)
        → LeaveAlikeOn (setup_of w) m other (journal_entries journal)
        → IsReplayable (record { handler = m; setting = w }) journal
        → IsReplayable (record { handler = other; setting = w }) journal }
    ensures rounds { (w : Setting) (m other : Meaning) (old mid new : List (List ℕ))
        (earlier later : List Round) (told more : List ReportView) → IsJournal old
        → IsReplayable (record { handler = m; setting = w }) old
        → RoundsDo m w earlier old told mid
        → AlikeOn (setup_of w) m other (journal_entries mid)
        → LeaveAlikeOn (setup_of w) m other (journal_entries mid)
        → RoundsDo other w later mid more new
        → IsReplayable (record { handler = other; setting = w }) new }
{}

/// Nothing is invented: each entry that rounds add to a journal arrived in one of them, or an attempt of theirs wrote it; and each
/// notification among these arrived, or completes a run with a result that an attempt of theirs proposed. It asks nothing of the
/// journal, nor of the options.
pub fn nothing_is_invented()
    ensures rounds { (m : Meaning) (w : Setting) (rounds : List Round) (old : List (List ℕ))
        (reports : List ReportView) (new : List (List ℕ)) → RoundsDo m w rounds old reports new
        → NothingIsInvented rounds old reports new }
    ensures played { (w : Setting) (played : List Played) (old : List (List ℕ))
        (reports : List ReportView) (new : List (List ℕ)) → PlayedDo w played old reports new
        → NothingIsInvented (map (λ p. p.round) played) old reports new }
{}

/// Once the handler has ended it has ended for good: further rounds leave the journal's commands as they are.
pub fn finished_stays_finished()
    ensures { (m : Meaning) (w : Setting) (rounds : List Round) (old new : List (List ℕ))
        (reports : List ReportView) → IsJournal old
        → IsReplayable (record { handler = m; setting = w }) old
        → HasFinished (setup_of w) m (journal_entries old) → RoundsDo m w rounds old reports new
        → HasFinished (setup_of w) m (journal_entries new)
        × (commands_in (journal_entries new) ≡ commands_in (journal_entries old)) }
{}

/// A round executes no run whose result was in the journal when the round began: a run that the attempt hands out is pending, and
/// that journal has no result for its id. (That no attempt hands a run out twice is a law of attempts.)
pub fn finished_runs_are_not_executed()
    ensures { (m : Meaning) (w : Setting) (round : Round) (old : List (List ℕ))
        (handle : NotificationHandle) → IsJournal old
        → IsReplayable (record { handler = m; setting = w }) old
        → (x : Executes m w round old handle) → IsUnfinished handle x.new.vm.machine.runs old }
{}

/// A history can be replayed as all guarantees of rounds ask, if the options compare payloads and no call of the handler leaves the
/// value that it sets out of the comparison.
pub fn compared_histories_can_be_replayed()
    ensures { (m : Meaning) (w : Setting) (journal : List (List ℕ)) → ReplaysAndQueues w.options
        → w.options.non_determinism_checks ≡ checks.Enabled
        → ((answers : List Answer) → IsNoUnstableSet (m answers))
        → IsHistory (record { handler = m; setting = w }) journal
        → IsReplayable (record { handler = m; setting = w }) journal }
{}

/// A journal of version 7 is for version 8 what it was: an invocation's attempts may go on in the newer version.
pub fn journals_go_on_in_version_8()
    ensures replayable { (m : Meaning) (w : Setting) (journal : List (List ℕ))
        → IsReplayable (record { handler = m; setting = record w { version = version.V7 } }) journal
        → IsReplayable (record { handler = m; setting = record w { version = version.V8 } })
        journal }
    ensures one_run { (m : Meaning) (w : Setting) (journal : List (List ℕ))
        → IsExactlyOnce (record { handler = m; setting = record w { version = version.V7 } })
        journal
        → IsExactlyOnce (record { handler = m; setting = record w { version = version.V8 } })
        journal }
{}
