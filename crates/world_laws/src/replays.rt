//! The laws of replay checks: what a replay of a journal proves, by a handler in any language.
ghost use Rattle.std.specs.Prelude.{◌≡◌, ◌≢◌, ◌⊎◌, ◌≤◌, ℕ, List, [], Err, length};
ghost use Rattle.std.proofs.Common.{Global};
ghost use Rattle.journal_protocol.specs.Error.{Error};
ghost use Rattle.journal_protocol.specs.Errors.{no_memory};
ghost use Rattle.journal_entries.specs.Journal.{Entry, notifications_in};
ghost use Rattle.vm_types.specs.declared.types.State.TheVariants as state;
ghost use Rattle.vm_state.specs.declared.state_map.StateMap.{StateMap};
ghost use Rattle.vm_machine.specs.Queries.{state_of};
ghost use Rattle.invocation_vm.specs.Making.{made};
ghost use Rattle.vm_model.specs.Calls.{Meaning, Setup};
ghost use Rattle.vm_model.specs.Fixed.{Fixed};
ghost use Rattle.vm_model.specs.Histories.{EagerFrom, History};
ghost use Rattle.vm_model.specs.HonestRounds.{Attempted, IsToldOn};
ghost use Rattle.vm_model.specs.SoundHistories.{SoundHistory};
ghost use Rattle.vm_attempt.specs.Record.{Record, heard};
ghost use Rattle.vm_attempt.specs.Stepping.{StepDoes, fresh_record};
ghost use Rattle.vm_attempt.specs.Courses.{Leads};
ghost use Rattle.vm_attempt.specs.Told.{ProvesHistory, ReplayPremises};
ghost use Rattle.world_rounds.specs.declared.types.Round.{Round};
ghost use Rattle.world_rounds.specs.Guarantees.{Case, HasOneResultEach, HasRightReads, IsHistory};
ghost use Rattle.world_rounds.specs.Rounds.{ReplaysAndQueues};
ghost use Rattle.world_laws.specs.Replays.{AttemptShows, HasRoom, IsFedAlone, PartsAt, case_with};
ghost use Rattle.world_laws.specs.declared.outcome.ReplayOutcome.{ReplayOutcome};
ghost use Rattle.world_laws.specs.declared.outcome.ReplayOutcome.TheVariants as outcome;
ghost use Rattle.world_laws.specs.ToldSets.{ToldSetsAreCompared};

/// A replay check proves that rounds may go on: if an attempt on a journal was delivered nothing else and has used all recorded
/// commands, and the values are compared which the calls set that this journal tells, then the journal is a sound history of its handler,
/// from each state by which the journal's eager reads are right.
pub fn replays_prove_sound_histories()
    ensures replayed { (s : Setup) (m : Meaning) (base : StateMap) (journal : List Entry)
        (a : Attempted) (t : IsToldOn s m journal a) → notifications_in a.course ≡ []
        → t.at.left ≡ [] → EagerFrom base t.rest → ToldSetsAreCompared s m journal
        → SoundHistory s m base journal }
    ensures history { (s : Setup) (m : Meaning) (base : StateMap) (journal : List Entry)
        → History s m base journal → ToldSetsAreCompared s m journal
        → SoundHistory s m base journal }
{}

/// So do the calls of an attempt, whoever makes them. If these are the calls that an `Attempt` makes
/// of a function from answers to steps, and then no recorded command is left, the journal is a
/// history of that function, if nothing else was fed. If one is refused before that, no move over
/// the journal leads on. A handler in another language is such a function for one attempt: what it
/// did after the answers that it got.
pub fn calls_prove_histories()
    ensures proves { (fixed : Fixed) (alloc : Global) (n : ℕ) (r : Record)
        → Leads fixed.handler n (fresh_record (made alloc fixed.options fixed.version)) r
        → state_of r.vm.machine ≡ state.Processing → ReplayPremises fixed (heard fixed.version r)
        → ProvesHistory fixed (heard fixed.version r) }
    // Of a journal as rounds have it, if no completion id has two results on it and its eager reads are right;
    ensures history { (c : Case) (round : Round) (journal : List (List ℕ)) (alloc : Global)
        (n : ℕ) (r : Record) → IsFedAlone c.setting round journal r
        → Leads c.handler n (fresh_record (made alloc c.setting.options c.setting.version)) r
        → state_of r.vm.machine ≡ state.Processing → ReplaysAndQueues c.setting.options
        → HasOneResultEach c journal → HasRightReads c journal → IsHistory c journal }
    // or if it is a history of the older handler.
    ensures takes_over { (c : Case) (round : Round) (journal : List (List ℕ)) (alloc : Global)
        (n : ℕ) (r : Record) → IsFedAlone c.setting round journal r
        → Leads c.handler n (fresh_record (made alloc c.setting.options c.setting.version)) r
        → state_of r.vm.machine ≡ state.Processing → ReplaysAndQueues c.setting.options
        → (older : Meaning) → IsHistory (case_with older c.setting) journal → IsHistory c journal }
    // An error while recorded commands are left, after the input was read, is out of memory, or the call is refused.
    ensures parts { (fixed : Fixed) (alloc : Global) (n : ℕ) (old new : Record) (e : Error)
        → Leads fixed.handler n (fresh_record (made alloc fixed.options fixed.version)) old
        → state_of old.vm.machine ≡ state.Replaying → old.answers ≢ []
        → ReplayPremises fixed (heard fixed.version old) → StepDoes fixed.handler old (Err e) new
        → e ≢ no_memory → PartsAt fixed old e new }
{}

/// A replay check of a history goes on, if it makes enough steps: an attempt that is fed Start and a journal, and nothing else, makes the
/// call of each recorded command if the journal is a history of its handler. No call is refused, and if recorded commands are left, the
/// steps were no more than the answers of the history. The journal has room for as many entries again, so that a cancelled await that
/// began on it has indexes for all its commands.
pub fn histories_go_on()
    ensures { (c : Case) (journal : List (List ℕ)) (limit : ℕ) (shown : ReplayOutcome)
        → AttemptShows c journal limit shown → ReplaysAndQueues c.setting.options
        → HasRoom journal → (h : IsHistory c journal) → (shown ≡ outcome.GoesOn)
        ⊎ ((shown ≡ outcome.TooFewSteps) × (limit ≤ length h.at.answers)) }
{}
