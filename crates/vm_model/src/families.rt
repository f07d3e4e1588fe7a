//! Laws of handlers whose calls replay can't tell apart: when a journal is for the one what it is for the other.
ghost use Rattle.std.specs.Prelude.{◌≡◌, ◌==◌, ◌/◌, if◌then◌else◌, List, ◌∷◌, ◌++◌, length, Option, Some, None, ℕ, true, false};
ghost use Rattle.std.specs.Duration.{as_nanos};
ghost use Rattle.std.specs.declared.time.Duration.{Duration};
ghost use Rattle.journal_protocol.specs.InputCommand.{InputCommand};
ghost use Rattle.journal_protocol.specs.Message.{Message};
ghost use Rattle.journal_protocol.specs.Notification.{Notification};
ghost use Rattle.journal_protocol.specs.RawMessage.{RawMessage};
ghost use Rattle.vm_state.specs.declared.state_map.StateMap.{StateMap};
ghost use Rattle.vm_state.specs.Entries.{IsInOrder};
ghost use Rattle.vm_types.specs.declared.options.PayloadOptions.{PayloadOptions};
ghost use Rattle.vm_types.specs.declared.steps.Step.{Step};
ghost use Rattle.vm_types.specs.declared.steps.Step.TheVariants as step;
ghost use Rattle.vm_types.specs.declared.values.NonEmptyValue.{NonEmptyValue};
ghost use Rattle.vm_types.specs.declared.values.Target.{Target};
ghost use Rattle.vm_asks.specs.Asks.{millis_of, time_fault, value_fault};
ghost use Rattle.vm_types.specs.Options.{ignores_payloads};
ghost use Rattle.vm_model.specs.Alike.{Alike, AlikeHandlers, AlikeOn, AlikeSteps, IsOneRunAlike, LeaveAlikeOn, saying};
ghost use Rattle.vm_model.specs.Calls.{Setup, Meaning, Derived, call_of};
ghost use Rattle.journal_entries.specs.Journal.{Entry, commands_in, input_read_from, notifications_in};
ghost use Rattle.vm_model.specs.Moves.{Point};
ghost use Rattle.vm_model.specs.Finished.{HasFinished};
ghost use Rattle.vm_model.specs.Histories.{History, Honest, OneBegins, Told, Whole};
ghost use Rattle.vm_model.specs.HonestRounds.{Attempted, HonestRound, IsHanded, IsOneRun, IsToldOn};
ghost use Rattle.vm_model.specs.SoundHistories.{SoundHistory};

/// If replay can't tell two handlers' calls apart on what a journal tells, it tells both the same answers, at the same points, but
/// for what their calls said; the journal is a history of the one if it is of the other; and it is a sound history of it if these
/// calls leave the same of the state.
pub fn erased_alike()
    ensures back { (s : Setup) (m other : Meaning) (journal : List Entry)
        → AlikeOn s m other journal → AlikeOn s other m journal }
    ensures told { (s : Setup) (m other : Meaning) (journal : List Entry) (first : RawMessage)
        (input : InputCommand) (rest : List RawMessage) (p : Point) → AlikeOn s m other journal
        → commands_in journal ≡ first ∷ rest → input_read_from first ≡ Some input
        → Told s m input (notifications_in journal) rest p → (said : List Message)
        × Told s other input (notifications_in journal) rest (saying said p) }
    ensures history { (s : Setup) (m other : Meaning) (base : StateMap) (journal : List Entry)
        → AlikeOn s m other journal → History s m base journal → History s other base journal }
    ensures sound { (s : Setup) (m other : Meaning) (base : StateMap) (journal : List Entry)
        → AlikeOn s m other journal → LeaveAlikeOn s m other journal → SoundHistory s m base journal
        → SoundHistory s other base journal }
    ensures finished { (s : Setup) (m other : Meaning) (journal : List Entry)
        → AlikeOn s m other journal → HasFinished s m journal → HasFinished s other journal }
    // The answers at a point that an earlier journal tells the one, and those of an attempt of the other: one list is a prefix of the other.
    ensures agree { (s : Setup) (m other : Meaning) (journal more : List Entry) (a : Attempted)
        (t : IsToldOn s other (journal ++ more) a) (rest : List RawMessage)
        → AlikeOn s m other journal → commands_in journal ≡ t.first ∷ rest → (p : Point)
        → Told s m t.input (notifications_in journal) rest p → OneBegins p.answers a.answers }
    // Handlers that are alike are so on each journal.
    ensures everywhere { (s : Setup) (m other : Meaning) (journal : List Entry)
        → AlikeHandlers s m other → AlikeOn s m other journal × LeaveAlikeOn s m other journal }
{}

/// Honest rounds over a journal that one run made, in which each call may be that of another handler of those that replay can't
/// tell apart, leave such a journal, with the very commands of these calls. It is a sound history of each of these handlers.
pub fn one_run_of_a_family()
    ensures begins { (s : Setup) (m : Meaning) (base : StateMap) (journal : List Entry)
        → IsOneRun s m (Honest base) journal → IsOneRunAlike s m (Honest base) journal }
    ensures sound { (s : Setup) (m other : Meaning) (base : StateMap) (journal : List Entry)
        → AlikeHandlers s m other → IsOneRunAlike s m (Honest base) journal
        → SoundHistory s other base journal }
    ensures round { (s : Setup) (m other : Meaning) (base : StateMap) (before : List Entry)
        (a : Attempted) (behind : List Entry) → AlikeHandlers s m other → IsInOrder base.entries
        → IsOneRunAlike s m (Honest base) before → IsHanded (Honest base) before a
        → IsToldOn s other before a → HonestRound before a.course behind
        → IsOneRunAlike s m (Honest base) behind }
    // So it is if all of the state is known, and handed out.
    ensures begins_whole { (s : Setup) (m : Meaning) (base : StateMap) (journal : List Entry)
        → IsOneRun s m (Whole base) journal → IsOneRunAlike s m (Whole base) journal }
    ensures whole_round { (s : Setup) (m other : Meaning) (base : StateMap) (before : List Entry)
        (a : Attempted) (behind : List Entry) → AlikeHandlers s m other → IsInOrder base.entries
        → IsOneRunAlike s m (Whole base) before → IsHanded (Whole base) before a
        → IsToldOn s other before a → HonestRound before a.course behind
        → IsOneRunAlike s m (Whole base) behind }
{}

/// Steps are alike that differ only in what replay doesn't compare. A time in whole milliseconds that fits differs from one that
/// doesn't, for the call is refused.
pub fn erased_steps()
    ensures same { (s : Setup) (one : Step) → AlikeSteps s one one }
    ensures back { (s : Setup) (one other : Step) → AlikeSteps s one other
        → AlikeSteps s other one }
    ensures along { (s : Setup) (one other last : Step) → AlikeSteps s one other
        → AlikeSteps s other last → AlikeSteps s one last }
    // When a sleep wakes isn't compared, nor when a delayed call is made.
    ensures sleeps { (s : Setup) (name : List ℕ) (t u : Duration) (now later : Option Duration)
        → time_fault (as_nanos t / 1000000) ≡ time_fault (as_nanos u / 1000000)
        → AlikeSteps s (step.Sleep name t now) (step.Sleep name u later) }
    // So a handler that first sleeps until a time which it takes anew in each attempt is alike in all of them.
    ensures first_sleeps { (s : Setup) (m : Meaning) (name : List ℕ) (t u : Duration)
        → time_fault (as_nanos t / 1000000) ≡ time_fault (as_nanos u / 1000000)
        → AlikeHandlers s
        (λ answers. if length answers == 1 then step.Sleep name t None else m answers)
        (λ answers. if length answers == 1 then step.Sleep name u None else m answers) }
    ensures sends { (s : Setup) (target : Target) (input : List ℕ) (t u : Option Duration)
        (name : Option (List ℕ)) (options : PayloadOptions)
        → time_fault (millis_of t) ≡ time_fault (millis_of u)
        → AlikeSteps s (step.Send target input t name options)
        (step.Send target input u name options) }
    ensures deadlines { (s : Setup) (target : Target) (input : List ℕ) (t u : Duration)
        (name : Option (List ℕ)) (options : PayloadOptions)
        → time_fault (as_nanos t / 1000000) ≡ time_fault (as_nanos u / 1000000)
        → AlikeSteps s (step.CallWithDeadline target input t name options)
        (step.CallWithDeadline target input u name options) }
    // Nor are payloads where the options, or the call's, say so:
    ensures call_payloads { (s : Setup) (target : Target) (x y : List ℕ) (name : Option (List ℕ))
        (options : PayloadOptions)
        → ignores_payloads s.options.non_determinism_checks options.unstable_serialization ≡ true
        → AlikeSteps s (step.Call target x name options) (step.Call target y name options) }
    ensures send_payloads { (s : Setup) (target : Target) (x y : List ℕ) (t u : Option Duration)
        (name : Option (List ℕ)) (options : PayloadOptions)
        → time_fault (millis_of t) ≡ time_fault (millis_of u)
        → ignores_payloads s.options.non_determinism_checks options.unstable_serialization ≡ true
        → AlikeSteps s (step.Send target x t name options) (step.Send target y u name options) }
    ensures deadline_payloads { (s : Setup) (target : Target) (x y : List ℕ) (t u : Duration)
        (name : Option (List ℕ)) (options : PayloadOptions)
        → time_fault (as_nanos t / 1000000) ≡ time_fault (as_nanos u / 1000000)
        → ignores_payloads s.options.non_determinism_checks options.unstable_serialization ≡ true
        → AlikeSteps s (step.CallWithDeadline target x t name options)
        (step.CallWithDeadline target y u name options) }
    ensures output_payloads { (s : Setup) (x y : NonEmptyValue) (options : PayloadOptions)
        → value_fault x s.version ≡ value_fault y s.version
        → ignores_payloads s.options.non_determinism_checks options.unstable_serialization ≡ true
        → AlikeSteps s (step.WriteOutput x options) (step.WriteOutput y options) }
    ensures awakeable_payloads { (s : Setup) (id : List ℕ) (x y : NonEmptyValue)
        (options : PayloadOptions) → value_fault x s.version ≡ value_fault y s.version
        → ignores_payloads s.options.non_determinism_checks options.unstable_serialization ≡ true
        → AlikeSteps s (step.CompleteAwakeable id x options)
        (step.CompleteAwakeable id y options) }
    ensures promise_payloads { (s : Setup) (key : List ℕ) (x y : NonEmptyValue)
        (options : PayloadOptions) → value_fault x s.version ≡ value_fault y s.version
        → ignores_payloads s.options.non_determinism_checks options.unstable_serialization ≡ true
        → AlikeSteps s (step.CompletePromise key x options)
        (step.CompletePromise key y options) }
    // That of a named signal is only where the options leave all payloads out.
    ensures signal_payloads { (s : Setup) (target name : List ℕ) (x y : NonEmptyValue)
        → value_fault x s.version ≡ value_fault y s.version
        → ignores_payloads s.options.non_determinism_checks false ≡ true
        → AlikeSteps s (step.CompleteSignal target name x)
        (step.CompleteSignal target name y) }
    // The exception is a value that is set: replay can't tell another one apart, but it leaves another state.
    ensures set_payloads { (s : Setup) (key x y : List ℕ) (name : Option (List ℕ))
        (options : PayloadOptions)
        → ignores_payloads s.options.non_determinism_checks options.unstable_serialization ≡ true
        → (d : Derived) → Alike (call_of s (step.StateSet key x name options) d)
        (call_of s (step.StateSet key y name options) d) }
{}
