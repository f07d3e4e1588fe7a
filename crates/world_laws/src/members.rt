//! The law of rounds of a family, whoever runs their attempts.
ghost use Rattle.std.specs.Prelude.{List};
ghost use Rattle.journal_entries.specs.Journal.{Entry};
ghost use Rattle.vm_state.specs.declared.state_map.StateMap.{StateMap};
ghost use Rattle.vm_state.specs.Entries.{IsInOrder};
ghost use Rattle.vm_model.specs.Alike.{AlikeHandlers, IsOneRunAlike};
ghost use Rattle.vm_model.specs.Calls.{Meaning, Setup};
ghost use Rattle.vm_model.specs.Histories.{Honest, Whole};
ghost use Rattle.vm_model.specs.SoundHistories.{SoundHistory};
ghost use Rattle.world_laws.specs.MemberRounds.{MemberAttempt, MemberRounds};

/// Well-behaved rounds of any runtime, in which each attempt may run another handler of those that replay can't tell apart, keep the
/// journal a sound history of each of these handlers; and one run made it, in which each call is that of one of them, if so it was.
pub fn members_keep_histories()
    ensures sound { (s : Setup) (m other : Meaning) (base : StateMap) (before : List Entry)
        (attempts : List MemberAttempt) (behind : List Entry) → IsInOrder base.entries
        → SoundHistory s m base before → MemberRounds s m (Honest base) before attempts behind
        → AlikeHandlers s m other → SoundHistory s other base behind }
    ensures one_run { (s : Setup) (m : Meaning) (base : StateMap) (before : List Entry)
        (attempts : List MemberAttempt) (behind : List Entry) → IsInOrder base.entries
        → IsOneRunAlike s m (Honest base) before
        → MemberRounds s m (Honest base) before attempts behind
        → IsOneRunAlike s m (Honest base) behind }
    ensures undisturbed { (s : Setup) (m : Meaning) (base : StateMap) (before : List Entry)
        (attempts : List MemberAttempt) (behind : List Entry) → IsInOrder base.entries
        → IsOneRunAlike s m (Whole base) before
        → MemberRounds s m (Whole base) before attempts behind
        → IsOneRunAlike s m (Whole base) behind }
{}
