//! The laws of an attempt's end: how many steps bring it there, or to where it waits.
ghost use Rattle.std.specs.Prelude.{◌≡◌, ◌⊎◌, ◌≤◌, ◌+◌, ℕ, length, Result, Ok, Err};
ghost use Rattle.journal_protocol.specs.Error.{Error};
ghost use Rattle.journal_protocol.specs.Errors.{no_memory};
ghost use Rattle.vm_model.specs.Fixed.{Fixed};
ghost use Rattle.vm_attempt.specs.declared.progress.Progress.{Progress};
ghost use Rattle.vm_attempt.specs.declared.progress.Progress.TheVariants as progress;
ghost use Rattle.vm_attempt.specs.Blames.{IsHonest};
ghost use Rattle.vm_attempt.specs.Heard.{Heard};
ghost use Rattle.vm_attempt.specs.Invariant.{AlwaysHolds};
ghost use Rattle.vm_attempt.specs.Record.{Record, heard};
ghost use Rattle.vm_attempt.specs.Stepping.{StepDoes};
ghost use Rattle.vm_attempt.specs.Ending.{IsRunning};
ghost use Rattle.vm_attempt.specs.Told.{IsKeptUnder, Premises};
ghost use Rattle.world_laws.specs.Limits.{AnswersAtMost, ComesToRest, EndsAfter, EndsWithin, StepsAnswered};

/// If the handler ends on a journal, an attempt makes at most as many steps with a result as are
/// missing. The step after these returns `Ended`, or is out of memory.
pub fn finished_attempts_end_in_time()
    ensures most { (fixed : Fixed) (old mid : Record) (n limit : ℕ) → IsKeptUnder fixed old
        → Premises fixed (heard fixed.version old) → IsRunning old
        → EndsWithin fixed (heard fixed.version old) limit
        → StepsAnswered fixed.handler n old mid → length old.answers + n ≤ limit }
    ensures last { (fixed : Fixed) (old mid : Record) (n limit : ℕ)
        (result : Result Progress Error) (new : Record) → IsKeptUnder fixed old
        → Premises fixed (heard fixed.version old) → IsRunning old
        → EndsWithin fixed (heard fixed.version old) limit → limit ≤ length old.answers + n
        → StepsAnswered fixed.handler n old mid → StepDoes fixed.handler mid result new
        → (result ≡ Ok progress.Ended) ⊎ (result ≡ Err no_memory) }
{}

/// If the handler's run on what was fed has a number of answers at most, an attempt makes at most as many steps with a result as are
/// missing, and the step after these comes to rest: the handler ends, it waits rightly, or it fails by an error of its own. It takes a valid
/// input, fed to an attempt whose handler has read its own and that can go on.
pub fn running_attempts_come_to_rest()
    ensures most { (fixed : Fixed) (old mid : Record) (n limit : ℕ) → AlwaysHolds fixed old
        → IsHonest fixed (heard fixed.version old) → IsRunning old
        → AnswersAtMost fixed (heard fixed.version old) limit
        → StepsAnswered fixed.handler n old mid → length old.answers + n ≤ limit }
    ensures rests { (fixed : Fixed) (old mid : Record) (n limit : ℕ)
        (result : Result Progress Error) (new : Record) → AlwaysHolds fixed old
        → IsHonest fixed (heard fixed.version old) → IsRunning old
        → AnswersAtMost fixed (heard fixed.version old) limit → limit ≤ length old.answers + n
        → StepsAnswered fixed.handler n old mid → StepDoes fixed.handler mid result new
        → ComesToRest fixed mid result new }
    // So it is of a handler that ends after this number of answers, of any kind, its input included.
    ensures ends { (fixed : Fixed) (fed : Heard) (limit : ℕ) → 1 ≤ limit
        → EndsAfter fixed.handler limit → AnswersAtMost fixed fed limit }
{}
