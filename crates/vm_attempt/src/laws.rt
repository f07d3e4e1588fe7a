//! What an attempt's machine and a handler's run have to do with each other.
ghost use Rattle.std.specs.Prelude.{◌≡◌, ◌⊎◌, ◌∷◌, ◌++◌, [], IsSome, List, None};
ghost use Rattle.journal_protocol.specs.RawMessage.{RawMessage};
ghost use Rattle.journal_protocol.specs.Notification.{Notification};
ghost use Rattle.vm_machine.specs.declared.machine.Machine.{Machine};
ghost use Rattle.vm_machine.specs.declared.phase.Phase.TheVariants.{Replaying};
ghost use Rattle.vm_machine.specs.Inputs.{input_step};
ghost use Rattle.vm_machine.specs.Making.{fresh};
ghost use Rattle.vm_machine.specs.Outcomes.{Outcome};
ghost use Rattle.invocation_vm.specs.Making.{made};
ghost use Rattle.std.proofs.Common.{Global};
ghost use Rattle.journal_protocol.specs.Version.{Version};
ghost use Rattle.vm_types.specs.declared.options.VMOptions.{VMOptions};
ghost use Rattle.invocation_vm.specs.Views.{all_received};
ghost use Rattle.vm_model.specs.Calls.{Setup, Meaning, identity_of};
ghost use Rattle.vm_model.specs.Deliveries.{HasNoTwo};
ghost use Rattle.vm_model.specs.Histories.{History, IsAwaiting, IsPrefix};
ghost use Rattle.vm_types.specs.declared.options.JournalReplay.TheVariants.{Enabled};
ghost use Rattle.journal_protocol.specs.SignalDelivery.TheVariants.{Queued};
ghost use Rattle.vm_model.specs.HonestRounds.{IsToldOn};
ghost use Rattle.journal_entries.specs.Journal.{Entry, commands_in, input_read_from, notifications_in};
ghost use Rattle.vm_model.specs.Moves.{Point, later};
ghost use Rattle.vm_state.specs.declared.state_map.StateMap.{StateMap};
ghost use Rattle.vm_parts.specs.Outboxes.{WholeFrames};
ghost use Rattle.vm_attempt.specs.Agreement.{Agrees, Aside, CallFollows};
ghost use Rattle.vm_attempt.specs.Courses.{FailedByResult, Leads};
ghost use Rattle.vm_model.specs.Fixed.{Fixed};
ghost use Rattle.vm_attempt.specs.Blames.{Blame, FailsAt, IsHonest, IsOwnError, RefusedResult};
ghost use Rattle.vm_attempt.specs.Ending.{FinishesOn, GoesToEnd, IsRunning};
ghost use Rattle.vm_attempt.specs.Honest.{FeedsHonestly};
ghost use Rattle.vm_model.specs.Finished.{HasFinished};
ghost use Rattle.std.specs.Prelude.{◌≢◌};
ghost use Rattle.vm_attempt.specs.Arrivals.{arriving, kept_after};
ghost use Rattle.journal_entries.specs.JournalFrames.{as_entries};
ghost use Rattle.vm_attempt.specs.Journals.{BeginsOrFails, Started, machine_fed, setup_for};
ghost use Rattle.vm_attempt.specs.Steps.{IfDone, Performs, ReadsBack};
ghost use Rattle.vm_attempt.specs.Told.{AnswersAreTold, HasCome, IsKeptUnder, Journal, Premises, RefusesReplay, ToldBy, start_state};
ghost use Rattle.vm_attempt.specs.declared.progress.Progress.{Progress};
ghost use Rattle.vm_attempt.specs.declared.progress.Progress.TheVariants.{ExecuteRun};
ghost use Rattle.vm_attempt.specs.declared.progress.Reply.{Reply};
ghost use Rattle.std.specs.Prelude.{Result, Ok};
ghost use Rattle.journal_protocol.specs.Error.{Error};
ghost use Rattle.std.specs.declared.alloc.AllocError.{AllocError};
ghost use Rattle.await_trees.specs.declared.handle.NotificationHandle.{NotificationHandle};
ghost use Rattle.vm_retries.specs.declared.policy.RetryPolicy.{RetryPolicy};
ghost use Rattle.vm_types.specs.declared.runs.RunExitResult.{RunExitResult};
ghost use Rattle.vm_attempt.specs.Stepping.{CloseDoes, FeedDoes, FinishDoes, StepDoes, Takes, fresh_record};
ghost use Rattle.vm_attempt.specs.Heard.{Heard};
ghost use Rattle.vm_attempt.specs.Record.{Record, heard};
ghost use Rattle.invocation_vm.specs.Views.{View, after_input};
ghost use Rattle.std.specs.Prelude.{ℕ, Bool, Option, Some};
ghost use Rattle.vm_types.specs.declared.steps.Answer.{Answer};
ghost use Rattle.await_trees.specs.declared.tree.UnresolvedFuture.{UnresolvedFuture};

/// In a machine that agrees with a point of the handler's run, the handler's call does what the moves from there lead to:
/// it is answered as they are, writes the commands that they make and no others, and agrees with the point where they lead;
/// or an await waits, once no arrival and no recorded command is left, and asks for one more arrival; or the handler
/// ends, once no recorded command is left; or the call is refused, if no move leads on. A cancelled await or a call with several
/// commands that is refused, or finds no memory, has made a beginning of its commands, each whole. Of an await this is said if signals
/// queue and no completion has two results, and of a call with several commands before the first of them is made. (That a command
/// which was written can be read back is in the contract of each call.)
pub fn calls_follow()
    ensures { (s : Setup) (m : Meaning) (given : StateMap) (written : List RawMessage) (v : Machine)
        (p : Point) (o : Outcome Reply)
        → ((future : UnresolvedFuture) → IsAwaiting m p future
        → (s.options.signal_delivery ≡ Queued) × HasNoTwo p) → p.derived.parts ≡ 0
        → Agrees s given written v p → Performs (m p.answers) v o
        → IfDone o (ReadsBack (m p.answers) v) → CallFollows s m given written p v o }
{}

/// Frames that come to a machine that agrees with a point are arrivals: a notification as it is, and an acknowledgement as the completion
/// of its run, with the result that was proposed, once. The machine then agrees with that point and these arrivals after its own, and keeps
/// the proposals that weren't acknowledged; or it has failed, by the first frame that is refused in the phase in which it comes.
pub fn frames_arrive()
    ensures { (s : Setup) (given : StateMap) (written : List RawMessage) (v : Machine) (p : Point)
        (raws : List RawMessage) → Agrees s given written v p
        → (Agrees s given written (all_received raws v) (later (arriving v.proposals raws) p)
        × ((all_received raws v).proposals ≡ kept_after v.proposals raws))
        ⊎ FailsAt raws v (all_received raws v) }
{}

/// A machine that has the whole journal, whose commands are replayed, reads its input: if the first command is one, the handler gets
/// it, and the machine agrees with the first point of the handler's run; else the call is refused.
pub fn attempts_begin()
    ensures { (s : Setup) (given : StateMap) (aside : Aside) (first : RawMessage)
        (rest : List RawMessage) (ns : List Notification) → s.options.journal_replay ≡ Enabled
        → s.identity ≡ identity_of aside.start
        → BeginsOrFails s given aside rest ns (input_read_from first)
        (input_step (machine_fed s given aside (first ∷ rest) ns Replaying)) }
{}

/// Frames that come to a new machine: it has failed; or the first is a Start, and the machine waits for as many of the known
/// entries as are missing; or the known entries are the journal, and all notifications that came are arrivals. It fails only by
/// a frame that is refused in the phase in which it comes: it doesn't decode, its type isn't allowed there, or Start is refused.
pub fn journals_come()
    ensures fails { (raws : List RawMessage) (v : Machine) → v.failure ≡ None
        → IsSome (all_received raws v).failure → FailsAt raws v (all_received raws v) }
    ensures comes { (alloc : Global) (version : Version) (options : VMOptions) (first : RawMessage)
        (raws : List RawMessage)
        → Started alloc version options first raws
        (all_received (first ∷ raws) (fresh alloc version options)) }
{}

/// What each call of an attempt keeps, under all options and for all input: before the handler's input nothing was answered and no
/// command written; then each command that was written can be read back.
pub fn attempts_write()
    ensures made { (alloc : Global) (fixed : Fixed)
        → HasCome fixed (fresh_record (made alloc fixed.options fixed.version)) }
    ensures fed { (fixed : Fixed) (piece : List ℕ) (old : Record) (result : Result Unit AllocError)
        (new : Record) → HasCome fixed old → FeedDoes old.starved piece old result new
        → HasCome fixed new }
    ensures closed { (fixed : Fixed) (old : Record) (result : Result Unit AllocError) (new : Record)
        → HasCome fixed old → CloseDoes old.starved old result new → HasCome fixed new }
    ensures taken { (fixed : Fixed) (old : Record) (result : Result (List ℕ) AllocError)
        (new : Record) → HasCome fixed old → Takes old result new → HasCome fixed new }
    ensures stepped { (fixed : Fixed) (old : Record) (result : Result Progress Error) (new : Record)
        → HasCome fixed old → StepDoes fixed.handler old result new → HasCome fixed new }
    ensures told { (fixed : Fixed) (handle : NotificationHandle) (exit : RunExitResult)
        (policy : RetryPolicy) (old : Record) (result : Result Unit Error) (new : Record)
        → HasCome fixed old → FinishDoes old.starved handle exit policy old result new
        → HasCome fixed new }
{}

/// What each call of an attempt keeps under the premises: recorded commands are replayed, signals queue, and no completion has two
/// results. Some number of moves of the handler's run lead to its answers and made what was written, and the machine
/// agrees with that point as long as it can make calls.
pub fn attempts_keep()
    ensures made { (fixed : Fixed) (alloc : Global)
        → IsKeptUnder fixed (fresh_record (made alloc fixed.options fixed.version)) }
    ensures fed { (fixed : Fixed) (piece : List ℕ) (old : Record) (result : Result Unit AllocError)
        (new : Record) → IsKeptUnder fixed old → FeedDoes old.starved piece old result new
        → IsKeptUnder fixed new }
    ensures closed { (fixed : Fixed) (old : Record) (result : Result Unit AllocError) (new : Record)
        → IsKeptUnder fixed old → CloseDoes old.starved old result new → IsKeptUnder fixed new }
    ensures taken { (fixed : Fixed) (old : Record) (result : Result (List ℕ) AllocError)
        (new : Record) → IsKeptUnder fixed old → Takes old result new → IsKeptUnder fixed new }
    ensures stepped { (fixed : Fixed) (old : Record) (result : Result Progress Error) (new : Record)
        → IsKeptUnder fixed old → StepDoes fixed.handler old result new → IsKeptUnder fixed new }
    ensures told { (fixed : Fixed) (handle : NotificationHandle) (exit : RunExitResult)
        (policy : RetryPolicy) (old : Record) (result : Result Unit Error) (new : Record)
        → HasCome fixed old → IsKeptUnder fixed old
        → FinishDoes old.starved handle exit policy old result new → IsKeptUnder fixed new }
{}

/// Where the known entries are a history of the handler, no call is refused while recorded commands are left: no mismatch, no
/// pending await, no end before its time.
pub fn histories_are_replayed()
    ensures { (fixed : Fixed) (fed : Heard) (answers : List Answer) (e : Error) (old new : Machine)
        (refusal : RefusesReplay fixed fed answers e old new) (recorded : RawMessage)
        (further : List RawMessage) → refusal.at.left ≡ recorded ∷ further → (base : StateMap)
        → History (setup_for fixed refusal.journal.start) fixed.handler base
        (as_entries refusal.journal.entries) → ⊥ }
{}

/// Under the premises the answers of an attempt are those of a point that is reached on its journal, followed by what it wrote,
/// with the arrivals that it was fed; while recorded commands are left, it has written none.
pub fn answers_are_told()
    ensures { (fixed : Fixed) (r : Record) → IsKeptUnder fixed r → WholeFrames r.vm.machine.output
        → Premises fixed (heard fixed.version r) → (r.answers ≡ []) ⊎ AnswersAreTold fixed r }
{}

/// If the known entries are a history of the handler and each frame has its place, an error is only: out of memory; input that
/// was closed while known entries were missing; or, once no recorded command is left, a call's own refusal, for an argument or
/// version check, a kind of number that ran out, or a state key that is no text; or that of a run's result that failed the VM.
pub fn honest_attempts_fail_by_themselves()
    ensures { (fixed : Fixed) (r : Record) (fed : Heard) (closed : Bool) (answers : List Answer)
        (e : Error) → IsHonest fixed fed → Blame fixed fed closed answers (RefusedResult fixed r) e
        → IsOwnError fixed fed closed answers (RefusedResult fixed r) e }
{}

/// Bytes that are a beginning of Start, of the whole journal, which is a history of the handler, and of notifications after it are
/// an honest attempt's: each of its frames has its place.
pub fn honest_bytes_are_honest()
    ensures { (fixed : Fixed) (fed : Heard) → FeedsHonestly fixed fed → IsHonest fixed fed }
{}

/// A run is handed out to be executed once at most: of all calls of an attempt, from its first on, with all answers, no
/// two of its steps answer `ExecuteRun` with the same handle.
pub fn runs_are_executed_once()
    ensures { (fixed : Fixed) (alloc : Global) (handle : NotificationHandle) (before between : ℕ)
        (a b c d : Record) → Leads fixed.handler before
        (fresh_record (made alloc fixed.options fixed.version)) a
        → StepDoes fixed.handler a (Ok (ExecuteRun handle)) b → Leads fixed.handler between b c
        → StepDoes fixed.handler c (Ok (ExecuteRun handle)) d → ⊥ }
{}

/// An attempt is its handler's run over its journal, as the laws of honest rounds ask: with what was delivered to it after the journal
/// and what it wrote, in any order. So a runtime that feeds attempts honestly and stores honestly has what these laws say.
pub fn attempts_are_told_on()
    ensures { (fixed : Fixed) (fed : Heard) (answers : List Answer) (written : List RawMessage)
        (t : ToldBy fixed fed answers written) (course : List Entry)
        → notifications_in course ≡ arriving fed.proposed t.journal.others
        → commands_in course ≡ written
        → IsToldOn (setup_for fixed t.journal.start) fixed.handler (as_entries t.journal.entries)
        (record { given = start_state t.journal; course = course; answers = answers }) }
{}

/// The run that an attempt's record names as that whose result failed the VM is so: after some of the attempt's calls its result was
/// reported, the VM answered that report by an error, and this has been its error since then.
pub fn runs_fail_by_their_results()
    ensures { (fixed : Fixed) (alloc : Global) (n : ℕ) (r : Record) (handle : NotificationHandle)
        → Leads fixed.handler n (fresh_record (made alloc fixed.options fixed.version)) r
        → r.failed_by ≡ Some handle
        → FailedByResult fixed.handler
        (fresh_record (made alloc fixed.options fixed.version)) r handle }
{}

/// It ends: if the handler comes to its end on the journal that was fed, then each step of an attempt is answered, or the handler ends, or
/// out of memory. Its answers begin those of that end, and each step that is answered adds one: so after as many steps as
/// these are the handler has ended.
pub fn finished_attempts_end()
    ensures step { (fixed : Fixed) (old : Record) (result : Result Progress Error) (new : Record)
        → IsKeptUnder fixed old → Premises fixed (heard fixed.version old) → IsRunning old
        → FinishesOn fixed (heard fixed.version old) → StepDoes fixed.handler old result new
        → GoesToEnd result }
    ensures answers { (fixed : Fixed) (r : Record) → IsKeptUnder fixed r
        → Premises fixed (heard fixed.version r) → r.answers ≢ []
        → FinishesOn fixed (heard fixed.version r) → (j : Journal (heard fixed.version r))
        × (h : HasFinished (setup_for fixed j.start) fixed.handler (as_entries j.entries))
        × IsPrefix r.answers h.at.answers }
{}
