//! Laws of a VM over any list of its calls.
ghost use Rattle.std.specs.Prelude.{◌≡◌, ◌<◌, ◌^◌, ℕ, false, List, [], ◌∷◌, ◌++◌, Option, Some, Result, Ok, Err};
ghost use Rattle.std.proofs.Common.{Global};
ghost use Rattle.std.specs.declared.alloc.AllocError.{AllocError};
ghost use Rattle.journal_protocol.specs.Error.{Error};
ghost use Rattle.journal_protocol.specs.RawMessage.{RawMessage};
ghost use Rattle.journal_protocol.specs.Version.{Version};
ghost use Rattle.vm_types.specs.declared.command_type.CommandRelationship.{CommandRelationship};
ghost use Rattle.vm_types.specs.declared.options.VMOptions.{VMOptions};
ghost use Rattle.vm_types.specs.declared.types.AwaitResponse.{AwaitResponse};
ghost use Rattle.vm_types.specs.declared.types.AwakeableHandle.{AwakeableHandle};
ghost use Rattle.vm_types.specs.declared.types.CallHandle.{CallHandle};
ghost use Rattle.vm_types.specs.declared.types.DeadlineCallHandle.{DeadlineCallHandle};
ghost use Rattle.await_trees.specs.declared.handle.NotificationHandle.{NotificationHandle};
ghost use Rattle.vm_types.specs.declared.types.EphemeralCompletionId.{EphemeralCompletionId};
ghost use Rattle.vm_types.specs.declared.types.SendHandle.{SendHandle};
ghost use Rattle.vm_retries.specs.declared.policy.RetryPolicy.{RetryPolicy};
ghost use Rattle.vm_types.specs.declared.runs.RunExitResult.{RunExitResult};
ghost use Rattle.vm_types.specs.declared.runs.RunHandle.{RunHandle};
ghost use Rattle.await_trees.specs.declared.tree.UnresolvedFuture.{UnresolvedFuture};
ghost use Rattle.vm_types.specs.declared.values.Input.{Input};
ghost use Rattle.vm_types.specs.declared.values.Value.{Value};
ghost use Rattle.vm_machine.specs.declared.machine.Machine.{Machine};
ghost use Rattle.vm_asks.specs.declared.command.Command.{Command};
ghost use Rattle.vm_asks.specs.Asks.{call_handles, deadline_handles, send_handle, sleep_command};
ghost use Rattle.vm_machine.specs.Ephemerals.{ephemeral_step, take_ephemeral_step};
ghost use Rattle.vm_machine.specs.Takes.{take_step};
ghost use Rattle.vm_machine.specs.Inputs.{end_step, input_step};
ghost use Rattle.vm_machine.specs.Outcomes.{IsStarved, Outcome};
ghost use Rattle.vm_machine.specs.Signals.{signal_step};
ghost use Rattle.vm_asks.specs.declared.state_read.StateRead.{StateRead};
ghost use Rattle.invocation_vm.specs.Calls.{CallsAll, CallsAllFor, CallsCommand, CallsFlatAwait, CallsFor, CallsProposal, CallsRead, CallsRun, CallsUnit, new_awakeable_step};
ghost use Rattle.vm_laws.specs.Outputs.{EndsOnceAfter, StaysSo};
ghost use Rattle.invocation_vm.specs.Making.{made};
ghost use Rattle.vm_laws.specs.Sleeps.{MaySleep, sleeping};
ghost use Rattle.invocation_vm.specs.Views.{View, AnswersFirst, Calls, Leaves, TakesOutput, after_closing, after_error, after_input, messages_in_bytes};

/// Over any list of calls, all output together has at most one Suspension, Error or End, and nothing after it: that is so of a
/// new VM, and each call of `VM`, by the clause that it ensures, leaves it so.
pub fn all_output_ends_once()
    ensures fresh { (alloc : Global) (options : VMOptions) (version : Version)
        → EndsOnceAfter [] (made alloc options version) }
    ensures taken { (bytes taken : List ℕ) (old new : View) → TakesOutput (Ok bytes) old new
        → EndsOnceAfter taken old → EndsOnceAfter (taken ++ bytes) new }
    ensures untaken { (e : AllocError) (old new : View) → TakesOutput (Err e) old new
        → StaysSo old new }
    ensures bytes { (bytes : List ℕ) (r : Result Unit AllocError) (old new : View)
        → Leaves (messages_in_bytes old bytes) (after_input old bytes) r old new → StaysSo old new }
    ensures closings { (r : Result Unit AllocError) (old new : View)
        → Leaves [] (after_closing old) r old new → StaysSo old new }
    ensures errors { (e : Error) (relationship : Option CommandRelationship)
        (r : Result Unit AllocError) (old new : View)
        → Leaves [] (after_error old e relationship) r old new → StaysSo old new }
    ensures awaits { (future : UnresolvedFuture) (r : Result AwaitResponse Error) (old new : View)
        → CallsFlatAwait future r old new → StaysSo old new }
    ensures takes { (handle : ℕ) (r : Result (Option Value) Error) (old new : View)
        → Calls (take_step handle) r old new → StaysSo old new }
    ensures inputs { (r : Result Input Error) (old new : View) → Calls input_step r old new
        → StaysSo old new }
    ensures commands { (c : Command) (r : Result NotificationHandle Error) (old new : View)
        → CallsCommand c r old new → StaysSo old new }
    ensures unanswered { (c : Command) (r : Result Unit Error) (old new : View)
        → CallsUnit c r old new → StaysSo old new }
    ensures calls { (c : Command) (r : Result CallHandle Error) (old new : View)
        → CallsFor call_handles c r old new → StaysSo old new }
    ensures deadlines { (call deadline : Command) (r : Result DeadlineCallHandle Error)
        (old new : View) → CallsAllFor deadline_handles call (deadline ∷ []) r old new
        → StaysSo old new }
    ensures sends { (c : Command) (r : Result SendHandle Error) (old new : View)
        → CallsFor send_handle c r old new → StaysSo old new }
    ensures runs { (name : List ℕ) (r : Result RunHandle Error) (old new : View)
        → CallsRun name r old new → StaysSo old new }
    ensures proposals { (handle : NotificationHandle) (exit : RunExitResult) (policy : RetryPolicy)
        (r : Result Unit Error) (old new : View) → CallsProposal handle exit policy r old new
        → StaysSo old new }
    ensures reads { (read : StateRead) (r : Result NotificationHandle Error) (old new : View)
        → CallsRead read r old new → StaysSo old new }
    ensures ephemeral_reads { (key : List ℕ) (r : Result EphemeralCompletionId Error)
        (old new : View) → Calls (ephemeral_step key) r old new → StaysSo old new }
    ensures ephemeral_takes { (id : ℕ) (r : Result (Option Value) Error) (old new : View)
        → Calls (take_ephemeral_step id) r old new → StaysSo old new }
    ensures awakeables { (r : Result AwakeableHandle Error) (old new : View)
        → Calls new_awakeable_step r old new → StaysSo old new }
    ensures signals { (name : List ℕ) (r : Result NotificationHandle Error) (old new : View)
        → Calls (signal_step name) r old new → StaysSo old new }
    ensures ends { (r : Result Unit Error) (old new : View) → Calls end_step r old new
        → StaysSo old new }
{}

/// A sleep in Processing answers the next handle and writes just one frame, that of a Sleep with the next completion
/// id; it fails only if it finds no memory.
pub fn sleep_is_written()
    ensures slept { (millis : ℕ) (name : List ℕ) (handle : NotificationHandle) (old new : View)
        → MaySleep old.machine → millis < 2 ^ 64
        → CallsCommand (sleep_command millis name) (Ok handle) old new
        → (handle.0 ≡ old.machine.counters.handle)
        × (new ≡ record old { machine = sleeping millis name old.machine }) }
    ensures starved { (millis : ℕ) (name : List ℕ) (e : Error) (old new : View)
        → MaySleep old.machine → millis < 2 ^ 64
        → CallsCommand (sleep_command millis name) (Err e) old new
        → IsStarved old.machine e new.machine }
{}

/// A failed VM answers its first error to each call of a `VMResult`, or out of memory for it, and stays as it is. When it is
/// fed, closed or notified of an error, it never runs out of memory, since it takes none.
pub fn first_error_is_answered<A>()
    ensures calls { (step : Machine → Outcome A) (r : Result A Error) (e : Error) (old new : View)
        → old.machine.failure ≡ Some e → Calls step r old new → AnswersFirst e r old new }
    ensures several { (c : Command) (cs : List Command) (r : Result NotificationHandle Error)
        (e : Error)
        (old new : View) → old.machine.failure ≡ Some e → CallsAll c cs r old new
        → AnswersFirst e r old new }
    ensures awaits { (future : UnresolvedFuture) (r : Result AwaitResponse Error) (e : Error)
        (old new : View) → old.machine.failure ≡ Some e → CallsFlatAwait future r old new
        → AnswersFirst e r old new }
    ensures proposals { (handle : NotificationHandle) (exit : RunExitResult) (policy : RetryPolicy)
        (r : Result Unit Error) (e : Error) (old new : View) → old.machine.failure ≡ Some e
        → CallsProposal handle exit policy r old new → AnswersFirst e r old new }
    ensures quiet { (raws : List RawMessage) (after : View) (r : Result Unit AllocError) (e : Error)
        (old new : View) → old.machine.failure ≡ Some e → Leaves raws after r old new → r ≡ Ok tt }
{}
