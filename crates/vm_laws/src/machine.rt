//! Laws of the calls, in replay as in Processing.
ghost use Rattle.std.specs.Prelude.{◌≡◌, ◌+◌, ℕ, Bool, true, false, find, List, [], ◌∷◌, Option, Some, None, Result, Ok};
ghost use Rattle.vm_types.specs.declared.types.AwakeableHandle.{AwakeableHandle};
ghost use Rattle.await_trees.specs.declared.handle.NotificationHandle.{NotificationHandle};
ghost use Rattle.vm_machine.specs.declared.machine.Machine.{Machine};
ghost use Rattle.vm_machine.specs.declared.phase.Phase.TheVariants.{Replaying};
ghost use Rattle.journal_protocol.specs.Error.{Error};
ghost use Rattle.journal_protocol.specs.NamedFault.TheVariants as fault;
ghost use Rattle.journal_protocol.specs.Message.{Message};
ghost use Rattle.journal_protocol.specs.RawMessage.{RawMessage};
ghost use Rattle.journal_protocol.specs.Bodies.{message_in};
ghost use Rattle.vm_types.specs.declared.command_type.CommandRelationship.{CommandRelationship};
ghost use Rattle.journal_protocol.specs.Version.{Version};
ghost use Rattle.vm_types.specs.declared.steps.Step.{Step};
ghost use Rattle.vm_asks.specs.declared.asks.Ask.TheVariants as ask;
ghost use Rattle.vm_asks.specs.declared.asks.AnswerKind.{AnswerKind};
ghost use Rattle.vm_asks.specs.declared.command.Command.{Command};
ghost use Rattle.vm_asks.specs.Asks.{all_ids, ask_of};
ghost use Rattle.vm_machine.specs.Several.{MakesAll};
ghost use Rattle.vm_machine.specs.Takes.{take_step};
ghost use Rattle.vm_machine.specs.Commands.{issued};
ghost use Rattle.vm_laws.specs.Endings.{EventWrites, Writes, is_over, is_terminal};
ghost use Rattle.journal_protocol.specs.ValueOrFailure.{ValueOrFailure};
ghost use Rattle.vm_runs.specs.Firsts.{without_first};
ghost use Rattle.vm_runs.specs.Kept.{is_for};
ghost use Rattle.journal_protocol.specs.ProposeRunCompletion.{ProposeRunCompletion};
ghost use Rattle.journal_protocol.specs.Versions.{is_from_v7};
ghost use Rattle.vm_machine.specs.Inputs.{enqueued, close_step, end_step, input_step, malformed_step, message_step};
ghost use Rattle.journal_entries.specs.Proposals.{acknowledged_completion};
ghost use Rattle.vm_machine.specs.Reports.{report_step};
ghost use Rattle.vm_laws.specs.Numbers.{Counted};
ghost use Rattle.vm_machine.specs.Outcomes.{Done, Failed, Outcome, called, refused};
ghost use Rattle.vm_laws.specs.Replays.{MayReplay, Pops, Refuses, is_header_equal, is_of_its_type};
ghost use Rattle.vm_asks.specs.Requests.{changed, ids_of, with_ids};
ghost use Rattle.vm_machine.specs.Signals.{awakeable_step, signal_step};
ghost use Rattle.vm_asks.specs.declared.state_read.StateRead.{StateRead};
ghost use Rattle.vm_machine.specs.Reads.{read_step};
ghost use Rattle.vm_retries.specs.declared.policy.RetryPolicy.{RetryPolicy};
ghost use Rattle.vm_types.specs.declared.runs.RunExitResult.{RunExitResult};
ghost use Rattle.vm_awaits.specs.Awaits.{Awaits};
ghost use Rattle.vm_machine.specs.Proposals.{Acknowledges, Proposes, proposed};
ghost use Rattle.await_trees.specs.Tree.{Tree};
ghost use Rattle.vm_types.specs.declared.types.AwaitResponse.{AwaitResponse};
ghost use Rattle.vm_types.specs.declared.types.EphemeralCompletionId.{EphemeralCompletionId};
ghost use Rattle.vm_types.specs.declared.values.Value.{Value};
ghost use Rattle.vm_machine.specs.Ephemerals.{ephemeral_notification_step, ephemeral_step, take_ephemeral_step};
ghost use Rattle.vm_machine.specs.declared.phase.Phase.{Phase};
ghost use Rattle.vm_laws.specs.Ephemerals.{LeavesJournal};

/// The calls that change the state do so, whether their command is written or popped.
#[tactic(auto, using(crate::proofs::Carried::issued_changes))]
pub fn state_is_changed()
    ensures { (m : Message) (unstable : Bool) (h : NotificationHandle) (v w : Machine)
        → issued m unstable v ≡ Done h w → w.state
        ≡ changed (with_ids v.counters.completion m) v.state }
{}

/// Numbers are given in order, each once: a call takes as many completion ids and handles as its commands have, an
/// state read one of both, an awakeable one signal id and one handle, a named signal one handle; what is answered is the
/// handle that came next. A state read leaves the state as it is. An ephemeral read is given the next of its own ids.
#[tactic(auto, using(crate::proofs::Carried::issued_counts, crate::proofs::Carried::issued_handle, crate::proofs::Carried::awakeable_makes, crate::proofs::Carried::signal_makes, crate::proofs::Carried::read_gives, crate::proofs::Ephemerals::read_counts, crate::proofs::SeveralCalls::several_count))]
pub fn numbers_are_in_order()
    ensures calls { (m : Message) (unstable : Bool) (h : NotificationHandle) (v w : Machine)
        → issued m unstable v ≡ Done h w → Counted (ids_of m) 0 (ids_of m) v.counters w.counters }
    ensures handles { (m : Message) (unstable : Bool) (h : NotificationHandle) (v w : Machine)
        → issued m unstable v ≡ Done h w → h.0 ≡ v.counters.handle }
    ensures several { (c : Command) (cs : List Command) (h : NotificationHandle) (v w : Machine)
        → MakesAll c cs (Ok h) v w → Counted (all_ids c cs) 0 (all_ids c cs) v.counters w.counters
        × (h.0 ≡ v.counters.handle) }
    ensures reads { (r : StateRead) (h : NotificationHandle) (v w : Machine) → read_step r v
        ≡ Done h w → Counted 1 0 1 v.counters w.counters × (h.0 ≡ v.counters.handle)
        × (w.state ≡ v.state) }
    ensures awakeables { (a : AwakeableHandle) (v w : Machine) → awakeable_step v ≡ Done a w
        → Counted 0 1 1 v.counters w.counters × (a.handle.0 ≡ v.counters.handle) }
    ensures signals { (name : List ℕ) (h : NotificationHandle) (v w : Machine) → signal_step name v
        ≡ Done h w → Counted 0 0 1 v.counters w.counters × (h.0 ≡ v.counters.handle) }
    ensures ephemeral_reads { (key : List ℕ) (id : EphemeralCompletionId) (v w : Machine)
        → ephemeral_step key v ≡ Done id w → (w.counters.ephemeral ≡ v.counters.ephemeral + 1)
        × (id.0 ≡ v.counters.ephemeral) }
{}

/// For all events of a machine: at most one Suspension, Error or End is written, and nothing after it. A machine that has
/// failed, has ended or is suspended writes nothing, and a machine that writes one of them is so.
pub fn output_ends_once()
    ensures commands { (m : Message) (unstable : Bool) (v : Machine) → is_terminal m ≡ false
        → EventWrites v (called (issued m unstable v) v) }
    ensures awakeables { (v : Machine) → EventWrites v (called (awakeable_step v) v) }
    ensures signals { (name : List ℕ) (v : Machine)
        → EventWrites v (called (signal_step name v) v) }
    ensures reads { (r : StateRead) (v : Machine) → EventWrites v (called (read_step r v) v) }
    ensures awaits { (t : Tree) (v : Machine) (o : Outcome (Result AwaitResponse Error))
        → Awaits t v o → EventWrites v (called o v) }
    ensures takes { (handle : ℕ) (v : Machine) → EventWrites v (called (take_step handle v) v) }
    ensures ephemeral_reads { (key : List ℕ) (v : Machine)
        → EventWrites v (called (ephemeral_step key v) v) }
    ensures ephemeral_takes { (id : ℕ) (v : Machine)
        → EventWrites v (called (take_ephemeral_step id v) v) }
    ensures inputs { (v : Machine) → EventWrites v (called (input_step v) v) }
    ensures ends { (v : Machine) → EventWrites v (called (end_step v) v) }
    ensures reports { (e : Error) (relationship : Option CommandRelationship) (v : Machine)
        → EventWrites v (called (report_step e relationship v) v) }
    ensures proposals { (handle : NotificationHandle) (exit : RunExitResult) (policy : RetryPolicy)
        (v : Machine) (o : Outcome Unit) → Proposes handle exit policy v o
        → EventWrites v (called o v) }
    ensures messages { (raw : RawMessage) (v : Machine)
        → EventWrites v (called (message_step raw v) v) }
    ensures malformed { (v : Machine) → EventWrites v (called (malformed_step v) v) }
    ensures closings { (v : Machine) → EventWrites v (called (close_step v) v) }
{}

/// Ephemeral reads leave the journal's side as it was: the commands, their numbers and the last of them, whether one was written, the
/// phase, the state and the results. So do the takes of their values, and the notifications that bring them.
pub fn ephemeral_reads_leave_the_journal()
    ensures reads { (key : List ℕ) (id : EphemeralCompletionId) (v w : Machine)
        → ephemeral_step key v ≡ Done id w → LeavesJournal v w }
    ensures takes { (id : ℕ) (r : Option Value) (v w : Machine) → take_ephemeral_step id v
        ≡ Done r w → LeavesJournal v w }
    ensures notifications { (raw : RawMessage) (phase : Phase) (v w : Machine)
        → ephemeral_notification_step raw phase v ≡ Done tt w → LeavesJournal v w }
{}

/// In Processing an acknowledgement brings the proposed result, once, as the completion of its run, and is refused if none is
/// kept; one is kept only from version 7 on.
pub fn acknowledgements_bring_what_was_proposed()
    ensures kept { (raw : RawMessage) (id : ℕ) (kept : ProposeRunCompletion) (v : Machine)
        → Acknowledges raw id v → find (is_for id) v.proposals ≡ Some kept → message_step raw v
        ≡ Done tt (enqueued (acknowledged_completion id kept)
        (record v { proposals = without_first (is_for id) v.proposals })) }
    ensures none { (raw : RawMessage) (id : ℕ) (v : Machine) → Acknowledges raw id v
        → find (is_for id) v.proposals ≡ None → message_step raw v
        ≡ refused fault.BadProposeRunCompletionAck v }
    ensures early { (id : ℕ) (result : ValueOrFailure) (v : Machine) → is_from_v7 v.version ≡ false
        → (proposed id result v).proposals ≡ v.proposals }
{}

/// The command of a call is no Suspension, Error or End.
#[tactic(auto, using(crate::proofs::Endings::ends_nothing))]
pub fn commands_end_nothing()
    ensures { (c : Command) → is_terminal c.message ≡ false }
{}

/// A replayed command writes nothing, and the next recorded command is popped only where it is header-equal to the
/// call's; else the call is refused with the error that says why.
pub fn replay_pops_what_is_equal()
    ensures popped { (m : Message) (unstable : Bool) (h : NotificationHandle) (v w : Machine)
        → v.phase ≡ Replaying → issued m unstable v ≡ Done h w → Pops m unstable v w }
    ensures none_left { (m : Message) (unstable : Bool) (v : Machine) → MayReplay m v → v.commands
        ≡ [] → Refuses fault.UnavailableEntry m unstable v }
    ensures other_type { (m : Message) (unstable : Bool) (raw : RawMessage) (rest : List RawMessage)
        (v : Machine) → MayReplay m v → v.commands ≡ raw ∷ rest → is_of_its_type raw m v ≡ false
        → Refuses fault.CommandTypeMismatch m unstable v }
    ensures not_read { (m : Message) (unstable : Bool) (raw : RawMessage) (rest : List RawMessage)
        (v : Machine) → MayReplay m v → v.commands ≡ raw ∷ rest → is_of_its_type raw m v ≡ true
        → message_in raw.ty raw.body ≡ None → Refuses fault.BadMessage m unstable v }
    ensures not_equal { (m : Message) (unstable : Bool) (raw : RawMessage) (rest : List RawMessage)
        (recorded : Message) (v : Machine) → MayReplay m v → v.commands ≡ raw ∷ rest
        → is_of_its_type raw m v ≡ true → message_in raw.ty raw.body ≡ Some recorded
        → is_header_equal recorded m unstable v ≡ false
        → Refuses fault.CommandMismatch m unstable v }
{}

/// Once a machine has failed, has ended or is suspended nothing is written: each event writes as `output_ends_once`
/// says.
#[tactic(auto, using(crate::proofs::Replaying::nothing_more))]
pub fn nothing_follows()
    ensures { (v w : Machine) → is_over v ≡ true → Writes v w → w.output ≡ v.output }
{}

/// A machine that has failed answers its first error to each event, with answers of any type, and stays as it is.
#[tactic(auto, using(vm_machine::proofs::Calling::answers_first))]
pub fn first_error_stays<A>()
    ensures { (o : Outcome A) (e : Error) (v : Machine) → v.failure ≡ Some e → called o v
        ≡ Failed e v }
{}
