//! Laws above the tables of commands, in the words of who reads the journal. A table serves the machine and what is proved of whole
//! runs, so a slip in one of its rows would be in both; a law says what the row is for.
ghost use Rattle.std.specs.Prelude.{◌≡◌, ℕ, ◌+◌, Bool, List, []};
ghost use Rattle.journal_protocol.specs.CallCommand.{CallCommand};
ghost use Rattle.journal_protocol.specs.OneWayCallCommand.{OneWayCallCommand};
ghost use Rattle.journal_protocol.specs.Signal.TheVariants.{Index};
ghost use Rattle.journal_protocol.specs.SignalResult.TheVariants.{Void};
ghost use Rattle.journal_protocol.specs.Version.{Version};
ghost use Rattle.journal_protocol.specs.Message.{Message};
ghost use Rattle.journal_protocol.specs.Message.TheVariants as message;
ghost use Rattle.vm_types.specs.declared.options.ImplicitCancellationOption.{ImplicitCancellationOption};
ghost use Rattle.vm_types.specs.declared.options.ImplicitCancellationOption.TheVariants.{Disabled};
ghost use Rattle.vm_types.specs.declared.steps.Step.{Step};
ghost use Rattle.vm_asks.specs.declared.state_read.StateRead.{StateRead};
ghost use Rattle.vm_asks.specs.Asks.{ask_of, cancel_invocation_command};
ghost use Rattle.vm_asks.specs.Carried.{carried};
ghost use Rattle.vm_asks.specs.GivenIds.{CarriesGiven, IsCallWith, IsSendWith, ids_given};
ghost use Rattle.vm_asks.specs.Requests.{with_ids};
ghost use Rattle.vm_asks.specs.StateReads.{eager_form};
ghost use Rattle.vm_asks.specs.TrackedCommands.{TracksCalls, TracksNothing, TracksNothingElse, TracksSends};

/// The commands of a step carry just the completion ids that the step is given, in their order. A call's first one is for the
/// invocation's id, and its second for the result; a send's is for the invocation's id. A read that is answered at once carries none.
#[tactic(auto, using(crate::proofs::GivenIds::steps_carry_given))]
pub fn commands_carry_their_ids()
    ensures steps { (version : Version) (s : Step) → CarriesGiven (ids_given s) (ask_of version s) }
    ensures calls { (id : ℕ) (c : CallCommand)
        → IsCallWith id (id + 1) (with_ids id (message.Call c)) }
    ensures sends { (id : ℕ) (c : OneWayCallCommand)
        → IsSendWith id (with_ids id (message.OneWayCall c)) }
    ensures eager { (r : StateRead) → carried (eager_form r) ≡ [] }
{}

/// A call is tracked for cancellation if the option for calls says so, a send if that for sends does, and nothing else is.
#[tactic(auto, using(crate::proofs::TrackedCommands::others_untracked, crate::proofs::TrackedCommands::none_tracked))]
pub fn calls_and_sends_are_tracked()
    ensures calls { (calls sends : Bool) → TracksCalls calls sends }
    ensures sends { (calls sends : Bool) → TracksSends calls sends }
    ensures others { (option : ImplicitCancellationOption) (m : Message)
        → TracksNothingElse option m }
    ensures disabled { TracksNothing Disabled }
{}

/// An invocation is cancelled by the signal with index 1, without a value, that is sent to it.
pub fn cancel_commands_send_signal_one()
    ensures { (target : List ℕ) → (cancel_invocation_command target).message
        ≡ message.SendSignal
        (record { target_invocation_id = target; signal = Index 1; result = Void }) }
{}
