//! The law of recorded reads.
ghost use Rattle.std.specs.Prelude.{◌≡◌, ℕ, Ok, Option, Some};
ghost use Rattle.journal_protocol.specs.Bodies.{message_in};
ghost use Rattle.journal_protocol.specs.Message.{Message};
ghost use Rattle.journal_protocol.specs.RawMessage.{RawMessage};
ghost use Rattle.journal_protocol.specs.NotificationResult.{NotificationResult};
ghost use Rattle.vm_asks.specs.StateReads.{recorded_as};
ghost use Rattle.vm_asks.specs.declared.state_read.StateRead.{StateRead};
ghost use Rattle.vm_laws.specs.RecordedReads.{IsRead};

/// A recorded command stands for a read of the state only if it is a read of the same key, or of the keys, with the same name: a lazy
/// one with the completion id of the read, or an eager one, whose recorded result it brings.
#[tactic(auto, using(crate::proofs::RecordedReads::recorded_stands))]
pub fn recorded_reads_stand_for_their_own()
    ensures { (read : StateRead) (id : ℕ) (raw : RawMessage) (result : Option NotificationResult)
        → recorded_as read id raw ≡ Ok result
        → (m : Message) × (message_in raw.ty raw.body ≡ Some m) × IsRead read id result m }
{}
