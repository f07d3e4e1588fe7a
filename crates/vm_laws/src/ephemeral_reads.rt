//! The law of ephemeral reads.
ghost use Rattle.std.specs.Prelude.{◌≡◌, List, None, Some, ℕ};
ghost use Rattle.journal_protocol.specs.NamedFault.{NamedFault};
ghost use Rattle.vm_types.specs.declared.types.EphemeralCompletionId.{EphemeralCompletionId};
ghost use Rattle.vm_state.specs.States.{value_known};
ghost use Rattle.vm_machine.specs.declared.machine.Machine.{Machine};
ghost use Rattle.vm_machine.specs.Ephemerals.{ephemeral_step};
ghost use Rattle.vm_machine.specs.Outcomes.{Done, refused};
ghost use Rattle.vm_laws.specs.EphemeralReads.{IsAnswered, first_reason, reasons};

/// An ephemeral read of a key answers what is known of the key at that time, and for a key of which nothing is known the result that
/// comes for it. It is refused for the first of its reasons, and for nothing else.
pub fn ephemeral_reads_answer_what_is_known()
    ensures refused { (key : List ℕ) (name : NamedFault) (v : Machine)
        → first_reason (reasons key v) ≡ Some name → ephemeral_step key v ≡ refused name v }
    ensures answered { (key : List ℕ) (v : Machine) → first_reason (reasons key v) ≡ None
        → (id : EphemeralCompletionId) × (w : Machine) × (ephemeral_step key v ≡ Done id w)
        × (id.0 ≡ v.counters.ephemeral) × IsAnswered key (value_known key v.state) id.0 v w }
{}
