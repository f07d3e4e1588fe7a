//! A law of awakeables: the id that the VM gives to one names its invocation and its signal.
ghost use Rattle.std.specs.Prelude.{◌≡◌, Some};
ghost use Rattle.journal_protocol.specs.Message.TheVariants as message;
ghost use Rattle.journal_protocol.specs.Signal.TheVariants as signal;
ghost use Rattle.journal_protocol.specs.ValueOrFailure.{ValueOrFailure};
ghost use Rattle.journal_store.specs.Awakeables.{awakeable_named};
ghost use Rattle.journal_store.specs.Effects.{completing_result, effect_of};
ghost use Rattle.journal_store.specs.declared.effect.Effect.TheVariants as effect;
ghost use Rattle.vm_asks.specs.Awakeables.{awakeable_id};

/// What the VM writes into an awakeable's id, whoever completes it reads: the invocation and the number of its signal.
pub fn awakeable_ids_name_their_signals(_invocation: &[u8], _signal: u32)
    ensures names { awakeable_named (awakeable_id _invocation.now _signal)
        ≡ Some (_invocation.now, _signal) }
    // So the stored command that completes the awakeable of this id sends its result to this invocation, as this signal.
    ensures sends { (ends : ValueOrFailure) → effect_of (message.CompleteAwakeable (record {
      awakeable_id = awakeable_id _invocation.now _signal;
      result = ends;
    }))
        ≡ Some (effect.Send (record {
          to = _invocation.now;
          signal = signal.Index _signal;
          brings = completing_result ends;
        })) }
{}
