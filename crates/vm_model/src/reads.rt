//! Laws of the state that attempts are handed, and of what eager reads record.
ghost use Rattle.std.specs.Prelude.{◌≡◌, ◌∷◌, ◌++◌, List, None, Some};
ghost use Rattle.journal_protocol.specs.Message.TheVariants as message;
ghost use Rattle.journal_protocol.specs.RawMessage.{RawMessage};
ghost use Rattle.journal_protocol.specs.GetEagerStateCommand.{GetEagerStateCommand};
ghost use Rattle.journal_protocol.specs.GetEagerStateKeysCommand.{GetEagerStateKeysCommand};
ghost use Rattle.journal_protocol.specs.Bodies.{message_in};
ghost use Rattle.journal_protocol.specs.Frames.{IsWhole};
ghost use Rattle.journal_protocol.specs.Message.{Message};
ghost use Rattle.vm_state.specs.declared.state_map.StateMap.{StateMap};
ghost use Rattle.vm_state.specs.declared.state_map.Known.TheVariants.{Unknown};
ghost use Rattle.vm_state.specs.Entries.{IsInOrder};
ghost use Rattle.vm_state.specs.States.{value_known, known_keys};
ghost use Rattle.vm_asks.specs.declared.state_read.StateRead.TheVariants as reads;
ghost use Rattle.vm_asks.specs.StateReads.{own_form};
ghost use Rattle.vm_model.specs.Calls.{Setup, Meaning};
ghost use Rattle.journal_entries.specs.Journal.{Entry, messages_in};
ghost use Rattle.vm_model.specs.Moves.{changed_by};
ghost use Rattle.vm_model.specs.Histories.{History, Honest, Whole, recorded_value};

/// A state that was handed out honestly after some commands stays honest once these and further commands are applied to it:
/// what is known of it is right. The same holds of a state of which all was handed out.
pub fn handed_stays_so()
    ensures honest { (base given : StateMap) (said more : List Message) → IsInOrder base.entries
        → Honest base given said → Honest base (changed_by (said ++ more) given) (said ++ more) }
    ensures whole { (base given : StateMap) (said more : List Message) → IsInOrder base.entries
        → Whole base given said → Whole base (changed_by (said ++ more) given) (said ++ more) }
{}

/// In a history a recorded eager read of a key brings what the base has there, where the recorded commands before the read have
/// changed it: nothing, or the value. A read of the keys brings the keys that have a value there, if they can be encoded.
pub fn eager_reads_are_so()
    ensures values { (s : Setup) (m : Meaning) (base : StateMap) (journal : List Entry)
        (h : History s m base journal) (before behind : List RawMessage) (raw : RawMessage)
        (c : GetEagerStateCommand) → h.rest ≡ before ++ raw ∷ behind → message_in raw.ty raw.body
        ≡ Some (message.GetEagerState c)
        → (value_known c.key (changed_by (messages_in before) base) ≡ Unknown → ⊥)
        × (c.result ≡ recorded_value (value_known c.key (changed_by (messages_in before) base))) }
    ensures keys { (s : Setup) (m : Meaning) (base : StateMap) (journal : List Entry)
        (h : History s m base journal) (before behind : List RawMessage) (raw : RawMessage)
        (c : GetEagerStateKeysCommand) → h.rest ≡ before ++ raw ∷ behind
        → message_in raw.ty raw.body ≡ Some (message.GetEagerStateKeys c)
        → IsWhole (own_form (reads.Keys c.name) 0 (changed_by (messages_in before) base))
        → (known_keys (changed_by (messages_in before) base) ≡ None → ⊥)
        × (c.value ≡ known_keys (changed_by (messages_in before) base)) }
{}
