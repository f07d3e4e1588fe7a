//! Laws of the state that commands leave.
ghost use Rattle.std.specs.Prelude.{◌≡◌, ◌||◌, List, ℕ, Some, is_some};
ghost use Rattle.journal_protocol.specs.Message.{Message};
ghost use Rattle.vm_state.specs.declared.state_map.StateMap.{StateMap};
ghost use Rattle.vm_state.specs.Entries.{IsInOrder};
ghost use Rattle.vm_state.specs.States.{value_known, known_keys};
ghost use Rattle.vm_model.specs.Moves.{changed_by};
ghost use Rattle.vm_model.specs.SaidState.{AreKeysOf, IsLast, NoneTouches, one_clears_all, says};

/// The state after some commands: of each key what the last command says that touches it, else what was known of the key before. All
/// keys are known if they were known before or one of the commands clears all, and not else; they are those that have a value, in
/// order.
pub fn state_is_what_was_said()
    ensures last { (key : List ℕ) (m : Message) (ms : List Message) (state : StateMap)
        → IsLast key m ms → value_known key (changed_by ms state) ≡ says m }
    ensures untouched { (key : List ℕ) (ms : List Message) (state : StateMap)
        → NoneTouches key ms → value_known key (changed_by ms state) ≡ value_known key state }
    ensures all_known { (ms : List Message) (state : StateMap)
        → is_some (known_keys (changed_by ms state))
        ≡ (is_some (known_keys state) || one_clears_all ms) }
    ensures keys { (ms : List Message) (state : StateMap) (keys : List (List ℕ))
        → IsInOrder state.entries → known_keys (changed_by ms state) ≡ Some keys
        → AreKeysOf (changed_by ms state) keys }
{}
