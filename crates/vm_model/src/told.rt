//! Laws of one attempt: which points are reached on its journal.
ghost use Rattle.std.specs.Prelude.{◌≡◌, ◌⊎◌, ◌∷◌, ◌++◌, Bool, List, [], ℕ, Some, None, Ok};
ghost use Rattle.journal_protocol.specs.InputCommand.{InputCommand};
ghost use Rattle.journal_protocol.specs.RawMessage.{RawMessage};
ghost use Rattle.journal_protocol.specs.Notification.{Notification};
ghost use Rattle.journal_protocol.specs.NamedFault.{NamedFault};
ghost use Rattle.vm_state.specs.declared.state_map.StateMap.{StateMap};
ghost use Rattle.journal_protocol.specs.Message.{Message};
ghost use Rattle.journal_protocol.specs.Frames.{IsWhole};
ghost use Rattle.vm_asks.specs.declared.state_read.StateRead.{StateRead};
ghost use Rattle.vm_asks.specs.StateReads.{own_form, result_in, own_result};
ghost use Rattle.vm_model.specs.Calls.Demand.{Exactly, Reads};
ghost use Rattle.vm_model.specs.Calls.{Setup, Meaning, Move};
ghost use Rattle.vm_model.specs.Calls.Move.{Refuses};
ghost use Rattle.vm_model.specs.Refusals.{IsRefusedFor};
ghost use Rattle.journal_entries.specs.Journal.{Entry, notifications_in, stored_form};
ghost use Rattle.vm_model.specs.Moves.{Point, after, found, later, longer, move_at, next, start};
ghost use Rattle.vm_model.specs.Histories.{Handed, History, IsStuck, Made, OneBegins, Told};

/// Later arrivals and further recorded commands change nothing of what a run did.
pub fn later_changes_nothing()
    ensures { (s : Setup) (m : Meaning) (n : ℕ) (cs : List RawMessage) (ns : List Notification)
        (p q : Point) → after s m n p ≡ Some q → after s m n (longer cs (later ns p))
        ≡ Some (longer cs (later ns q)) }
{}

/// Of two points that are reached on a journal, also with more arrivals and commands, the answers of one begin the other's.
pub fn one_told()
    ensures { (s : Setup) (m : Meaning) (input : InputCommand) (ns more_notes : List Notification)
        (cs more : List RawMessage) (p q : Point) → Told s m input ns cs p
        → Told s m input (ns ++ more_notes) (cs ++ more) q → OneBegins p.answers q.answers }
{}

/// The point that an attempt reaches is reached on its journal followed by what it wrote, and it wrote nothing while recorded
/// commands were left.
pub fn attempt_is_told()
    ensures { (s : Setup) (m : Meaning) (given : StateMap) (input : InputCommand) (n : ℕ)
        (ns : List Notification) (cs written : List RawMessage) (q : Point)
        → Made s m (Handed given) n (start s input ns cs) written q
        → Told s m input ns (cs ++ written) q × ((written ≡ []) ⊎ (q.left ≡ [])) }
{}

/// While recorded commands of a history are left, an attempt goes on: no mismatch, no pending await, no end.
pub fn attempts_go_on()
    ensures { (s : Setup) (m : Meaning) (base given : StateMap) (journal : List Entry)
        (delivered : List Notification) (k : ℕ) (written left : List RawMessage) (c : RawMessage)
        (q : Point) (h : History s m base journal) →
        Made s m (Handed given) k (start s h.input (notifications_in journal ++ delivered) h.rest)
        written q → q.left ≡ c ∷ left → (r : Point) × (next s m q ≡ Some r) }
{}

/// On a history no call is refused while recorded commands are left, for any reason. Once none is left, a call is refused only
/// for a reason of its own.
pub fn none_refused()
    ensures reasons { (s : Setup) (m : Meaning) (state : StateMap) (p : Point) (name : NamedFault)
        → IsRefusedFor (move_at s m p) p.left p.queue name → IsStuck s m state p }
    ensures own { (mv : Move) (queue : List Notification) (name : NamedFault)
        → IsRefusedFor mv [] queue name → mv ≡ Refuses name }
    ensures on_histories { (s : Setup) (m : Meaning) (base given state : StateMap)
        (journal : List Entry) (delivered : List Notification) (k : ℕ)
        (written left : List RawMessage) (c : RawMessage) (q : Point) (h : History s m base journal)
        →
        Made s m (Handed given) k (start s h.input (notifications_in journal ++ delivered) h.rest)
        written q → q.left ≡ c ∷ left → IsStuck s m state q → ⊥ }
{}

/// A call's own command that can be encoded stands for itself once it is stored; a state read brings the result that it says.
pub fn own_commands_stand()
    ensures commands { (command : Message) (ignore : Bool) → IsWhole command
        → found (Exactly command ignore) (stored_form command) ≡ Ok None }
    ensures reads { (r : StateRead) (id : ℕ) (state : StateMap) → IsWhole (own_form r id state)
        → found (Reads r id) (stored_form (own_form r id state))
        ≡ Ok (own_result (result_in (own_form r id state))) }
{}
