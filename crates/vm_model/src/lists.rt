//! Laws of what a run used of its journal, and of what its handles stand for.
ghost use Rattle.std.specs.Prelude.{◌≡◌, ◌≢◌, ◌⊎◌, ◌+◌, ◌++◌, [], List, ℕ, Some, take, true};
ghost use Rattle.await_arrivals.specs.Results.{results_of};
ghost use Rattle.vm_asks.specs.Asks.{ask_of};
ghost use Rattle.journal_protocol.specs.InputCommand.{InputCommand};
ghost use Rattle.journal_protocol.specs.NamedFault.TheVariants as fault;
ghost use Rattle.journal_protocol.specs.RawMessage.{RawMessage};
ghost use Rattle.journal_protocol.specs.Notification.{Notification};
ghost use Rattle.journal_protocol.specs.NotificationId.{NotificationId};
ghost use Rattle.journal_protocol.specs.NotificationId.TheVariants.{CompletionId, SignalId};
ghost use Rattle.vm_state.specs.declared.state_map.StateMap.{StateMap};
ghost use Rattle.vm_parts.specs.Deliveries.{id_at};
ghost use Rattle.vm_model.specs.Calls.{Setup, Meaning};
ghost use Rattle.vm_model.specs.Calls.Move.{Refuses};
ghost use Rattle.vm_model.specs.Carried.{AreCarried, AreOfTheirKind, ComeOnce};
ghost use Rattle.vm_model.specs.Histories.{Handed, Made, after_head};
ghost use Rattle.vm_model.specs.Moves.{Point, after, move_at, start};
ghost use Rattle.vm_model.specs.Sums.{calls_for};
ghost use Rattle.vm_model.specs.Deliveries.{HasNoTwo, was_read};
ghost use Rattle.vm_model.specs.Uses.{AreSentBy, IsGiven, IsSentFor, StandFor, WasTaken, arrivals_in, cancels_needed, ids_of_steps, item, needed, needed_by};

/// Both lists of a journal are used from the front. The recorded commands are those that were used and those that are left; each
/// used one stands for what its call needs, by its type and header, and the calls follow from the answers alone. An await that is
/// answered Cancelled needs a cancel command for each invocation to which it sends the cancel signal, and an await that comes next
/// may have sent it to some; a call with several commands that comes next may have used the first of what it needs. The arrivals are
/// those that awaits used and those that wait.
pub fn lists_are_used()
    ensures commands { (s : Setup) (m : Meaning) (n : ℕ) (input : InputCommand)
        (ns : List Notification) (cs : List RawMessage) (q : Point)
        → after s m n (start s input ns cs) ≡ Some q
        → (used : List RawMessage) × (cancels : List (List (List ℕ))) × (sent : List (List ℕ))
        × (cs ≡ used ++ q.left) × AreSentBy (after_head q.answers) cancels
        × IsSentFor (m q.answers) sent
        × StandFor (needed s 0 (calls_for m q.answers) cancels
        ++ (cancels_needed s sent
        ++ take q.derived.parts
        (needed_by s q.derived.counters.completion (ask_of s.version (m q.answers))))) used }
    ensures arrivals { (s : Setup) (m : Meaning) (n : ℕ) (input : InputCommand)
        (ns : List Notification) (cs : List RawMessage) (q : Point)
        → after s m n (start s input ns cs) ≡ Some q
        → ns ≡ arrivals_in q.derived.usage ++ q.queue }
{}

/// Each id that a handle stands for was given to its call: 1 is the cancel signal, and the handles from 17 on stand for the
/// completion ids, signal ids and names that the calls were given, in order. Each of these stands for it until it is taken, and
/// 1 stands for the cancel signal at each point.
pub fn handles_stand_for_ids()
    ensures stands { (s : Setup) (m : Meaning) (n : ℕ) (input : InputCommand)
        (ns : List Notification) (cs : List RawMessage) (q : Point)
        → after s m n (start s input ns cs) ≡ Some q
        → (handle : ℕ) (id : NotificationId) → id_at handle q.derived.handles ≡ Some id
        → IsGiven (ids_of_steps s.version 0 0 (calls_for m q.answers)) handle id }
    ensures cancel { (s : Setup) (m : Meaning) (n : ℕ) (input : InputCommand)
        (ns : List Notification)
        (cs : List RawMessage) (q : Point) → after s m n (start s input ns cs) ≡ Some q
        → id_at 1 q.derived.handles ≡ Some (SignalId 1) }
    ensures stays { (s : Setup) (m : Meaning) (n : ℕ) (input : InputCommand)
        (ns : List Notification) (cs : List RawMessage) (q : Point)
        → after s m n (start s input ns cs) ≡ Some q
        → (k : ℕ) (id : NotificationId)
        → item k (ids_of_steps s.version 0 0 (calls_for m q.answers))
        ≡ Some id → (id_at (17 + k) q.derived.handles ≡ Some id)
        ⊎ WasTaken m (17 + k) q.answers }
{}

/// No completion id has two results at any point of a run, if some point uses all recorded commands, and the arrivals have one
/// result at most for each completion id, and only for ids that the commands carry: an eager read has an id of its own.
/// The same is so of an attempt, whose written commands count as the recorded ones do: it has the results of its own commands,
/// and at each point of its run, before it wrote them and after, no completion id has two. It is so too at each point of a run
/// over commands that don't all fit, if the arrivals have one result at most for each completion id, and none for an id to
/// which the run itself has given the result of an eager read. And it is so at each point of a run over commands that the run of
/// another handler uses to the last, as that of an older version of it.
pub fn completions_come_once()
    ensures told { (s : Setup) (m : Meaning) (n k : ℕ) (input : InputCommand)
        (ns : List Notification) (cs : List RawMessage) (p q : Point)
        → after s m n (start s input ns cs) ≡ Some p → after s m k (start s input ns cs) ≡ Some q
        → q.left ≡ []
        → ComeOnce ns → AreCarried ns cs → HasNoTwo p }
    ensures attempts { (s : Setup) (m : Meaning) (given : StateMap) (input : InputCommand)
        (ns : List Notification) (cs : List RawMessage) (k : ℕ) (q : Point)
        → after s m k (start s input ns cs) ≡ Some q → q.left ≡ [] → ComeOnce ns
        → (l : ℕ) (written : List RawMessage) (at : Point)
        → Made s m (Handed given) l (start s input ns cs) written at
        → AreCarried ns (cs ++ written)
        → (n : ℕ) (made : List RawMessage) (p : Point)
        → Made s m (Handed given) n (start s input ns cs) made p → HasNoTwo p }
    ensures replayed { (s : Setup) (m : Meaning) (n : ℕ) (input : InputCommand)
        (ns : List Notification) (cs : List RawMessage) (p : Point)
        → after s m n (start s input ns cs) ≡ Some p → ComeOnce ns
        → ((id : ℕ) → was_read id p.derived.usage ≡ true → results_of (CompletionId id) ns ≡ [])
        → HasNoTwo p }
    ensures versions { (s : Setup) (m other : Meaning) (n k : ℕ) (input : InputCommand)
        (ns : List Notification) (cs : List RawMessage) (p q : Point)
        → after s other n (start s input ns cs) ≡ Some p
        → after s m k (start s input ns cs) ≡ Some q → q.left ≡ []
        → ComeOnce ns → AreCarried ns cs → HasNoTwo p }
{}

/// Where each result of an id that a call or a one-way call carries for its invocation's is an invocation's id, no take and no cancelled
/// await of a run is refused since it is none.
pub fn no_result_is_unexpected()
    ensures { (s : Setup) (m : Meaning) (n : ℕ) (input : InputCommand) (ns : List Notification)
        (cs : List RawMessage) (q : Point) → after s m n (start s input ns cs) ≡ Some q
        → AreOfTheirKind ns cs → move_at s m q ≢ Refuses fault.UnexpectedInvocationIdResult }
{}
