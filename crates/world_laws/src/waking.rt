//! The law of suspensions: when what a suspension waits for is there, and only then, a later
//! attempt passes it.
ghost use Rattle.std.specs.Prelude.{◌≡◌, ◌++◌, List, Ok, false, true};
ghost use Rattle.journal_protocol.specs.RawMessage.{RawMessage};
ghost use Rattle.journal_protocol.specs.Notification.{Notification};
ghost use Rattle.journal_protocol.specs.SignalDelivery.TheVariants.{Queued};
ghost use Rattle.await_trees.specs.Tree.{Tree};
ghost use Rattle.vm_types.specs.declared.steps.Answer.{Answer};
ghost use Rattle.vm_model.specs.Calls.{Meaning, Setup};
ghost use Rattle.vm_model.specs.Deliveries.{HasNoTwo};
ghost use Rattle.vm_model.specs.Fixed.{Fixed};
ghost use Rattle.vm_model.specs.Histories.{IsPrefix, Told};
ghost use Rattle.vm_model.specs.Moves.{Point, later};
ghost use Rattle.vm_attempt.specs.declared.progress.Progress.TheVariants as progress;
ghost use Rattle.vm_attempt.specs.Heard.{Heard};
ghost use Rattle.vm_attempt.specs.Record.{Record, heard};
ghost use Rattle.vm_attempt.specs.Stepping.{StepDoes};
ghost use Rattle.vm_attempt.specs.Ending.{IsRunning};
ghost use Rattle.vm_attempt.specs.Journals.{setup_for};
ghost use Rattle.vm_attempt.specs.Told.{IsAsleep, IsKeptUnder, Premises, ToldBy, arrivals};
ghost use Rattle.world_laws.specs.Suspensions.{IsPast, Passes, StandsForIds, StaysWaiting, Suspends, WaitsAt, is_left_awake};

/// No wake-up is lost, and none comes too early: a suspension says what is left of what its handler
/// waits for. If the notifications that came since then wake that, as it was sent, the handler's
/// run passes the point; and if they don't, it still waits there. So a later attempt that was fed
/// all of them is past that point if it waits, or it gets no further answer.
pub fn no_lost_wake_up()
    ensures suspends { (fixed : Fixed) (old new : Record) → IsKeptUnder fixed old
        → Premises fixed (heard fixed.version old) → IsRunning old
        → StepDoes fixed.handler old (Ok progress.Suspended) new → Suspends fixed old new }
    ensures wakes { (s : Setup) (m : Meaning) (p : Point) (left : Tree) (more : List Notification)
        → WaitsAt s m p left → s.options.signal_delivery ≡ Queued → HasNoTwo (later more p)
        → StandsForIds p left → is_left_awake p left more ≡ true → Passes s m p more }
    ensures waits { (s : Setup) (m : Meaning) (p : Point) (left : Tree) (more : List Notification)
        → WaitsAt s m p left → s.options.signal_delivery ≡ Queued → HasNoTwo (later more p)
        → StandsForIds p left → is_left_awake p left more ≡ false → StaysWaiting s m p more }
    // A later attempt whose journal has the commands that stood there or were written, and maybe
    // others after them, and which was fed the notifications that came until then and these:
    ensures past { (fixed : Fixed) (fed : Heard) (answers : List Answer)
        (written cs ds : List RawMessage) (ns more : List Notification) (p : Point) (left : Tree)
        (w : IsAsleep fixed fed answers written) → arrivals w.journal ≡ ns ++ more
        → w.journal.rest ++ written ≡ cs ++ ds
        → Told (setup_for fixed w.journal.start) fixed.handler w.journal.input ns cs p
        → WaitsAt (setup_for fixed w.journal.start) fixed.handler p left
        → fixed.options.signal_delivery ≡ Queued → HasNoTwo (later more p) → StandsForIds p left
        → is_left_awake p left more ≡ true
        → IsPast (setup_for fixed w.journal.start) p answers w.at }
    ensures not_past { (fixed : Fixed) (fed : Heard) (answers : List Answer)
        (written cs ds : List RawMessage) (ns more : List Notification) (p : Point) (left : Tree)
        (t : ToldBy fixed fed answers written) → arrivals t.journal ≡ ns ++ more
        → t.journal.rest ++ written ≡ cs ++ ds
        → Told (setup_for fixed t.journal.start) fixed.handler t.journal.input ns cs p
        → WaitsAt (setup_for fixed t.journal.start) fixed.handler p left
        → fixed.options.signal_delivery ≡ Queued → HasNoTwo (later more p) → StandsForIds p left
        → is_left_awake p left more ≡ false → IsPrefix answers p.answers }
{}
