//! Laws of the deliveries of signals.
ghost use Rattle.std.specs.Prelude.{◌≡◌, List, ℕ, Some, drop};
ghost use Rattle.await_arrivals.specs.Results.{results_of};
ghost use Rattle.journal_protocol.specs.InputCommand.{InputCommand};
ghost use Rattle.journal_protocol.specs.RawMessage.{RawMessage};
ghost use Rattle.journal_protocol.specs.Notification.{Notification};
ghost use Rattle.journal_protocol.specs.NotificationId.{NotificationId};
ghost use Rattle.journal_protocol.specs.SignalDelivery.TheVariants.{Queued};
ghost use Rattle.vm_model.specs.Calls.{Meaning, Setup};
ghost use Rattle.vm_model.specs.Deliveries.{takes};
ghost use Rattle.vm_model.specs.Moves.{Point, after, start};
ghost use Rattle.vm_model.specs.SignalQueues.{IsSignal, values_left};

/// If signals queue, no delivery of a signal is lost, and none overtakes another: at each point of a run the values that are ready,
/// and then those that wait, are the signal's deliveries from the number of its takes on, in order.
pub fn signals_queue_in_order()
    ensures { (s : Setup) (m : Meaning) (n : ℕ) (input : InputCommand) (ns : List Notification)
        (cs : List RawMessage) (q : Point) → s.options.signal_delivery ≡ Queued
        → after s m n (start s input ns cs) ≡ Some q
        → (id : NotificationId) → IsSignal id
        → values_left s id q ≡ drop (takes id q.derived.usage) (results_of id ns) }
{}
