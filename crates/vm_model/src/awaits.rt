//! Laws of awaits and takes.
ghost use Rattle.std.specs.Prelude.{◌≡◌, ◌≤◌, ◌∷◌, ◌++◌, [], List, ℕ, Some, drop, false, length, take, true};
ghost use Rattle.journal_protocol.specs.InputCommand.{InputCommand};
ghost use Rattle.journal_protocol.specs.RawMessage.{RawMessage};
ghost use Rattle.journal_protocol.specs.Notification.{Notification};
ghost use Rattle.journal_protocol.specs.NotificationId.{NotificationId};
ghost use Rattle.journal_protocol.specs.NotificationId.TheVariants.{CompletionId};
ghost use Rattle.journal_protocol.specs.SignalDelivery.{SignalDelivery};
ghost use Rattle.vm_types.specs.declared.steps.Answer.{Answer};
ghost use Rattle.vm_types.specs.declared.steps.Answer.TheVariants as answer;
ghost use Rattle.vm_types.specs.declared.steps.Step.TheVariants as step;
ghost use Rattle.await_trees.specs.declared.handle.NotificationHandle.{NotificationHandle};
ghost use Rattle.await_trees.specs.declared.tree.UnresolvedFuture.{UnresolvedFuture};
ghost use Rattle.vm_parts.specs.Deliveries.{newest, present_result};
ghost use Rattle.vm_model.specs.Calls.{Setup, Meaning, Usage, is_cancelled_in, ready_by_usage, tree_wakes};
ghost use Rattle.vm_model.specs.Moves.{Point, after, next, start};
ghost use Rattle.vm_model.specs.Histories.{IsAwaiting, IsLeast, arrivals_used, ends_await};
ghost use Rattle.await_trees.specs.Tree.{Tree};
ghost use Rattle.await_tries.specs.Await.{LeastAwake, NeverAwake};
ghost use Rattle.journal_protocol.specs.SignalDelivery.TheVariants.{Queued};
ghost use Rattle.vm_model.specs.Cancels.{CancelledAwait};
ghost use Rattle.vm_model.specs.Deliveries.{EachTookAResult, HasNoTwo, TakeIsAnswered, arrived_at, deliveries, next_taken, takes};

/// An await that was answered had a least prefix of the arrivals by which it ends: by which the handler is cancelled or its future
/// is awake; and the run uses just those. Where the handler isn't cancelled by them, the answer is Awake. Where all arrivals are
/// used and the await doesn't end, no number of them ends it: it ends at no point of the run with these answers.
pub fn awaits_wake()
    ensures only { (s : Setup) (m : Meaning) (future : UnresolvedFuture) (n : ℕ) (p q : Point)
        (a : Answer) (more : List Answer) → IsAwaiting m p future → after s m n p ≡ Some q
        → q.answers ≡ p.answers ++ a ∷ more → (j : ℕ)
        × IsLeast (ends_await s future) p.derived p.queue j }
    ensures uses { (s : Setup) (m : Meaning) (future : UnresolvedFuture) (j : ℕ) (p : Point)
        → IsAwaiting m p future → IsLeast (ends_await s future) p.derived p.queue j → after s m j p
        ≡ Some (record p {
          derived = arrivals_used (take j p.queue) p.derived;
          queue = drop j p.queue;
        }) }
    ensures awake { (s : Setup) (m : Meaning) (future : UnresolvedFuture) (n j : ℕ) (p q : Point)
        (a : Answer) (more : List Answer) → IsAwaiting m p future → after s m n p ≡ Some q
        → q.answers ≡ p.answers ++ a ∷ more → IsLeast (ends_await s future) p.derived p.queue j
        → is_cancelled_in s (arrivals_used (take j p.queue) p.derived) ≡ false → a ≡ answer.Awake }
    ensures none { (s : Setup) (m : Meaning) (future : UnresolvedFuture) (n k : ℕ)
        (first p q : Point) → after s m n first ≡ Some p → after s m k first ≡ Some q → q.answers
        ≡ p.answers → IsAwaiting m q future → ends_await s future q.derived ≡ false → q.queue ≡ []
        → ends_await s future p.derived ≡ false }
{}

/// An await of a cancelled handler that was answered used the least prefix of the arrivals by which each tracked call whose
/// invocation's id isn't known has a result, sent the cancel signal to the invocation of each tracked call, in order, and was
/// answered Cancelled.
pub fn cancelled_awaits()
    ensures { (s : Setup) (m : Meaning) (future : UnresolvedFuture) (n : ℕ) (p q : Point)
        (a : Answer) (more : List Answer) → IsAwaiting m p future → is_cancelled_in s p.derived
        ≡ true → after s m n p ≡ Some q → q.answers ≡ p.answers ++ a ∷ more
        → CancelledAwait s m p a }
{}

/// If signals queue and no completion id has two results, an await of a tree ends in a machine after the least prefix of the
/// arrivals by which the tree is awake at its point. If no number of them wakes it there, it is awake after none of them.
pub fn trees_wake()
    ensures ends { (s : Setup) (t : Tree) (p : Point) (n : ℕ) → s.options.signal_delivery ≡ Queued
        → HasNoTwo p → LeastAwake s.options.signal_delivery (arrived_at s p) t n
        → IsLeast (tree_wakes s t) p.derived p.queue n }
    ensures never { (s : Setup) (t : Tree) (p : Point) (n : ℕ) → s.options.signal_delivery ≡ Queued
        → HasNoTwo p → NeverAwake s.options.signal_delivery (arrived_at s p) t → n ≤ length p.queue
        → tree_wakes s t (arrivals_used (take n p.queue) p.derived) ≡ false }
{}

/// In a run the present result of an id is the one that the next take gives. For a signal whose deliveries queue up, its index
/// among them, from 0, is the number of takes so far. Else it is the newest that came since a result was last taken, so of a
/// completion that wasn't taken its newest. Each take took a result that was present, and is answered with its value.
pub fn results_are_present()
    ensures present { (delivery : SignalDelivery) (id : NotificationId) (us : List Usage)
        → EachTookAResult delivery us → present_result delivery id (ready_by_usage delivery us)
        ≡ next_taken delivery id us }
    ensures completions { (delivery : SignalDelivery) (n : ℕ) (us : List Usage)
        → takes (CompletionId n) us ≡ 0
        → present_result delivery (CompletionId n) (ready_by_usage delivery us)
        ≡ newest (deliveries (CompletionId n) us) }
    ensures taken { (s : Setup) (m : Meaning) (n : ℕ) (input : InputCommand)
        (ns : List Notification) (cs : List RawMessage) (q : Point)
        → after s m n (start s input ns cs) ≡ Some q
        → EachTookAResult s.options.signal_delivery q.derived.usage }
    ensures answered { (s : Setup) (m : Meaning) (n : ℕ) (input : InputCommand)
        (ns : List Notification) (cs : List RawMessage) (p q : Point) (handle : NotificationHandle)
        → after s m n (start s input ns cs) ≡ Some p → m p.answers ≡ step.Take handle → next s m p
        ≡ Some q → TakeIsAnswered s handle p q }
{}
