//! The arrivals of an attempt: those that no await has used yet, and those that were used.
ghost use Rattle.std.specs.Prelude.{◌≡◌, ◌||◌, ℕ, [], ◌∷◌, ◌++◌, take, OnOk, OnErr};
ghost use Rattle.std.specs.Option.{option_copied, option_or};
ghost use Rattle.await_arrivals.specs.Came.{nothing_came, is_queued, one_used, enough};
ghost use Rattle.await_arrivals.specs.Results.{first, newest, results_of, has_result_among, without_oldest, without_all};

use crate::log::Log;
use journal_values::{Notification, NotificationId, NotificationResult};
use std::alloc::{AllocError, Global};
use std::marker::Model;

/// One log of all that came, of which awaits have used the first `seen`.
#[derive(Drop)]
pub struct Arrivals {
    log: Log,
    seen: usize,
}

impl Model for Arrivals {
    ghost use Rattle.std.specs.Prelude.{◌≡◌, ◌≤◌, length, take, drop, true};
    ghost use Rattle.await_arrivals.specs.Came.{Came};
    ghost use Rattle.await_arrivals.specs.Entries.{not_taken, all_given};

    ghost Value = { Came };

    ghost view = { λ s. record { queued = not_taken (drop s.seen s.log); delivered = not_taken (take s.seen s.log) } };

    ghost invariant = { λ s. (s.seen ≤ length s.log) × (all_given (drop s.seen s.log) ≡ true) };
}

impl Arrivals {
    pub fn new(alloc: Global) -> Arrivals
        ensures { result ≡ nothing_came }
    {
        Arrivals {
            log: Log::new(alloc),
            seen: 0,
        }
    }

    /// Gives back the memory of what was taken. If memory is refused to that end, all stays where it lies.
    fn give_back(&mut self)
        ensures { self.new ≡ self.old }
    {
        let waiting = self.log.len() - self.seen;
        if let Ok(()) = self.log.compact() {
            self.seen = self.log.len() - waiting;
        }
    }

    /// Puts a notification after those that wait, at the end of the log.
    fn append(&mut self, notification: Notification) -> Result<(), AllocError>
        ensures ok { OnOk result (self.new
            ≡ record self.old { queued = self.old.queued ++ notification ∷ [] }) }
        ensures err { OnErr result (self.new ≡ self.old) }
    {
        self.log.push(notification)
    }

    /// Puts a notification after those that wait.
    pub fn enqueue(&mut self, notification: Notification) -> Result<(), AllocError>
        ensures ok { OnOk result (self.new
            ≡ record self.old { queued = self.old.queued ++ notification ∷ [] }) }
        ensures err { OnErr result (self.new ≡ self.old) }
    {
        if self.log.is_sparse() {
            self.give_back();
        }
        self.append(notification)
    }

    /// Uses the oldest notification that waits, if there is one; it takes no memory.
    pub fn use_one(&mut self) -> bool
        ensures found { result ≡ is_queued self.old.queued }
        ensures used { self.new ≡ one_used self.old }
    {
        if self.seen == self.log.len() {
            return false;
        }
        self.seen += 1;
        true
    }

    /// Whether there is a result of an id that was used, and not taken.
    pub fn has(&self, id: &NotificationId) -> bool
        ensures { result ≡ has_result_among id.now self.now.delivered }
    {
        self.log.has(id, self.seen)
    }

    /// Whether a result of an id came that was not taken, used or not.
    pub fn knows(&self, id: &NotificationId) -> bool
        ensures { result ≡ (has_result_among id.now self.now.delivered
            || has_result_among id.now self.now.queued) }
    {
        self.log.has(id, self.log.len())
    }

    /// How many that wait must be used until there is a used result of an id, none where all are too few.
    pub fn uses_until(&self, id: &NotificationId) -> Option<usize>
        ensures { (n : ℕ) → enough result n
            ≡ has_result_among id.now (self.now.delivered ++ take n self.now.queued) }
    {
        let place = self.log.front(id)?;
        prove!(place < self.log.len());
        if place < self.seen {
            return Some(0);
        }
        Some(place - self.seen + 1)
    }

    /// The oldest result of an id that was not taken, a used one before those that wait.
    pub fn first_known(&self, id: &NotificationId) -> Option<&NotificationResult>
        ensures { option_copied result
            ≡ option_or (first (results_of id.now self.now.delivered))
            (first (results_of id.now self.now.queued)) }
    {
        self.log.oldest(id, self.log.len())
    }

    /// The oldest used result of an id.
    pub fn oldest(&self, id: &NotificationId) -> Option<&NotificationResult>
        ensures { option_copied result ≡ first (results_of id.now self.now.delivered) }
    {
        self.log.oldest(id, self.seen)
    }

    /// The newest used result of an id.
    pub fn newest(&self, id: &NotificationId) -> Option<&NotificationResult>
        ensures { option_copied result ≡ newest (results_of id.now self.now.delivered) }
    {
        self.log.newest(id, self.seen)
    }

    /// Takes the oldest used result of an id.
    pub fn take_first(&mut self, id: &NotificationId) -> Option<NotificationResult>
        ensures found { result ≡ first (results_of id.now self.old.delivered) }
        ensures left { self.new ≡ record self.old
            { delivered = without_oldest id.now self.old.delivered } }
    {
        let found = self.log.take_first(id, self.seen);
        if self.log.is_spent() {
            self.give_back();
        }
        found
    }

    /// Takes the newest used result of an id, and drops the older ones that it replaced.
    pub fn take_newest(&mut self, id: &NotificationId) -> Option<NotificationResult>
        ensures found { result ≡ newest (results_of id.now self.old.delivered) }
        ensures left { self.new ≡ record self.old
            { delivered = without_all id.now self.old.delivered } }
    {
        let found = self.log.take_newest(id, self.seen);
        if self.log.is_spent() {
            self.give_back();
        }
        found
    }
}
