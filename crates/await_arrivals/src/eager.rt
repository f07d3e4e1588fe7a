//! The results that eager reads gave: a log of its own, since they never came with an arrival. Most attempts have none, and nothing is
//! looked up then.
ghost use Rattle.std.specs.Prelude.{◌≡◌, [], ◌∷◌, ◌++◌, OnOk, OnErr};
ghost use Rattle.std.specs.Option.{option_copied};
ghost use Rattle.await_arrivals.specs.Results.{first, newest, results_of, has_result_among, without_oldest, without_all};

use crate::log::Log;
use journal_values::{Notification, NotificationId, NotificationResult};
use std::alloc::{AllocError, Global};
use std::marker::Model;

/// Results that can be taken as soon as they are there, in order.
#[derive(Drop)]
pub struct EagerResults {
    log: Log,
}

impl Model for EagerResults {
    ghost use Rattle.std.specs.Prelude.{List};
    ghost use Rattle.await_arrivals.specs.Entries.{not_taken};
    ghost use Rattle.journal_values.specs.declared.notification.Notification.{Notification};

    ghost Value = { List Notification };

    ghost view = { λ s. not_taken s.log };
}

impl EagerResults {
    pub fn new(alloc: Global) -> EagerResults
        ensures { result ≡ [] }
    {
        EagerResults {
            log: Log::new(alloc),
        }
    }

    /// Gives back the memory of what was taken. If memory is refused to that end, all stays where it lies.
    fn give_back(&mut self)
        ensures { self.new ≡ self.old }
    {
        let _ = self.log.compact();
    }

    /// Puts a result at the end of the log.
    fn append(&mut self, read: Notification) -> Result<(), AllocError>
        ensures ok { OnOk result (self.new ≡ self.old ++ read ∷ []) }
        ensures err { OnErr result (self.new ≡ self.old) }
    {
        self.log.push(read)
    }

    /// Puts a result after the others.
    pub fn push(&mut self, read: Notification) -> Result<(), AllocError>
        ensures ok { OnOk result (self.new ≡ self.old ++ read ∷ []) }
        ensures err { OnErr result (self.new ≡ self.old) }
    {
        if self.log.is_sparse() {
            self.give_back();
        }
        self.append(read)
    }

    pub fn has(&self, id: &NotificationId) -> bool
        ensures { result ≡ has_result_among id.now self.now }
    {
        let all = self.log.len();
        all != 0 && self.log.has(id, all)
    }

    /// The oldest result of an id.
    pub fn oldest(&self, id: &NotificationId) -> Option<&NotificationResult>
        ensures { option_copied result ≡ first (results_of id.now self.now) }
    {
        self.log.oldest(id, self.log.len())
    }

    /// The newest result of an id.
    pub fn newest(&self, id: &NotificationId) -> Option<&NotificationResult>
        ensures { option_copied result ≡ newest (results_of id.now self.now) }
    {
        self.log.newest(id, self.log.len())
    }

    /// Takes the oldest result of an id.
    pub fn take_first(&mut self, id: &NotificationId) -> Option<NotificationResult>
        ensures found { result ≡ first (results_of id.now self.old) }
        ensures left { self.new ≡ without_oldest id.now self.old }
    {
        let all = self.log.len();
        if all == 0 {
            return None;
        }
        let found = self.log.take_first(id, all);
        if self.log.is_spent() {
            self.give_back();
        }
        found
    }

    /// Takes the newest result of an id, and drops the older ones.
    pub fn take_newest(&mut self, id: &NotificationId) -> Option<NotificationResult>
        ensures found { result ≡ newest (results_of id.now self.old) }
        ensures left { self.new ≡ without_all id.now self.old }
    {
        let all = self.log.len();
        if all == 0 {
            return None;
        }
        let found = self.log.take_newest(id, all);
        if self.log.is_spent() {
            self.give_back();
        }
        found
    }
}
