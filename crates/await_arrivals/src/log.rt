//! The notifications that came, each found by its id.
ghost use Rattle.std.specs.Prelude.{◌≡◌, ◌<◌, ℕ, List, [], ◌∷◌, ◌++◌, take, drop, length, true, Some, IsSome, OnOk, OnErr, IfOk};
ghost use Rattle.std.specs.Option.{option_copied};
ghost use Rattle.await_arrivals.specs.Ids.{slot_of};
ghost use Rattle.await_arrivals.specs.Results.{first, newest, results_of, has_result_among, without_oldest, without_all};
ghost use Rattle.await_arrivals.specs.Entries.{not_taken, places, Tracked, with_results};

use crate::index::Index;
use crate::places::Places;
use journal_values::{Notification, NotificationId, NotificationResult};
use std::alloc::{AllocError, Global};
use std::marker::Model;

/// A notification that came; its result leaves when it is taken.
#[derive(Drop)]
pub struct Entry {
    pub id: NotificationId,
    pub result: Option<NotificationResult>,
}

/// How many results are taken at least before entries are dropped.
const FEW: usize = 8;

/// Notifications in order of arrival: a list that grows at its end. Each id has a slot, which lists the places of its results. Entries whose
/// results were taken are dropped together: once no other is left, or when one comes and there are 4 of them for each other.
#[derive(Drop)]
pub struct Log {
    entries: Vec<Entry>,
    index: Index,
    slots: Vec<Places>,
    /// How many results were taken since entries were last dropped.
    taken: usize,
}

impl Model for Log {
    ghost use Rattle.std.specs.Prelude.{List};
    ghost use Rattle.await_arrivals.specs.declared.log.Entry.{Entry};

    ghost Value = { List Entry };

    ghost use Rattle.await_arrivals.specs.Entries.{Tracked};

    ghost view = { λ s. s.entries.items };

    ghost invariant = { λ s. Tracked s.entries.items s.index s.slots.items };
}

/// Adds the place of an entry that comes next to the slot of its id, or to a new one. All is as it was if memory is
/// refused.
#[inline(always)]
fn add_place(
    index: &mut Index,
    slots: &mut Vec<Places>,
    place: usize,
    entry: &Entry,
) -> Result<(), AllocError>
    requires { (k : ℕ) → slot_of index.old entry.now.id ≡ Some k → k < length slots.old.items }
    ensures ok { OnOk result ((log : List Entry) → length log ≡ place → IsSome entry.now.result
        → Tracked log index.old slots.old.items
        → Tracked (log ++ entry.now ∷ []) index.new slots.new.items) }
    ensures err { OnErr result ((log : List Entry) → Tracked log index.old slots.old.items
        → Tracked log index.new slots.new.items) }
{
    if let Some(slot) = index.find(&entry.id) {
        let alloc = *slots.allocator();
        let at = &mut slots[slot];
        return at.push(alloc, place);
    }
    let slot = slots.len();
    slots.push(Places::one(place))?;
    match index.insert(&entry.id, slot) {
        Ok(()) => Ok(()),
        Err(refused) => {
            let _ = slots.pop();
            Err(refused)
        }
    }
}

/// Whether all results were taken.
fn none_left(entries: &[Entry]) -> bool
    ensures { result ≡ true → with_results entries.now ≡ [] }
{
    for entry in entries {
        if entry.result.is_some() {
            return false;
        }
    }
    true
}

/// The slots of these entries, by the places that they have once those without a result are dropped.
fn track(alloc: Global, entries: &[Entry]) -> Result<(Index, Vec<Places>), AllocError>
    ensures { IfOk result (λ t. Tracked (with_results entries.now) t.0 t.1.items) }
{
    let mut index = Index::new(alloc);
    let mut slots = Vec::new(alloc);
    let mut place = 0;
    for entry in entries {
        if entry.result.is_some() {
            add_place(&mut index, &mut slots, place, entry)?;
            place += 1;
        }
    }
    Ok((index, slots))
}

/// Drops the entries without a result, and gives their memory back.
fn drop_taken(entries: &mut Vec<Entry>)
    ensures { entries.new.items ≡ with_results entries.old.items }
{
    entries.retain(|entry| entry.result.is_some());
    entries.shrink_to(2 * FEW);
}

/// Takes the result out of an entry.
fn give_up(entry: &mut Entry) -> Option<NotificationResult>
    ensures result { result ≡ entry.old.result }
    ensures left { entry.new ≡ record entry.old { result = None } }
{
    entry.result.take()
}

impl Log {
    pub fn new(alloc: Global) -> Log
        ensures { result ≡ [] }
    {
        Log {
            entries: Vec::new(alloc),
            index: Index::new(alloc),
            slots: Vec::new(alloc),
            taken: 0,
        }
    }

    pub fn len(&self) -> usize
        ensures { result ≡ length self.now }
    {
        self.entries.len()
    }

    /// Adds a notification after the others.
    pub fn push(&mut self, notification: Notification) -> Result<(), AllocError>
        ensures ok { OnOk result (self.new ≡ self.old
            ++ record { id = notification.id; result = Some notification.result } ∷ []) }
        ensures err { OnErr result (self.new ≡ self.old) }
    {
        let Notification { id, result } = notification;
        self.entries.reserve(1)?;
        let entry = Entry {
            id,
            result: Some(result),
        };
        let place = self.entries.len();
        add_place(&mut self.index, &mut self.slots, place, &entry)?;
        self.entries.push_reserved(entry);
        Ok(())
    }

    /// The place of the oldest result of an id that was not taken.
    pub fn front(&self, id: &NotificationId) -> Option<usize>
        ensures { result ≡ first (places id.now self.now) }
    {
        let slot = self.index.find(id)?;
        self.slots[slot].front()
    }

    /// Whether the first `seen` entries have a result of an id.
    pub fn has(&self, id: &NotificationId, seen: usize) -> bool
        ensures { result ≡ has_result_among id.now (not_taken (take seen self.now)) }
    {
        match self.front(id) {
            None => false,
            Some(place) => place < seen,
        }
    }

    /// The oldest result of an id among the first `seen` entries.
    pub fn oldest(&self, id: &NotificationId, seen: usize) -> Option<&NotificationResult>
        ensures { option_copied result
            ≡ first (results_of id.now (not_taken (take seen self.now))) }
    {
        let place = self.front(id)?;
        if seen <= place {
            return None;
        }
        self.entries[place].result.as_ref()
    }

    /// The newest result of an id among the first `seen` entries.
    pub fn newest(&self, id: &NotificationId, seen: usize) -> Option<&NotificationResult>
        ensures { option_copied result
            ≡ newest (results_of id.now (not_taken (take seen self.now))) }
    {
        let slot = self.index.find(id)?;
        let place = self.slots[slot].newest_under(seen)?;
        self.entries[place].result.as_ref()
    }

    /// Takes the oldest result of an id out of the first `seen` entries.
    pub fn take_first(&mut self, id: &NotificationId, seen: usize) -> Option<NotificationResult>
        ensures found { result ≡ first (results_of id.now (not_taken (take seen self.old))) }
        ensures left { not_taken (take seen self.new)
            ≡ without_oldest id.now (not_taken (take seen self.old)) }
        ensures rest { drop seen self.new ≡ drop seen self.old }
        ensures len { length self.new ≡ length self.old }
    {
        let slot = self.index.find(id)?;
        let place = self.slots[slot].front()?;
        if place >= seen {
            return None;
        }
        let at = &mut self.slots[slot];
        at.advance();
        self.taken = self.taken.saturating_add(1);
        let entry = &mut self.entries[place];
        give_up(entry)
    }

    /// Takes the newest result of an id out of the first `seen` entries, and drops the older ones that it replaced.
    pub fn take_newest(&mut self, id: &NotificationId, seen: usize) -> Option<NotificationResult>
        ensures found { result ≡ newest (results_of id.now (not_taken (take seen self.old))) }
        ensures left { not_taken (take seen self.new)
            ≡ without_all id.now (not_taken (take seen self.old)) }
        ensures rest { drop seen self.new ≡ drop seen self.old }
        ensures len { length self.new ≡ length self.old }
    {
        let mut found = None;
        while let Some(result) = self.take_first(id, seen) {
            found = Some(result);
        }
        found
    }

    /// Whether the entries whose results were taken are to be dropped before one comes: there are 4 of them for each other.
    pub fn is_sparse(&self) -> bool {
        self.taken >= FEW && self.entries.len().saturating_sub(self.taken) <= self.taken / 4
    }

    /// Whether all results were taken, so that all entries are to be dropped.
    pub fn is_spent(&self) -> bool {
        self.taken >= FEW && self.taken >= self.entries.len()
    }

    /// Drops all entries, and gives the memory of all but a few back.
    fn clear(&mut self)
        ensures { self.new ≡ [] }
    {
        self.index.clear();
        self.slots.clear();
        self.slots.shrink_to(2 * FEW);
        self.entries.clear();
        self.entries.shrink_to(2 * FEW);
    }

    /// Drops the entries whose results were taken, and gives their memory back. All stays as it was if the memory to find the others by
    /// is refused.
    #[inline(never)]
    pub fn compact(&mut self) -> Result<(), AllocError>
        ensures ok { OnOk result (self.new ≡ with_results self.old) }
        ensures err { OnErr result (self.new ≡ self.old) }
    {
        let is_all = self.taken >= self.entries.len();
        self.taken = 0;
        if is_all && none_left(&self.entries) {
            self.clear();
            return Ok(());
        }
        let alloc = *self.entries.allocator();
        let (index, slots) = track(alloc, &self.entries)?;
        self.index = index;
        self.slots = slots;
        drop_taken(&mut self.entries);
        Ok(())
    }
}
