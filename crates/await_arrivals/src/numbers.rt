//! The slot of each number.
ghost use Rattle.std.specs.Prelude.{◌≡◌, ◌==◌, ◌+◌, ◌<◌, ◌≤◌, ℕ, length, Some, None, MatchOption, cond, OnOk, OnErr};
ghost use Rattle.await_arrivals.specs.Numbers.{slot_in_table, slot_of_number, held_for_numbers, most_for_one};

use std::alloc::{AllocError, Global};
use std::collections::BTreeMap;

/// How many places longer a number may make the table.
const REACH: usize = 4;

/// How many numbers before the first that comes have a place in the table.
const BEFORE: u32 = 3;

/// For how many places a table that is cleared keeps its memory.
const KEPT: usize = 16;

/// Which slot each number has, where it has one. Numbers that come about in their order stand in a table, and others in
/// an ordered map; so what both hold is in proportion to how many came.
#[derive(Drop)]
pub struct Numbers {
    /// The number whose place is the first of the table.
    pub base: u32,
    pub table: Vec<Option<u32>>,
    pub others: BTreeMap<u32, usize>,
}

#[tactic(auto, using(crate::proofs::Slots::in_table_more, crate::proofs::Slots::slot_more, crate::proofs::Slots::slot_elsewhere_more), unfolding(crate::specs::Numbers::slot_of_number))]
impl Numbers {
    pub fn new(alloc: Global) -> Numbers
        ensures slots { (n : ℕ) → slot_of_number result n ≡ None }
        ensures held { held_for_numbers result ≡ 0 }
    {
        Numbers {
            base: 0,
            table: Vec::new(alloc),
            others: BTreeMap::new(alloc),
        }
    }

    /// Forgets all numbers, and keeps the memory for a few.
    pub fn clear(&mut self)
        ensures slots { (n : ℕ) → slot_of_number self.new n ≡ None }
        ensures held { held_for_numbers self.new ≡ 0 }
    {
        self.others.clear();
        self.table.clear();
        self.table.shrink_to(KEPT);
    }

    /// The place of a number in the table; those before its first have none.
    fn place_of(&self, number: u32) -> Option<usize>
        ensures { MatchOption result (number < self.now.base)
            (λ place. place + self.now.base ≡ number) }
    {
        match number.checked_sub(self.base) {
            Some(place) => Some(place as usize),
            None => None,
        }
    }

    /// The slot that a number has in the table.
    fn find_in_table(&self, number: u32) -> Option<usize>
        ensures { result ≡ slot_in_table self.now.base self.now.table.items number }
    {
        let place = self.place_of(number)?;
        match self.table.get(place) {
            Some(Some(slot)) => Some(*slot as usize),
            _ => None,
        }
    }

    pub fn find(&self, number: u32) -> Option<usize>
        ensures { result ≡ slot_of_number self.now number }
    {
        match self.find_in_table(number) {
            Some(slot) => Some(slot),
            None => self.others.get(&number).copied(),
        }
    }

    /// Empties a number's place in the table.
    fn empty(&mut self, number: u32)
        ensures slots { (n : ℕ) → slot_in_table self.new.base self.new.table.items n
            ≡ cond (number == n) None (slot_in_table self.old.base self.old.table.items n) }
        ensures others { self.new.others ≡ self.old.others }
        ensures len { length self.new.table.items ≡ length self.old.table.items }
    {
        if let Some(place) = self.place_of(number) {
            if place < self.table.len() {
                self.table[place] = None;
            }
        }
    }

    /// Lets an empty table begin about at a number.
    fn begin_at(&mut self, number: u32)
        ensures same { (n : ℕ) → slot_of_number self.new n ≡ slot_of_number self.old n }
        ensures held { held_for_numbers self.new ≡ held_for_numbers self.old }
    {
        if self.table.is_empty() {
            self.base = number.saturating_sub(BEFORE);
        }
    }

    /// Makes the table so long that it has a place for a number.
    fn extend_to(&mut self, place: usize) -> Result<(), AllocError>
        requires { place < length self.old.table.items + most_for_one }
        ensures long { OnOk result (place < length self.new.table.items) }
        ensures base { self.new.base ≡ self.old.base }
        ensures same { (n : ℕ) → slot_of_number self.new n ≡ slot_of_number self.old n }
        ensures ok_held { OnOk result (held_for_numbers self.new
            ≤ held_for_numbers self.old + most_for_one) }
        ensures err_held { OnErr result (held_for_numbers self.new ≡ held_for_numbers self.old) }
    {
        if self.table.is_empty() {
            self.table.reserve(KEPT)?;
        }
        if self.table.len() <= place {
            self.table.resize(place + 1, None)?;
        }
        Ok(())
    }

    /// Gives a number its slot outside the table.
    fn insert_elsewhere(&mut self, number: u32, slot: usize) -> Result<(), AllocError>
        ensures ok { OnOk result ((n : ℕ) → slot_of_number self.new n
            ≡ cond (number == n) (Some slot) (slot_of_number self.old n)) }
        ensures err { OnErr result ((n : ℕ) → slot_of_number self.new n
            ≡ slot_of_number self.old n) }
        ensures ok_held { OnOk result (held_for_numbers self.new
            ≤ held_for_numbers self.old + most_for_one) }
        ensures err_held { OnErr result (held_for_numbers self.new ≡ held_for_numbers self.old) }
    {
        self.others.insert(number, slot)?;
        self.empty(number);
        Ok(())
    }

    /// Gives a number its slot.
    pub fn insert(&mut self, number: u32, slot: usize) -> Result<(), AllocError>
        ensures ok { OnOk result ((n : ℕ) → slot_of_number self.new n
            ≡ cond (number == n) (Some slot) (slot_of_number self.old n)) }
        ensures err { OnErr result ((n : ℕ) → slot_of_number self.new n
            ≡ slot_of_number self.old n) }
        ensures ok_held { OnOk result (held_for_numbers self.new
            ≤ held_for_numbers self.old + most_for_one) }
        ensures err_held { OnErr result (held_for_numbers self.new ≡ held_for_numbers self.old) }
    {
        self.begin_at(number);
        let Some(place) = self.place_of(number) else {
            return self.insert_elsewhere(number, slot);
        };
        match u32::try_from(slot) {
            Ok(slot) if place < self.table.len() + REACH => {
                self.extend_to(place)?;
                self.table[place] = Some(slot);
                Ok(())
            }
            _ => self.insert_elsewhere(number, slot),
        }
    }
}
