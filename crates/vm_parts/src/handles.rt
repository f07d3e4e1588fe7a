//! Which id each handle stands for.
ghost use Rattle.std.specs.Prelude.{◌≡◌, [], ◌∷◌, ◌++◌, true, OnOk, OnErr, IfSome, MatchOption};
ghost use Rattle.std.specs.Option.{is_some, option_copied};
ghost use Rattle.vm_parts.specs.Deliveries.{id_at, unmapped};
ghost use Rattle.vm_parts.specs.Mappings.{live_mappings, MappingsAscend, AllUnder, IsMappingAt, HasNoMapping};

use crate::async_results::Mapping;
use journal_values::NotificationId;
use std::alloc::{AllocError, Global};
use std::marker::Model;

/// A handle that was handed out, with its id until it is forgotten.
#[derive(Drop)]
pub struct Held {
    pub handle: u32,
    pub id: Option<NotificationId>,
}

/// How many handles are forgotten at least before their places are dropped.
const FEW: usize = 8;

/// Handles in the order in which they got their ids. As a counter hands them out they ascend, and are looked for at their distance from
/// the last, and then by halving; from the first that doesn't ascend they are kept apart. The places of the forgotten ones are dropped
/// together, when one comes and there are 4 of them for each other.
#[derive(Drop)]
pub struct Handles {
    ascending: Vec<Held>,
    others: Vec<Mapping>,
    /// How many were forgotten since places were last dropped.
    forgotten: usize,
}

impl Model for Handles {
    ghost use Rattle.std.specs.Prelude.{List, ◌++◌};
    ghost use Rattle.vm_parts.specs.declared.async_results.Mapping.{Mapping};
    ghost use Rattle.vm_parts.specs.Mappings.{live_mappings, MappingsAscend};

    ghost Value = { List Mapping };

    ghost view = { λ s. live_mappings s.ascending.items ++ s.others.items };

    ghost invariant = { λ s. MappingsAscend s.ascending.items };
}

/// Where a handle stands if none is missing from it to the last. Most are found so, since a counter hands them out.
fn place_from_last(held: &[Held], handle: u32) -> Option<usize>
    ensures { IfSome result (λ place. IsMappingAt handle held.now place) }
{
    let last = held.last()?;
    let back = last.handle.checked_sub(handle)?;
    let place = (held.len() - 1).checked_sub(back as usize)?;
    if held[place].handle == handle {
        Some(place)
    } else {
        None
    }
}

/// Where a handle stands, found by halving.
fn place_by_halving(held: &[Held], handle: u32) -> Option<usize>
    requires { MappingsAscend held.now }
    ensures { MatchOption result (HasNoMapping handle held.now)
        (λ place. IsMappingAt handle held.now place) }
{
    match held.binary_search_by_key(&handle, |held| held.handle) {
        Ok(place) => Some(place),
        Err(_) => None,
    }
}

/// Where a handle stands.
fn place_of(held: &[Held], handle: u32) -> Option<usize>
    requires { MappingsAscend held.now }
    ensures { MatchOption result (HasNoMapping handle held.now)
        (λ place. IsMappingAt handle held.now place) }
{
    match place_from_last(held, handle) {
        Some(place) => Some(place),
        None => place_by_halving(held, handle),
    }
}

fn find_held(held: &[Held], handle: u32) -> Option<&NotificationId>
    requires { MappingsAscend held.now }
    ensures { option_copied result ≡ id_at handle (live_mappings held.now) }
{
    if let Some(place) = place_from_last(held, handle) {
        return held[place].id.as_ref();
    }
    let place = place_by_halving(held, handle)?;
    held[place].id.as_ref()
}

fn find_mapped(mappings: &[Mapping], handle: u32) -> Option<&NotificationId>
    ensures { option_copied result ≡ id_at handle mappings.now }
{
    for mapping in mappings {
        if mapping.handle == handle {
            return Some(&mapping.id);
        }
    }
    None
}

/// Whether a handle is greater than all these.
fn is_above(held: &[Held], handle: u32) -> bool
    requires { MappingsAscend held.now }
    ensures above { result ≡ true → AllUnder held.now handle }
    ensures wherever { AllUnder held.now handle → result ≡ true }
{
    match held.last() {
        None => true,
        Some(last) => last.handle < handle,
    }
}

/// Takes the id out, and answers whether there was one.
fn give_up(held: &mut Held) -> bool
    ensures result { result ≡ is_some held.old.id }
    ensures left { held.new ≡ record held.old { id = None } }
{
    held.id.take().is_some()
}

/// Forgets a handle, and answers whether it stood for an id.
fn forget(held: &mut Vec<Held>, handle: u32) -> bool
    requires { MappingsAscend held.old.items }
    ensures result { result ≡ is_some (id_at handle (live_mappings held.old.items)) }
    ensures left { live_mappings held.new.items ≡ unmapped handle (live_mappings held.old.items) }
    ensures ascend { MappingsAscend held.new.items }
{
    match place_of(held, handle) {
        None => false,
        Some(place) => {
            let at = &mut held[place];
            give_up(at)
        }
    }
}

/// Drops the places of forgotten handles, and gives their memory back.
#[inline(never)]
fn drop_forgotten(held: &mut Vec<Held>)
    requires { MappingsAscend held.old.items }
    ensures live { live_mappings held.new.items ≡ live_mappings held.old.items }
    ensures ascend { MappingsAscend held.new.items }
{
    held.retain(|held| held.id.is_some());
    held.shrink_to(2 * FEW);
}

fn unmap(mappings: &mut Vec<Mapping>, handle: u32)
    ensures { mappings.new.items ≡ unmapped handle mappings.old.items }
{
    for i in 0..mappings.len() {
        if mappings[i].handle == handle {
            let Mapping { handle: _, id: _ } = mappings.remove(i);
            return;
        }
    }
}

impl Handles {
    pub fn new(alloc: Global) -> Handles
        ensures { result ≡ [] }
    {
        Handles {
            ascending: Vec::new(alloc),
            others: Vec::new(alloc),
            forgotten: 0,
        }
    }

    /// Makes room for a few handles.
    pub fn reserve_few(&mut self) -> Result<(), AllocError>
        ensures { self.new ≡ self.old }
    {
        self.ascending.reserve(FEW)
    }

    /// Gives back the memory of the handles that were forgotten, if there are 4 of them for each other.
    fn give_back(&mut self)
        ensures { self.new ≡ self.old }
    {
        let others = self.ascending.len().saturating_sub(self.forgotten);
        if self.forgotten >= FEW && others <= self.forgotten / 4 {
            self.forgotten = 0;
            drop_forgotten(&mut self.ascending);
        }
    }

    /// Gives a handle its id, after the others.
    fn append(&mut self, mapping: Mapping) -> Result<(), AllocError>
        ensures ok { OnOk result (self.new ≡ self.old ++ mapping ∷ []) }
        ensures err { OnErr result (self.new ≡ self.old) }
    {
        if !self.others.is_empty() || !is_above(&self.ascending, mapping.handle) {
            self.others.push(mapping)?;
            return Ok(());
        }
        let Mapping { handle, id } = mapping;
        self.ascending.push(Held {
            handle,
            id: Some(id),
        })?;
        Ok(())
    }

    /// Gives a handle its id.
    pub fn push(&mut self, mapping: Mapping) -> Result<(), AllocError>
        ensures ok { OnOk result (self.new ≡ self.old ++ mapping ∷ []) }
        ensures err { OnErr result (self.new ≡ self.old) }
    {
        self.give_back();
        self.append(mapping)
    }

    /// The id that a handle stands for.
    pub fn find(&self, handle: u32) -> Option<&NotificationId>
        ensures { option_copied result ≡ id_at handle self.now }
    {
        match find_held(&self.ascending, handle) {
            Some(id) => Some(id),
            None => find_mapped(&self.others, handle),
        }
    }

    /// Forgets a handle.
    pub fn remove(&mut self, handle: u32)
        ensures { self.new ≡ unmapped handle self.old }
    {
        if !forget(&mut self.ascending, handle) {
            unmap(&mut self.others, handle);
            return;
        }
        self.forgotten = self.forgotten.saturating_add(1);
    }
}
