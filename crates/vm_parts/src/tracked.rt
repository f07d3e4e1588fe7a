//! Calls whose invocations are cancelled with the handler's, by the handles of their invocations' ids.
ghost use Rattle.std.specs.Prelude.{◌≡◌, ◌≤◌, [], IfOk, OnOk, OnErr, MatchOption, MatchResult, length, take};
ghost use Rattle.std.specs.Option.{option_copied};
ghost use Rattle.vm_state.specs.TrackedCalls.{with_call};
ghost use Rattle.vm_parts.specs.Tracked.{unresolved_handles, with_next_id, NotesId, IsFirstHandle, TrackedAscend, IsTrackedAt, IsBetween, IsNextUnresolved};

use plain::{Text, copy_of};
use std::alloc::{AllocError, Global};
use std::marker::Model;
use std::mem;
use vm_state::TrackedCall;

/// Tracked calls, in the order of their handles; one is found by halving. The ids of the first ones are known, which are not looked at
/// again for one that isn't.
#[derive(Drop)]
pub struct TrackedCalls {
    calls: Vec<TrackedCall>,
    resolved: usize,
}

impl Model for TrackedCalls {
    ghost use Rattle.std.specs.Prelude.{List};
    ghost use Rattle.vm_state.specs.declared.tracked_call.TrackedCall.{TrackedCall};
    ghost use Rattle.vm_parts.specs.Tracked.{IsTracking};

    ghost Value = { List TrackedCall };

    ghost view = { λ s. s.calls.items };

    ghost invariant = { λ s. IsTracking s.calls.items s.resolved };
}

/// The place of a handle's call, or the place where one belongs. That is mostly the end, which is tried first.
fn place_of(calls: &[TrackedCall], handle: u32) -> Result<usize, usize>
    requires { TrackedAscend calls.now }
    ensures { MatchResult result (IsTrackedAt handle calls.now) (IsBetween handle calls.now) }
{
    if let Some(last) = calls.last()
        && last.handle < handle
    {
        return Err(calls.len());
    }
    calls.binary_search_by_key(&handle, |call| call.handle)
}

/// The place of the first call whose id isn't known, where those before are; else the end.
fn first_unknown(calls: &[TrackedCall], from: usize) -> usize
    requires within { from ≤ length calls.now }
    requires known { unresolved_handles (take from calls.now) ≡ [] }
    ensures { IsNextUnresolved calls.now result }
{
    for place in from..calls.len() {
        if calls[place].invocation_id.is_none() {
            return place;
        }
    }
    calls.len()
}

impl TrackedCalls {
    pub fn new(alloc: Global) -> TrackedCalls
        ensures { result ≡ [] }
    {
        TrackedCalls {
            calls: Vec::new(alloc),
            resolved: 0,
        }
    }

    /// How many calls are tracked.
    pub fn len(&self) -> usize
        ensures { result ≡ length self.now }
    {
        self.calls.len()
    }

    /// Tracks a call. It replaces the one that had its handle.
    pub fn push(&mut self, handle: u32) -> Result<(), AllocError>
        ensures ok { OnOk result (self.new ≡ with_call handle self.old) }
        ensures err { OnErr result (self.new ≡ self.old) }
    {
        let call = TrackedCall {
            handle,
            invocation_id: None,
        };
        match place_of(&self.calls, handle) {
            Ok(place) => {
                self.calls[place] = call;
                self.resolved = self.resolved.min(place);
            }
            Err(place) => {
                self.calls.insert(place, call)?;
                self.resolved = self.resolved.min(place);
            }
        }
        Ok(())
    }

    /// A result of the handle was read, which is this invocation's id, or no id. Tells whether that may be so: of a tracked call it
    /// has to be an id, which is then known.
    pub fn note(&mut self, handle: u32, id: Option<&Text>) -> Result<bool, AllocError>
        ensures ok { IfOk result (NotesId handle (option_copied id.entry) self.old self.new) }
        ensures err { OnErr result (self.new ≡ self.old) }
    {
        let Ok(place) = place_of(&self.calls, handle) else {
            return Ok(true);
        };
        let Some(id) = id else {
            return Ok(false);
        };
        let id = copy_of(id)?;
        self.calls[place].invocation_id = Some(id);
        Ok(true)
    }

    /// The handle of the first call whose id isn't known.
    pub fn first_unresolved(&mut self) -> Option<u32>
        ensures first { MatchOption result (unresolved_handles self.old
            ≡ []) (IsFirstHandle (unresolved_handles self.old)) }
        ensures left { self.new ≡ self.old }
    {
        self.resolved = first_unknown(&self.calls, self.resolved);
        match self.calls.get(self.resolved) {
            None => None,
            Some(call) => Some(call.handle),
        }
    }

    /// The first id that isn't known becomes known.
    pub fn resolve_first(&mut self, id: Text)
        ensures { self.new ≡ with_next_id id self.old }
    {
        self.resolved = first_unknown(&self.calls, self.resolved);
        if self.resolved == self.calls.len() {
            return;
        }
        self.calls[self.resolved].invocation_id = Some(id);
    }

    /// Takes all calls out.
    pub fn take_all(&mut self) -> Vec<TrackedCall>
        ensures taken { result.items ≡ self.old }
        ensures left { self.new ≡ [] }
    {
        let alloc = *self.calls.allocator();
        self.resolved = 0;
        mem::replace(&mut self.calls, Vec::new(alloc))
    }
}
