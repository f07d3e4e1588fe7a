//! Calls of a handler's code that make several steps.
ghost use Rattle.std.specs.Prelude.{◌≡◌, IfOk};
ghost use Rattle.handler_flows.specs.Calls.{all, both, call, get, run, select, sleep, value};
ghost use Rattle.handler_flows.specs.Follows.{Follows};

use crate::context::Context;
use crate::exit::Exit;
use await_trees::{NotificationHandle, UnresolvedFuture};
use bytes::Bytes;
use plain::Items;
use std::alloc::{AllocError, Global};
use std::time::Duration;

/// Two handles, to be awaited together.
fn both(
    alloc: Global,
    first: NotificationHandle,
    second: NotificationHandle,
) -> Result<Items<UnresolvedFuture>, AllocError>
    ensures { IfOk result (λ row. row ≡ both first second) }
{
    let mut row = Items::new(alloc);
    row.push(UnresolvedFuture::Single(first))?;
    row.push(UnresolvedFuture::Single(second))?;
    Ok(row)
}

impl<'a> Context<'a> {
    /// Waits for the result of a handle. If it failed, that is a fault; a result without bytes has none.
    #[tactic(auto, using(crate::specs::Code::goes_on), unfolding(crate::specs::Calls::value))]
    pub fn value(&mut self, handle: NotificationHandle) -> Result<Bytes, Exit>
        ensures { Follows (value handle) self.old result self.new }
    {
        self.wait(UnresolvedFuture::Single(handle))?;
        let taken = self.take(handle)?;
        self.bytes_of(taken)
    }

    /// Sleeps until this time since the Unix epoch.
    #[tactic(auto, using(crate::specs::Code::goes_on), unfolding(crate::specs::Calls::sleep))]
    pub fn sleep(&mut self, until: Duration) -> Result<(), Exit>
        ensures { Follows (sleep until) self.old result self.new }
    {
        let slept = self.start_sleep(until)?;
        drop(self.value(slept)?);
        Ok(())
    }

    /// Calls a service's handler, and waits for its result.
    #[tactic(auto, using(crate::specs::Code::goes_on), unfolding(crate::specs::Calls::call))]
    pub fn call(&mut self, service: &str, handler: &str, input: &Bytes) -> Result<Bytes, Exit>
        ensures { Follows (call service.now handler.now input.now) self.old result self.new }
    {
        let called = self.start_call(service, handler, input)?;
        self.value(called)
    }

    /// Has a run of this name executed outside, once, and waits for its result.
    #[tactic(auto, using(crate::specs::Code::goes_on), unfolding(crate::specs::Calls::run))]
    pub fn run(&mut self, name: &str) -> Result<Bytes, Exit>
        ensures { Follows (run name.now) self.old result self.new }
    {
        let ran = self.start_run(name)?;
        self.value(ran)
    }

    /// The state of a key, if it is set.
    #[tactic(auto, using(crate::specs::Code::goes_on), unfolding(crate::specs::Calls::get))]
    pub fn get(&mut self, key: &str) -> Result<Option<Bytes>, Exit>
        ensures { Follows (get key.now) self.old result self.new }
    {
        let read = self.start_get(key)?;
        self.wait(UnresolvedFuture::Single(read))?;
        let taken = self.take(read)?;
        self.state_of(taken)
    }

    /// Waits until one of two results is there: whether the first is.
    #[tactic(auto, using(crate::specs::Code::goes_on), unfolding(crate::specs::Calls::select))]
    pub fn select(
        &mut self,
        first: NotificationHandle,
        second: NotificationHandle,
    ) -> Result<bool, Exit>
        ensures { Follows (select first second) self.old result self.new }
    {
        let row = both(self.alloc(), first, second)?;
        self.wait(UnresolvedFuture::FirstCompleted(row))?;
        self.completed(first)
    }

    /// Waits until two results are there.
    #[tactic(auto, using(crate::specs::Code::goes_on), unfolding(crate::specs::Calls::all))]
    pub fn all(&mut self, first: NotificationHandle, second: NotificationHandle) -> Result<(), Exit>
        ensures { Follows (all first second) self.old result self.new }
    {
        let row = both(self.alloc(), first, second)?;
        self.wait(UnresolvedFuture::AllCompleted(row))
    }
}
