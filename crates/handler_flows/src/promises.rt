//! Calls on what others complete: awakeables, signals and promises.
ghost use Rattle.handler_flows.specs.Follows.{Follows};
ghost use Rattle.handler_flows.specs.Promises.{awakeable, complete_awakeable, complete_promise, complete_signal, peek_promise, promise, signal, start_complete, start_peek, start_promise, start_signal};

use crate::answers::{awakeable_in, handle_in, unit_in};
use crate::context::Context;
use crate::exit::Exit;
use await_trees::{NotificationHandle, UnresolvedFuture};
use bytes::Bytes;
use plain::Text;
use vm_types::{AwakeableHandle, NonEmptyValue, PayloadOptions, Step};

impl<'a> Context<'a> {
    /// Makes an awakeable: hand its id to whoever completes it, and wait for its handle (`value`).
    #[tactic(auto, using(crate::specs::Code::goes_on), unfolding(crate::specs::Promises::awakeable))]
    pub fn awakeable(&mut self) -> Result<AwakeableHandle, Exit>
        ensures { Follows awakeable self.old result self.new }
    {
        match self.answered() {
            None => Err(Exit::Next(Step::Awakeable)),
            Some(answer) => self.expected(awakeable_in(answer)?),
        }
    }

    /// Completes the awakeable of this id, whichever handler made it.
    #[tactic(auto, using(crate::specs::Code::goes_on), unfolding(crate::specs::Promises::complete_awakeable))]
    pub fn complete_awakeable(&mut self, id: &str, value: NonEmptyValue) -> Result<(), Exit>
        ensures { Follows (complete_awakeable id.now value) self.old result self.new }
    {
        match self.answered() {
            None => Err(Exit::Next(Step::CompleteAwakeable {
                id: Text::from_str(self.alloc(), id)?,
                value,
                options: PayloadOptions::stable_serialization(),
            })),
            Some(answer) => {
                drop(value);
                self.expected(unit_in(answer))
            }
        }
    }

    /// Begins to await the signal of this name.
    #[tactic(auto, using(crate::specs::Code::goes_on), unfolding(crate::specs::Promises::start_signal))]
    pub fn start_signal(&mut self, name: &str) -> Result<NotificationHandle, Exit>
        ensures { Follows (start_signal name.now) self.old result self.new }
    {
        match self.answered() {
            None => Err(Exit::Next(Step::Signal {
                name: Text::from_str(self.alloc(), name)?,
            })),
            Some(answer) => self.expected(handle_in(answer)),
        }
    }

    /// Waits for the signal of this name. Signals of one name queue: each call takes the next.
    #[tactic(auto, using(crate::specs::Code::goes_on), unfolding(crate::specs::Promises::signal))]
    pub fn signal(&mut self, name: &str) -> Result<Bytes, Exit>
        ensures { Follows (signal name.now) self.old result self.new }
    {
        let sent = self.start_signal(name)?;
        self.value(sent)
    }

    /// Sends a signal to an invocation.
    #[tactic(auto, using(crate::specs::Code::goes_on), unfolding(crate::specs::Promises::complete_signal))]
    pub fn complete_signal(
        &mut self,
        invocation: &str,
        name: &str,
        value: NonEmptyValue,
    ) -> Result<(), Exit>
        ensures { Follows (complete_signal invocation.now name.now value) self.old result self.new }
    {
        match self.answered() {
            None => Err(Exit::Next(Step::CompleteSignal {
                target_invocation_id: Text::from_str(self.alloc(), invocation)?,
                signal_name: Text::from_str(self.alloc(), name)?,
                value,
            })),
            Some(answer) => {
                drop(value);
                self.expected(unit_in(answer))
            }
        }
    }

    /// Begins to await the promise of this key.
    #[tactic(auto, using(crate::specs::Code::goes_on), unfolding(crate::specs::Promises::start_promise))]
    pub fn start_promise(&mut self, key: &str) -> Result<NotificationHandle, Exit>
        ensures { Follows (start_promise key.now) self.old result self.new }
    {
        match self.answered() {
            None => Err(Exit::Next(Step::GetPromise {
                key: Text::from_str(self.alloc(), key)?,
            })),
            Some(answer) => self.expected(handle_in(answer)),
        }
    }

    /// Waits for the promise of this key.
    #[tactic(auto, using(crate::specs::Code::goes_on), unfolding(crate::specs::Promises::promise))]
    pub fn promise(&mut self, key: &str) -> Result<Bytes, Exit>
        ensures { Follows (promise key.now) self.old result self.new }
    {
        let awaited = self.start_promise(key)?;
        self.value(awaited)
    }

    /// Begins to look at the promise of this key.
    #[tactic(auto, using(crate::specs::Code::goes_on), unfolding(crate::specs::Promises::start_peek))]
    pub fn start_peek(&mut self, key: &str) -> Result<NotificationHandle, Exit>
        ensures { Follows (start_peek key.now) self.old result self.new }
    {
        match self.answered() {
            None => Err(Exit::Next(Step::PeekPromise {
                key: Text::from_str(self.alloc(), key)?,
            })),
            Some(answer) => self.expected(handle_in(answer)),
        }
    }

    /// What the promise of this key holds, if it is completed.
    #[tactic(auto, using(crate::specs::Code::goes_on), unfolding(crate::specs::Promises::peek_promise))]
    pub fn peek_promise(&mut self, key: &str) -> Result<Option<Bytes>, Exit>
        ensures { Follows (peek_promise key.now) self.old result self.new }
    {
        let peeked = self.start_peek(key)?;
        self.wait(UnresolvedFuture::Single(peeked))?;
        let taken = self.take(peeked)?;
        self.state_of(taken)
    }

    /// Begins to complete the promise of this key.
    #[tactic(auto, using(crate::specs::Code::goes_on), unfolding(crate::specs::Promises::start_complete))]
    pub fn start_complete(
        &mut self,
        key: &str,
        value: NonEmptyValue,
    ) -> Result<NotificationHandle, Exit>
        ensures { Follows (start_complete key.now value) self.old result self.new }
    {
        match self.answered() {
            None => Err(Exit::Next(Step::CompletePromise {
                key: Text::from_str(self.alloc(), key)?,
                value,
                options: PayloadOptions::stable_serialization(),
            })),
            Some(answer) => {
                drop(value);
                self.expected(handle_in(answer))
            }
        }
    }

    /// Completes the promise of this key. One that is completed already is a fault.
    #[tactic(auto, using(crate::specs::Code::goes_on), unfolding(crate::specs::Promises::complete_promise))]
    pub fn complete_promise(&mut self, key: &str, value: NonEmptyValue) -> Result<(), Exit>
        ensures { Follows (complete_promise key.now value) self.old result self.new }
    {
        let completed = self.start_complete(key, value)?;
        drop(self.value(completed)?);
        Ok(())
    }
}
