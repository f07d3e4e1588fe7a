//! The single steps of a handler's code, each answered from the answers so far.
ghost use Rattle.std.specs.Prelude.{◌≡◌, ◌∷◌, [], IfOk, IsTrue, ◌↔◌, MatchOption};
ghost use Rattle.handler_flows.specs.Follows.{Follows};
ghost use Rattle.handler_flows.specs.Steps.{clear, completed, send, set, start_call, start_get, start_run, start_sleep, take, target_of, wait};

use crate::answers::{completed_in, handle_in, taken_in, unit_in};
use crate::exit::Exit;
use await_trees::{NotificationHandle, UnresolvedFuture};
use bytes::Bytes;
use plain::{Items, Text};
use std::alloc::{AllocError, Global};
use std::marker::Model;
use std::time::Duration;
use vm_types::{Answer, Boxed, PayloadOptions, Step, Target, Value};

/// A handler's calls. Contracts see the answers that are left.
#[derive(Drop)]
pub struct Context<'a> {
    alloc: Global,
    answers: &'a [Answer],
}

impl<'a> Model for Context<'a> {
    ghost use Rattle.std.specs.Prelude.{List};
    ghost use Rattle.vm_types.specs.declared.steps.Answer.{Answer};

    ghost Value = { List Answer };

    ghost view = { λ context. context.answers.now };
}

/// A service's handler, without a key.
pub(crate) fn target(
    alloc: Global,
    service: &str,
    handler: &str,
) -> Result<Boxed<Target>, AllocError>
    ensures { IfOk result (λ target. target ≡ target_of service.now handler.now) }
{
    let target = Target {
        service: Text::from_str(alloc, service)?,
        handler: Text::from_str(alloc, handler)?,
        key: None,
        idempotency_key: None,
        scope: None,
        limit_key: None,
        headers: Items::new(alloc),
    };
    Boxed::new(alloc, target)
}

impl<'a> Context<'a> {
    /// The calls of a handler, over the answers after its input.
    pub fn new(alloc: Global, answers: &'a [Answer]) -> Context<'a>
        ensures { result ≡ answers.now }
    {
        Context { alloc, answers }
    }

    /// No answer is left.
    pub fn is_empty(&self) -> bool
        ensures { IsTrue result ↔ (self.now ≡ []) }
    {
        self.answers.is_empty()
    }

    pub fn alloc(&self) -> Global {
        self.alloc
    }

    /// The next answer.
    pub(crate) fn answered(&mut self) -> Option<&'a Answer>
        ensures { MatchOption result ((self.old ≡ []) × (self.new ≡ [])) (λ answer. self.old
            ≡ answer.now ∷ self.new) }
    {
        let (answer, rest) = self.answers.split_first()?;
        self.answers = rest;
        Some(answer)
    }

    /// Awaits a future. A handler that is cancelled meanwhile has the fault `Cancelled`.
    #[tactic(auto, using(crate::specs::Code::goes_on), unfolding(crate::specs::Steps::wait))]
    pub fn wait(&mut self, future: UnresolvedFuture) -> Result<(), Exit>
        ensures { Follows (wait future) self.old result self.new }
    {
        match self.answered() {
            None => Err(Exit::Next(Step::Await(future))),
            Some(answer) => {
                drop(future);
                self.awake(answer)
            }
        }
    }

    /// Takes the result of a handle, if it is there and wasn't taken.
    #[tactic(auto, using(crate::specs::Code::goes_on), unfolding(crate::specs::Steps::take))]
    pub fn take(&mut self, handle: NotificationHandle) -> Result<Option<Value>, Exit>
        ensures { Follows (take handle) self.old result self.new }
    {
        match self.answered() {
            None => Err(Exit::Next(Step::Take(handle))),
            Some(answer) => self.expected(taken_in(answer)?),
        }
    }

    /// Whether the result of a handle is there.
    #[tactic(auto, using(crate::specs::Code::goes_on), unfolding(crate::specs::Steps::completed))]
    pub fn completed(&mut self, handle: NotificationHandle) -> Result<bool, Exit>
        ensures { Follows (completed handle) self.old result self.new }
    {
        match self.answered() {
            None => Err(Exit::Next(Step::Completed(handle))),
            Some(answer) => self.expected(completed_in(answer)),
        }
    }

    /// Begins a sleep until this time since the Unix epoch.
    #[tactic(auto, using(crate::specs::Code::goes_on), unfolding(crate::specs::Steps::start_sleep))]
    pub fn start_sleep(&mut self, until: Duration) -> Result<NotificationHandle, Exit>
        ensures { Follows (start_sleep until) self.old result self.new }
    {
        match self.answered() {
            None => Err(Exit::Next(Step::Sleep {
                name: Text::empty(self.alloc),
                wake_up_time_since_unix_epoch: until,
                now_since_unix_epoch: None,
            })),
            Some(answer) => self.expected(handle_in(answer)),
        }
    }

    /// Begins a call of a service's handler.
    #[tactic(auto, using(crate::specs::Code::goes_on), unfolding(crate::specs::Steps::start_call))]
    pub fn start_call(
        &mut self,
        service: &str,
        handler: &str,
        input: &Bytes,
    ) -> Result<NotificationHandle, Exit>
        ensures { Follows (start_call service.now handler.now input.now) self.old result self.new }
    {
        match self.answered() {
            None => Err(Exit::Next(Step::Call {
                target: target(self.alloc, service, handler)?,
                input: input.clone()?,
                name: None,
                options: PayloadOptions::stable_serialization(),
            })),
            Some(answer) => self.expected(handle_in(answer)),
        }
    }

    /// Has a run of this name executed outside, once.
    #[tactic(auto, using(crate::specs::Code::goes_on), unfolding(crate::specs::Steps::start_run))]
    pub fn start_run(&mut self, name: &str) -> Result<NotificationHandle, Exit>
        ensures { Follows (start_run name.now) self.old result self.new }
    {
        match self.answered() {
            None => Err(Exit::Next(Step::Run {
                name: Text::from_str(self.alloc, name)?,
            })),
            Some(answer) => self.expected(handle_in(answer)),
        }
    }

    /// Begins to read the state of a key.
    #[tactic(auto, using(crate::specs::Code::goes_on), unfolding(crate::specs::Steps::start_get))]
    pub fn start_get(&mut self, key: &str) -> Result<NotificationHandle, Exit>
        ensures { Follows (start_get key.now) self.old result self.new }
    {
        match self.answered() {
            None => Err(Exit::Next(Step::StateGet {
                key: Text::from_str(self.alloc, key)?,
                name: None,
                options: PayloadOptions::stable_serialization(),
            })),
            Some(answer) => self.expected(handle_in(answer)),
        }
    }

    /// Calls a service's handler, and waits for nothing.
    #[tactic(auto, using(crate::specs::Code::goes_on), unfolding(crate::specs::Steps::send))]
    pub fn send(&mut self, service: &str, handler: &str, input: &Bytes) -> Result<(), Exit>
        ensures { Follows (send service.now handler.now input.now) self.old result self.new }
    {
        match self.answered() {
            None => Err(Exit::Next(Step::Send {
                target: target(self.alloc, service, handler)?,
                input: input.clone()?,
                execution_time_since_unix_epoch: None,
                name: None,
                options: PayloadOptions::stable_serialization(),
            })),
            Some(answer) => self.expected(unit_in(answer)),
        }
    }

    /// Sets the state of a key.
    #[tactic(auto, using(crate::specs::Code::goes_on), unfolding(crate::specs::Steps::set))]
    pub fn set(&mut self, key: &str, value: &Bytes) -> Result<(), Exit>
        ensures { Follows (set key.now value.now) self.old result self.new }
    {
        match self.answered() {
            None => Err(Exit::Next(Step::StateSet {
                key: Text::from_str(self.alloc, key)?,
                value: value.clone()?,
                name: None,
                options: PayloadOptions::stable_serialization(),
            })),
            Some(answer) => self.expected(unit_in(answer)),
        }
    }

    /// Clears the state of a key.
    #[tactic(auto, using(crate::specs::Code::goes_on), unfolding(crate::specs::Steps::clear))]
    pub fn clear(&mut self, key: &str) -> Result<(), Exit>
        ensures { Follows (clear key.now) self.old result self.new }
    {
        match self.answered() {
            None => Err(Exit::Next(Step::StateClear {
                key: Text::from_str(self.alloc, key)?,
                name: None,
            })),
            Some(answer) => self.expected(unit_in(answer)),
        }
    }
}
