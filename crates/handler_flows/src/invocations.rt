//! Calls about other invocations.
ghost use Rattle.std.specs.Prelude.{◌≡◌, IfOk};
ghost use Rattle.handler_flows.specs.Follows.{Follows};
ghost use Rattle.handler_flows.specs.Invocations.{attach, cancel, output, send_at, start_attach, start_output};
ghost use Rattle.journal_protocol.specs.InvocationTarget.TheVariants as target;

use crate::answers::{handle_in, unit_in};
use crate::context::{Context, target};
use crate::exit::Exit;
use await_trees::{NotificationHandle, UnresolvedFuture};
use bytes::Bytes;
use journal_protocol::InvocationTarget;
use plain::Text;
use std::alloc::{AllocError, Global};
use std::time::Duration;
use vm_types::{Boxed, PayloadOptions, Step};

/// The invocation of this id.
fn invocation(alloc: Global, id: &str) -> Result<Boxed<InvocationTarget>, AllocError>
    ensures { IfOk result (λ boxed. boxed ≡ target.InvocationId id.now) }
{
    let id = Text::from_str(alloc, id)?;
    Boxed::new(alloc, InvocationTarget::InvocationId(id))
}

impl<'a> Context<'a> {
    /// Calls a service's handler at this time since the Unix epoch, and waits for nothing.
    #[tactic(auto, using(crate::specs::Code::goes_on), unfolding(crate::specs::Invocations::send_at))]
    pub fn send_at(
        &mut self,
        service: &str,
        handler: &str,
        input: &Bytes,
        time: Duration,
    ) -> Result<(), Exit>
        ensures { Follows (send_at service.now handler.now input.now time) self.old result
            self.new }
    {
        match self.answered() {
            None => Err(Exit::Next(Step::Send {
                target: target(self.alloc(), service, handler)?,
                input: input.clone()?,
                execution_time_since_unix_epoch: Some(time),
                name: None,
                options: PayloadOptions::stable_serialization(),
            })),
            Some(answer) => self.expected(unit_in(answer)),
        }
    }

    /// Begins to await the result of the invocation of this id.
    #[tactic(auto, using(crate::specs::Code::goes_on), unfolding(crate::specs::Invocations::start_attach))]
    pub fn start_attach(&mut self, id: &str) -> Result<NotificationHandle, Exit>
        ensures { Follows (start_attach id.now) self.old result self.new }
    {
        match self.answered() {
            None => Err(Exit::Next(Step::AttachInvocation(invocation(self.alloc(), id)?))),
            Some(answer) => self.expected(handle_in(answer)),
        }
    }

    /// Waits for the result of the invocation of this id.
    #[tactic(auto, using(crate::specs::Code::goes_on), unfolding(crate::specs::Invocations::attach))]
    pub fn attach(&mut self, id: &str) -> Result<Bytes, Exit>
        ensures { Follows (attach id.now) self.old result self.new }
    {
        let attached = self.start_attach(id)?;
        self.value(attached)
    }

    /// Begins to ask for the output of the invocation of this id.
    #[tactic(auto, using(crate::specs::Code::goes_on), unfolding(crate::specs::Invocations::start_output))]
    pub fn start_output(&mut self, id: &str) -> Result<NotificationHandle, Exit>
        ensures { Follows (start_output id.now) self.old result self.new }
    {
        match self.answered() {
            None => Err(Exit::Next(Step::GetInvocationOutput(invocation(self.alloc(), id)?))),
            Some(answer) => self.expected(handle_in(answer)),
        }
    }

    /// The output of the invocation of this id, if it has ended.
    #[tactic(auto, using(crate::specs::Code::goes_on), unfolding(crate::specs::Invocations::output))]
    pub fn output(&mut self, id: &str) -> Result<Option<Bytes>, Exit>
        ensures { Follows (output id.now) self.old result self.new }
    {
        let asked = self.start_output(id)?;
        self.wait(UnresolvedFuture::Single(asked))?;
        let taken = self.take(asked)?;
        self.state_of(taken)
    }

    /// Cancels the invocation of this id.
    #[tactic(auto, using(crate::specs::Code::goes_on), unfolding(crate::specs::Invocations::cancel))]
    pub fn cancel(&mut self, id: &str) -> Result<(), Exit>
        ensures { Follows (cancel id.now) self.old result self.new }
    {
        match self.answered() {
            None => Err(Exit::Next(Step::CancelInvocation {
                target_invocation_id: Text::from_str(self.alloc(), id)?,
            })),
            Some(answer) => self.expected(unit_in(answer)),
        }
    }
}
