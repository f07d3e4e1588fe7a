//! What a stored command does to other invocations, and what is there for what waits.
ghost use Rattle.std.specs.Prelude.{◌≡◌, IfErr, IfOk, OnOk};
ghost use Rattle.std.specs.Option.{option_map};
ghost use Rattle.engine_inboxes.specs.declared.types.Brought.TheVariants as brought;
ghost use Rattle.engines.specs.Engines.{AddsCallee, BeginsFor, ChangesAt, DoesEffect, Sends};
ghost use Rattle.engines.specs.Lookups.{brought_for, callee_in, callee_of, callee_id, no_handler, callee_result};
ghost use Rattle.engine_inboxes.specs.Faults.{IsMemoryOrFull};

use crate::engine::{Engine, Invocation};
use engine_inboxes::{Begun, Brought, Callee, EngineFault, Order, Waiting};
use journal_protocol::{Failure, ValueOrFailure};
use journal_store::{Beginning, Effect, Sent};
use plain::{Items, Text};
use std::alloc::{AllocError, Global};
use vm_types::Handler;

/// The result of a call of a handler that isn't there.
fn no_handler(alloc: Global) -> Result<ValueOrFailure, AllocError>
    ensures { IfOk result (λ ends. ends ≡ no_handler) }
{
    Ok(ValueOrFailure::Failure(Failure {
        code: 404,
        message: Text::from_str(alloc, "there is no such handler")?,
        metadata: Items::new(alloc),
    }))
}

/// The row of this call.
fn callee_in(rows: &[Callee], call: u32) -> Option<Callee>
    ensures { result ≡ callee_in call rows.now }
{
    for row in rows {
        if row.call == call {
            return Some(*row);
        }
    }
    None
}

/// The result of an invocation, once it has ended.
fn result_of<H: Handler>(it: &Invocation<H>) -> Result<Option<Brought>, AllocError>
    ensures { IfOk result (λ o. o ≡ option_map brought.Outcome it.now.ended) }
{
    match &it.ended {
        None => Ok(None),
        Some(ends) => Ok(Some(Brought::Outcome(ends.clone()?))),
    }
}

impl<'a, H: Handler + Drop> Engine<'a, H> {
    /// A call has begun the invocation at this place, or none.
    fn calls(&mut self, by: usize, callee: Callee) -> Result<(), EngineFault>
        ensures row { OnOk result (ChangesAt by (AddsCallee callee) self.old self.new) }
        ensures err { IfErr result IsMemoryOrFull }
    {
        match self.invocations.get_mut(by) {
            None => Ok(()),
            Some(it) => match it.callees.push(callee) {
                Ok(()) => Ok(()),
                Err(_) => Err(EngineFault::Memory),
            },
        }
    }

    /// A call begins an invocation, or is attached to one.
    fn begin_for(&mut self, by: usize, begun: Beginning) -> Result<(), EngineFault>
        ensures does { OnOk result (BeginsFor by begun self.old self.new) }
        ensures err { IfErr result IsMemoryOrFull }
    {
        let Beginning {
            service,
            handler,
            key,
            idempotency_key,
            parameter,
            begins,
            id_completes: call,
            result_completes: _,
        } = begun;
        let order = Order {
            service,
            handler,
            key,
            idempotency_key,
            parameter,
            begins,
        };
        match self.ordered(order, Some(Begun { by, call })) {
            Ok(place) => self.calls(by, Callee { call, place }),
            Err(fault) => Err(fault),
        }
    }

    /// What is sent waits for its invocation, if there is one.
    fn send(&mut self, sent: Sent) -> Result<(), EngineFault>
        ensures does { OnOk result (Sends sent self.old self.new) }
        ensures err { IfErr result IsMemoryOrFull }
    {
        let Sent { to, signal, brings } = sent;
        let Some(place) = self.place_of(to.as_slice()) else {
            return Ok(());
        };
        let Some(it) = self.invocations.get_mut(place) else {
            return Ok(());
        };
        let Some(member) = it.member.take() else {
            return Ok(());
        };
        match member.signal(signal, brings) {
            Err(fault) => Err(fault),
            Ok(member) => {
                it.member = Some(member);
                Ok(())
            }
        }
    }

    /// Does what a stored command of this invocation asks for.
    pub fn perform(&mut self, by: usize, effect: Effect) -> Result<(), EngineFault>
        ensures does { OnOk result (DoesEffect by effect self.old self.new) }
        ensures err { IfErr result IsMemoryOrFull }
    {
        match effect {
            Effect::Begin(begun) => self.begin_for(by, begun),
            Effect::Wait(_) => Ok(()),
            Effect::Send(sent) => self.send(sent),
            Effect::Result(ends) => {
                if let Some(it) = self.invocations.get_mut(by) {
                    it.ended = Some(ends);
                }
                Ok(())
            }
        }
    }

    /// What the call of this completion id has begun, if it has been performed.
    fn callee_of(&self, by: usize, call: u32) -> Option<Callee>
        ensures { result ≡ callee_of self.now.invocations.items by call }
    {
        match self.invocations.get(by) {
            None => None,
            Some(it) => callee_in(it.callees.as_slice(), call),
        }
    }

    /// The id of the invocation at a place; no text, if no handler was found.
    fn callee_id(&self, place: Option<usize>) -> Result<Option<Brought>, AllocError>
        ensures { IfOk result
            (λ o. o ≡ option_map brought.Id (callee_id self.now.invocations.items place)) }
    {
        match place {
            None => Ok(Some(Brought::Id(Text::empty(self.alloc)))),
            Some(place) => match self.invocations.get(place) {
                None => Ok(None),
                Some(it) => Ok(Some(Brought::Id(it.id.clone()?))),
            },
        }
    }

    /// Its result, once it has ended.
    fn callee_result(&self, place: Option<usize>) -> Result<Option<Brought>, AllocError>
        ensures { IfOk result
            (λ o. o ≡ option_map brought.Outcome (callee_result self.now.invocations.items place)) }
    {
        match place {
            None => Ok(Some(Brought::Outcome(no_handler(self.alloc)?))),
            Some(place) => match self.invocations.get(place) {
                None => Ok(None),
                Some(it) => result_of(it),
            },
        }
    }

    /// What is there for what waits in an invocation's inbox.
    pub fn brought(&self, place: usize, waiting: &Waiting) -> Result<Option<Brought>, AllocError>
        ensures { IfOk result (λ o. o ≡ brought_for self.now place waiting.now) }
    {
        match waiting {
            Waiting::Clock(_) | Waiting::Signal(_, _) => Ok(Some(Brought::Time(self.clock))),
            Waiting::Id(call) => match self.callee_of(place, *call) {
                None => Ok(None),
                Some(row) => self.callee_id(row.place),
            },
            Waiting::Outcome { call, .. } => match self.callee_of(place, *call) {
                None => Ok(None),
                Some(row) => self.callee_result(row.place),
            },
        }
    }
}
