//! The events of an engine, one by one.
ghost use Rattle.std.specs.Prelude.{◌≡◌, ◌≤◌, ℕ, length, map, None, Option, IfErr, IfOk, OnOk};
ghost use Rattle.engines.specs.Between.{AllKept};
ghost use Rattle.engines.specs.Lookups.{may_begin};
ghost use Rattle.engines.specs.Members.{Acts, MemberView, stopped};
ghost use Rattle.engines.specs.Engines.{AllHappen, BeginsIf, ChangesAt, DeliversAt, HappeningDoes, MemberGoes, Orders, StoresAndPerforms, StoresIn, brought_at, stopped_in};
ghost use Rattle.engine_inboxes.specs.Faults.{IsMemoryOrFull, IsNoArrival};
ghost use Rattle.engines.specs.Replaying.{AllReplay};
ghost use Rattle.world_rounds.specs.Rounds.{ReplaysAndQueues};

use crate::engine::{Engine, whole_round};
use crate::types::Happening;
use engine_inboxes::{Brought, EngineFault, Order, Target};
use journal_protocol::Version;
use journal_store::Effect;
use std::alloc::{AllocError, Global};
use vm_types::{Handler, VMOptions};
use world_rounds::Event;

fn copy_order(order: &Order) -> Result<Order, AllocError>
    ensures { IfOk result (λ copy. copy ≡ order.now) }
{
    Ok(Order {
        service: order.service.clone()?,
        handler: order.handler.clone()?,
        key: order.key.clone()?,
        idempotency_key: order.idempotency_key.clone()?,
        parameter: order.parameter.clone()?,
        begins: order.begins,
    })
}

impl<'a, H: Handler + Drop> Engine<'a, H> {
    fn submit(&mut self, order: &Order) -> Result<(), EngineFault>
        ensures does { OnOk result
            ((place : Option ℕ) × Orders order.now None place self.old self.new) }
        ensures err { IfErr result IsMemoryOrFull }
    {
        let Ok(order) = copy_order(order) else {
            return Err(EngineFault::Memory);
        };
        match self.ordered(order, None) {
            Ok(_) => Ok(()),
            Err(fault) => Err(fault),
        }
    }

    fn begin(&mut self, place: usize) -> Result<(), EngineFault>
        ensures does { OnOk result (BeginsIf (may_begin self.old place) place self.old self.new) }
        ensures err { IfErr result IsMemoryOrFull }
    {
        if !self.may_begin(place) {
            return Ok(());
        }
        let Ok(base) = self.base_at(place) else {
            return Err(EngineFault::Memory);
        };
        let Some(it) = self.invocations.get_mut(place) else {
            return Ok(());
        };
        let Some(member) = it.member.take() else {
            return Ok(());
        };
        match member.begin(&whole_round(self.alloc), base) {
            Err(fault) => Err(fault),
            Ok(member) => {
                it.member = Some(member);
                Ok(())
            }
        }
    }

    fn act(&mut self, place: usize, event: &Event) -> Result<(), EngineFault>
        ensures does { OnOk result
            (ChangesAt place (MemberGoes
            (λ (m : MemberView _). Acts (H.meaning m.course.handler) event.now m)) self.old
            self.new) }
        ensures err { IfErr result IsMemoryOrFull }
    {
        let Some(it) = self.invocations.get_mut(place) else {
            return Ok(());
        };
        let Some(member) = it.member.take() else {
            return Ok(());
        };
        match member.act(event) {
            Err(fault) => Err(fault),
            Ok(member) => {
                it.member = Some(member);
                Ok(())
            }
        }
    }

    /// What is there for what waits at this place.
    fn brought_at(&self, place: usize, at: usize) -> Result<Option<Brought>, AllocError>
        ensures { IfOk result (λ o. o ≡ brought_at self.now place at) }
    {
        let Some(it) = self.invocations.get(place) else {
            return Ok(None);
        };
        let Some(member) = &it.member else {
            return Ok(None);
        };
        match member.inbox().get(at) {
            None => Ok(None),
            Some(waiting) => self.brought(place, waiting),
        }
    }

    fn deliver(&mut self, place: usize, at: usize) -> Result<(), EngineFault>
        ensures does { OnOk result (DeliversAt (λ h. H.meaning h) place at self.old self.new) }
        ensures err { IfErr result IsMemoryOrFull }
    {
        let brought = match self.brought_at(place, at) {
            Err(_) => return Err(EngineFault::Memory),
            Ok(None) => return Ok(()),
            Ok(Some(brought)) => brought,
        };
        let Some(it) = self.invocations.get_mut(place) else {
            return Ok(());
        };
        if it.ended.is_some() {
            return Ok(());
        }
        let Some(member) = it.member.take() else {
            return Ok(());
        };
        match member.deliver(at, brought) {
            Err(fault) => Err(fault),
            Ok(member) => {
                it.member = Some(member);
                Ok(())
            }
        }
    }

    /// The next frame is stored, unless the invocation has ended.
    fn store_next(&mut self, place: usize) -> Result<Option<Effect>, EngineFault>
        ensures does { IfOk result
            (λ asks. ChangesAt place (StoresIn (λ h. H.meaning h) asks) self.old self.new) }
        ensures none { IfOk result (λ asks. length self.old.invocations.items ≤ place → asks
            ≡ None) }
        ensures err { IfErr result IsNoArrival }
        ensures replaying { IfErr result (λ f. AllReplay self.old → IsMemoryOrFull f) }
    {
        let Some(it) = self.invocations.get_mut(place) else {
            return Ok(None);
        };
        if it.ended.is_some() {
            return Ok(None);
        }
        let Some(member) = it.member.take() else {
            return Ok(None);
        };
        match member.store() {
            Err(fault) => Err(fault),
            Ok((member, effect)) => {
                it.member = Some(member);
                Ok(effect)
            }
        }
    }

    /// The next frame is stored, and what it asks for is done.
    fn store(&mut self, place: usize) -> Result<(), EngineFault>
        ensures does { OnOk result (StoresAndPerforms (λ h. H.meaning h) place self.old self.new) }
        ensures err { IfErr result IsNoArrival }
        ensures replaying { IfErr result (λ f. AllReplay self.old → IsMemoryOrFull f) }
    {
        match self.store_next(place) {
            Ok(Some(effect)) => self.perform(place, effect),
            Ok(None) => Ok(()),
            Err(fault) => Err(fault),
        }
    }

    fn stop(&mut self, place: usize)
        ensures { ChangesAt place (MemberGoes (λ old new. new ≡ stopped old)) self.old self.new }
    {
        if let Some(it) = self.invocations.get_mut(place) {
            if let Some(member) = it.member.take() {
                it.member = Some(member.stop());
            }
        }
    }

    fn stop_all(&mut self)
        ensures engine { self.new ≡ record self.old { invocations = self.new.invocations } }
        ensures all { self.new.invocations.items ≡ map stopped_in self.old.invocations.items }
    {
        for place in 0..self.invocations.len() {
            self.stop(place);
        }
    }

    /// One event.
    pub fn happen(&mut self, happening: &Happening) -> Result<(), EngineFault>
        // What each event does.
        ensures does { OnOk result
            (HappeningDoes (λ h. H.meaning h) happening.now self.old self.new) }
        ensures err { IfErr result IsNoArrival }
        // If all attempts replay and queue, out of memory and a full journal are the only faults.
        ensures replaying { IfErr result (λ f. AllReplay self.old → IsMemoryOrFull f) }
    {
        match happening {
            Happening::Submit(order) => self.submit(order),
            Happening::Begin(place) => self.begin(*place),
            Happening::Act(place, event) => self.act(*place, event),
            Happening::Deliver(place, at) => self.deliver(*place, *at),
            Happening::Store(place) => self.store(*place),
            Happening::Stop(place) => {
                self.stop(*place);
                Ok(())
            }
            Happening::StopAll => {
                self.stop_all();
                Ok(())
            }
            Happening::Clock(time) => {
                self.clock = self.clock.max(*time);
                Ok(())
            }
        }
    }
}

/// Events, one after another. The first that has a fault stops the engine.
pub fn run_engine<'a, H: Handler + Drop>(
    engine: Engine<'a, H>,
    events: &[Happening],
) -> Result<Engine<'a, H>, EngineFault>
    // What each event does, one after another.
    ensures does { IfOk result (AllHappen (λ h. H.meaning h) events.now engine.entry) }
    // No arrival has a fault.
    ensures err { IfErr result IsNoArrival }
    // If all attempts replay and queue, out of memory and a full journal are the only faults.
    ensures replaying { IfErr result (λ f. AllReplay engine.entry → IsMemoryOrFull f) }
{
    let mut engine = engine;
    for event in events {
        match engine.happen(event) {
            Ok(()) => {}
            Err(fault) => return Err(fault),
        }
    }
    Ok(engine)
}

/// Events over an engine that has no invocation yet.
pub fn play_engine<'a, H: Handler + Drop>(
    alloc: Global,
    targets: &'a [Target<H>],
    options: VMOptions,
    version: Version,
    events: &[Happening],
) -> Result<Engine<'a, H>, EngineFault>
    // Each stored call has one callee, whose id and result it gets; no sleep ends before its time; an invocation's result is that of its
    // first stored output.
    ensures kept { IfOk result AllKept }
    // No arrival has a fault.
    ensures err { IfErr result IsNoArrival }
    // If recorded commands are replayed and signals queue, out of memory and a full journal are the only faults.
    ensures replaying { IfErr result (λ f. ReplaysAndQueues options → IsMemoryOrFull f) }
{
    run_engine(Engine::new(alloc, targets, options, version), events)
}
