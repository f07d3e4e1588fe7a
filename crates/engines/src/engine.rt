//! An engine's state: its invocations, and the clock.
ghost use Rattle.std.specs.Prelude.{◌≡◌, ◌<◌, ◌≤◌, ◌∷◌, [], length, position, None, Some, IfOk, IfErr, IfSome, OnOk};
ghost use Rattle.engines.specs.Beginnings.{BeganWithInput, IsPastAll, IsWholeInput, entry_of_input};
ghost use Rattle.engines.specs.Engines.{FindsOrMakes, MakesInvocation, Orders, new_identity, whole_round};
ghost use Rattle.std.specs.List.{list_any};
ghost use Rattle.engine_inboxes.specs.Targets.{is_text, share, handler_named};
ghost use Rattle.engines.specs.HandedOn.{base_at, handed_on, left_along, no_values, shares_key, state_left};
ghost use Rattle.engines.specs.Lookups.{has_turn, id_of_place, is_before, is_kept, is_same, may_begin, place_of, same_as};
ghost use Rattle.engine_inboxes.specs.Deliverable.{IsUnknownFrom, known_in};
ghost use Rattle.engine_inboxes.specs.Faults.{IsMemoryOrFull};

use crate::member::Member;
use bytes::Bytes;
use engine_inboxes::{Begun, Callee, EngineFault, Order, Target};
use journal_protocol::{ValueOrFailure, Version};
use plain::{Items, Text};
use std::alloc::{AllocError, Global};
use vm_types::{Handler, VMOptions};
use world_rounds::{Course, Identity, Round, Values, World};

/// An invocation among others.
pub struct Invocation<'a, H: Handler> {
    pub id: Text,
    /// Which handler it is of.
    pub target: usize,
    pub key: Text,
    pub idempotency_key: Option<Text>,
    /// In ms since the Unix epoch.
    pub begins: u64,
    /// By which command it was begun; none was, if it was submitted.
    pub begun: Option<Begun>,
    /// What its calls have begun.
    pub callees: Vec<Callee>,
    /// Once its output is stored it has ended.
    pub ended: Option<ValueOrFailure>,
    /// Its rounds; they are away while an event happens to them.
    pub member: Option<Member<'a, H>>,
}

impl<'a, H: Handler> Drop for Invocation<'a, H> {
    fn drop(self) {
        let Self {
            id,
            target: _,
            key,
            idempotency_key,
            begins: _,
            begun: _,
            callees,
            ended,
            member,
        } = self;
        drop(id);
        drop(key);
        drop(idempotency_key);
        drop(callees);
        drop(ended);
        drop(member);
    }
}

/// Whether an invocation has this idempotency key.
fn is_kept(own: &Option<Text>, asked: &Text) -> bool
    ensures { result ≡ is_kept own.now asked.now }
{
    match own {
        None => false,
        Some(own) => *own == *asked,
    }
}

impl<'a, H: Handler> Invocation<'a, H> {
    /// Whether it is of this handler, this key and this idempotency key.
    fn is_same(&self, target: usize, key: &Text, asked: &Text) -> bool
        ensures { result ≡ is_same target key.now asked.now self.now }
    {
        self.target == target && self.key == *key && is_kept(&self.idempotency_key, asked)
    }

    fn has_id(&self, id: &[u8]) -> bool
        ensures { result ≡ is_text self.now.id id.now }
    {
        self.id.as_str().as_bytes() == id
    }
}

/// Invocations of these handlers, beside each other.
pub struct Engine<'a, H: Handler + Drop> {
    pub alloc: Global,
    pub targets: &'a [Target<H>],
    pub options: VMOptions,
    pub version: Version,
    /// In ms since the Unix epoch.
    pub clock: u64,
    pub invocations: Vec<Invocation<'a, H>>,
}

impl<'a, H: Handler + Drop> Drop for Engine<'a, H> {
    fn drop(self) {
        let Self {
            alloc: _,
            targets: _,
            options: _,
            version: _,
            clock: _,
            invocations,
        } = self;
        drop(invocations);
    }
}

/// A whole round, before any of its events.
pub fn whole_round(alloc: Global) -> Round
    ensures { result ≡ whole_round }
{
    Round {
        partial: false,
        keys: Items::new(alloc),
        retry_count: 0,
        duration: 0,
        events: Items::new(alloc),
    }
}

fn identity(alloc: Global, id: &Text, order: &Order) -> Result<Identity, AllocError>
    ensures { IfOk result (λ identity. identity ≡ new_identity id.now order.now) }
{
    Ok(Identity {
        id: Bytes::copy_from_slice(alloc, id.as_str().as_bytes())?,
        debug_id: id.clone()?,
        key: order.key.clone()?,
        random_seed: 0,
        scope: None,
        limit_key: None,
        idempotency_key: order.idempotency_key.clone()?,
    })
}

/// The id of the invocation that is made as the one at this place.
fn new_id(alloc: Global, place: usize) -> Result<Text, AllocError>
    ensures { IfOk result (λ id. id ≡ id_of_place place) }
{
    Ok(Text::from_string(format!(in alloc; "inv_{place}")?))
}

/// The world of a new invocation: its input is the parameter.
fn world_of(
    alloc: Global,
    options: VMOptions,
    version: Version,
    id: &Text,
    order: &Order,
) -> Result<World, EngineFault>
    ensures setting { IfOk result (λ w. w.setting
        ≡ record {
          identity = new_identity id.now order.now;
          options = options;
          version = version;
          base = [];
        }) }
    ensures journal { IfOk result (λ w. w.journal ≡ entry_of_input order.now.parameter ∷ []) }
    ensures new { IfOk result (λ w. IsUnknownFrom (known_in w.journal) 0) }
    ensures began { IfOk result (λ w. BeganWithInput (length w.journal) w.journal) }
    ensures ids { IfOk result (λ w. IsPastAll w.journal 0) }
    ensures whole { OnOk result (IsWholeInput order.now.parameter) }
    ensures err { IfErr result IsMemoryOrFull }
{
    let Ok(identity) = identity(alloc, id, order) else {
        return Err(EngineFault::Memory);
    };
    let Ok(input) = order.parameter.clone() else {
        return Err(EngineFault::Memory);
    };
    match World::new(alloc, identity, options, version, input, Vec::new(alloc)) {
        Ok(world) => Ok(world),
        Err(_) => Err(EngineFault::Memory),
    }
}

/// A new invocation of a handler: it is what was asked for, and it has called nobody.
fn new_invocation<'a, H: Handler>(
    alloc: Global,
    code: &'a H,
    target: usize,
    id: Text,
    order: Order,
    begun: Option<Begun>,
    world: World,
) -> Invocation<'a, H>
    requires new { IsUnknownFrom (known_in world.journal) 0 }
    requires began { BeganWithInput (length world.journal) world.journal }
    requires ids { IsPastAll world.journal 0 }
    ensures made { result
        ≡ record {
          id = id;
          target = target;
          key = order.key;
          idempotency_key = order.idempotency_key;
          begins = order.begins;
          begun = begun;
          callees = result.callees;
          ended = None;
          member = Some (record {
            course = record {
              handler = code.now;
              setting = world.setting;
              given = length world.journal;
              journal = world.journal;
              live = None;
            };
            waiting = [];
            next = 0;
          });
        } }
    ensures calls_none { result.callees.items ≡ [] }
{
    let Order {
        key,
        idempotency_key,
        begins,
        ..
    } = order;
    Invocation {
        id,
        target,
        key,
        idempotency_key,
        begins,
        begun,
        callees: Vec::new(alloc),
        ended: None,
        member: Some(Member::new(alloc, Course::new(world, code))),
    }
}

impl<'a, H: Handler + Drop> Engine<'a, H> {
    /// An engine without an invocation, at the epoch.
    pub fn new(
        alloc: Global,
        targets: &'a [Target<H>],
        options: VMOptions,
        version: Version,
    ) -> Self
        ensures none { result.invocations.items ≡ [] }
        ensures options { result.options ≡ options }
    {
        Engine {
            alloc,
            targets,
            options,
            version,
            clock: 0,
            invocations: Vec::new(alloc),
        }
    }

    /// Which handler is called by these names.
    fn handler_named(&self, service: &Text, handler: &Text) -> Option<usize>
        ensures place { result ≡ handler_named self.now.targets.now service.now handler.now }
        ensures within { IfSome result (λ place. place < length self.now.targets.now) }
    {
        self.targets
            .iter()
            .position(|target| target.has_names(service, handler))
    }

    /// The first invocation of this handler, this key and this idempotency key.
    fn first_same(&self, target: usize, key: &Text, asked: &Text) -> Option<usize>
        ensures { result ≡ position (is_same target key.now asked.now)
            self.now.invocations.items }
    {
        self.invocations
            .iter()
            .position(|it| it.is_same(target, key, asked))
    }

    /// The invocation that was asked for with this idempotency key, if one was.
    fn same_as(&self, target: usize, order: &Order) -> Option<usize>
        ensures { result ≡ same_as self.now.invocations.items target order.now }
    {
        match &order.idempotency_key {
            None => None,
            Some(asked) => self.first_same(target, &order.key, asked),
        }
    }

    /// The place of the invocation of this id.
    pub fn place_of(&self, id: &[u8]) -> Option<usize>
        ensures { result ≡ place_of self.now.invocations.items id.now }
    {
        self.invocations.iter().position(|it| it.has_id(id))
    }

    /// Makes an invocation of this handler, as the last.
    fn make(
        &mut self,
        target: usize,
        order: Order,
        begun: Option<Begun>,
    ) -> Result<usize, EngineFault>
        requires { target < length self.old.targets.now }
        ensures made { OnOk result (MakesInvocation target order begun self.old self.new) }
        ensures place { IfOk result (λ place. place ≡ length self.old.invocations.items) }
        ensures err { IfErr result IsMemoryOrFull }
    {
        let place = self.invocations.len();
        let Ok(id) = new_id(self.alloc, place) else {
            return Err(EngineFault::Memory);
        };
        let world = match world_of(self.alloc, self.options, self.version, &id, &order) {
            Ok(world) => world,
            Err(fault) => return Err(fault),
        };
        let made = new_invocation(
            self.alloc,
            &self.targets[target].code,
            target,
            id,
            order,
            begun,
            world,
        );
        match self.invocations.push(made) {
            Ok(()) => Ok(place),
            Err(_) => Err(EngineFault::Memory),
        }
    }

    /// The place of the invocation of an order's idempotency key: if there is none, one is made.
    fn found_or_made(
        &mut self,
        target: usize,
        order: Order,
        begun: Option<Begun>,
    ) -> Result<usize, EngineFault>
        requires { target < length self.old.targets.now }
        ensures does { IfOk result
            (λ place. FindsOrMakes (same_as self.old.invocations.items target order) target order
            begun (Some place) self.old self.new) }
        ensures err { IfErr result IsMemoryOrFull }
    {
        match self.same_as(target, &order) {
            Some(place) => Ok(place),
            None => self.make(target, order, begun),
        }
    }

    /// The place of the invocation that an order asks for: a new one, or the one of the same idempotency key; none if no handler has these
    /// names.
    pub fn ordered(
        &mut self,
        order: Order,
        begun: Option<Begun>,
    ) -> Result<Option<usize>, EngineFault>
        ensures does { IfOk result (λ place. Orders order begun place self.old self.new) }
        ensures err { IfErr result IsMemoryOrFull }
    {
        match self.handler_named(&order.service, &order.handler) {
            None => Ok(None),
            Some(target) => match self.found_or_made(target, order, begun) {
                Ok(place) => Ok(Some(place)),
                Err(fault) => Err(fault),
            },
        }
    }

    /// Whether the handlers at these places are exclusive ones of one service.
    fn share(&self, one: usize, other: usize) -> bool
        ensures { result ≡ share self.now.targets.now one other }
    {
        match (self.targets.get(one), self.targets.get(other)) {
            (Some(one), Some(other)) => one.shares(other),
            _ => false,
        }
    }

    /// Whether both are of exclusive handlers of one service, and of one key.
    fn shares_key(&self, own: &Invocation<'a, H>, it: &Invocation<'a, H>) -> bool
        ensures { result ≡ shares_key self.now.targets.now own.now it.now }
    {
        it.key == own.key && self.share(it.target, own.target)
    }

    /// Whether an invocation goes on and is of an exclusive handler of the same key.
    fn is_before(&self, own: &Invocation<'a, H>, it: &Invocation<'a, H>) -> bool
        ensures { result ≡ is_before self.now.targets.now own.now it.now }
    {
        it.ended.is_none() && self.shares_key(own, it)
    }

    /// Whether one of these goes on and is of an exclusive handler of the same key.
    fn any_before(&self, its: &[Invocation<'a, H>], own: &Invocation<'a, H>) -> bool
        ensures { result ≡ list_any (is_before self.now.targets.now own.now) its.now }
    {
        for it in its {
            if self.is_before(own, it) {
                return true;
            }
        }
        false
    }

    /// Whether each earlier invocation of an exclusive handler of its key has ended.
    fn has_turn(&self, place: usize, own: &Invocation<'a, H>) -> bool
        requires { place ≤ length self.now.invocations.items }
        ensures { result ≡ has_turn self.now place own.now }
    {
        !self.any_before(&self.invocations[..place], own)
    }

    /// Whether an attempt of this invocation may begin: it hasn't ended, its time has come, and so has its turn.
    pub fn may_begin(&self, place: usize) -> bool
        ensures { result ≡ may_begin self.now place }
    {
        match self.invocations.get(place) {
            Some(it) => it.ended.is_none() && it.begins <= self.clock && self.has_turn(place, it),
            None => false,
        }
    }

    /// What an invocation leaves, if it is of the same key.
    fn leave(
        &self,
        own: &Invocation<'a, H>,
        it: &Invocation<'a, H>,
        values: &mut Values,
    ) -> Result<(), AllocError>
        ensures { OnOk result (values.new
            ≡ state_left (shares_key self.now.targets.now own.now it.now) it.now values.old) }
    {
        if !self.shares_key(own, it) {
            return Ok(());
        }
        match &it.member {
            None => Ok(()),
            Some(member) => values.apply_all(self.alloc, member.journal()),
        }
    }

    /// What these leave, one after another, if they are of the same key.
    fn left_along(
        &self,
        its: &[Invocation<'a, H>],
        own: &Invocation<'a, H>,
    ) -> Result<Values, AllocError>
        ensures { IfOk result
            (λ v. v ≡ left_along self.now.targets.now own.now its.now no_values) }
    {
        let mut values = Values::new(self.alloc);
        for it in its {
            self.leave(own, it, &mut values)?;
        }
        Ok(values)
    }

    /// The values that are handed on to the invocation at this place.
    pub fn base_at(&self, place: usize) -> Result<Items<(Text, Bytes)>, AllocError>
        ensures { IfOk result (λ base. base ≡ base_at self.now place) }
    {
        match self.invocations.get(place) {
            None => Ok(Items::new(self.alloc)),
            Some(own) => {
                let values = self.left_along(&self.invocations[..place], own)?;
                values.to_base(self.alloc)
            }
        }
    }
}
