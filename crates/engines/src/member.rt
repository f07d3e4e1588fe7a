//! An invocation by itself: its rounds, and what waits for it. What waits comes without a fault.
ghost use Rattle.std.specs.Prelude.{◌≡◌, ◌<◌, ◌++◌, ◌∷◌, [], true, false, length, take, is_some, ℕ, List, Some, None, IfOk, IfErr, OnOk};
ghost use Rattle.engine_inboxes.specs.Deliverable.{Deliverable, IsUnknownFrom, known_in, Entered, EntryFaults, IsProposedApart, effect_at};
ghost use Rattle.journal_entries.specs.Arrivals.{arrival_fault, room_fault};
ghost use Rattle.journal_entries.specs.Entries.{note_in};
ghost use Rattle.engines.specs.Beginnings.{BeganWithInput, IsPastAll};
ghost use Rattle.engine_inboxes.specs.Faults.{IsMemoryOrFull, IsNoArrival, fault_of_entry};
ghost use Rattle.engines.specs.HandedOn.{BeginsHanded, handed_if, has_input_alone};
ghost use Rattle.engines.specs.Members.{Acts, CantCome, Delivers, GoesBy, IsOwn, MayStoreOne, StoresNextEntry, case_in, with_signal, stopped};
ghost use Rattle.world_rounds.specs.Course.{HappensTo};
ghost use Rattle.world_rounds.specs.Guarantees.{HasOneResultEach, HasRightKinds, IsExactlyOnce, IsReplayable};
ghost use Rattle.world_rounds.specs.Outside.{AddRunsAlone};
ghost use Rattle.world_rounds.specs.Rounds.{ReplaysAndQueues};
ghost use Rattle.world_rounds.specs.declared.types.Event.TheVariants as event;

use bytes::Bytes;
use engine_inboxes::{
    Brought, EngineFault, Inbox, InboxFault, Waiting, arrival_of, inbox_of, stored_of,
};
use journal_protocol::{Encoder, Message, Notification, NotificationResult, Signal};
use journal_store::Effect;
use plain::{Items, Text};
use std::alloc::{AllocError, Global};
use std::marker::Model;
use vm_types::Handler;
use world_rounds::{Course, Event, Round};

/// The rounds of an invocation, and what waits for it.
pub struct Member<'a, H: Handler> {
    alloc: Global,
    course: Course<'a, H>,
    inbox: Inbox,
}

impl<'a, H: Handler> Model for Member<'a, H> {
    ghost use Rattle.engines.specs.Beginnings.{LastsWithInbox};
    ghost use Rattle.engines.specs.Members.{MemberView};
    ghost use Rattle.await_trees.specs.contracts.tree.UnresolvedFuture as future;
    ghost use Rattle.std.specs.Coded.{codes};

    ghost Value = { MemberView H };

    ghost coded = { Prim.hlevel (codes, future.the_row.coded) };

    ghost view = { λ a. record { course = a.course; waiting = a.inbox.waiting.items; next = a.inbox.next } };

    ghost invariant = { λ a. LastsWithInbox a.course a.inbox };
}

/// Written out, as for a setting.
impl<'a, H: Handler> Drop for Member<'a, H> {
    fn drop(self) {
        let Self {
            alloc: _,
            course,
            inbox,
        } = self;
        drop(course);
        drop(inbox);
    }
}

/// The frame of a notification.
fn note_bytes(alloc: Global, note: Notification) -> Result<Bytes, AllocError>
    ensures { IfOk result (λ b. note_in b ≡ Some note) }
{
    Encoder::new(alloc).encode(&Message::Notification(note))
}

/// A notification that can come arrives.
fn arrive<'a, H: Handler>(course: Course<'a, H>, entry: Bytes) -> Result<Course<'a, H>, EngineFault>
    requires live { is_some course.live ≡ true }
    requires comes { arrival_fault entry course.journal ≡ room_fault course.journal }
    ensures ok { IfOk result (λ c. c.journal ≡ course.entry.journal ++ entry ∷ []) }
    ensures arrived { IfOk result
        (λ c. HappensTo (H.meaning course.entry.handler) (event.Arrive entry)
        course.entry.live course.entry c) }
    ensures err { IfErr result IsMemoryOrFull }
{
    match course.happen(&Event::Arrive(entry)) {
        Ok(course) => Ok(course),
        Err(fault) => Err(arrival_of(fault)),
    }
}

/// The next command or proposal is stored.
fn store_one<'a, H: Handler>(course: Course<'a, H>) -> Result<Course<'a, H>, EngineFault>
    ensures ok { IfOk result (λ c. MayStoreOne course.entry.journal c.journal) }
    ensures stored { IfOk result
        (HappensTo (H.meaning course.entry.handler) (event.Store 1) course.entry.live
        course.entry) }
    ensures err { IfErr result IsNoArrival }
    // If the journal before the first round can be replayed, out of memory and a full journal are the only faults,
    ensures replayable { IfErr result (λ f.
        IsReplayable (case_in (H.meaning course.entry.handler) course.entry)
        (take course.entry.given course.entry.journal) → IsMemoryOrFull f) }
    // and what is stored is a command, or the result of a run.
    ensures runs { IfOk result (λ c.
        IsReplayable (case_in (H.meaning course.entry.handler) course.entry)
        (take course.entry.given course.entry.journal)
        → AddRunsAlone course.entry.journal c.journal) }
{
    match course.happen(&Event::Store(1)) {
        Ok(course) => Ok(course),
        Err(fault) => Err(stored_of(fault)),
    }
}

/// What the entry at this place asks for, if there is one: it was stored after those before it.
fn stored_at(
    alloc: Global,
    inbox: &mut Inbox,
    journal: &[Bytes],
    before: usize,
) -> Result<Option<Effect>, InboxFault>
    ensures lasts { OnOk result ((old : List (List ℕ)) → length old ≡ before
        → MayStoreOne old journal.now
        → Deliverable old inbox.old.waiting.items inbox.old.next
        → Deliverable journal.now inbox.new.waiting.items inbox.new.next) }
    ensures none { OnOk result (length journal.now ≡ before
        → (inbox.new.waiting.items ≡ inbox.old.waiting.items)
        × (inbox.new.next ≡ inbox.old.next)) }
    ensures no_effect { IfOk result (λ e. length journal.now ≡ before → e ≡ None) }
    ensures entered { OnOk result ((old : List (List ℕ)) (x : List ℕ) → length old ≡ before
        → journal.now ≡ old ++ x ∷ []
        → Entered x inbox.old.waiting.items inbox.old.next inbox.new.waiting.items inbox.new.next) }
    ensures apart { OnOk result ((old : List (List ℕ)) (x : List ℕ) → length old ≡ before
        → journal.now ≡ old ++ x ∷ [] → IsProposedApart x inbox.old.waiting.items) }
    ensures effect { IfOk result (λ e. (old : List (List ℕ)) (x : List ℕ) → length old ≡ before
        → journal.now ≡ old ++ x ∷ [] → e ≡ effect_at x) }
    ensures fault { IfErr result (λ f. (old : List (List ℕ)) (x : List ℕ) → length old ≡ before
        → journal.now ≡ old ++ x ∷ [] → EntryFaults x inbox.old.waiting.items inbox.old.next f) }
    ensures faulty { IfErr result (λ f. length journal.now ≡ before → ⊥) }
{
    match journal.get(before) {
        None => Ok(None),
        Some(entry) => inbox.stored(alloc, entry),
    }
}

/// A course of which no attempt lives is handed this state, if no more than its input is stored.
fn handed<'a, H: Handler>(course: Course<'a, H>, base: Items<(Text, Bytes)>) -> Course<'a, H>
    requires none { course.live ≡ None }
    requires given { course.given ≡ 1 }
    ensures { result ≡ handed_if (has_input_alone course.entry) base course.entry }
{
    if course.journal().len() <= 1 {
        course.hand(base)
    } else {
        course
    }
}

/// An event of the attempt's own.
fn act_in<'a, H: Handler>(
    course: Course<'a, H>,
    event: &Event,
) -> Result<Course<'a, H>, EngineFault>
    requires { IsOwn event.now }
    ensures ok { IfOk result (λ c. c.journal ≡ course.entry.journal) }
    ensures happens { IfOk result
        (HappensTo (H.meaning course.entry.handler) event.now course.entry.live
        course.entry) }
    ensures given { IfOk result (λ c. c.given ≡ course.entry.given) }
    ensures err { IfErr result IsMemoryOrFull }
{
    // Out of memory is the only fault of such an event.
    match course.happen(event) {
        Ok(course) => Ok(course),
        Err(_) => Err(EngineFault::Memory),
    }
}

/// Whether an event is the attempt's own: neither an arrival nor a store.
fn is_own(event: &Event) -> bool
    ensures own { result ≡ true → IsOwn event.now }
    ensures other { result ≡ false → IsOwn event.now → ⊥ }
{
    match event {
        Event::Arrive(_) | Event::Store(_) => false,
        _ => true,
    }
}

impl<'a, H: Handler> Member<'a, H> {
    /// An invocation before its first round.
    pub fn new(alloc: Global, course: Course<'a, H>) -> Self
        requires new { IsUnknownFrom (known_in course.journal) 0 }
        requires began { BeganWithInput course.given course.journal }
        requires ids { IsPastAll course.journal 0 }
        ensures { result ≡ record { course = course.entry; waiting = []; next = 0 } }
    {
        Member {
            alloc,
            course,
            inbox: Inbox::new(alloc),
        }
    }

    pub fn is_live(&self) -> bool
        ensures { result ≡ is_some self.now.course.live }
    {
        self.course.is_live()
    }

    /// The journal, one frame an entry.
    pub fn journal(&self) -> &[Bytes]
        ensures value { result.now ≡ self.now.course.journal }
        // At each moment, after any attempts, one run of the handler made it, each command once;
        ensures one_run { ReplaysAndQueues self.now.course.setting.options
            → IsExactlyOnce (case_in (H.meaning self.now.course.handler) self.now.course)
            self.now.course.journal }
        // it can be replayed; no completion id has two results; and what completes an invocation's id is one.
        ensures replayable { ReplaysAndQueues self.now.course.setting.options
            → IsReplayable (case_in (H.meaning self.now.course.handler) self.now.course)
            self.now.course.journal }
        ensures once { ReplaysAndQueues self.now.course.setting.options
            → HasOneResultEach (case_in (H.meaning self.now.course.handler) self.now.course)
            self.now.course.journal }
        ensures kinds { ReplaysAndQueues self.now.course.setting.options
            → HasRightKinds self.now.course.journal }
    {
        self.course.journal()
    }

    /// What waits for it.
    pub fn inbox(&self) -> &[Waiting]
        ensures { result.now ≡ self.now.waiting }
    {
        self.inbox.waiting.as_slice()
    }

    /// A new attempt begins. If no more than the input is stored, this is the state before any command.
    pub fn begin(self, round: &Round, base: Items<(Text, Bytes)>) -> Result<Self, EngineFault>
        ensures ok { IfOk result (GoesBy (BeginsHanded round.now base) self.entry) }
        ensures err { IfErr result IsMemoryOrFull }
    {
        let Member {
            alloc,
            course,
            inbox,
        } = self;
        // Out of memory is the only fault of a begin.
        match handed(course.stop(), base).begin(round) {
            Err(_) => Err(EngineFault::Memory),
            Ok(course) => Ok(Member {
                alloc,
                course,
                inbox,
            }),
        }
    }

    /// The attempt is lost.
    pub fn stop(self) -> Self
        ensures { result ≡ stopped self.entry }
    {
        let Member {
            alloc,
            course,
            inbox,
        } = self;
        Member {
            alloc,
            course: course.stop(),
            inbox,
        }
    }

    /// An event of the attempt's own. An arrival or a store is nothing here.
    pub fn act(self, event: &Event) -> Result<Self, EngineFault>
        ensures ok { IfOk result (Acts (H.meaning self.entry.course.handler) event.now self.entry) }
        ensures err { IfErr result IsMemoryOrFull }
    {
        if !is_own(event) {
            return Ok(self);
        }
        let Member {
            alloc,
            course,
            inbox,
        } = self;
        match act_in(course, event) {
            Err(fault) => Err(fault),
            Ok(course) => Ok(Member {
                alloc,
                course,
                inbox,
            }),
        }
    }

    /// A signal waits.
    pub fn signal(self, signal: Signal, brings: NotificationResult) -> Result<Self, EngineFault>
        ensures ok { IfOk result (λ new. new ≡ with_signal signal brings self.entry) }
        ensures err { IfErr result IsMemoryOrFull }
    {
        let Member {
            alloc,
            course,
            mut inbox,
        } = self;
        match inbox.signal(signal, brings) {
            Err(_) => Err(EngineFault::Memory),
            Ok(()) => Ok(Member {
                alloc,
                course,
                inbox,
            }),
        }
    }

    /// What waits at this place is delivered to the attempt, if one lives and this is what it waits for.
    pub fn deliver(self, at: usize, brought: Brought) -> Result<Self, EngineFault>
        // What comes is what stood there, by what was there for it: a sleep's completion no sooner than its time.
        ensures ok { IfOk result
            (Delivers at brought (H.meaning self.entry.course.handler) self.entry) }
        // No arrival has a fault.
        ensures err { IfErr result IsMemoryOrFull }
    {
        if !self.course.is_live() || at >= self.inbox.waiting.len() {
            return Ok(self);
        }
        self.take(at, brought)
    }

    fn take(self, at: usize, brought: Brought) -> Result<Self, EngineFault>
        requires live { is_some self.course.live ≡ true }
        requires at { at < length self.waiting }
        ensures ok { IfOk result
            (Delivers at brought (H.meaning self.entry.course.handler) self.entry) }
        ensures err { IfErr result IsMemoryOrFull }
    {
        let Member {
            alloc,
            course,
            mut inbox,
        } = self;
        let Ok(taken) = inbox.take(at, brought) else {
            return Err(EngineFault::Memory);
        };
        let Some(note) = taken else {
            return Ok(Member {
                alloc,
                course,
                inbox,
            });
        };
        let Ok(entry) = note_bytes(alloc, note) else {
            return Err(EngineFault::Memory);
        };
        match arrive(course, entry) {
            Err(fault) => Err(fault),
            Ok(course) => Ok(Member {
                alloc,
                course,
                inbox,
            }),
        }
    }

    /// The next command or proposal that the attempt wrote is stored; this answers what it asks for.
    pub fn store(self) -> Result<(Self, Option<Effect>), EngineFault>
        ensures ok { IfOk result
            (λ r. StoresNextEntry (H.meaning self.entry.course.handler) self.entry r.0 r.1) }
        ensures err { IfErr result IsNoArrival }
        // Of an attempt that replays and queues, out of memory and a full journal are the only faults.
        ensures replaying { IfErr result (λ f. ReplaysAndQueues self.entry.course.setting.options
            → IsMemoryOrFull f) }
    {
        let Member {
            alloc,
            course,
            mut inbox,
        } = self;
        let before = course.journal().len();
        let course = match store_one(course) {
            Err(fault) => return Err(fault),
            Ok(course) => course,
        };
        match stored_at(alloc, &mut inbox, course.journal(), before) {
            Err(fault) => Err(inbox_of(fault)),
            Ok(effect) => Ok((
                Member {
                    alloc,
                    course,
                    inbox,
                },
                effect,
            )),
        }
    }
}
