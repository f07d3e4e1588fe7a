//! A world whose rounds go on: what happens to it comes one by one, so that many worlds can go on beside each other.
ghost use Rattle.std.specs.Prelude.{◌≡◌, ◌≤◌, length, take, None, IfOk, IfErr, is_some};
ghost use Rattle.vm_attempt.specs.Fixed.{fixed_of};
ghost use Rattle.journal_entries.specs.declared.fault.JournalFault.TheVariants as journal_fault;
ghost use Rattle.world_rounds.specs.Guarantees.{HasOneResultEach, HasRightKinds, IsExactlyOnce, IsReplayable};
ghost use Rattle.world_rounds.specs.Rounds.{EndsTold, ReplaysAndQueues, new_now};
ghost use Rattle.world_rounds.specs.Inside.{the_now};
ghost use Rattle.world_rounds.specs.Outside.{OutsideIn, StoresRuns};
ghost use Rattle.vm_attempt.specs.Record.{Record};
ghost use Rattle.world_rounds.specs.Course.{AreRun, BeginsRound, EndsToldBy, FaultsIn, HappensTo};

use crate::desk::Desk;
use crate::place::{Place, happen_at};
use crate::round::{new_attempt, waiting_bytes};
use crate::types::{Event, Round, Setting};
use crate::world::World;
use bytes::{Bytes, BytesMut};
use journal_entries::JournalFault;
use journal_protocol::{Decoder, Version};
use journal_store::WholeJournal;
use plain::{Items, Text};
use std::alloc::Global;
use std::marker::Model;
use vm_attempt::Attempt;
use vm_types::Handler;

/// A world's rounds, of which the last may not have ended: its attempt lives then.
pub struct Course<'a, H: Handler> {
    alloc: Global,
    setting: Setting,
    handler: &'a H,
    /// How many entries the journal had before the first round.
    given: usize,
    desk: Desk,
    attempt: Option<Place<Attempt<&'a H>>>,
}

impl<'a, H: Handler> Model for Course<'a, H> {
    ghost use Rattle.world_rounds.specs.Course.{CourseLasts, CourseView, live_now};
    ghost use Rattle.await_trees.specs.contracts.tree.UnresolvedFuture as future;
    ghost use Rattle.std.specs.Coded.{codes};

    ghost Value = { CourseView H };

    ghost coded = { Prim.hlevel (codes, future.the_row.coded) };

    ghost view = { λ a. record { handler = a.handler.now; setting = a.setting; given = a.given; journal = a.desk.journal; live = live_now a.desk a.attempt } };

    ghost invariant = { λ a. CourseLasts (λ h. H.meaning h.now) (H.meaning a.handler.now) a.setting a.given a.desk a.attempt };
}

/// Written out, as for a setting.
impl<'a, H: Handler> Drop for Course<'a, H> {
    fn drop(self) {
        let Self {
            alloc: _,
            setting,
            handler: _,
            given: _,
            desk,
            attempt,
        } = self;
        drop(setting);
        drop(desk);
        drop(attempt);
    }
}

/// A desk on which nothing has happened.
fn new_desk(alloc: Global, version: Version, journal: WholeJournal, waiting: BytesMut) -> Desk
    ensures now { (r : Record) → the_now result r ≡ new_now version journal waiting.items r }
    ensures journal { result.journal ≡ journal }
{
    Desk {
        alloc,
        version,
        journal,
        waiting,
        output: Vec::new(alloc),
        unstored: Decoder::new(alloc),
        closed: false,
        error: None,
    }
}

/// What an attempt tells of its journal, wherever its round ends.
fn ends<H: Handler>(attempt: &Attempt<&H>)
    ensures { EndsTold (fixed_of (H.meaning attempt.now.handler.now) attempt.now)
        attempt.now.record_of }
{
    let _ = attempt.answers();
}

fn ends_of<H: Handler>(attempt: &Option<Place<Attempt<&H>>>)
    ensures { EndsToldBy (λ h. H.meaning h.now) attempt.now }
{
    match attempt {
        Some(attempt) => ends(attempt.as_ref()),
        None => {}
    }
}

impl<'a, H: Handler> Course<'a, H> {
    /// The world before its first round.
    pub fn new(world: World, handler: &'a H) -> Self
        ensures { result
            ≡ record {
              handler = handler.now;
              setting = world.setting;
              given = length world.journal;
              journal = world.journal;
              live = None;
            } }
    {
        let World {
            alloc,
            setting,
            journal,
        } = world;
        let given = journal.as_slice().len();
        let desk = new_desk(alloc, setting.version, journal, BytesMut::new(alloc));
        Course {
            alloc,
            setting,
            handler,
            given,
            desk,
            attempt: None,
        }
    }

    /// All attempts are made with this state before any command. None lives, and no entry was stored.
    pub fn hand(self, base: Items<(Text, Bytes)>) -> Self
        requires none { self.live ≡ None }
        requires unstored { length self.journal ≤ self.given }
        ensures { result
            ≡ record self.entry { setting = record self.entry.setting { base = base } } }
    {
        let Course {
            alloc,
            mut setting,
            handler,
            given,
            desk,
            attempt: _,
        } = self;
        setting.base = base;
        Course {
            alloc,
            setting,
            handler,
            given,
            desk,
            attempt: None,
        }
    }

    /// A round begins: Start and the journal wait for a new attempt. One that lives is lost, with what it wrote and wasn't stored. No round
    /// begins if the attempt is refused.
    pub fn begin(self, round: &Round) -> Result<Self, JournalFault>
        ensures ok { IfOk result (BeginsRound round.now self.entry) }
        ensures err { IfErr result (λ f. f ≡ journal_fault.Memory) }
    {
        self.stop().begin_next(round)
    }

    /// A round begins. None may go on.
    fn begin_next(self, round: &Round) -> Result<Self, JournalFault>
        requires { self.live ≡ None }
        ensures ok { IfOk result (BeginsRound round.now self.entry) }
        ensures err { IfErr result (λ f. f ≡ journal_fault.Memory) }
    {
        let Course {
            alloc,
            setting,
            handler,
            given,
            desk,
            attempt: _,
        } = self;
        let Ok(attempt) = new_attempt(alloc, &setting, handler) else {
            return Ok(Course {
                alloc,
                setting,
                handler,
                given,
                desk,
                attempt: None,
            });
        };
        let Ok(attempt) = Place::new(alloc, attempt) else {
            return Err(JournalFault::Memory);
        };
        let Desk { journal, .. } = desk;
        let Ok(waiting) = waiting_bytes(alloc, &setting, round, journal.as_slice()) else {
            return Err(JournalFault::Memory);
        };
        let desk = new_desk(alloc, setting.version, journal, waiting);
        Ok(Course {
            alloc,
            setting,
            handler,
            given,
            desk,
            attempt: Some(attempt),
        })
    }

    /// The next event of the round that goes on; nothing happens between rounds.
    pub fn happen(self, event: &Event) -> Result<Self, JournalFault>
        ensures ok { IfOk result
            (HappensTo (H.meaning self.entry.handler) event.now self.entry.live self.entry) }
        ensures err { IfErr result (FaultsIn event.now self.entry.live self.entry.journal) }
        // If the journal before the first round can be replayed, a fault comes from outside,
        ensures outside { IfErr result (λ f. IsReplayable
            (record { handler = H.meaning self.entry.handler; setting = self.entry.setting })
            (take self.entry.given self.entry.journal)
            → OutsideIn event.now self.entry.live f) }
        // and what a store adds is a command, or the result of a run whose command stands before it.
        ensures runs { IfOk result (λ c. IsReplayable
            (record { handler = H.meaning self.entry.handler; setting = self.entry.setting })
            (take self.entry.given self.entry.journal)
            → StoresRuns event.now self.entry.journal c.journal) }
    {
        let Course {
            alloc,
            setting,
            handler,
            given,
            mut desk,
            attempt,
        } = self;
        match attempt {
            None => Ok(Course {
                alloc,
                setting,
                handler,
                given,
                desk,
                attempt: None,
            }),
            Some(mut attempt) => match happen_at(&mut attempt, &mut desk, event) {
                Err(fault) => Err(fault),
                Ok(()) => Ok(Course {
                    alloc,
                    setting,
                    handler,
                    given,
                    desk,
                    attempt: Some(attempt),
                }),
            },
        }
    }

    /// The attempt stops: what it wrote and wasn't stored is lost.
    pub fn stop(self) -> Self
        ensures { result ≡ record self.entry { live = None } }
    {
        let Course {
            alloc,
            setting,
            handler,
            given,
            desk,
            attempt,
        } = self;
        ends_of(&attempt);
        drop(attempt);
        Course {
            alloc,
            setting,
            handler,
            given,
            desk,
            attempt: None,
        }
    }

    /// Whether a round goes on.
    pub fn is_live(&self) -> bool
        ensures { result ≡ is_some self.now.live }
    {
        self.attempt.is_some()
    }

    /// The journal, one frame an entry.
    pub fn journal(&self) -> &[Bytes]
        ensures value { result.now ≡ self.now.journal }
        // Rounds lead to it from the journal before the first: at each moment the course is a list of rounds as `run_rounds` runs them.
        ensures run { AreRun (H.meaning self.now.handler) self.now.setting
            (take self.now.given self.now.journal) self.now.journal }
        // So it keeps what rounds keep.
        ensures history { IsReplayable
            (record { handler = H.meaning self.now.handler; setting = self.now.setting })
            (take self.now.given self.now.journal)
            → IsReplayable (record {
              handler = H.meaning self.now.handler;
              setting = self.now.setting;
            })
            self.now.journal }
        ensures one_run { ReplaysAndQueues self.now.setting.options
            → IsExactlyOnce (record {
              handler = H.meaning self.now.handler;
              setting = self.now.setting;
            })
            (take self.now.given self.now.journal)
            → IsExactlyOnce (record {
              handler = H.meaning self.now.handler;
              setting = self.now.setting;
            })
            self.now.journal }
        ensures once { IsReplayable
            (record { handler = H.meaning self.now.handler; setting = self.now.setting })
            (take self.now.given self.now.journal)
            → HasOneResultEach
            (record { handler = H.meaning self.now.handler; setting = self.now.setting })
            self.now.journal }
        ensures kinds { IsReplayable
            (record { handler = H.meaning self.now.handler; setting = self.now.setting })
            (take self.now.given self.now.journal) → HasRightKinds self.now.journal }
    {
        ends_of(&self.attempt);
        self.desk.journal.as_slice()
    }
}
