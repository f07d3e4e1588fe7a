//! The ids that a journal's commands carry, each with what is known of it.
ghost use Rattle.std.specs.Prelude.{◌≡◌, ◌||◌, OnOk, [], ℕ};
ghost use Rattle.journal_entries.specs.Arrivals.{is_of};
ghost use Rattle.journal_store.specs.Ids.{Changes, SaysWith, known_kept, known_now};
ghost use Rattle.journal_store.specs.Known.{carried_as, as_completed, with_called, with_result_id};

use crate::known::Known;
use journal_entries::completions::Completes;
use journal_protocol::NotificationId;
use std::alloc::{AllocError, Global};
use std::collections::BTreeMap;
use std::marker::Model;

/// What is known of each id, and how it was at the last commit.
#[derive(Drop)]
pub struct Ids {
    /// At the last commit.
    kept: BTreeMap<u32, Known>,
    /// What has changed since.
    since: BTreeMap<u32, Known>,
}

impl Model for Ids {
    ghost use Rattle.journal_store.specs.Ids.{Seen};

    ghost Value = { Seen };

    ghost view = { λ i. record { kept = i.kept.entries; since = i.since.entries } };
}

impl Ids {
    pub(crate) fn new(alloc: Global) -> Ids
        ensures { result ≡ record { kept = []; since = [] } }
    {
        Ids {
            kept: BTreeMap::new(alloc),
            since: BTreeMap::new(alloc),
        }
    }

    /// What was known of an id at the last commit.
    fn kept_of(&self, id: u32) -> Known
        ensures { result ≡ known_kept self.now id }
    {
        match self.kept.get(&id) {
            Some(known) => *known,
            None => Known {
                kind: None,
                done: false,
            },
        }
    }

    /// What is known of an id.
    pub(crate) fn known(&self, id: u32) -> Known
        ensures { result ≡ known_now self.now id }
    {
        match self.since.get(&id) {
            Some(known) => *known,
            None => self.kept_of(id),
        }
    }

    /// From now on this completes an id.
    pub(crate) fn carry(&mut self, id: u32, kind: Completes) -> Result<(), AllocError>
        ensures ok { OnOk result (Changes id (carried_as kind) self.old self.new) }
        ensures kept { self.new.kept ≡ self.old.kept }
    {
        let known = self.known(id);
        self.since.insert(
            id,
            Known {
                kind: Some(kind),
                done: known.done,
            },
        )?;
        Ok(())
    }

    /// An id is completed.
    pub(crate) fn complete(&mut self, id: u32) -> Result<(), AllocError>
        ensures ok { OnOk result (Changes id as_completed self.old self.new) }
        ensures kept { self.new.kept ≡ self.old.kept }
    {
        let known = self.known(id);
        self.since.insert(
            id,
            Known {
                kind: known.kind,
                done: true,
            },
        )?;
        Ok(())
    }

    /// The id of a call's invocation, if there is one, is carried.
    pub(crate) fn carry_called(&mut self, called: Option<u32>) -> Result<(), AllocError>
        ensures ok { OnOk result
            (SaysWith (λ id before. with_called id called before) (λ id done. done)
            self.old self.new) }
        ensures kept { self.new.kept ≡ self.old.kept }
    {
        match called {
            Some(id) => self.carry(id, Completes::InvocationId),
            None => Ok(()),
        }
    }

    /// The id of a result, if there is one, is carried.
    pub(crate) fn carry_result(
        &mut self,
        carried: Option<(u32, Completes)>,
    ) -> Result<(), AllocError>
        ensures ok { OnOk result
            (SaysWith (λ id before. with_result_id id carried before) (λ id done. done)
            self.old self.new) }
        ensures kept { self.new.kept ≡ self.old.kept }
    {
        match carried {
            Some((id, kind)) => self.carry(id, kind),
            None => Ok(()),
        }
    }

    /// A notification completes its id, if it is a completion.
    pub(crate) fn note(&mut self, note: &NotificationId) -> Result<(), AllocError>
        ensures ok { OnOk result
            (SaysWith (λ id before. before) (λ id done. done || is_of id note.now)
            self.old self.new) }
        ensures kept { self.new.kept ≡ self.old.kept }
    {
        match note {
            NotificationId::CompletionId(id) => self.complete(*id),
            NotificationId::SignalId(_) => Ok(()),
            NotificationId::SignalName(_) => Ok(()),
        }
    }

    /// What is known now is kept.
    pub(crate) fn keep(&mut self) -> Result<(), AllocError>
        ensures now { OnOk result ((id : ℕ) → known_now self.new id ≡ known_now self.old id) }
        ensures kept { OnOk result ((id : ℕ) → known_kept self.new id ≡ known_now self.old id) }
    {
        self.kept.append(&mut self.since)?;
        Ok(())
    }

    /// What was known at the last commit is known.
    pub(crate) fn undo(&mut self)
        ensures { self.new ≡ record { kept = self.old.kept; since = [] } }
    {
        self.since.clear();
    }
}
