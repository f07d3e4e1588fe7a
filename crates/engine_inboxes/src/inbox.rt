//! An inbox: what waits, and what is next past all completion ids that the stored commands carry.
ghost use Rattle.std.specs.Prelude.{◌≡◌, ◌<◌, ◌++◌, ◌∷◌, [], ℕ, List, None, length, slice_index_or, true, IfErr, IfOk, OnOk};
ghost use Rattle.journal_store.specs.Effects.{effect_of};
ghost use Rattle.engine_inboxes.specs.Ids.{past_new_ids};
ghost use Rattle.engine_inboxes.specs.Notes.{note_by};
ghost use Rattle.engine_inboxes.specs.declared.types.InboxFault.TheVariants as fault;
ghost use Rattle.engine_inboxes.specs.declared.types.Waiting as W;
ghost use Rattle.engine_inboxes.specs.declared.types.Waiting.TheVariants as waiting;
ghost use Rattle.engine_inboxes.specs.Deliverable.{Arrives, CommandFaults, Commanded, Deliverable, Entered, EntryFaults, IsProposedApart, IsUnwaited, MayBeStored, TakesOut, completes_waited, effect_at, waits_for_id, is_waited, waited_by};

use crate::ids::past_all;
use crate::notes::note_by;
use crate::types::{Brought, InboxFault, Waiting};
use bytes::Bytes;
use journal_entries::entry::{note_in, said_at};
use journal_protocol::{Message, Notification, NotificationId, NotificationResult, Signal};
use journal_store::{Effect, effect_of};
use std::alloc::{AllocError, Global};

/// What waits for an invocation.
#[derive(Drop)]
pub struct Inbox {
    pub waiting: Vec<Waiting>,
    /// Past all completion ids that its stored commands carry.
    pub next: u64,
}

/// Whether this waits for this id.
fn is_for(waiting: &Waiting, id: u32) -> bool
    ensures { result ≡ waits_for_id id waiting.now }
{
    match waiting {
        Waiting::Id(own) => *own == id,
        Waiting::Outcome { completes, .. } => *completes == id,
        Waiting::Clock(timer) => timer.completes == id,
        Waiting::Signal(_, _) => false,
    }
}

/// Whether something waits for this id.
fn is_waited(waiting: &[Waiting], id: u32) -> bool
    ensures { result ≡ is_waited id waiting.now }
{
    for it in waiting {
        if is_for(it, id) {
            return true;
        }
    }
    false
}

/// What a stored command waits for.
fn wait_for(waiting: &mut Vec<Waiting>, effect: &Option<Effect>) -> Result<(), AllocError>
    ensures { OnOk result (waiting.new.items ≡ waiting.old.items ++ waited_by effect.now) }
{
    match effect {
        Some(Effect::Wait(timer)) => waiting.push(Waiting::Clock(*timer))?,
        Some(Effect::Begin(begun)) => {
            waiting.push(Waiting::Id(begun.id_completes))?;
            if let Some(completes) = begun.result_completes {
                waiting.push(Waiting::Outcome {
                    completes,
                    call: begun.id_completes,
                })?;
            }
        }
        _ => {}
    }
    Ok(())
}

/// What a stored command asks for; what it waits for is in the inbox, and what is next is past its ids.
fn commanded(
    alloc: Global,
    inbox: &mut Inbox,
    command: &Message,
) -> Result<Option<Effect>, InboxFault>
    ensures ok { OnOk result (Commanded command.now inbox.old.waiting.items inbox.old.next
        inbox.new.waiting.items inbox.new.next) }
    ensures effect { IfOk result (λ e. e ≡ effect_of command.now) }
    ensures err { IfErr result (CommandFaults command.now inbox.old.next) }
{
    let Some(past) = past_all(inbox.next, command) else {
        return Err(InboxFault::IdNotNew);
    };
    let Ok(effect) = effect_of(alloc, command) else {
        return Err(InboxFault::Memory);
    };
    if wait_for(&mut inbox.waiting, &effect).is_err() {
        return Err(InboxFault::Memory);
    }
    inbox.next = past;
    Ok(effect)
}

/// Whether a notification completes an id that waits.
fn completes_waited(waiting: &[Waiting], note: &Option<Notification>) -> bool
    ensures { result ≡ completes_waited note.now waiting.now }
{
    match note {
        None => false,
        Some(note) => match note.id {
            NotificationId::CompletionId(id) => is_waited(waiting, id),
            _ => false,
        },
    }
}

/// A completion that was proposed is of nothing that waits.
fn proposed(waiting: &[Waiting], note: &Option<Notification>) -> Result<(), InboxFault>
    ensures ok { OnOk result (IsUnwaited note.now waiting.now) }
    ensures err { IfErr result
        (λ f. (f ≡ fault.NotARun) × (completes_waited note.now waiting.now ≡ true)) }
{
    if completes_waited(waiting, note) {
        Err(InboxFault::NotARun)
    } else {
        Ok(())
    }
}

impl Inbox {
    /// An inbox in which nothing waits.
    pub fn new(alloc: Global) -> Inbox
        ensures waiting { result.waiting.items ≡ [] }
        ensures next { result.next ≡ 0 }
    {
        Inbox {
            waiting: Vec::new(alloc),
            next: 0,
        }
    }

    /// A signal waits.
    pub fn signal(&mut self, signal: Signal, brings: NotificationResult) -> Result<(), AllocError>
        ensures { OnOk result ((self.new.waiting.items
            ≡ self.old.waiting.items ++ waiting.Signal signal brings ∷ [])
            × (self.new.next ≡ self.old.next)) }
    {
        self.waiting.push(Waiting::Signal(signal, brings))?;
        Ok(())
    }

    /// An entry that the attempt wrote was stored: this answers what it asks for, and what it waits for is in the inbox.
    pub fn stored(&mut self, alloc: Global, entry: &Bytes) -> Result<Option<Effect>, InboxFault>
        // What waits can be delivered after it, if it could before.
        ensures ok { OnOk result ((journal : List (List ℕ)) → MayBeStored entry.now journal
            → Deliverable journal self.old.waiting.items self.old.next
            → Deliverable (journal ++ entry.now ∷ []) self.new.waiting.items self.new.next) }
        ensures effect { IfOk result (λ e. e ≡ effect_at entry.now) }
        // A proposal is of nothing that waits.
        ensures apart { OnOk result (IsProposedApart entry.now self.old.waiting.items) }
        // What a command waits for is there after all that waited, and nothing else changes.
        ensures entered { OnOk result (Entered entry.now self.old.waiting.items self.old.next
            self.new.waiting.items self.new.next) }
        // A fault has its reason.
        ensures err { IfErr result
            (EntryFaults entry.now self.old.waiting.items self.old.next) }
    {
        let said = match said_at(alloc, entry) {
            Ok(said) => said,
            Err(_) => return Err(InboxFault::Memory),
        };
        match said {
            Some(command) => commanded(alloc, self, &command),
            None => match note_in(alloc, entry) {
                Err(_) => Err(InboxFault::Memory),
                Ok(note) => match proposed(self.waiting.as_slice(), &note) {
                    Err(fault) => Err(fault),
                    Ok(()) => Ok(None),
                },
            },
        }
    }

    /// What waits at this place, as a notification, if what is there is what it waits for; then it waits no longer.
    pub fn take(&mut self, at: usize, brought: Brought) -> Result<Option<Notification>, AllocError>
        requires { at < length self.old.waiting.items }
        ensures taken { IfOk result (λ note. (w : W.Waiting) → w
            ≡ slice_index_or self.old.waiting.items at w
            → note ≡ note_by w brought) }
        // It has no fault, as long as there is room; and what waits then can be delivered after it.
        ensures comes { IfOk result
            (λ note. Arrives note self.old.waiting.items self.old.next self.new.waiting.items
            self.new.next) }
        // Only what comes is taken out.
        ensures rest { IfOk result (λ note. TakesOut note at self.old.waiting.items self.old.next
            self.new.waiting.items self.new.next) }
    {
        match note_by(&self.waiting[at], brought) {
            Err(error) => Err(error),
            Ok(None) => Ok(None),
            Ok(Some(note)) => {
                drop(self.waiting.remove(at));
                Ok(Some(note))
            }
        }
    }
}
