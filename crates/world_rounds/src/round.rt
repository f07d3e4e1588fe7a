//! One round: its attempt, and what happens to it.
ghost use Rattle.std.specs.Prelude.{◌≡◌, ◌⊎◌, ◌≤◌, ◌∷◌, [], ◌++◌, length, IfOk, IfErr, OnOk};
ghost use Rattle.std.specs.List.{concat};
ghost use Rattle.journal_protocol.specs.Frames.{encoding, IsWhole};
ghost use Rattle.invocation_vm.specs.Making.{IsSupported, made, supported};
ghost use Rattle.vm_attempt.specs.Stepping.{fresh_record};
ghost use Rattle.journal_entries.specs.Arrivals.{most_entries};
ghost use Rattle.world_rounds.specs.Inside.{the_now, report_view};
ghost use Rattle.vm_attempt.specs.Fixed.{fixed_of};
ghost use Rattle.world_rounds.specs.Places.{ArrivalFaultsAt, FaultsAt, IsMemoryAside, RefusedStops, RoundStops};
ghost use Rattle.world_rounds.specs.Rounds.{new_now, report_of, ArrivalsDo, ArrivalsFault, EndsTold, Happen, IsRefusal, StaysShort, Ran, RefusedDoes, RoundDoes};
ghost use Rattle.world_rounds.specs.States.{HaveTextKeys, pairs_for};
ghost use Rattle.world_rounds.specs.Worlds.{IsJournal, start_message};

use crate::answers::copy_answers;
use crate::desk::{Desk, happen};
use crate::handed::start_bytes;
use crate::types::{Event, Report, Round, Setting};
use bytes::{Bytes, BytesMut};
use invocation_vm::supported;
use journal_entries::JournalFault;
use journal_protocol::{Decoder, Error, Version};
use journal_store::WholeJournal;
use std::alloc::{AllocError, Global};
use vm_attempt::Attempt;
use vm_types::{Handler, VMResult};

/// A fault in a round, at the event of this place, counted from 0; without one it is out of memory, before the first event or after
/// the last.
#[derive(Clone, Copy)]
pub struct EventFault {
    pub event: Option<usize>,
    pub fault: JournalFault,
}

/// Out of memory, before the first event or after the last.
pub fn out_of_memory() -> EventFault
    ensures { IsMemoryAside result.event result.fault }
{
    EventFault {
        event: None,
        fault: JournalFault::Memory,
    }
}

/// All of the journal waits.
fn wait_all(waiting: &mut BytesMut, journal: &[Bytes]) -> Result<(), AllocError>
    ensures { OnOk result (waiting.new.items ≡ waiting.old.items ++ concat journal.now) }
{
    for entry in journal {
        waiting.extend_from_slice(entry.as_slice())?;
    }
    Ok(())
}

/// A round's Start and journal wait.
pub fn waiting_bytes(
    alloc: Global,
    setting: &Setting,
    round: &Round,
    journal: &[Bytes],
) -> Result<BytesMut, AllocError>
    requires { length journal.now ≤ most_entries }
    ensures bytes { IfOk result (λ b. b.items
        ≡ encoding (start_message setting.now round.now journal.now) ++ concat journal.now) }
    ensures whole { OnOk result (IsWhole (start_message setting.now round.now journal.now)) }
    ensures texts { OnOk result (HaveTextKeys (pairs_for setting.now round.now journal.now)) }
{
    let start = start_bytes(alloc, setting, round, journal)?;
    let mut waiting = BytesMut::new(alloc);
    waiting.extend_from_slice(start.as_slice())?;
    wait_all(&mut waiting, journal)?;
    Ok(waiting)
}

/// All events of a round.
#[tactic(auto, using(crate::proofs::Placing::happen_more, crate::proofs::Placing::happen_whole))]
fn happen_all<H: Handler>(
    attempt: &mut Attempt<&H>,
    desk: &mut Desk,
    events: &[Event],
) -> Result<(), EventFault>
    ensures ok { OnOk result
        (Happen (H.meaning attempt.old.handler.now) events.now
        (the_now desk.old attempt.old.record_of) (the_now desk.new attempt.new.record_of)) }
    ensures err { IfErr result
        (λ f. FaultsAt (H.meaning attempt.old.handler.now) events.now
        (the_now desk.old attempt.old.record_of) f.event f.fault) }
    ensures handler { attempt.new.handler.now ≡ attempt.old.handler.now }
    ensures made_for { (attempt.new.version ≡ attempt.old.version)
        × (attempt.new.options ≡ attempt.old.options) }
{
    for (place, event) in events.iter().enumerate() {
        if let Err(fault) = happen(attempt, desk, event) {
            return Err(EventFault {
                event: Some(place),
                fault,
            });
        }
    }
    Ok(())
}

/// One event, if no attempt was made.
fn arrive_only(alloc: Global, journal: &mut WholeJournal, event: &Event) -> Result<(), JournalFault>
    ensures ok { OnOk result (ArrivalsDo (event.now ∷ []) journal.old journal.new) }
    ensures err { IfErr result (λ f. ArrivalsFault (event.now ∷ []) journal.old f) }
{
    match event {
        Event::Arrive(entry) => journal.arrive(alloc, entry),
        _ => Ok(()),
    }
}

/// All events of a round, if no attempt was made: the arrivals are stored.
#[tactic(auto, using(crate::proofs::Placing::arrivals_more, crate::proofs::Placing::arrivals_whole))]
fn arrive_all(alloc: Global, journal: &mut WholeJournal, events: &[Event]) -> Result<(), EventFault>
    ensures ok { OnOk result (ArrivalsDo events.now journal.old journal.new) }
    ensures err { IfErr result (λ f. ArrivalFaultsAt events.now journal.old f.event f.fault) }
{
    for (place, event) in events.iter().enumerate() {
        if let Err(fault) = arrive_only(alloc, journal, event) {
            return Err(EventFault {
                event: Some(place),
                fault,
            });
        }
    }
    Ok(())
}

/// What the round tells.
fn report<H: Handler>(
    alloc: Global,
    attempt: &mut Attempt<&H>,
    desk: Desk,
) -> Result<(WholeJournal, Report), AllocError>
    requires { length desk.journal ≤ most_entries }
    ensures report { IfOk result (λ r. report_view r.1
        ≡ report_of (the_now desk attempt.old.record_of)) }
    ensures journal { IfOk result (λ r. r.0 ≡ desk.journal) }
    ensures ends { EndsTold (fixed_of (H.meaning attempt.old.handler.now) attempt.old)
        attempt.old.record_of }
{
    let answers = copy_answers(alloc, attempt.answers())?;
    let bytes = attempt.take_output()?;
    let Desk {
        journal,
        mut output,
        error,
        ..
    } = desk;
    output.extend_from_slice(bytes.as_slice())?;
    let entries = journal.as_slice().len() as u32;
    let output = Bytes::from_vec(output)?;
    Ok((
        journal,
        Report {
            answers,
            output,
            error,
            entries,
        },
    ))
}

/// An attempt for the setting's version.
pub fn new_attempt<'a, H: Handler>(
    alloc: Global,
    setting: &Setting,
    handler: &'a H,
) -> VMResult<Attempt<&'a H>>
    ensures record { IfOk result (λ a. a.record_of
        ≡ fresh_record (made alloc setting.now.options setting.now.version)) }
    ensures handler { IfOk result (λ a. a.handler.now ≡ handler.now) }
    ensures made_for { IfOk result (λ a. (a.version ≡ setting.now.version)
        × (a.options ≡ setting.now.options)) }
    ensures supported { OnOk result (IsSupported setting.now.version) }
    ensures refused { IfErr result (λ e. IsRefusal (supported setting.now.version) e) }
{
    if let Err(error) = supported(setting.version) {
        return Err(error);
    }
    match Attempt::for_version(alloc, setting.version, setting.options, handler) {
        Ok(attempt) => Ok(attempt),
        Err(error) => Err(Error::from(error)),
    }
}

/// A round whose attempt was refused.
fn refused_round(
    alloc: Global,
    setting: &Setting,
    mut journal: WholeJournal,
    round: &Round,
    error: Error,
) -> Result<(WholeJournal, Report), EventFault>
    requires entries { IsJournal journal }
    requires refusal { IsRefusal (supported setting.now.version) error }
    ensures ok { IfOk result
        (λ r. RefusedDoes setting.now round.now journal (report_view r.1) r.0) }
    ensures err { IfErr result
        (λ f. RefusedStops setting.now round.now journal f.event f.fault) }
{
    arrive_all(alloc, &mut journal, round.events.as_slice())?;
    let entries = journal.as_slice().len() as u32;
    Ok((
        journal,
        Report {
            answers: Vec::new(alloc),
            output: Bytes::new(),
            error: Some(error),
            entries,
        },
    ))
}

/// A round with its attempt.
fn made_round<H: Handler>(
    alloc: Global,
    version: Version,
    attempt: &mut Attempt<&H>,
    journal: WholeJournal,
    waiting: BytesMut,
    events: &[Event],
) -> Result<(WholeJournal, Report), EventFault>
    requires short { StaysShort (H.meaning attempt.old.handler.now) events.now
        (new_now version journal waiting.items attempt.old.record_of) }
    ensures ok { IfOk result
        (λ r. Ran (fixed_of (H.meaning attempt.old.handler.now) attempt.old) events.now
        (new_now version journal waiting.items attempt.old.record_of) (report_view r.1)
        r.0) }
    ensures err { IfErr result (λ f. IsMemoryAside f.event f.fault
        ⊎ FaultsAt (H.meaning attempt.old.handler.now) events.now
        (new_now version journal waiting.items attempt.old.record_of) f.event f.fault) }
{
    let mut desk = Desk {
        alloc,
        version,
        journal,
        waiting,
        output: Vec::new(alloc),
        unstored: Decoder::new(alloc),
        closed: false,
        error: None,
    };
    match happen_all(attempt, &mut desk, events) {
        Err(fault) => return Err(fault),
        Ok(()) => {}
    }
    match report(alloc, attempt, desk) {
        Ok(done) => Ok(done),
        Err(_) => Err(out_of_memory()),
    }
}

/// One round.
pub fn run_round<H: Handler>(
    alloc: Global,
    setting: &Setting,
    handler: &H,
    journal: WholeJournal,
    round: &Round,
) -> Result<(WholeJournal, Report), EventFault>
    requires entries { IsJournal journal }
    ensures ok { IfOk result
        (λ r. RoundDoes (H.meaning handler.now) setting.now round.now journal
        (report_view r.1) r.0) }
    ensures entries { IfOk result (λ r. IsJournal r.0) }
    ensures err { IfErr result
        (λ f. RoundStops (H.meaning handler.now) setting.now round.now journal f.event f.fault) }
{
    match new_attempt(alloc, setting, handler) {
        Err(error) => refused_round(alloc, setting, journal, round, error),
        Ok(mut attempt) => {
            let Ok(waiting) = waiting_bytes(alloc, setting, round, journal.as_slice()) else {
                return Err(out_of_memory());
            };
            made_round(
                alloc,
                setting.version,
                &mut attempt,
                journal,
                waiting,
                round.events.as_slice(),
            )
        }
    }
}
