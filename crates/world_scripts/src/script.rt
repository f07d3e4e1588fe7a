//! A whole script: the world that it makes, and its rounds with what happens in them.
ghost use Rattle.std.specs.Prelude.{◌≡◌, IfErr, IfOk, OnOk, None, Some};
ghost use Rattle.plain.specs.declared.fault.Fault.TheVariants.{Malformed};
ghost use Rattle.world_scripts.specs.Scripts.{Adds, AddsLine, AddsNothing, AreLinesAdded, AddsEvent, Has, HasNoPlace, IsScriptRead, IsUnreadFor, no_parts, said_parts, with_last};
ghost use Rattle.world_scripts.specs.declared.script_line.ScriptLine.TheVariants as line;

use crate::given::{Given, default_given};
use crate::parse::line_of;
use crate::script_line::ScriptLine;
use bytes::Bytes;
use lines::text::first_line;
use plain::Fault;
use std::alloc::{AllocError, Global};
use world_rounds::{Event, Round};

/// What a whole script says.
#[derive(Drop)]
pub struct Script {
    pub given: Given,
    /// The entries with which the world's journal begins. If there are none, it begins with the world's input.
    pub entries: Vec<Bytes>,
    pub rounds: Vec<Round>,
}

/// Why a script isn't read.
#[derive(Clone, Copy)]
pub enum Unread {
    Memory,
    /// The line of this number, counted from 1, has no meaning.
    Line(u64),
}

/// What the lines so far have said.
#[derive(Drop)]
pub struct SoFar {
    pub given: Option<Given>,
    pub entries: Vec<Bytes>,
    /// The rounds but the last.
    pub rounds: Vec<Round>,
    pub round: Option<Round>,
}

/// Adds an event to the last round; `Malformed` if no round has begun.
#[tactic(auto, using(crate::proofs::Placing::no_round))]
fn add_event(so_far: &mut SoFar, event: Event) -> Result<(), Fault>
    ensures value { OnOk result
        (AddsEvent event (said_parts so_far.old) (said_parts so_far.new)) }
    ensures none { IfErr result (λ fault. fault ≡ Malformed
        → HasNoPlace (line.Event event) (said_parts so_far.old)) }
{
    match &mut so_far.round {
        Some(round) => {
            round.events.push(event)?;
            Ok(())
        }
        None => {
            drop(event);
            Err(Fault::Malformed)
        }
    }
}

/// The world is made of this; `Malformed` if another world, an entry or a round stands before.
#[tactic(auto, using(crate::proofs::Placing::world_stands, crate::proofs::Placing::entries_stand, crate::proofs::Placing::no_entries, crate::proofs::Placing::round_stands))]
fn add_world(so_far: &mut SoFar, given: Given) -> Result<(), Fault>
    ensures value { OnOk result
        (Adds (line.World given) (said_parts so_far.old) (said_parts so_far.new)) }
    ensures none { IfErr result (λ fault. fault ≡ Malformed
        → HasNoPlace (line.World given) (said_parts so_far.old)) }
{
    if so_far.given.is_some() || !so_far.entries.is_empty() || so_far.round.is_some() {
        drop(given);
        return Err(Fault::Malformed);
    }
    so_far.given = Some(given);
    Ok(())
}

/// An entry of the world's journal; `Malformed` if a round stands before.
#[tactic(auto, using(crate::proofs::Placing::round_begun))]
fn add_entry(so_far: &mut SoFar, bytes: Bytes) -> Result<(), Fault>
    ensures value { OnOk result
        (Adds (line.Entry bytes) (said_parts so_far.old) (said_parts so_far.new)) }
    ensures none { IfErr result (λ fault. fault ≡ Malformed
        → HasNoPlace (line.Entry bytes) (said_parts so_far.old)) }
{
    if so_far.round.is_some() {
        drop(bytes);
        return Err(Fault::Malformed);
    }
    so_far.entries.push(bytes)?;
    Ok(())
}

/// The last round stands among the others.
fn finish_round(so_far: &mut SoFar) -> Result<(), AllocError>
    ensures rounds { OnOk result (so_far.new.rounds.items
        ≡ with_last so_far.old.rounds.items so_far.old.round) }
    ensures given { so_far.new.given ≡ so_far.old.given }
    ensures entries { so_far.new.entries ≡ so_far.old.entries }
    ensures last { so_far.new.round ≡ None }
{
    if let Some(round) = so_far.round.take() {
        so_far.rounds.push(round)?;
    }
    Ok(())
}

/// A round begins.
fn add_round(so_far: &mut SoFar, round: Round) -> Result<(), Fault>
    ensures value { OnOk result
        (Adds (line.Round round) (said_parts so_far.old) (said_parts so_far.new)) }
    ensures none { IfErr result (λ fault. fault ≡ Malformed
        → HasNoPlace (line.Round round) (said_parts so_far.old)) }
{
    if finish_round(so_far).is_err() {
        drop(round);
        return Err(Fault::Memory);
    }
    so_far.round = Some(round);
    Ok(())
}

/// Adds a line; `Malformed` if it has no place after the lines before it.
fn add(so_far: &mut SoFar, said: ScriptLine) -> Result<(), Fault>
    ensures value { OnOk result (Adds said (said_parts so_far.old) (said_parts so_far.new)) }
    ensures none { IfErr result (λ fault. fault ≡ Malformed
        → HasNoPlace said (said_parts so_far.old)) }
{
    match said {
        ScriptLine::Nothing => Ok(()),
        ScriptLine::World(given) => add_world(so_far, given),
        ScriptLine::Entry(bytes) => add_entry(so_far, bytes),
        ScriptLine::Round(round) => add_round(so_far, round),
        ScriptLine::Event(event) => add_event(so_far, event),
    }
}

/// A line of the text more.
#[tactic(auto, using(crate::proofs::Placing::unread_adds_nothing, crate::proofs::Placing::read_adds_nothing))]
fn add_line(alloc: Global, so_far: &mut SoFar, line: &[u8]) -> Result<(), Fault>
    ensures value { OnOk result
        (AddsLine line.now (said_parts so_far.old) (said_parts so_far.new)) }
    ensures none { IfErr result (λ fault. fault ≡ Malformed
        → AddsNothing line.now (said_parts so_far.old)) }
{
    match line_of(alloc, line) {
        Ok(said) => add(so_far, said),
        Err(fault) => Err(fault),
    }
}

/// All lines of the text, one after another.
#[tactic(auto, using(crate::proofs::Reading::read_none, crate::proofs::Reading::read_more, crate::proofs::Reading::read_all, crate::proofs::Placing::begun_none, crate::proofs::Placing::begun_more, crate::proofs::Placing::stops))]
fn add_lines(alloc: Global, so_far: &mut SoFar, text: &[u8]) -> Result<(), Unread>
    ensures value { OnOk result
        (AreLinesAdded text.now (said_parts so_far.old) (said_parts so_far.new)) }
    ensures none { IfErr result (IsUnreadFor text.now (said_parts so_far.old)) }
{
    let mut number = 0u64;
    let mut rest = text;
    while !rest.is_empty() {
        let (line, behind) = first_line(rest);
        number += 1;
        match add_line(alloc, so_far, line) {
            Ok(()) => {}
            Err(Fault::Memory) => return Err(Unread::Memory),
            Err(Fault::Malformed) => return Err(Unread::Line(number)),
        }
        rest = behind;
    }
    Ok(())
}

/// The script that the lines make.
fn script_with(alloc: Global, mut so_far: SoFar) -> Result<Script, AllocError>
    ensures { IfOk result (λ script. Has (said_parts so_far) script) }
{
    finish_round(&mut so_far)?;
    let SoFar {
        given,
        entries,
        rounds,
        ..
    } = so_far;
    let given = match given {
        Some(given) => given,
        None => default_given(alloc)?,
    };
    Ok(Script {
        given,
        entries,
        rounds,
    })
}

/// What a text says, read as a whole. The last line may have no end.
pub fn script_of(alloc: Global, text: &[u8]) -> Result<Script, Unread>
    ensures value { IfOk result (IsScriptRead text.now) }
    ensures none { IfErr result (IsUnreadFor text.now no_parts) }
{
    let mut so_far = SoFar {
        given: None,
        entries: Vec::new(alloc),
        rounds: Vec::new(alloc),
        round: None,
    };
    if let Err(unread) = add_lines(alloc, &mut so_far, text) {
        return Err(unread);
    }
    match script_with(alloc, so_far) {
        Ok(script) => Ok(script),
        Err(_) => Err(Unread::Memory),
    }
}
