//! A whole script: handlers with their steps, and then what happens.
ghost use Rattle.std.specs.Prelude.{◌≡◌, None, IfOk, OnOk};
ghost use Rattle.engine_lines.specs.declared.said.Said.TheVariants as said;
ghost use Rattle.engine_lines.specs.Scripts.{AddsToScript, AddsScriptLine, IsTextAdded, HasSaid, IsEngineScript, no_script, script_parts, with_last_handler};

use crate::parse::line_of;
use crate::said::{Event, Named, Said};
use lines::text::first_line;
use plain::{Fault, Items};
use std::alloc::{AllocError, Global};
use vm_types::Step;

/// A handler and its steps.
#[derive(Drop)]
pub struct Planned {
    pub named: Named,
    pub steps: Items<Step>,
}

/// What happens, and in which line, counted from 1.
#[derive(Drop)]
pub struct Numbered {
    pub line: u64,
    pub event: Event,
}

/// What a whole script says.
#[derive(Drop)]
pub struct Script {
    pub handlers: Vec<Planned>,
    pub events: Vec<Numbered>,
}

/// Why a script isn't read.
#[derive(Clone, Copy)]
pub enum Unread {
    Memory,
    /// The line of this number, counted from 1, has no meaning.
    Line(u64),
}

/// What the lines so far have said.
#[derive(Drop)]
pub struct SoFar {
    /// The handlers but the one whose steps may follow.
    pub handlers: Vec<Planned>,
    pub last: Option<Planned>,
    pub events: Vec<Numbered>,
}

/// Whether a handler has these names.
fn has_names(planned: &Planned, named: &Named) -> bool {
    planned.named.service == named.service && planned.named.handler == named.handler
}

/// Whether a handler that was said before has these names.
fn is_there(so_far: &SoFar, named: &Named) -> bool {
    for planned in &so_far.handlers {
        if has_names(planned, named) {
            return true;
        }
    }
    match &so_far.last {
        Some(planned) => has_names(planned, named),
        None => false,
    }
}

/// No further step of the last handler follows.
fn finish_handler(so_far: &mut SoFar) -> Result<(), AllocError>
    ensures handlers { OnOk result (so_far.new.handlers.items
        ≡ with_last_handler so_far.old.handlers.items so_far.old.last) }
    ensures events { so_far.new.events ≡ so_far.old.events }
    ensures last { so_far.new.last ≡ None }
{
    if let Some(planned) = so_far.last.take() {
        so_far.handlers.push(planned)?;
    }
    Ok(())
}

/// A handler more; `Malformed` if an event stands before, or one of the same names.
#[tactic(auto, using(crate::proofs::Reading::none_stands))]
fn add_handler(alloc: Global, so_far: &mut SoFar, named: Named) -> Result<(), Fault>
    ensures { OnOk result (AddsToScript 0 (said.Handler named) (script_parts so_far.old)
        (script_parts so_far.new)) }
{
    if !so_far.events.is_empty() || is_there(so_far, &named) {
        drop(named);
        return Err(Fault::Malformed);
    }
    if finish_handler(so_far).is_err() {
        drop(named);
        return Err(Fault::Memory);
    }
    so_far.last = Some(Planned {
        named,
        steps: Items::new(alloc),
    });
    Ok(())
}

/// A step more of the last handler; `Malformed` if no handler's steps may stand here.
fn add_step(so_far: &mut SoFar, step: Step) -> Result<(), Fault>
    ensures { OnOk result (AddsToScript 0 (said.Step step) (script_parts so_far.old)
        (script_parts so_far.new)) }
{
    match &mut so_far.last {
        Some(planned) => {
            planned.steps.push(step)?;
            Ok(())
        }
        None => {
            drop(step);
            Err(Fault::Malformed)
        }
    }
}

/// An event more.
fn add_event(so_far: &mut SoFar, line: u64, event: Event) -> Result<(), Fault>
    ensures { OnOk result (AddsToScript line (said.Event event) (script_parts so_far.old)
        (script_parts so_far.new)) }
{
    if finish_handler(so_far).is_err() {
        drop(event);
        return Err(Fault::Memory);
    }
    so_far.events.push(Numbered { line, event })?;
    Ok(())
}

/// Adds what the line of this number says; `Malformed` if it has no place after the lines before it.
fn add(alloc: Global, so_far: &mut SoFar, line: u64, said: Said) -> Result<(), Fault>
    ensures { OnOk result (AddsToScript line said (script_parts so_far.old)
        (script_parts so_far.new)) }
{
    match said {
        Said::Nothing => Ok(()),
        Said::Handler(named) => add_handler(alloc, so_far, named),
        Said::Step(step) => add_step(so_far, step),
        Said::Event(event) => add_event(so_far, line, event),
    }
}

/// A line of the text more.
fn add_line(alloc: Global, so_far: &mut SoFar, number: u64, line: &[u8]) -> Result<(), Fault>
    ensures { OnOk result (AddsScriptLine number line.now (script_parts so_far.old)
        (script_parts so_far.new)) }
{
    match line_of(alloc, line) {
        Ok(said) => add(alloc, so_far, number, said),
        Err(fault) => Err(fault),
    }
}

/// All lines of the text, one after another.
#[tactic(auto, using(crate::proofs::Reading::read_none, crate::proofs::Reading::read_more, crate::proofs::Reading::read_all))]
fn add_lines(alloc: Global, so_far: &mut SoFar, text: &[u8]) -> Result<(), Unread>
    ensures { OnOk result (IsTextAdded 0 text.now (script_parts so_far.old)
        (script_parts so_far.new)) }
{
    let mut number = 0u64;
    let mut rest = text;
    while !rest.is_empty() {
        let (line, behind) = first_line(rest);
        number += 1;
        match add_line(alloc, so_far, number, line) {
            Ok(()) => {}
            Err(Fault::Memory) => return Err(Unread::Memory),
            Err(Fault::Malformed) => return Err(Unread::Line(number)),
        }
        rest = behind;
    }
    Ok(())
}

/// The script that the lines make.
fn script_with(mut so_far: SoFar) -> Result<Script, AllocError>
    ensures { IfOk result (λ script. HasSaid (script_parts so_far) script) }
{
    finish_handler(&mut so_far)?;
    let SoFar {
        handlers,
        events,
        ..
    } = so_far;
    Ok(Script { handlers, events })
}

/// What a text says, read as a whole. The last line may have no end.
pub fn script_of(alloc: Global, text: &[u8]) -> Result<Script, Unread>
    ensures { IfOk result (IsEngineScript text.now) }
{
    let mut so_far = SoFar {
        handlers: Vec::new(alloc),
        last: None,
        events: Vec::new(alloc),
    };
    if let Err(unread) = add_lines(alloc, &mut so_far, text) {
        return Err(unread);
    }
    match script_with(so_far) {
        Ok(script) => Ok(script),
        Err(_) => Err(Unread::Memory),
    }
}
