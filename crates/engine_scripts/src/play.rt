//! A script that is played: its events over an engine without invocations, and their report.
ghost use Rattle.std.specs.Prelude.{IfErr, IfOk, OnOk};
ghost use Rattle.engine_inboxes.specs.Faults.{IsNoArrival};
ghost use Rattle.engine_scripts.specs.Runs.{AllDo, EventsEnd, IsNew, PlaysEvents, EngineScriptEnds, TellsEvent};

use crate::happen::happens;
use crate::report::print_engine;
use call_lines::plan::Plan;
use engine_inboxes::{EngineFault, Target};
use engine_lines::parts::print_did;
use engine_lines::script::{Numbered, Script, Unread, script_of};
use engine_lines::targets::targets_of;
use engines::Engine;
use journal_protocol::Version;
use lines::line::Line;
use std::alloc::{AllocError, Global};
use vm_types::VMOptions;

/// The report of a script; or the fault that stopped it, if one did, and then no report.
#[derive(Drop)]
pub struct Played {
    pub report: Line,
    pub stop: Option<EngineFault>,
}

/// An engine of these handlers, without an invocation.
fn new_engine<'a>(alloc: Global, version: Version, targets: &'a [Target<Plan>]) -> Engine<'a, Plan>
    ensures { IsNew version targets.now result }
{
    Engine {
        alloc,
        targets,
        options: VMOptions::default(),
        version,
        clock: 0,
        invocations: Vec::new(alloc),
    }
}

/// An event of the script, and its line in the report.
fn next(engine: &mut Engine<Plan>, numbered: Numbered, report: &mut Line) -> Result<(), EngineFault>
    ensures does { OnOk result (TellsEvent numbered engine.old report.old engine.new report.new) }
    ensures err { IfErr result IsNoArrival }
{
    let Numbered { line, event } = numbered;
    let did = happens(engine, event)?;
    match print_did(line, did, report) {
        Ok(()) => Ok(()),
        Err(_) => Err(EngineFault::Memory),
    }
}

/// All events, one after another. The first that has a fault stops them.
#[tactic(auto, using(crate::proofs::Playing::does_none, crate::proofs::Playing::does_more, crate::proofs::Playing::does_all))]
fn all(
    engine: &mut Engine<Plan>,
    events: Vec<Numbered>,
    report: &mut Line,
) -> Result<(), EngineFault>
    ensures does { OnOk result (AllDo events.items engine.old report.old engine.new report.new) }
    ensures err { IfErr result IsNoArrival }
{
    for numbered in events {
        next(engine, numbered, report)?;
    }
    Ok(())
}

/// The report of a script's events.
#[tactic(auto, using(crate::proofs::Playing::all_kept))]
fn report_of(
    alloc: Global,
    version: Version,
    targets: &[Target<Plan>],
    events: Vec<Numbered>,
) -> Result<Played, AllocError>
    ensures { IfOk result (λ played. EventsEnd version targets.now events.items played.stop
        played.report) }
{
    let mut engine = new_engine(alloc, version, targets);
    let mut report = Line::new(alloc);
    let happened = all(&mut engine, events, &mut report);
    match happened {
        Ok(()) => {
            print_engine(&engine, &mut report)?;
            Ok(Played { report, stop: None })
        }
        Err(EngineFault::Memory) => Err(AllocError),
        Err(fault) => Ok(Played {
            report: Line::new(alloc),
            stop: Some(fault),
        }),
    }
}

/// Plays a script.
fn play(alloc: Global, version: Version, script: Script) -> Result<Played, AllocError>
    ensures { IfOk result (λ played. EngineScriptEnds version script played.stop played.report) }
{
    let Script { handlers, events } = script;
    let targets = targets_of(alloc, handlers)?;
    let played = report_of(alloc, version, targets.as_slice(), events)?;
    Ok(played)
}

/// Reads a whole script, and then plays it.
pub fn play_text(alloc: Global, version: Version, text: &[u8]) -> Result<Played, Unread>
    ensures { IfOk result (λ played. PlaysEvents version text.now played.stop played.report) }
{
    match script_of(alloc, text) {
        Err(unread) => Err(unread),
        Ok(script) => match play(alloc, version, script) {
            Ok(played) => Ok(played),
            Err(_) => Err(Unread::Memory),
        },
    }
}
