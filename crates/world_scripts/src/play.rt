//! A script that is played: its rounds over its world, and their report.
ghost use Rattle.std.specs.Prelude.{◌≡◌, [], IfErr, IfOk, OnOk};
ghost use Rattle.journal_entries.specs.Given.{AreGiven};
ghost use Rattle.world_scripts.specs.Scripts.{IsScriptRead, IsUnreadFor, no_parts};
ghost use Rattle.world_scripts.specs.Runs.{MakeNoWorld, Plays, RoundsEnd, ScriptEnds, first_journal, setting_of};

use crate::given::Given;
use crate::report::{report_of, report_of_fault};
use crate::script::{Script, Unread, script_of};
use crate::stop::Stop;
use bytes::Bytes;
use journal_entries::JournalFault;
use journal_protocol::Version;
use lines::line::Line;
use std::alloc::{AllocError, Global};
use vm_types::Handler;
use world_rounds::{Round, World, play_rounds};

/// The report of a script, and what stopped it, if a fault did.
#[derive(Drop)]
pub struct Played {
    pub report: Line,
    pub stop: Option<Stop>,
}

/// The world of a script: it begins with the entries, or with its input if there are none.
#[tactic(auto, using(crate::proofs::Playing::begins_with_input, crate::proofs::Playing::none_has_a_fault, crate::proofs::Playing::input_makes_no_world, crate::proofs::Playing::begins_with_entries, crate::proofs::Playing::entries_make_no_world))]
pub(crate) fn world_of(
    alloc: Global,
    version: Version,
    given: Given,
    entries: Vec<Bytes>,
) -> Result<World, JournalFault>
    ensures setting { IfOk result (λ world. world.setting ≡ setting_of version given) }
    ensures journal { IfOk result (λ world. world.journal
        ≡ first_journal given.input entries.items) }
    ensures fits { OnOk result (AreGiven [] entries.items) }
    ensures err { IfErr result (MakeNoWorld entries.items) }
{
    let Given {
        identity,
        options,
        input,
        state,
    } = given;
    if entries.is_empty() {
        return match World::new(alloc, identity, options, version, input, state) {
            Ok(world) => Ok(world),
            Err(fault) => Err(fault),
        };
    }
    match World::with_journal(alloc, identity, options, version, state, entries) {
        Ok(world) => Ok(world),
        Err(fault) => Err(fault),
    }
}

/// Plays rounds over a world, and reports them.
fn report_rounds<H: Handler>(
    alloc: Global,
    handler: &H,
    world: World,
    rounds: &[Round],
) -> Result<Played, AllocError>
    ensures { IfOk result (λ played. RoundsEnd (H.meaning handler.now) world.setting rounds.now
        world.journal played.stop played.report) }
{
    match play_rounds(handler, world, rounds) {
        Ok((world, reports)) => Ok(Played {
            report: report_of(alloc, &world, reports.as_slice())?,
            stop: None,
        }),
        Err(stopped) => Ok(Played {
            report: report_of_fault(alloc, stopped.at.fault)?,
            stop: Some(Stop::Rounds(stopped.at)),
        }),
    }
}

/// Plays a script.
#[tactic(auto, using(crate::proofs::Playing::is_played, crate::proofs::Playing::has_no_world))]
fn play<H: Handler>(
    alloc: Global,
    version: Version,
    handler: &H,
    script: Script,
) -> Result<Played, AllocError>
    ensures { IfOk result (λ played. ScriptEnds (H.meaning handler.now) version script played.stop
        played.report) }
{
    let Script {
        given,
        entries,
        rounds,
    } = script;
    match world_of(alloc, version, given, entries) {
        Ok(world) => {
            let played = report_rounds(alloc, handler, world, rounds.as_slice())?;
            Ok(played)
        }
        Err(fault) => Ok(Played {
            report: report_of_fault(alloc, fault)?,
            stop: Some(Stop::World(fault)),
        }),
    }
}

/// Reads a whole script, and then plays it.
pub fn play_text<H: Handler>(
    alloc: Global,
    version: Version,
    handler: &H,
    text: &[u8],
) -> Result<Played, Unread>
    ensures plays { IfOk result
        (λ played. Plays (H.meaning handler.now) version text.now played.stop played.report) }
    ensures unread { IfErr result (IsUnreadFor text.now no_parts) }
{
    match script_of(alloc, text) {
        Err(unread) => Err(unread),
        Ok(script) => match play(alloc, version, handler, script) {
            Ok(played) => Ok(played),
            Err(_) => Err(Unread::Memory),
        },
    }
}
