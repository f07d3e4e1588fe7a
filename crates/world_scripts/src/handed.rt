//! What an attempt is handed in the rounds of a script that have an error, to make the attempt once more.
ghost use Rattle.std.specs.Prelude.{◌≤◌, length};
ghost use Rattle.journal_entries.specs.Arrivals.{most_entries};

use crate::given::Given;
use crate::play::world_of;
use crate::script::{Script, script_of};
use bytes::Bytes;
use journal_protocol::{Error, Version};
use plain::{Items, Text};
use std::alloc::{AllocError, Global};
use vm_types::{Handler, VMOptions};
use world_rounds::handed::start_bytes;
use world_rounds::{Report, Round, Setting, World, play_rounds};

/// A round that has an error.
#[derive(Drop)]
pub struct FailedRound {
    /// Counted from 1.
    pub number: u64,
    pub error: Error,
    /// Start and the journal before the round.
    pub before: Bytes,
    /// Start and the journal after it.
    pub after: Bytes,
}

/// What all attempts are made with.
fn setting_of(alloc: Global, version: Version, given: Given) -> Result<Setting, AllocError> {
    let Given {
        identity,
        options,
        input: _,
        state,
    } = given;
    let mut base = Items::new(alloc);
    for (key, value) in state {
        base.push((Text::from_string(key), value))?;
    }
    Ok(Setting {
        identity,
        options,
        version,
        base,
    })
}

/// What an attempt of a round is handed of a journal.
fn handed(
    alloc: Global,
    setting: &Setting,
    round: &Round,
    journal: &[Bytes],
) -> Result<Bytes, AllocError>
    requires { length journal.now ≤ most_entries }
{
    let start = start_bytes(alloc, setting, round, journal)?;
    let mut input = Vec::new(alloc);
    input.extend_from_slice(start.as_slice())?;
    for entry in journal {
        input.extend_from_slice(entry.as_slice())?;
    }
    Ok(Bytes::from_vec(input)?)
}

/// As `handed`; nothing of a journal that is too long to be handed out.
fn handed_of(
    alloc: Global,
    setting: &Setting,
    round: &Round,
    journal: &[Bytes],
) -> Result<Bytes, AllocError> {
    if journal.len() <= 4_294_967_295 {
        handed(alloc, setting, round, journal)
    } else {
        Ok(Bytes::new())
    }
}

/// The error of a round that was played alone, if it has one.
fn error_of(reports: Vec<Report>) -> Result<Option<Error>, AllocError> {
    match reports.as_slice() {
        [report] => report.error.clone(),
        _ => Ok(None),
    }
}

/// A round that has this error, and left this journal.
fn failed_round(
    alloc: Global,
    setting: &Setting,
    round: &Round,
    number: u64,
    error: Error,
    before: Bytes,
    journal: &[Bytes],
) -> Result<FailedRound, AllocError> {
    let after = handed_of(alloc, setting, round, journal)?;
    Ok(FailedRound {
        number,
        error,
        before,
        after,
    })
}

/// Plays rounds one by one, and adds those that have an error.
fn add_failed<H: Handler>(
    alloc: Global,
    handler: &H,
    setting: &Setting,
    mut world: World,
    rounds: &[Round],
    failed: &mut Vec<FailedRound>,
) -> Result<(), AllocError> {
    for at in 0..rounds.len() {
        let round = &rounds[at];
        let before = handed_of(alloc, setting, round, world.journal())?;
        let Ok((next, reports)) = play_rounds(handler, world, &rounds[at..at + 1]) else {
            return Ok(());
        };
        world = next;
        if let Some(error) = error_of(reports)? {
            let number = at as u64 + 1;
            let journal = world.journal();
            failed.push(failed_round(alloc, setting, round, number, error, before, journal)?)?;
        }
    }
    Ok(())
}

/// Adds the rounds of a script that have an error, up to one that is stopped by a fault. A script that isn't read, or makes no world, has none.
fn add_failed_of_script<H: Handler>(
    alloc: Global,
    version: Version,
    handler: &H,
    setting: &Setting,
    text: &[u8],
    failed: &mut Vec<FailedRound>,
) -> Result<(), AllocError> {
    let Ok(
        Script {
            given,
            entries,
            rounds,
        },
    ) = script_of(alloc, text)
    else {
        return Ok(());
    };
    let Ok(world) = world_of(alloc, version, given, entries) else {
        return Ok(());
    };
    add_failed(alloc, handler, setting, world, rounds.as_slice(), failed)
}

/// What a script makes attempts with, if it is read.
fn setting_in(alloc: Global, version: Version, text: &[u8]) -> Result<Option<Setting>, AllocError> {
    match script_of(alloc, text) {
        Ok(script) => Ok(Some(setting_of(alloc, version, script.given)?)),
        Err(_) => Ok(None),
    }
}

/// The options of a script's world, and its rounds that have an error. A script that isn't read has the usual options, and no rounds.
pub fn failed_rounds<H: Handler>(
    alloc: Global,
    version: Version,
    handler: &H,
    text: &[u8],
) -> Result<(VMOptions, Vec<FailedRound>), AllocError> {
    let mut failed = Vec::new(alloc);
    let Some(setting) = setting_in(alloc, version, text)? else {
        return Ok((VMOptions::default(), failed));
    };
    add_failed_of_script(alloc, version, handler, &setting, text, &mut failed)?;
    Ok((setting.options, failed))
}
