//! Rounds of a handler over a world's journal, one after another, up to the place of a fault.
ghost use Rattle.std.specs.Prelude.{◌≡◌, ◌∷◌, [], ◌++◌, length, map, IfOk, IfErr, if◌then◌else◌};
ghost use Rattle.vm_model.specs.Histories.{IsPrefix};
ghost use Rattle.world_rounds.specs.Executions.{IsOneExecution};
ghost use Rattle.world_rounds.specs.Fresh.{Skips};
ghost use Rattle.world_rounds.specs.Guarantees.{AttemptsAgree, CanBeReplayed, ErrorsAreTheirOwn, FaultsComeFromOutside, HasOneResultEach, HasRightKinds, IdsAreNew, IsReplayable, IsUninterrupted, Lasts, RoundsAreHonest, StopsComeFromOutside, case_of, told};
ghost use Rattle.world_rounds.specs.Inside.{report_view};
ghost use Rattle.world_rounds.specs.Places.{RoundsStop};
ghost use Rattle.world_rounds.specs.Rounds.{AreWhole, ReplaysAndQueues, RoundsDo, RoundsFault};

use crate::placed::{PlacedFault, StoppedRounds};
use crate::round::{EventFault, out_of_memory, run_round};
use crate::types::{Report, Round};
use crate::world::World;
use vm_types::Handler;

/// Keeps a report, if there is memory.
fn keep_report(reports: &mut Vec<Report>, report: Report) -> bool
    ensures { map report_view reports.new.items
        ≡ (if result then map report_view reports.old.items ++ report_view report ∷ []
        else map report_view reports.old.items) }
{
    reports.push(report).is_ok()
}

/// The round after these reports is stopped.
fn stopped(stop: EventFault, reports: Vec<Report>) -> StoppedRounds
    ensures { result
        ≡ record {
          at = record {
            fault = stop.fault;
            round = length reports.items;
            event = stop.event;
          };
          reports = reports;
        } }
{
    let EventFault { event, fault } = stop;
    StoppedRounds {
        at: PlacedFault {
            fault,
            round: reports.len(),
            event,
        },
        reports,
    }
}

/// Rounds as `run_rounds` runs them. If a fault stops them, this answers its round, its event, and the reports of the rounds before.
pub fn play_rounds<H: Handler>(
    handler: &H,
    world: World,
    rounds: &[Round],
) -> Result<(World, Vec<Report>), StoppedRounds>
    // Each event does to its round's attempt and to the journal what it says, and the reports
    // tell it.
    ensures ok { IfOk result (λ r. RoundsDo (H.meaning handler.now) world.setting rounds.now
        world.journal (told r.1.items) r.0.journal) }
    ensures setting { IfOk result (λ r. r.0.setting ≡ world.setting) }
    // The rounds before this one ended without a fault, with these reports; the events before this
    // one happened without a fault, and this one has it.
    ensures stopped { IfErr result (λ s. RoundsStop (H.meaning handler.now) world.setting rounds.now
        world.journal (told s.reports.items) s.at) }
    // A fault is that of the first event that has one, the least of several; or it is want of
    // memory.
    ensures err { IfErr result (λ s.
        RoundsFault (H.meaning handler.now) world.setting rounds.now world.journal s.at.fault) }
    // If the journal can be replayed, it comes from outside: the first event that has one is out of
    // memory, stores into a full journal, or is an arrival that has it on the journal as it is then.
    // What an attempt wrote can always be stored.
    ensures outside { IfErr result (λ s. CanBeReplayed (H.meaning handler.now) world
        → FaultsComeFromOutside (case_of (H.meaning handler.now) world) rounds.now
        world.journal s.at.fault) }
    ensures outside_there { IfErr result (λ s. CanBeReplayed (H.meaning handler.now) world
        → StopsComeFromOutside (case_of (H.meaning handler.now) world) rounds.now
        world.journal (told s.reports.items) s.at) }
    // The journal begins with the old one.
    ensures extends { IfOk result (λ r. IsPrefix world.journal r.0.journal) }
    // If the journal can be replayed, whoever made it, then so can the new one.
    ensures history { IfOk result (λ r.
        Lasts (IsReplayable (case_of (H.meaning handler.now) world)) world r.0) }
    // The rounds are honest then,
    ensures honest { IfOk result (λ r. CanBeReplayed (H.meaning handler.now) world
        → RoundsAreHonest (case_of (H.meaning handler.now) world) rounds.now
        world.journal (told r.1.items) r.0.journal) }
    // each report's error is its own, and no mismatch is among them,
    ensures errors { IfOk result (λ r. CanBeReplayed (H.meaning handler.now) world
        → ErrorsAreTheirOwn (case_of (H.meaning handler.now) world) rounds.now
        world.journal (told r.1.items) r.0.journal) }
    // no completion id has two results,
    ensures once { IfOk result (λ r. CanBeReplayed (H.meaning handler.now) world
        → HasOneResultEach (case_of (H.meaning handler.now) world) r.0.journal) }
    // each result of an invocation's id is one,
    ensures kinds { IfOk result (λ r. CanBeReplayed (H.meaning handler.now) world
        → HasRightKinds r.0.journal) }
    // and the attempts agree.
    ensures agree { IfOk result (λ r. CanBeReplayed (H.meaning handler.now) world
        → AttemptsAgree (case_of (H.meaning handler.now) world) r.0.journal (told r.1.items)) }
    // If one run of the handler made the journal, as it made that of a new world, then one run of
    // it makes the new journal, each command once.
    ensures one_run { IfOk result (λ r. ReplaysAndQueues world.setting.options
        → IsOneExecution (H.meaning handler.now) world.setting world.journal
        → IsOneExecution (H.meaning handler.now) world.setting r.0.journal) }
    // If no round is partial, the commands stay those of a run that nothing interrupted: where the
    // rounds stopped leaves no trace.
    ensures undisturbed { IfOk result (λ r. ReplaysAndQueues world.setting.options
        → AreWhole rounds.now
        → Lasts (IsUninterrupted (case_of (H.meaning handler.now) world)) world r.0) }
    // If the options disable replay, new commands carry new completion ids, over any journal.
    ensures fresh { IfOk result (λ r. Skips world.setting.options
        → IdsAreNew world (told r.1.items) r.0) }
{
    let World {
        alloc,
        setting,
        mut journal,
    } = world;
    let mut reports = Vec::new(alloc);
    for round in rounds {
        match run_round(alloc, &setting, handler, journal, round) {
            Err(stop) => return Err(stopped(stop, reports)),
            Ok((next, report)) => {
                journal = next;
                if !keep_report(&mut reports, report) {
                    return Err(stopped(out_of_memory(), reports));
                }
            }
        }
    }
    Ok((
        World {
            alloc,
            setting,
            journal,
        },
        reports,
    ))
}
