//! Rounds of a handler over a world's journal, one after another.
ghost use Rattle.std.specs.Prelude.{◌≡◌, IfOk, IfErr};
ghost use Rattle.vm_model.specs.Histories.{IsPrefix};
ghost use Rattle.world_rounds.specs.Executions.{IsOneExecution};
ghost use Rattle.world_rounds.specs.Fresh.{Skips};
ghost use Rattle.world_rounds.specs.Guarantees.{AttemptsAgree, CanBeReplayed, ErrorsAreTheirOwn, FaultsComeFromOutside, HasOneResultEach, HasRightKinds, IdsAreNew, IsReplayable, IsUninterrupted, Lasts, RoundsAreHonest, case_of, told};
ghost use Rattle.world_rounds.specs.Rounds.{AreWhole, ReplaysAndQueues, RoundsDo, RoundsFault};

use crate::played::play_rounds;
use crate::types::{Report, Round};
use crate::world::World;
use journal_entries::JournalFault;
use vm_types::Handler;

/// Rounds of a handler over a world's journal, one after another, each with a report. The first event that has a fault stops
/// them, and the world is gone.
pub fn run_rounds<H: Handler>(
    handler: &H,
    world: World,
    rounds: &[Round],
) -> Result<(World, Vec<Report>), JournalFault>
    // Each event does to its round's attempt and to the journal what it says, and the reports
    // tell it.
    ensures ok { IfOk result (λ r. RoundsDo (H.meaning handler.now) world.setting rounds.now
        world.journal (told r.1.items) r.0.journal) }
    ensures setting { IfOk result (λ r. r.0.setting ≡ world.setting) }
    // A fault is that of the first event that has one, the least of several; or it is want of
    // memory.
    ensures err { IfErr result (λ f.
        RoundsFault (H.meaning handler.now) world.setting rounds.now world.journal f) }
    // If the journal can be replayed, it comes from outside: the first event that has one is out of
    // memory, stores into a full journal, or is an arrival that has it on the journal as it is then.
    // What an attempt wrote can always be stored.
    ensures outside { IfErr result (λ f. CanBeReplayed (H.meaning handler.now) world
        → FaultsComeFromOutside (case_of (H.meaning handler.now) world) rounds.now
        world.journal f) }
    // The journal begins with the old one.
    ensures extends { IfOk result (λ r. IsPrefix world.journal r.0.journal) }
    // If the journal can be replayed, whoever made it, then so can the new one.
    ensures history { IfOk result (λ r.
        Lasts (IsReplayable (case_of (H.meaning handler.now) world)) world r.0) }
    // The rounds are honest then,
    ensures honest { IfOk result (λ r. CanBeReplayed (H.meaning handler.now) world
        → RoundsAreHonest (case_of (H.meaning handler.now) world) rounds.now
        world.journal (told r.1.items) r.0.journal) }
    // each report's error is its own, and no mismatch is among them,
    ensures errors { IfOk result (λ r. CanBeReplayed (H.meaning handler.now) world
        → ErrorsAreTheirOwn (case_of (H.meaning handler.now) world) rounds.now
        world.journal (told r.1.items) r.0.journal) }
    // no completion id has two results,
    ensures once { IfOk result (λ r. CanBeReplayed (H.meaning handler.now) world
        → HasOneResultEach (case_of (H.meaning handler.now) world) r.0.journal) }
    // each result of an invocation's id is one,
    ensures kinds { IfOk result (λ r. CanBeReplayed (H.meaning handler.now) world
        → HasRightKinds r.0.journal) }
    // and the attempts agree.
    ensures agree { IfOk result (λ r. CanBeReplayed (H.meaning handler.now) world
        → AttemptsAgree (case_of (H.meaning handler.now) world) r.0.journal (told r.1.items)) }
    // If one run of the handler made the journal, as it made that of a new world, then one run of
    // it makes the new journal, each command once.
    ensures one_run { IfOk result (λ r. ReplaysAndQueues world.setting.options
        → IsOneExecution (H.meaning handler.now) world.setting world.journal
        → IsOneExecution (H.meaning handler.now) world.setting r.0.journal) }
    // If no round is partial, the commands stay those of a run that nothing interrupted: where the
    // rounds stopped leaves no trace.
    ensures undisturbed { IfOk result (λ r. ReplaysAndQueues world.setting.options
        → AreWhole rounds.now
        → Lasts (IsUninterrupted (case_of (H.meaning handler.now) world)) world r.0) }
    // If the options disable replay, new commands carry new completion ids, over any journal.
    ensures fresh { IfOk result (λ r. Skips world.setting.options
        → IdsAreNew world (told r.1.items) r.0) }
{
    match play_rounds(handler, world, rounds) {
        Ok(done) => Ok(done),
        Err(stopped) => Err(stopped.at.fault),
    }
}
