//! An engine whose attempts name their epochs.
ghost use Rattle.std.specs.Prelude.{◌≡◌, IfErr, IfOk, OnOk};
ghost use Rattle.engines.specs.Between.{AllKept};
ghost use Rattle.engine_inboxes.specs.Faults.{IsMemoryOrFull, IsNoArrival};
ghost use Rattle.engines.specs.Replaying.{AllReplay};
ghost use Rattle.world_rounds.specs.Rounds.{ReplaysAndQueues};
ghost use Rattle.engine_fences.specs.Causes.{InboxesHaveCauses};
ghost use Rattle.engine_fences.specs.Completions.{CompletionsAreAskedFor, CompletionsAreOwn};
ghost use Rattle.engine_fences.specs.KeyStates.{StatesAreHandedOn};
ghost use Rattle.engine_fences.specs.Signals.{NoneFromNowhere};
ghost use Rattle.engine_fences.specs.Fences.{AllFenced, FencedDoes, NamesEpoch, grants};

use crate::epochs::Epochs;
use engine_inboxes::{EngineFault, Target};
use engines::{Engine, Happening};
use journal_protocol::Version;
use std::alloc::Global;
use vm_types::{Handler, VMOptions};

/// What happens, and by which attempt.
#[derive(Drop)]
pub struct Asked {
    /// Of the attempt that begins, acts, is delivered to, stores or stops. For what isn't an attempt's it is any number.
    pub epoch: u64,
    pub happening: Happening,
}

/// An engine, and the epoch of the newest attempt of each invocation. The others are lost, and may not know it: they go on elsewhere.
pub struct FencedEngine<'a, H: Handler + Drop> {
    pub engine: Engine<'a, H>,
    pub epochs: Epochs,
}

/// Written out, as for an engine.
impl<'a, H: Handler + Drop> Drop for FencedEngine<'a, H> {
    fn drop(self) {
        let Self { engine, epochs } = self;
        drop(engine);
        drop(epochs);
    }
}

/// An attempt that begins is its invocation's newest.
fn name_epoch(epochs: &mut Epochs, epoch: u64, happening: &Happening) -> Result<(), EngineFault>
    ensures names { OnOk result (NamesEpoch epoch happening.now epochs.old epochs.new) }
    ensures err { IfErr result IsMemoryOrFull }
{
    match happening {
        Happening::Begin(place) => match epochs.take(*place, epoch) {
            Ok(()) => Ok(()),
            Err(_) => Err(EngineFault::Memory),
        },
        _ => Ok(()),
    }
}

impl<'a, H: Handler + Drop> FencedEngine<'a, H> {
    /// An engine before whose fence no attempt has begun.
    pub fn of(engine: Engine<'a, H>) -> Self
        ensures { result.engine ≡ engine.entry }
    {
        let epochs = Epochs::new(engine.alloc);
        FencedEngine { engine, epochs }
    }

    /// Whether this is granted. What an attempt asks for is, if it is the newest of its invocation. A begin is, if an attempt may begin and
    /// its epoch is greater than that of the newest one.
    pub fn grants(&self, epoch: u64, happening: &Happening) -> bool
        ensures { result ≡ grants self.now epoch happening.now }
    {
        match happening {
            Happening::Begin(place) => {
                self.epochs.of(*place) < epoch && self.engine.may_begin(*place)
            }
            Happening::Act(place, _) => self.epochs.of(*place) == epoch,
            Happening::Deliver(place, _) => self.epochs.of(*place) == epoch,
            Happening::Store(place) => self.epochs.of(*place) == epoch,
            Happening::Stop(place) => self.epochs.of(*place) == epoch,
            Happening::Submit(_) | Happening::StopAll | Happening::Clock(_) => true,
        }
    }

    /// One event. If it isn't granted nothing changes.
    pub fn happen(&mut self, asked: &Asked) -> Result<(), EngineFault>
        ensures does { OnOk result (FencedDoes (λ h. H.meaning h) asked.now self.old self.new) }
        ensures err { IfErr result IsNoArrival }
        // If all attempts replay and queue, out of memory and a full journal are the only faults.
        ensures replaying { IfErr result (λ f. AllReplay self.old.engine → IsMemoryOrFull f) }
    {
        if !self.grants(asked.epoch, &asked.happening) {
            return Ok(());
        }
        match name_epoch(&mut self.epochs, asked.epoch, &asked.happening) {
            Err(fault) => Err(fault),
            Ok(()) => self.engine.happen(&asked.happening),
        }
    }
}

/// Events, one after another. The first that has a fault stops the engine.
pub fn run_fenced<'a, H: Handler + Drop>(
    engine: FencedEngine<'a, H>,
    events: &[Asked],
) -> Result<FencedEngine<'a, H>, EngineFault>
    // What each event does, one after another.
    ensures does { IfOk result (AllFenced (λ h. H.meaning h) events.now engine.entry) }
    // No arrival has a fault.
    ensures err { IfErr result IsNoArrival }
    // If all attempts replay and queue, out of memory and a full journal are the only faults.
    ensures replaying { IfErr result (λ f. AllReplay engine.entry.engine → IsMemoryOrFull f) }
{
    let mut engine = engine;
    for asked in events {
        match engine.happen(asked) {
            Ok(()) => {}
            Err(fault) => return Err(fault),
        }
    }
    Ok(engine)
}

/// Events over an engine that has no invocation yet.
pub fn play_fenced<'a, H: Handler + Drop>(
    alloc: Global,
    targets: &'a [Target<H>],
    options: VMOptions,
    version: Version,
    events: &[Asked],
) -> Result<FencedEngine<'a, H>, EngineFault>
    // What holds between invocations holds also while attempts that are lost go on, and ask for more.
    ensures kept { IfOk result (λ f. AllKept f.engine) }
    // Attempts are handed the state that the exclusive invocations of their key that were made before leave, one after another.
    ensures states { IfOk result (λ f. StatesAreHandedOn f.engine) }
    // No signal comes that wasn't sent.
    ensures signals { IfOk result (λ f. NoneFromNowhere f.engine) }
    // All that waits can come, or it is a sleep whose time hasn't come, or the result of an invocation that hasn't ended.
    ensures inboxes { IfOk result (λ f. InboxesHaveCauses f.engine) }
    // Each completion in a journal is of an id that a stored command before it carries, and of this command's kind.
    ensures completions { IfOk result (λ f. CompletionsAreAskedFor f.engine) }
    // If recorded commands are replayed and signals queue, it completes a call, a one-way call, a sleep or a run.
    ensures own { IfOk result (λ f. ReplaysAndQueues options → CompletionsAreOwn f.engine) }
    // No arrival has a fault.
    ensures err { IfErr result IsNoArrival }
    // If recorded commands are replayed and signals queue, out of memory and a full journal are the only faults.
    ensures replaying { IfErr result (λ f. ReplaysAndQueues options → IsMemoryOrFull f) }
{
    let engine = Engine::new(alloc, targets, options, version);
    run_fenced(FencedEngine::of(engine), events)
}
