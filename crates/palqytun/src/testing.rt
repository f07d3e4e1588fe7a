//! Crash tests: a world holds an invocation's journal, and rounds play attempts over it that die where you say.
ghost use Rattle.std.specs.Prelude.{◌≡◌, ◌↔◌, IfOk, IsOk, OnOk, vec_len};
ghost use Rattle.palqytun.specs.Reports.{HasError, commands_sent, ending_of};
ghost use Rattle.palqytun.specs.Worlds.{test_world};
ghost use Rattle.world_rounds.specs.Guarantees.{told};
ghost use Rattle.world_rounds.specs.Rounds.{RoundsDo};

pub use crate::frames::{
    cancel, failed, failed_output, input, invocation_id, named_signal, output, signal, sleep,
    value, void,
};
pub use crate::reports::{Ending, commands_sent, ending_of};
pub use crate::worlds::WorldBuilder;
use await_trees::NotificationHandle;
use bytes::Bytes;
pub use journal_entries::JournalFault;
use plain::Items;
use std::alloc::{AllocError, Global};
use std::test::Fail;
use vm_retries::RetryPolicy;
use vm_types::{Handler, RunExitResult};
pub use world_rounds::{
    Event, Identity, PlacedFault, Report, Round, StoppedRounds, World, play_rounds, run_rounds,
};

fn no_world(fault: JournalFault) -> Fail {
    Fail::new(format_args!("there is no world: {fault}"))
}

fn fail(stopped: &StoppedRounds) -> Fail {
    Fail::new(format_args!("the rounds stopped in {}", stopped.at))
}

/// The world of an invocation "test" in version 7 with this input, the options' defaults, no key and no state. `WorldBuilder` makes
/// others.
pub fn world_of(alloc: Global, input: &'static [u8]) -> Result<World, Fail>
    ensures { IfOk result (λ w. w ≡ test_world input.now) }
{
    match WorldBuilder::new(alloc, input)?.build() {
        Ok(world) => Ok(world),
        Err(fault) => Err(no_world(fault)),
    }
}

/// What happens in one attempt, in order, until it dies.
#[derive(Drop)]
pub struct Plan {
    events: Items<Event>,
}

/// An attempt that nothing has happened to yet.
pub fn round(alloc: Global) -> Plan {
    Plan {
        events: Items::new(alloc),
    }
}

impl Plan {
    fn then(mut self, event: Event) -> Result<Plan, AllocError> {
        self.events.push(event)?;
        Ok(self)
    }

    /// It is fed all bytes that wait.
    pub fn feed(self) -> Result<Plan, AllocError> {
        self.then(Event::Piece(usize::MAX))
    }

    /// The handler makes this number of steps.
    pub fn step(self, times: usize) -> Result<Plan, AllocError> {
        self.then(Event::Steps(times as u64))
    }

    /// A result arrives: it is stored, and waits to be fed.
    pub fn arrive(self, frame: Bytes) -> Result<Plan, AllocError> {
        self.then(Event::Arrive(frame))
    }

    /// The run of this handle has been executed, and has given these bytes; a handler's handles count from 17.
    pub fn run_gives(self, handle: u32, bytes: &'static [u8]) -> Result<Plan, AllocError> {
        let given = RunExitResult::Success(Bytes::from_static(bytes));
        let handle = NotificationHandle::from(handle);
        self.then(Event::RunResult(handle, given, RetryPolicy::default()))
    }

    /// All commands and results of runs that were written are stored.
    pub fn store_all(self) -> Result<Plan, AllocError> {
        self.then(Event::Store(usize::MAX))
    }

    /// No more bytes come.
    pub fn close(self) -> Result<Plan, AllocError> {
        self.then(Event::Close)
    }

    /// The process dies here. What wasn't stored is lost.
    pub fn crash(self) -> Round {
        let Plan { events } = self;
        let keys = Items::new(events.alloc());
        Round {
            partial: false,
            keys,
            retry_count: 0,
            duration: 0,
            events,
        }
    }
}

/// Rounds of a handler over a world's journal, one after another, each with a report. If an event can't happen, the failure says
/// which, and why.
pub fn play<H: Handler>(
    handler: &H,
    world: World,
    rounds: &[Round],
) -> Result<(World, Vec<Report>), Fail>
    ensures played { IfOk result (λ r. RoundsDo (H.meaning handler.now) world.setting rounds.now
        world.journal (told r.1.items) r.0.journal) }
    ensures setting { IfOk result (λ r. r.0.setting ≡ world.setting) }
{
    match play_rounds(handler, world, rounds) {
        Ok(played) => Ok(played),
        Err(stopped) => Err(fail(&stopped)),
    }
}

/// One attempt for each step: the first makes one step, the next two, and so on. What each has written is stored; then what
/// arrives after this step is stored too, and the process dies.
pub fn crash_at_each_step<H: Handler>(
    alloc: Global,
    handler: &H,
    world: World,
    steps: usize,
    arrivals: &[(usize, Bytes)],
) -> Result<World, Fail> {
    crash_at_each_step_with_runs(alloc, handler, world, steps, &[], arrivals)
}

/// The same of a handler that has runs. `runs` says after which step the run of which handle has given which bytes, before what the
/// attempt has written is stored.
pub fn crash_at_each_step_with_runs<H: Handler>(
    alloc: Global,
    handler: &H,
    world: World,
    steps: usize,
    runs: &[(usize, u32, &'static [u8])],
    arrivals: &[(usize, Bytes)],
) -> Result<World, Fail> {
    let mut rounds = Vec::new(alloc);
    for made in 1..=steps {
        let mut plan = round(alloc).feed()?.step(made)?;
        for (after, handle, bytes) in runs {
            if *after == made {
                plan = plan.run_gives(*handle, *bytes)?;
            }
        }
        plan = plan.store_all()?;
        for (after, frame) in arrivals {
            if *after == made {
                plan = plan.arrive(frame.clone()?)?;
            }
        }
        rounds.push(plan.crash())?;
    }
    let (world, _) = play(handler, world, rounds.as_slice())?;
    Ok(world)
}

/// The journal's entry at this place, from 0 on, is this one; else the failure says what stands there.
pub fn expect_entry(world: &World, at: usize, entry: &Bytes) -> Result<(), Fail> {
    let entries = world.journal();
    match entries.get(at) {
        Some(found) if found.as_slice() == entry.as_slice() => Ok(()),
        Some(found) => Err(Fail::new(format_args!(
            "entry {at} of the journal is {found:?}, and not {entry:?}"
        ))),
        None => Err(Fail::new(format_args!(
            "the journal has no entry {at}: it has {}",
            entries.len()
        ))),
    }
}

/// The journal's last entry is this one; else the failure says what it is.
pub fn expect_end(world: &World, entry: &Bytes) -> Result<(), Fail> {
    match world.journal().len() {
        0 => Err(Fail::from("the journal has no entries")),
        entries => expect_entry(world, entries - 1, entry),
    }
}

/// The attempt has ended so; else the failure says how it did.
pub fn expect_ending(report: &Report, ending: Ending) -> Result<(), Fail>
    ensures { OnOk result (ending_of report.now ≡ ending) }
{
    let found = ending_of(report)?;
    if found == ending {
        return Ok(());
    }
    match &report.error {
        Some(error) => Err(Fail::new(format_args!(
            "the attempt has failed with {error}, and its ending is not {ending:?}"
        ))),
        None => Err(Fail::new(format_args!(
            "the attempt's ending is {found:?}, and not {ending:?}"
        ))),
    }
}

/// The attempt has failed with this code and text; else the failure says with what it did.
pub fn expect_error(report: &Report, code: u16, message: &str) -> Result<(), Fail>
    ensures { IsOk result ↔ HasError code message.now report.now.error }
{
    match &report.error {
        Some(error) if error.code() == code && error.message() == message => Ok(()),
        Some(error) => Err(Fail::new(format_args!(
            "the attempt's error is {error}, and not [{code}] {message}"
        ))),
        None => Err(Fail::new(format_args!(
            "the attempt has no error; it should be [{code}] {message}"
        ))),
    }
}

/// The handler was answered this many times, its input counted; else the failure says how often.
pub fn expect_answers(report: &Report, count: usize) -> Result<(), Fail>
    ensures { IsOk result ↔ (vec_len report.now.answers ≡ count) }
{
    let found = report.answers.len();
    if found == count {
        return Ok(());
    }
    Err(Fail::new(format_args!("the handler has {found} answers, and not {count}")))
}

/// Where the commands that were sent are others than those that were wanted.
fn difference(sent: &[Bytes], wanted: &[Bytes]) -> Fail {
    for (at, (found, wanted)) in sent.iter().zip(wanted).enumerate() {
        if found != wanted {
            return Fail::new(format_args!(
                "command {at} that was sent is {found:?}, and not {wanted:?}"
            ));
        }
    }
    Fail::new(format_args!(
        "the attempt has sent {} commands, and not {}",
        sent.len(),
        wanted.len()
    ))
}

/// The attempt has sent these commands, in this order, and no others; else the failure says what it has sent in their place. Commands
/// that it replayed aren't sent.
#[tactic(auto, using(crate::proofs::Sending::same_rows))]
pub fn expect_commands(report: &Report, commands: &[Bytes]) -> Result<(), Fail>
    ensures { OnOk result (commands_sent report.now ≡ commands.now) }
{
    let sent = commands_sent(report)?;
    if sent.as_slice() == commands {
        return Ok(());
    }
    Err(difference(sent.as_slice(), commands))
}
