// Random rounds of each handler, each seed another run: cuts, stops, arrivals and parts of the state come as the dice fall. The
// commands of each journal are a beginning of those of a run that nothing stops.
use crate::bench::world;
use crate::counts::{LAZY_COUNT, OUTPUT_42, READ_41, SET_42, state_of_41};
use crate::vmrun::frames::{OUTPUT_HI, OUTPUT_TIMEOUT, RESULT_2, VOID_3};
use await_trees::NotificationHandle;
use bytes::Bytes;
use handlers::charge::Charge;
use handlers::counter::Counter;
use handlers::deadline::Deadline;
use handlers::sleeper::Sleeper;
use plain::{Items, Text};
use std::alloc::{AllocError, Global};
use std::process::Abort;
use std::test::Fail;
use test_support::frames::{COMPLETION_1, INPUT_TILL, OUTPUT_EMPTY, OUTPUT_X, SLEEP_TO_1000};
use vm_retries::RetryPolicy;
use vm_types::{Handler, RunExitResult};
use world_rounds::{Event, Round, World, run_rounds};

/// The count is 41, read under id 1.
const COUNT_COMES: &[u8] = b"\0\x1e\0\0\0\0\0\0\0\x10\
    \0\0\0\0\x01\
    \x01\
    \0\0\0\0\0\0\0\x0241";

/// Calls "greet" of "Greeter" with the input; its invocation comes under id 1, its result under id 2.
const CALL_GREET: &[u8] = b"\0\x13\0\0\0\0\0\0\0\x4b\
    \0\0\0\0\0\0\0\x07Greeter\
    \0\0\0\0\0\0\0\x05greet\
    \0\0\0\0\0\0\0\0\
    \0\
    \0\
    \0\
    \0\0\0\0\0\0\0\0\
    \0\0\0\0\0\0\0\x04Till\
    \0\0\0\x01\
    \0\0\0\0\0\0\0\0\
    \0\0\0\x02";

/// The time of that call, which is over under id 3.
const DEADLINE: &[u8] = b"\0\x12\0\0\0\0\0\0\0\x14\
    \0\0\0\0\0\0\x03\xe8\
    \0\0\0\x03\
    \0\0\0\0\0\0\0\0";

/// The run "charge", whose result comes under id 1.
const RUN_CHARGE: &[u8] = b"\0\x1a\0\0\0\0\0\0\0\x12\
    \0\0\0\0\0\0\0\x06charge\
    \0\0\0\x01";

/// Id 1 is completed, with "x".
const RESULT_X: &[u8] = b"\0\x1e\0\0\0\0\0\0\0\x0f\
    \0\0\0\0\x01\
    \x01\0\0\0\0\0\0\0\x01x";

/// Numbers that follow from a seed, and what shapes the rounds of a run.
#[derive(Clone, Copy)]
struct Dice {
    state: u64,
    /// The one notification of the run, until it comes.
    note: Option<&'static [u8]>,
    /// Commands were asked to be stored.
    has_stored: bool,
    /// The state is handed out without the count.
    lacks_count: bool,
    /// A result is proposed for the run, whether it is executing or not.
    executes: bool,
}

impl Dice {
    /// A number below 65536.
    fn roll(&mut self) -> u16 {
        self.state = self
            .state
            .wrapping_mul(6_364_136_223_846_793_005)
            .wrapping_add(1_442_695_040_888_963_407);
        (self.state >> 48) as u16
    }

    fn store(&mut self) -> Event {
        self.has_stored = true;
        Event::Store(usize::from(self.roll() % 3))
    }

    /// The notification, once, and not before commands were stored; else a step.
    fn arrive(&mut self) -> Event {
        match self.note {
            Some(note) if self.has_stored => {
                self.note = None;
                Event::Arrive(Bytes::from_static(note))
            }
            _ => Event::Step,
        }
    }

    /// Proposes "x" as the result of the run of handle 17; else a step.
    fn execute(&mut self) -> Event {
        if self.executes {
            Event::RunResult(
                NotificationHandle(17),
                RunExitResult::Success(Bytes::from_static(b"x")),
                RetryPolicy::Infinite,
            )
        } else {
            Event::Step
        }
    }

    fn event(&mut self) -> Event {
        match self.roll() % 16 {
            0 => Event::Piece(usize::from(self.roll() % 64)),
            1 | 2 | 3 => Event::Piece(usize::MAX),
            4 => self.arrive(),
            5 | 6 | 7 => self.store(),
            8 if self.roll() % 4 == 0 => Event::Close,
            9 => self.execute(),
            _ => Event::Step,
        }
    }

    /// Up to 31 events.
    fn events(&mut self, alloc: Global) -> Result<Items<Event>, AllocError> {
        let mut events = Items::new(alloc);
        for _ in 0..self.roll() % 32 {
            events.push(self.event())?;
        }
        Ok(events)
    }

    /// The keys that a round is to have, whose state may be partial.
    fn keys(&self, alloc: Global) -> Result<Items<Text>, AllocError> {
        let mut keys = Items::new(alloc);
        if !self.lacks_count {
            keys.push(Text::from_str(alloc, "count")?)?;
        }
        Ok(keys)
    }

    fn round(&mut self, alloc: Global) -> Result<Round, AllocError> {
        let events = self.events(alloc)?;
        let keys = self.keys(alloc)?;
        Ok(Round {
            partial: self.lacks_count || self.roll() % 4 == 0,
            keys,
            retry_count: u32::from(self.roll()),
            duration: u64::from(self.roll()),
            events,
        })
    }

    /// Up to six rounds.
    fn rounds(&mut self, alloc: Global) -> Result<Vec<Round>, AllocError> {
        let mut rounds = Vec::new(alloc);
        for _ in 0..1 + self.roll() % 6 {
            rounds.push(self.round(alloc)?)?;
        }
        Ok(rounds)
    }
}

fn is_notification(entry: &[u8]) -> bool {
    matches!(entry, [0, 30, ..])
}

/// The commands of the journal are a beginning of these.
fn begins(journal: &[Bytes], wanted: &[&[u8]]) -> bool {
    let mut wanted = wanted.iter();
    for entry in journal {
        let entry = entry.as_slice();
        if is_notification(entry) {
            continue;
        }
        match wanted.next() {
            Some(frame) if *frame == entry => {}
            _ => return false,
        }
    }
    true
}

/// How many results the journal has, if each is "x" under id 1.
fn results_of_x(journal: &[Bytes]) -> Option<usize> {
    let mut results = 0usize;
    for entry in journal {
        let entry = entry.as_slice();
        if entry == RESULT_X {
            results = results.wrapping_add(1);
        } else if is_notification(entry) {
            return None;
        }
    }
    Some(results)
}

/// What a journal has.
#[derive(Clone, Copy)]
struct Left {
    /// Its commands are a beginning of one of these runs.
    begins: bool,
    /// The results of id 1.
    results: Option<usize>,
    entries: usize,
}

fn left_in(journal: &[Bytes], runs: &[&[&[u8]]]) -> Left {
    let mut begins_one = false;
    for commands in runs {
        begins_one |= begins(journal, commands);
    }
    Left {
        begins: begins_one,
        results: results_of_x(journal),
        entries: journal.len(),
    }
}

/// What the rounds that the dice give leave, if none has a fault.
fn played<H: Handler>(
    alloc: Global,
    handler: &H,
    state: Vec<(String, Bytes)>,
    mut dice: Dice,
    runs: &[&[&[u8]]],
) -> Result<Option<Left>, Fail> {
    let rounds = dice.rounds(alloc)?;
    let world = world(alloc, state)?;
    match run_rounds(handler, world, rounds.as_slice()) {
        Ok((world, _)) => Ok(Some(left_in(world.journal(), runs))),
        Err(_) => Ok(None),
    }
}

/// How the runs of many seeds ended: without a fault, and of these with all commands stored.
#[derive(Clone, Copy)]
struct Tally {
    faultless: u64,
    whole: u64,
}

impl Tally {
    fn count(&mut self, is_whole: bool) {
        self.faultless = self.faultless.wrapping_add(1);
        if is_whole {
            self.whole = self.whole.wrapping_add(1);
        }
    }
}

const RUNS: u64 = 5000;

/// Each seed's commands are a beginning of one of these runs.
fn assert_begins(rt: &impl Abort, left: Left, seed: u64) {
    assert!(rt; left.begins, "seed {seed}");
}

/// Many seeds had no fault, and of some all commands were stored.
fn assert_tally(rt: &impl Abort, tally: Tally, faultless: u64) {
    assert!(rt; tally.faultless >= faultless, "{}", tally.faultless);
    assert!(rt; tally.whole > 250, "{}", tally.whole);
}

const NOTHING: Tally = Tally {
    faultless: 0,
    whole: 0,
};

#[test]
fn sleeps_leave_one_history(rt: HostRuntime) -> Result<(), Fail> {
    let alloc = rt.alloc();
    let handler = Sleeper { alloc };
    let mut tally = NOTHING;
    for seed in 0..RUNS {
        let dice = Dice {
            state: seed,
            note: Some(COMPLETION_1),
            has_stored: false,
            lacks_count: false,
            executes: false,
        };
        let runs: &[&[&[u8]]] = &[&[INPUT_TILL, SLEEP_TO_1000, OUTPUT_EMPTY]];
        if let Some(left) = played(alloc, &handler, Vec::new(alloc), dice, runs)? {
            assert_begins(&rt, left, seed);
            tally.count(left.entries == 4);
        }
    }
    assert_tally(&rt, tally, 2501);
    Ok(())
}

#[test]
fn counts_leave_one_history(rt: HostRuntime) -> Result<(), Fail> {
    let alloc = rt.alloc();
    let handler = Counter { alloc };
    let mut tally = NOTHING;
    for seed in 0..RUNS {
        let lacks_count = seed % 2 == 0;
        let dice = Dice {
            state: seed,
            note: if lacks_count { Some(COUNT_COMES) } else { None },
            has_stored: false,
            lacks_count,
            executes: false,
        };
        let runs: &[&[&[u8]]] = &[
            &[INPUT_TILL, READ_41, SET_42, OUTPUT_42],
            &[INPUT_TILL, LAZY_COUNT, SET_42, OUTPUT_42],
        ];
        if let Some(left) = played(alloc, &handler, state_of_41(alloc)?, dice, runs)? {
            assert_begins(&rt, left, seed);
            tally.count(left.entries >= 4);
        }
    }
    assert_tally(&rt, tally, 2501);
    Ok(())
}

/// The result of the call arrives, or its time is over: one of them, and the output shows which.
#[test]
fn calls_with_a_deadline_leave_one_history(rt: HostRuntime) -> Result<(), Fail> {
    let alloc = rt.alloc();
    let handler = Deadline { alloc };
    let mut tally = NOTHING;
    for seed in 0..RUNS {
        let has_result = seed % 2 == 0;
        let dice = Dice {
            state: seed,
            note: Some(if has_result { RESULT_2 } else { VOID_3 }),
            has_stored: false,
            lacks_count: false,
            executes: false,
        };
        let output = if has_result {
            OUTPUT_HI
        } else {
            OUTPUT_TIMEOUT
        };
        let runs: &[&[&[u8]]] = &[&[INPUT_TILL, CALL_GREET, DEADLINE, output]];
        if let Some(left) = played(alloc, &handler, Vec::new(alloc), dice, runs)? {
            assert_begins(&rt, left, seed);
            tally.count(left.entries == 5);
        }
    }
    assert_tally(&rt, tally, 2001);
    Ok(())
}

/// Nothing arrives from outside. A result proposed for a run that isn't executing fails its attempt alone: no event has a fault.
#[test]
fn charges_leave_one_history(rt: HostRuntime) -> Result<(), Fail> {
    let alloc = rt.alloc();
    let handler = Charge { alloc };
    let mut tally = NOTHING;
    for seed in 0..RUNS {
        let dice = Dice {
            state: seed,
            note: None,
            has_stored: false,
            lacks_count: false,
            executes: true,
        };
        let runs: &[&[&[u8]]] = &[&[INPUT_TILL, RUN_CHARGE, OUTPUT_X]];
        if let Some(left) = played(alloc, &handler, Vec::new(alloc), dice, runs)? {
            assert_begins(&rt, left, seed);
            assert!(rt; matches!(left.results, Some(0) | Some(1)), "seed {seed}");
            tally.count(left.entries == 4);
        }
    }
    assert_tally(&rt, tally, RUNS);
    Ok(())
}
