// What the tests share: a parent and a child, and a schedule in which attempts are lost once.
use bytes::Bytes;
use call_lines::plan::Plan;
use call_lines::reading::plan_of;
use engine_fences::{Asked, FencedEngine};
use engine_inboxes::{Order, Target};
use engines::{Engine, Happening, Member};
use journal_protocol::Version;
use plain::Text;
use std::alloc::{AllocError, Global};
use std::test::Fail;
use vm_types::VMOptions;
use world_rounds::Event;

pub const PARENT: &[&str] = &[
    "call \"Greeter\" \"greet\" \"hi\"",
    "sleep \"\" 3000",
    "await 18",
    "take 18",
    "await 19",
    "take 19",
    "complete_signal \"inv_0\" \"n\" success \"x\"",
    "write_output success \"done\"",
    "end",
];

pub const CHILD: &[&str] = &[
    "sleep \"\" 2000",
    "await 17",
    "take 17",
    "write_output success \"hello\"",
    "end",
];

/// Two calls with one idempotency key, a one-way call, and a call of nobody.
pub const CALLER: &[&str] = &[
    "call \"Greeter\" \"greet\" \"hi\" idem=\"k\"",
    "call \"Greeter\" \"greet\" \"hi\" idem=\"k\"",
    "send \"Greeter\" \"greet\" \"x\" at=1000",
    "call \"No\" \"body\" \"x\"",
    "await ac(18,20,23)",
    "take 18",
    "take 20",
    "take 23",
    "write_output success \"done\"",
    "end",
];

fn plan(alloc: Global, lines: &[&str]) -> Result<Plan, Fail> {
    let mut said = Vec::new(alloc);
    for line in lines {
        said.push(String::from_str(alloc, line)?)?;
    }
    Ok(plan_of(alloc, said.as_slice()).ok().ok_or("no plan")?)
}

fn target(
    alloc: Global,
    service: &str,
    handler: &str,
    lines: &[&str],
) -> Result<Target<Plan>, Fail> {
    Ok(Target {
        service: Text::from_str(alloc, service)?,
        handler: Text::from_str(alloc, handler)?,
        exclusive: false,
        code: plan(alloc, lines)?,
    })
}

pub fn targets(alloc: Global) -> Result<Vec<Target<Plan>>, Fail> {
    let mut targets = Vec::new(alloc);
    targets.push(target(alloc, "Main", "run", PARENT)?)?;
    targets.push(target(alloc, "Greeter", "greet", CHILD)?)?;
    targets.push(target(alloc, "Main", "calls", CALLER)?)?;
    Ok(targets)
}

pub fn order(alloc: Global, handler: &str) -> Result<Order, AllocError> {
    Ok(Order {
        service: Text::from_str(alloc, "Main")?,
        handler: Text::from_str(alloc, handler)?,
        key: Text::empty(alloc),
        idempotency_key: None,
        parameter: Bytes::from_static(b"go"),
        begins: 0,
    })
}

/// How an attempt is lost.
#[derive(Clone, Copy, Debug, PartialEq, Eq)]
pub enum Loss {
    /// All attempts stop.
    Crash,
    /// Another attempt of the first invocation begins. The one that lives goes on, and asks for everything before each event.
    Takeover,
}

/// Which event is the next, at which one attempts are lost, and how; and the epoch of the one that goes on.
#[derive(Clone, Copy, Debug)]
pub struct Course {
    pub at: usize,
    pub lost_at: usize,
    pub loss: Loss,
    pub stale: Option<u64>,
}

/// A course whose attempts are lost at this event.
pub fn with_loss(lost_at: usize, loss: Loss) -> Course {
    Course {
        at: 0,
        lost_at,
        loss,
        stale: None,
    }
}

/// An event that an attempt of this epoch asks for.
pub fn asks(engine: &mut FencedEngine<Plan>, epoch: u64, happening: Happening) -> Result<(), Fail> {
    Ok(
        engine
            .happen(&Asked { epoch, happening })
            .ok()
            .ok_or("a fault")?,
    )
}

/// An event that is no attempt's.
pub fn does(engine: &mut FencedEngine<Plan>, happening: Happening) -> Result<(), Fail> {
    asks(engine, 0, happening)
}

/// An invocation's rounds.
pub fn member_at<'a, 'b>(
    engine: &'b FencedEngine<'a, Plan>,
    place: usize,
) -> Option<&'b Member<'a, Plan>> {
    match engine.engine.invocations.get(place) {
        Some(it) => it.member.as_ref(),
        None => None,
    }
}

/// What another attempt could change of an invocation: how long its journal and its inbox are, whether an attempt lives, and its epoch; and
/// how many invocations there are.
fn seen(engine: &FencedEngine<Plan>, place: usize) -> (usize, usize, bool, u64, usize) {
    let epoch = engine.epochs.of(place);
    let made = engine.engine.invocations.len();
    match member_at(engine, place) {
        None => (0, 0, false, epoch, made),
        Some(member) => (
            member.journal().len(),
            member.inbox().len(),
            member.is_live(),
            epoch,
            made,
        ),
    }
}

/// An attempt that was lost asks for everything that one can ask for, in vain.
pub fn asks_in_vain(engine: &mut FencedEngine<Plan>, place: usize, epoch: u64) -> Result<(), Fail> {
    let before = seen(engine, place);
    asks(
        engine,
        epoch,
        Happening::Act(place, Event::Piece(usize::MAX)),
    )?;
    asks(engine, epoch, Happening::Act(place, Event::Step))?;
    asks(engine, epoch, Happening::Deliver(place, 0))?;
    asks(engine, epoch, Happening::Store(place))?;
    asks(engine, epoch, Happening::Act(place, Event::Close))?;
    asks(engine, epoch, Happening::Begin(place))?;
    asks(engine, epoch, Happening::Stop(place))?;
    if seen(engine, place) == before {
        Ok(())
    } else {
        Err(Fail::from("a lost attempt changed something"))
    }
}

/// Another attempt of an invocation begins. The one before goes on, and doesn't know that it is lost.
fn take_over(
    engine: &mut FencedEngine<Plan>,
    course: &mut Course,
    place: usize,
) -> Result<(), Fail> {
    let epoch = engine.epochs.of(place);
    asks(engine, epoch.saturating_add(1), Happening::Begin(place))?;
    if engine.epochs.of(place) > epoch {
        course.stale = Some(epoch);
    }
    Ok(())
}

/// Attempts are lost before this event, if it is the one; and one that was lost asks for everything.
fn before(engine: &mut FencedEngine<Plan>, course: &mut Course) -> Result<(), Fail> {
    if course.at == course.lost_at {
        match course.loss {
            Loss::Crash => does(engine, Happening::StopAll)?,
            Loss::Takeover => take_over(engine, course, 0)?,
        }
    }
    course.at = course.at.saturating_add(1);
    match course.stale {
        Some(epoch) => asks_in_vain(engine, 0, epoch),
        None => Ok(()),
    }
}

fn happen(
    engine: &mut FencedEngine<Plan>,
    course: &mut Course,
    happening: Happening,
) -> Result<(), Fail> {
    before(engine, course)?;
    does(engine, happening)
}

/// The newest attempt of an invocation asks for something.
fn ask(
    engine: &mut FencedEngine<Plan>,
    course: &mut Course,
    place: usize,
    happening: Happening,
) -> Result<(), Fail> {
    before(engine, course)?;
    let epoch = engine.epochs.of(place);
    asks(engine, epoch, happening)
}

/// An attempt begins, if none lives.
fn begin(engine: &mut FencedEngine<Plan>, course: &mut Course, place: usize) -> Result<(), Fail> {
    let live = match member_at(engine, place) {
        Some(member) => member.is_live(),
        None => false,
    };
    if live {
        return Ok(());
    }
    before(engine, course)?;
    let epoch = engine.epochs.of(place).saturating_add(1);
    asks(engine, epoch, Happening::Begin(place))
}

/// Everything that can happen to one invocation happens.
fn pass(engine: &mut FencedEngine<Plan>, course: &mut Course, place: usize) -> Result<(), Fail> {
    begin(engine, course, place)?;
    let piece = Event::Piece(usize::MAX);
    ask(engine, course, place, Happening::Act(place, piece))?;
    ask(engine, course, place, Happening::Act(place, Event::Step))?;
    ask(engine, course, place, Happening::Act(place, Event::Step))?;
    ask(engine, course, place, Happening::Store(place))?;
    ask(engine, course, place, Happening::Deliver(place, 1))?;
    ask(engine, course, place, Happening::Deliver(place, 0))
}

/// Whether each invocation has ended.
fn all_ended(engine: &FencedEngine<Plan>) -> bool {
    engine
        .engine
        .invocations
        .iter()
        .all(|it| it.ended.is_some())
}

/// A parent is submitted, and all goes on until each invocation has ended, or for this many passes.
pub fn played<'a>(
    alloc: Global,
    targets: &'a [Target<Plan>],
    course: &mut Course,
    handler: &str,
) -> Result<FencedEngine<'a, Plan>, Fail> {
    let mut engine = FencedEngine::of(Engine::new(
        alloc,
        targets,
        VMOptions::default(),
        Version::V7,
    ));
    happen(
        &mut engine,
        course,
        Happening::Submit(order(alloc, handler)?),
    )?;
    let mut now: u64 = 0;
    for _ in 0..40 {
        for place in 0..engine.engine.invocations.len() {
            pass(&mut engine, course, place)?;
        }
        if all_ended(&engine) {
            return Ok(engine);
        }
        happen(&mut engine, course, Happening::Clock(now))?;
        now = now.saturating_add(1000);
    }
    Ok(engine)
}
