//! What the events of a script do to an engine: the only module that makes the engine's events.
ghost use Rattle.std.specs.Prelude.{◌≡◌, ◌<◌, ◌+◌, ◌^◌, suc, length, nat_lt, if◌then◌else◌, None, IfErr, OnOk, Option, ℕ};
ghost use Rattle.engine_inboxes.specs.Faults.{IsNoArrival};
ghost use Rattle.engines.specs.Deliveries.{AllDelivered, inbox_at};
ghost use Rattle.engines.specs.declared.types.Happening.TheVariants as happening;
ghost use Rattle.world_rounds.specs.declared.types.Event.TheVariants as attempt;
ghost use Rattle.engine_lines.specs.Orders.{submitted_order};
ghost use Rattle.engine_scripts.specs.Events.{DeedDoes, EventDoes, HappenOf, HappensOnce, SettlesAtMost, SettlesOnce, SettlesOne, plan_meaning};

use call_lines::plan::Plan;
use engine_inboxes::EngineFault;
use engine_lines::did::{Did, latest, something_if};
use engine_lines::orders::order_of;
use engine_lines::said::{Asked, Deed, Event};
use engine_lines::targets::steps_of;
use engines::{Engine, Happening};
use line_parts::results::Proposal;
use world_rounds::Event as AttemptEvent;

/// Whether an attempt of an invocation lives.
fn is_live(engine: &Engine<Plan>, place: usize) -> bool {
    match engine.invocations.get(place) {
        Some(it) => match &it.member {
            Some(member) => member.is_live(),
            None => false,
        },
        None => false,
    }
}

/// How long its journal is.
fn journal_len(engine: &Engine<Plan>, place: usize) -> usize {
    match engine.invocations.get(place) {
        Some(it) => match &it.member {
            Some(member) => member.journal().len(),
            None => 0,
        },
        None => 0,
    }
}

/// How much waits for it.
fn inbox_len(engine: &Engine<Plan>, place: usize) -> usize
    ensures { result ≡ length (inbox_at engine.now place) }
{
    match engine.invocations.get(place) {
        Some(it) => match &it.member {
            Some(member) => member.inbox().len(),
            None => 0,
        },
        None => 0,
    }
}

/// Whether an attempt of some invocation lives.
fn any_live(engine: &Engine<Plan>) -> bool {
    for place in 0..engine.invocations.len() {
        if is_live(engine, place) {
            return true;
        }
    }
    false
}

/// An invocation is asked for.
fn submit(engine: &mut Engine<Plan>, asked: Asked) -> Result<Did, EngineFault>
    ensures does { OnOk result
        (HappensOnce (happening.Submit (submitted_order asked)) engine.old engine.new) }
    ensures err { IfErr result IsNoArrival }
{
    let order = order_of(engine.alloc, asked);
    match engine.ordered(order, None) {
        Ok(Some(place)) => Ok(Did::Asked(place)),
        Ok(None) => Ok(Did::Nothing),
        Err(fault) => Err(fault),
    }
}

/// One event of the engine, which is dropped here alone.
fn happen(engine: &mut Engine<Plan>, event: Happening) -> Result<(), EngineFault>
    ensures does { OnOk result (HappensOnce event engine.old engine.new) }
    ensures err { IfErr result IsNoArrival }
{
    engine.happen(&event)
}

/// An attempt begins.
fn begin(engine: &mut Engine<Plan>, place: usize) -> Result<Did, EngineFault>
    ensures does { OnOk result (HappensOnce (happening.Begin place) engine.old engine.new) }
    ensures err { IfErr result IsNoArrival }
{
    let may = engine.may_begin(place);
    happen(engine, Happening::Begin(place))?;
    Ok(something_if(may))
}

/// This happens to the attempt.
fn act(engine: &mut Engine<Plan>, place: usize, event: AttemptEvent) -> Result<Did, EngineFault>
    ensures does { OnOk result (HappensOnce (happening.Act place event) engine.old engine.new) }
    ensures err { IfErr result IsNoArrival }
{
    let lives = is_live(engine, place);
    happen(engine, Happening::Act(place, event))?;
    Ok(something_if(lives))
}

/// The result of a run is reported.
fn run_result(
    engine: &mut Engine<Plan>,
    place: usize,
    proposal: Proposal,
) -> Result<Did, EngineFault>
    ensures does { OnOk result
        (HappensOnce (happening.Act place
        (attempt.RunResult proposal.handle proposal.result proposal.policy)) engine.old
        engine.new) }
    ensures err { IfErr result IsNoArrival }
{
    let Proposal {
        handle,
        result,
        policy,
    } = proposal;
    act(
        engine,
        place,
        AttemptEvent::RunResult(handle, result, policy),
    )
}

/// What waits at this place is delivered.
fn deliver(engine: &mut Engine<Plan>, place: usize, at: usize) -> Result<Did, EngineFault>
    ensures does { OnOk result (HappensOnce (happening.Deliver place at) engine.old engine.new) }
    ensures err { IfErr result IsNoArrival }
{
    let before = inbox_len(engine, place);
    happen(engine, Happening::Deliver(place, at))?;
    Ok(something_if(inbox_len(engine, place) < before))
}

/// Where to look after this place of an inbox that was so long, and is so long after a delivery: if that has come, what stood after it moves up.
fn place_after(at: usize, was: usize, is: usize) -> usize
    requires { at + 1 < 2 ^ 64 }
    ensures { result ≡ (if nat_lt is was then at else suc at) }
{
    if is < was { at } else { at + 1 }
}

/// All that waits is delivered, if it can be; what stood first comes first.
#[tactic(auto, using(crate::proofs::Playing::delivers_none, crate::proofs::Playing::delivers_more, crate::proofs::Playing::delivers_all))]
fn deliver_all(engine: &mut Engine<Plan>, place: usize) -> Result<Did, EngineFault>
    ensures does { OnOk result (AllDelivered plan_meaning place engine.old engine.new) }
    ensures err { IfErr result IsNoArrival }
{
    let mut did = Did::Nothing;
    let mut at = 0usize;
    let mut left = inbox_len(engine, place);
    while left > 0 {
        let was = inbox_len(engine, place);
        let one = deliver(engine, place, at)?;
        at = place_after(at, was, inbox_len(engine, place));
        did = latest(did, one);
        left -= 1;
    }
    Ok(did)
}

/// The next frame is stored, with its effect.
fn store_next(engine: &mut Engine<Plan>, place: usize) -> Result<Did, EngineFault>
    ensures does { OnOk result (HappensOnce (happening.Store place) engine.old engine.new) }
    ensures err { IfErr result IsNoArrival }
{
    let before = journal_len(engine, place);
    happen(engine, Happening::Store(place))?;
    Ok(something_if(journal_len(engine, place) > before))
}

/// This number of frames is stored, or all if there are fewer.
#[tactic(auto, using(crate::proofs::Playing::happens_none, crate::proofs::Playing::stored_more))]
fn store(engine: &mut Engine<Plan>, place: usize, count: usize) -> Result<Did, EngineFault>
    ensures does { OnOk result (HappenOf (λ it. it ≡ happening.Store place) engine.old engine.new) }
    ensures err { IfErr result IsNoArrival }
{
    let mut did = Did::Nothing;
    let mut left = count;
    while left > 0 {
        let one = store_next(engine, place)?;
        if one == Did::Nothing {
            return Ok(did);
        }
        did = one;
        left -= 1;
    }
    Ok(did)
}

/// The attempt is lost.
fn stop(engine: &mut Engine<Plan>, place: usize) -> Result<Did, EngineFault>
    ensures does { OnOk result (HappensOnce (happening.Stop place) engine.old engine.new) }
    ensures err { IfErr result IsNoArrival }
{
    let lives = is_live(engine, place);
    happen(engine, Happening::Stop(place))?;
    Ok(something_if(lives))
}

/// All attempts are lost.
fn crash(engine: &mut Engine<Plan>) -> Result<Did, EngineFault>
    ensures does { OnOk result (HappensOnce (happening.StopAll) engine.old engine.new) }
    ensures err { IfErr result IsNoArrival }
{
    let live = any_live(engine);
    happen(engine, Happening::StopAll)?;
    Ok(something_if(live))
}

/// It is this late.
fn clock(engine: &mut Engine<Plan>, time: u64) -> Result<Did, EngineFault>
    ensures does { OnOk result (HappensOnce (happening.Clock time) engine.old engine.new) }
    ensures err { IfErr result IsNoArrival }
{
    let before = engine.clock;
    happen(engine, Happening::Clock(time))?;
    Ok(something_if(engine.clock > before))
}

/// As many steps for an invocation.
fn steps_for(engine: &Engine<Plan>, place: usize) -> u64 {
    match engine.invocations.get(place) {
        Some(it) => steps_of(engine.targets.get(it.target)),
        None => 0,
    }
}

/// An attempt begins, is fed, and makes steps; what it wrote is stored, and what waits is delivered. Whether the journal has grown.
fn settle_one(engine: &mut Engine<Plan>, place: usize) -> Result<bool, EngineFault>
    ensures does { OnOk result (SettlesOne place engine.old engine.new) }
    ensures err { IfErr result IsNoArrival }
{
    let before = journal_len(engine, place);
    let steps = steps_for(engine, place);
    begin(engine, place)?;
    act(engine, place, AttemptEvent::Piece(usize::MAX))?;
    act(engine, place, AttemptEvent::Steps(steps))?;
    store(engine, place, usize::MAX)?;
    deliver_all(engine, place)?;
    Ok(journal_len(engine, place) > before)
}

/// Once over all invocations. Whether a journal has grown.
#[tactic(auto, using(crate::proofs::Playing::settles_none, crate::proofs::Playing::settles_more, crate::proofs::Playing::settles_all))]
fn settle_once(engine: &mut Engine<Plan>) -> Result<bool, EngineFault>
    ensures does { OnOk result (SettlesOnce engine.old engine.new) }
    ensures err { IfErr result IsNoArrival }
{
    let mut grows = false;
    for place in 0..engine.invocations.len() {
        if settle_one(engine, place)? {
            grows = true;
        }
    }
    Ok(grows)
}

/// This number of times over all invocations, or until nothing is stored any more.
#[tactic(auto, using(crate::proofs::Playing::some_none, crate::proofs::Playing::some_more, crate::proofs::Playing::some_at_most))]
fn settle(engine: &mut Engine<Plan>, times: u64) -> Result<Did, EngineFault>
    ensures does { OnOk result (SettlesAtMost times engine.old engine.new) }
    ensures err { IfErr result IsNoArrival }
{
    let mut did = Did::Nothing;
    let mut left = times;
    while left > 0 {
        if !settle_once(engine)? {
            return Ok(did);
        }
        did = Did::Something;
        left -= 1;
    }
    Ok(did)
}

/// This happens to an invocation.
fn do_to(engine: &mut Engine<Plan>, place: usize, deed: Deed) -> Result<Did, EngineFault>
    ensures does { OnOk result (DeedDoes place deed engine.old engine.new) }
    ensures err { IfErr result IsNoArrival }
{
    match deed {
        Deed::Begin => begin(engine, place),
        Deed::Piece(count) => act(engine, place, AttemptEvent::Piece(count)),
        Deed::Close => act(engine, place, AttemptEvent::Close),
        Deed::Steps(count) => act(engine, place, AttemptEvent::Steps(count)),
        Deed::RunResult(proposal) => run_result(engine, place, proposal),
        Deed::Deliver(at) => deliver(engine, place, at),
        Deed::DeliverAll => deliver_all(engine, place),
        Deed::Store(count) => store(engine, place, count),
        Deed::Stop => stop(engine, place),
    }
}

/// An event of a script.
pub fn happens(engine: &mut Engine<Plan>, event: Event) -> Result<Did, EngineFault>
    ensures does { OnOk result (EventDoes event engine.old engine.new) }
    ensures err { IfErr result IsNoArrival }
{
    match event {
        Event::Submit(asked) => submit(engine, asked),
        Event::To(number, deed) => do_to(engine, number as usize, deed),
        Event::Crash => crash(engine),
        Event::Clock(time) => clock(engine, time),
        Event::Settle(times) => settle(engine, times),
    }
}
