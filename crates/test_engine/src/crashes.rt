use crate::bench::{
    Course, Loss, asks, asks_in_vain, does, member_at, order, played, targets, with_loss,
};
use bytes::Bytes;
use call_lines::plan::Plan;
use engine_fences::FencedEngine;
use engine_inboxes::Target;
use engines::{Engine, Happening};
use journal_entries::entry::said_at;
use journal_protocol::{ValueOrFailure, Version};
use std::alloc::Global;
use std::process::Abort;
use std::test::Fail;
use vm_types::VMOptions;
use world_rounds::Event;

/// The entries of a journal that are commands.
fn commands(alloc: Global, journal: &[Bytes]) -> Result<Vec<Bytes>, Fail> {
    let mut found = Vec::new(alloc);
    for entry in journal {
        match said_at(alloc, entry) {
            Ok(Some(_)) => found.push(entry.clone()?)?,
            _ => {}
        }
    }
    Ok(found)
}

fn ends_with(engine: &FencedEngine<Plan>, place: usize, text: &[u8]) -> bool {
    match engine.engine.invocations.get(place) {
        Some(it) => match &it.ended {
            Some(ValueOrFailure::Value(value)) => value.as_slice() == text,
            _ => false,
        },
        None => false,
    }
}

fn all_commands(alloc: Global, engine: &FencedEngine<Plan>) -> Result<Vec<Bytes>, Fail> {
    let mut found = Vec::new(alloc);
    for it in engine.engine.invocations.iter() {
        let Some(member) = &it.member else {
            return Err(Fail::from("no member"));
        };
        for entry in commands(alloc, member.journal())? {
            found.push(entry)?;
        }
    }
    Ok(found)
}

/// The parent and the child have ended, each of them once.
fn ended(engine: &FencedEngine<Plan>) -> bool {
    engine.engine.invocations.len() == 2
        && ends_with(engine, 0, b"done")
        && ends_with(engine, 1, b"hello")
}

/// Whether both end so, with these commands, if attempts are lost at this event.
fn ends_alike(
    alloc: Global,
    targets: &[Target<Plan>],
    mut course: Course,
    wanted: &[Bytes],
) -> Result<bool, Fail> {
    let engine = played(alloc, targets, &mut course, "run")?;
    let got = all_commands(alloc, &engine)?;
    Ok(ended(&engine) && got.as_slice() == wanted)
}

#[test]
fn a_child_is_called_once_wherever_it_crashes(rt: HostRuntime) -> Result<(), Fail> {
    let alloc = rt.alloc();
    let targets = targets(alloc)?;
    let mut whole = with_loss(usize::MAX, Loss::Crash);
    let undisturbed = played(alloc, targets.as_slice(), &mut whole, "run")?;
    assert!(rt; ended(&undisturbed));
    let wanted = all_commands(alloc, &undisturbed)?;
    println!(rt; "{} events, {} commands", whole.at, wanted.len())?;
    for at in 0..whole.at {
        let crashed = with_loss(at, Loss::Crash);
        assert!(rt; ends_alike(alloc, targets.as_slice(), crashed, wanted.as_slice())?);
    }
    Ok(())
}

#[test]
fn a_child_is_called_once_wherever_another_attempt_takes_over(rt: HostRuntime) -> Result<(), Fail> {
    let alloc = rt.alloc();
    let targets = targets(alloc)?;
    let mut whole = with_loss(usize::MAX, Loss::Takeover);
    let undisturbed = played(alloc, targets.as_slice(), &mut whole, "run")?;
    let wanted = all_commands(alloc, &undisturbed)?;
    for at in 0..whole.at {
        let taken = with_loss(at, Loss::Takeover);
        assert!(rt; ends_alike(alloc, targets.as_slice(), taken, wanted.as_slice())?);
    }
    Ok(())
}

/// How many entries the first invocation's journal has.
fn entries(engine: &FencedEngine<Plan>) -> usize {
    match member_at(engine, 0) {
        Some(member) => member.journal().len(),
        None => 0,
    }
}

/// A parent whose attempt of epoch 1 has read its input and made its first calls, none of which is stored yet.
fn called<'a>(alloc: Global, targets: &'a [Target<Plan>]) -> Result<FencedEngine<'a, Plan>, Fail> {
    let mut engine = FencedEngine::of(Engine::new(
        alloc,
        targets,
        VMOptions::default(),
        Version::V7,
    ));
    does(&mut engine, Happening::Submit(order(alloc, "run")?))?;
    asks(&mut engine, 1, Happening::Begin(0))?;
    asks(&mut engine, 1, Happening::Act(0, Event::Piece(usize::MAX)))?;
    asks(&mut engine, 1, Happening::Act(0, Event::Steps(3)))?;
    Ok(engine)
}

/// The same attempt wrote the same commands in two engines. In one of them another attempt has begun meanwhile, so they come too late.
#[test]
fn what_a_lost_attempt_wrote_comes_too_late(rt: HostRuntime) -> Result<(), Fail> {
    let alloc = rt.alloc();
    let targets = targets(alloc)?;
    let mut alone = called(alloc, targets.as_slice())?;
    let mut fenced = called(alloc, targets.as_slice())?;
    asks(&mut fenced, 2, Happening::Begin(0))?;
    assert_eq!(rt; fenced.epochs.of(0), 2);
    for _ in 0..2 {
        asks(&mut alone, 1, Happening::Store(0))?;
        asks(&mut fenced, 1, Happening::Store(0))?;
    }
    assert_eq!(rt; entries(&alone), 3);
    assert_eq!(rt; alone.engine.invocations.len(), 2);
    assert_eq!(rt; entries(&fenced), 1);
    assert_eq!(rt; fenced.engine.invocations.len(), 1);
    asks_in_vain(&mut fenced, 0, 1)?;
    asks(&mut fenced, 2, Happening::Act(0, Event::Piece(usize::MAX)))?;
    asks(&mut fenced, 2, Happening::Act(0, Event::Steps(3)))?;
    for _ in 0..2 {
        asks(&mut fenced, 2, Happening::Store(0))?;
        asks(&mut fenced, 1, Happening::Store(0))?;
    }
    let got = all_commands(alloc, &fenced)?;
    let wanted = all_commands(alloc, &alone)?;
    assert!(rt; got.as_slice() == wanted.as_slice());
    assert_eq!(rt; fenced.engine.invocations.len(), 2);
    Ok(())
}

#[test]
fn calls_are_attached_and_nobody_answers(rt: HostRuntime) -> Result<(), Fail> {
    let alloc = rt.alloc();
    let targets = targets(alloc)?;
    let mut course = with_loss(40, Loss::Crash);
    let engine = played(alloc, targets.as_slice(), &mut course, "calls")?;
    assert_eq!(rt; engine.engine.invocations.len(), 3);
    assert!(rt; ends_with(&engine, 0, b"done"));
    assert!(rt; ends_with(&engine, 1, b"hello"));
    assert!(rt; ends_with(&engine, 2, b"hello"));
    Ok(())
}
