//! The parts of a report: what a line's event did, and what is printed of an invocation.
ghost use Rattle.std.specs.Prelude.{◌≡◌, ◌++◌, OnOk, flat_map};
ghost use Rattle.std.specs.Option.{option_copied};
ghost use Rattle.engine_lines.specs.Parts.{asked_text, begun_text, brought_text, callee_text, did_text, due_text, key_text, live_text, named_text, place_text, result_text, target_names, time_text, wait_text, waiting_text, word_and_count};

use crate::did::Did;
use call_lines::plan::Plan;
use engine_inboxes::{Begun, Callee, Target, Waiting};
use frame_values::value::Value;
use journal_protocol::{NotificationResult, Signal, ValueOrFailure};
use lines::line::Line;
use plain::Text;
use std::alloc::AllocError;

/// A word and a number.
pub fn print_count(word: &str, count: u64, report: &mut Line) -> Result<(), AllocError>
    ensures { OnOk result (report.new ≡ report.old ++ word_and_count word.now count) }
{
    report.word(word)?;
    report.number(count)
}

/// A word and a text in quotes.
fn print_text(word: &str, text: &Text, report: &mut Line) -> Result<(), AllocError>
    ensures { OnOk result (report.new ≡ report.old ++ named_text word.now text.now) }
{
    report.word(word)?;
    report.quoted(text.as_str().as_bytes())
}

/// What the event of a line did, if it did nothing or has a result.
pub fn print_did(line: u64, did: Did, report: &mut Line) -> Result<(), AllocError>
    ensures { OnOk result (report.new ≡ report.old ++ did_text line did) }
{
    match did {
        Did::Something => Ok(()),
        Did::Nothing => {
            print_count("line ", line, report)?;
            report.word(" nothing\n")
        }
        Did::Asked(place) => {
            print_count("line ", line, report)?;
            print_count(" invocation ", place as u64, report)?;
            report.word("\n")
        }
    }
}

/// The handler's names.
pub fn print_target(target: Option<&Target<Plan>>, report: &mut Line) -> Result<(), AllocError>
    ensures { OnOk result (report.new ≡ report.old ++ target_names (option_copied target.entry)) }
{
    match target {
        Some(target) => {
            print_text(" ", &target.service, report)?;
            print_text(" ", &target.handler, report)
        }
        None => Ok(()),
    }
}

/// An idempotency key, if there is one.
pub fn print_asked(asked: &Option<Text>, report: &mut Line) -> Result<(), AllocError>
    ensures { OnOk result (report.new ≡ report.old ++ asked_text asked.now) }
{
    match asked {
        Some(key) => print_text(" idem=", key, report),
        None => Ok(()),
    }
}

/// A key, if there is one.
pub fn print_key(key: &Text, report: &mut Line) -> Result<(), AllocError>
    ensures { OnOk result (report.new ≡ report.old ++ key_text key.now) }
{
    if key.as_str().is_empty() {
        return Ok(());
    }
    print_text(" key=", key, report)
}

/// When it begins, if it has a time.
pub fn print_time(begins: u64, report: &mut Line) -> Result<(), AllocError>
    ensures { OnOk result (report.new ≡ report.old ++ time_text begins) }
{
    if begins == 0 {
        return Ok(());
    }
    print_count(" at=", begins, report)
}

/// By which command it was begun, if it wasn't submitted.
pub fn print_begun(begun: &Option<Begun>, report: &mut Line) -> Result<(), AllocError>
    ensures { OnOk result (report.new ≡ report.old ++ begun_text begun.now) }
{
    match begun {
        None => Ok(()),
        Some(begun) => {
            print_count("  begun ", begun.by as u64, report)?;
            print_count(" ", u64::from(begun.call), report)?;
            report.word("\n")
        }
    }
}

/// The number of an invocation, or `-` if there is none.
fn print_place(place: Option<usize>, report: &mut Line) -> Result<(), AllocError>
    ensures { OnOk result (report.new ≡ report.old ++ place_text place) }
{
    match place {
        Some(place) => print_count(" ", place as u64, report),
        None => report.word(" -"),
    }
}

/// Which invocation a call has begun.
fn print_callee(callee: &Callee, report: &mut Line) -> Result<(), AllocError>
    ensures { OnOk result (report.new ≡ report.old ++ callee_text callee.now) }
{
    print_count("  calls ", u64::from(callee.call), report)?;
    print_place(callee.place, report)?;
    report.word("\n")
}

pub fn print_callees(callees: &[Callee], report: &mut Line) -> Result<(), AllocError>
    ensures { OnOk result (report.new ≡ report.old ++ flat_map callee_text callees.now) }
{
    for callee in callees {
        print_callee(callee, report)?;
    }
    Ok(())
}

/// A completion that waits for the clock, and when it is due.
fn print_timer(completes: u32, due: u64, report: &mut Line) -> Result<(), AllocError>
    ensures { OnOk result (report.new ≡ report.old ++ due_text completes due) }
{
    print_count("  waits clock ", u64::from(completes), report)?;
    print_count(" at ", due, report)?;
    Ok(())
}

/// A signal that has come, and what it brings.
fn print_signal(
    signal: &Signal,
    brings: &NotificationResult,
    report: &mut Line,
) -> Result<(), AllocError>
    ensures { OnOk result (report.new ≡ report.old ++ brought_text signal.now brings.now) }
{
    report.word("  waits signal ")?;
    signal.print(report)?;
    report.word(" ")?;
    brings.print(report)?;
    Ok(())
}

/// What waits, without the end of its line.
fn print_wait(waiting: &Waiting, report: &mut Line) -> Result<(), AllocError>
    ensures { OnOk result (report.new ≡ report.old ++ wait_text waiting.now) }
{
    match waiting {
        Waiting::Id(id) => print_count("  waits id ", u64::from(*id), report),
        Waiting::Outcome { completes, call } => {
            print_count("  waits result ", u64::from(*completes), report)?;
            print_count(" of ", u64::from(*call), report)
        }
        Waiting::Clock(timer) => print_timer(timer.completes, timer.due, report),
        Waiting::Signal(signal, brings) => print_signal(signal, brings, report),
    }
}

/// What waits.
fn print_waiting(waiting: &Waiting, report: &mut Line) -> Result<(), AllocError>
    ensures { OnOk result (report.new ≡ report.old ++ waiting_text waiting.now) }
{
    print_wait(waiting, report)?;
    report.word("\n")
}

pub fn print_inbox(inbox: &[Waiting], report: &mut Line) -> Result<(), AllocError>
    ensures { OnOk result (report.new ≡ report.old ++ flat_map waiting_text inbox.now) }
{
    for waiting in inbox {
        print_waiting(waiting, report)?;
    }
    Ok(())
}

/// Whether an attempt lives.
pub fn print_live(is_live: bool, report: &mut Line) -> Result<(), AllocError>
    ensures { OnOk result (report.new ≡ report.old ++ live_text is_live) }
{
    if is_live {
        report.word("  live\n")
    } else {
        Ok(())
    }
}

/// Its result, once it has ended.
pub fn print_result(ended: &Option<ValueOrFailure>, report: &mut Line) -> Result<(), AllocError>
    ensures { OnOk result (report.new ≡ report.old ++ result_text ended.now) }
{
    match ended {
        None => Ok(()),
        Some(ends) => {
            report.word("  result ")?;
            ends.print(report)?;
            report.word("\n")
        }
    }
}
