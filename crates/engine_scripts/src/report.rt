//! The report of an engine: what each event did that is worth a line, and at the end each invocation.
ghost use Rattle.std.specs.Prelude.{◌≡◌, ◌++◌, OnOk};
ghost use Rattle.engine_lines.specs.Printed.{AddsText};
ghost use Rattle.engine_scripts.specs.Printed.{PrintsEngine, PrintsInvocation, PrintsMember, called_text, invocation_head, options_text};

use call_lines::plan::Plan;
use engine_lines::frames::print_entry;
use engine_lines::parts::{
    print_asked, print_begun, print_callees, print_count, print_inbox, print_key, print_live,
    print_result, print_target, print_time,
};
use engines::{Engine, Invocation, Member};
use lines::line::Line;
use std::alloc::{AllocError, Global};

/// The names of its handler.
fn print_called(
    engine: &Engine<Plan>,
    it: &Invocation<Plan>,
    report: &mut Line,
) -> Result<(), AllocError>
    ensures { OnOk result (report.new ≡ report.old ++ called_text engine.now it.now) }
{
    print_target(engine.targets.get(it.target), report)
}

/// What else was asked for.
fn print_options(it: &Invocation<Plan>, report: &mut Line) -> Result<(), AllocError>
    ensures { OnOk result (report.new ≡ report.old ++ options_text it.now) }
{
    print_key(&it.key, report)?;
    print_asked(&it.idempotency_key, report)?;
    print_time(it.begins, report)
}

/// What was asked for, in the words of a line `submit`.
fn print_head(
    engine: &Engine<Plan>,
    number: u64,
    it: &Invocation<Plan>,
    report: &mut Line,
) -> Result<(), AllocError>
    ensures { OnOk result (report.new ≡ report.old ++ invocation_head engine.now number it.now) }
{
    print_count("invocation ", number, report)?;
    print_called(engine, it, report)?;
    print_options(it, report)?;
    report.word("\n")?;
    Ok(())
}

/// The journal, one frame an entry.
#[tactic(auto, using(crate::proofs::Printing::adds_none, crate::proofs::Printing::adds_then))]
fn print_journal(alloc: Global, member: &Member<Plan>, report: &mut Line) -> Result<(), AllocError>
    ensures { OnOk result (AddsText report.old report.new) }
{
    for entry in member.journal() {
        print_entry(alloc, "  entry ", entry, report)?;
    }
    Ok(())
}

/// Its rounds, and what waits.
fn print_member(
    alloc: Global,
    member: &Option<Member<Plan>>,
    report: &mut Line,
) -> Result<(), AllocError>
    ensures { OnOk result (PrintsMember member.now report.old report.new) }
{
    match member {
        None => Ok(()),
        Some(member) => {
            print_journal(alloc, member, report)?;
            print_inbox(member.inbox(), report)?;
            print_live(member.is_live(), report)
        }
    }
}

/// An invocation.
fn print_invocation(
    engine: &Engine<Plan>,
    number: u64,
    it: &Invocation<Plan>,
    report: &mut Line,
) -> Result<(), AllocError>
    ensures { OnOk result (PrintsInvocation engine.now number it.now report.old report.new) }
{
    print_head(engine, number, it, report)?;
    print_begun(&it.begun, report)?;
    print_callees(it.callees.as_slice(), report)?;
    print_member(engine.alloc, &it.member, report)?;
    print_result(&it.ended, report)
}

/// All invocations.
#[tactic(auto, using(crate::proofs::Printing::prints_none, crate::proofs::Printing::prints_more, crate::proofs::Printing::prints_all))]
pub fn print_engine(engine: &Engine<Plan>, report: &mut Line) -> Result<(), AllocError>
    ensures { OnOk result (PrintsEngine engine.now report.old report.new) }
{
    let mut number = 0u64;
    for it in &engine.invocations {
        print_invocation(engine, number, it, report)?;
        number += 1;
    }
    Ok(())
}
