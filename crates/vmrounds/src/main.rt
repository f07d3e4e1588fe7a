//! `vmrounds`: plays rounds of one invocation from a script on standard input, and prints their report.
#![tactic(auto)]

mod details;

use crate::details::explain_rounds;
use call_lines::reading::plan_of;
use handlers::named::Named;
use journal_protocol::Version;
use lines::note::round_note;
use plain::Fault;
use program_runs::command_line::asks_for_help;
use program_runs::streams::{Plain, Source};
use std::env::{self, Env};
use std::io;
use std::process::ExitCode;
use vm_types::Handler;
use world_scripts::run::{run, run_handler};
use world_scripts::run_end::{Ending, Refusal, RunEnd};
use world_scripts::stop::Stop;

const USAGE: &str =
    "usage: vmrounds [--details] <content-type> <sleeper|race|parent|counter|deadline|charge|plan STEP..> < script > report";

/// What `--help` answers after the usage.
const HELP: &str = "
Plays rounds of a handler from the script on standard input, and prints a report.
With --details standard error says after it what the errors of the rounds are about, each with its round's number.
Exit status: 0 all rounds were played, 1 a fault or a failure, 2 other arguments than these or a line without a meaning.";

/// The arguments.
#[derive(Drop)]
struct Arguments {
    details: bool,
    content_type: String,
    handler: String,
    /// The steps of a plan.
    steps: Vec<String>,
}

/// The arguments, if there are two or more beside `--details`, which comes first.
fn read_arguments(rt: &(impl Env + AllocGlobal)) -> io::Result<Option<Arguments>> {
    let mut arguments = env::args(rt)?;
    let _program = arguments.next();
    let mut first = arguments.next();
    let details = matches!(&first, Some(first) if first.as_str() == "--details");
    if details {
        first = arguments.next();
    }
    let Some(content_type) = first else {
        return Ok(None);
    };
    let Some(handler) = arguments.next() else {
        return Ok(None);
    };
    let mut steps = Vec::new(rt.alloc());
    for step in arguments {
        steps.push(step)?;
    }
    Ok(Some(Arguments {
        details,
        content_type,
        handler,
        steps,
    }))
}

/// Says what the errors of the rounds are about.
fn print_details<H: Handler>(rt: &HostRuntime, content_type: &str, handler: &H, script: &[u8]) {
    if let Some(version) = Version::of_content_type(content_type)
        && let Ok(details) = explain_rounds(rt.alloc(), version, handler, script)
    {
        let _ = rt.eprint(details.as_str());
    }
}

/// Plays rounds of a handler, and then says what their errors are about.
fn play_with_details<H: Handler>(rt: &HostRuntime, content_type: &str, handler: &H) -> RunEnd {
    let mut script = Vec::new(rt.alloc());
    if let Err(error) = Plain(rt.reader()).read_whole(&mut script) {
        return RunEnd::ReadFailed(error);
    }
    let mut writer = Plain(io::writer(rt));
    let mut reader = Plain(script.as_slice());
    let end = run_handler(rt.alloc(), content_type, handler, &mut reader, &mut writer);
    print_details(rt, content_type, handler, script.as_slice());
    end
}

/// Plays rounds of this handler.
fn play_handler<H: Handler>(rt: &HostRuntime, arguments: &Arguments, handler: &H) -> RunEnd {
    let content_type = arguments.content_type.as_str();
    if arguments.details {
        return play_with_details(rt, content_type, handler);
    }
    let mut writer = Plain(io::writer(rt));
    let mut reader = Plain(rt.reader());
    run_handler(rt.alloc(), content_type, handler, &mut reader, &mut writer)
}

/// Plays rounds of the handler that has this name.
fn play_named(rt: &HostRuntime, arguments: &Arguments) -> RunEnd {
    let handler = arguments.handler.as_str();
    if !arguments.steps.is_empty() {
        return RunEnd::Refused(Refusal::UnknownHandler);
    }
    if !arguments.details {
        let content_type = arguments.content_type.as_str();
        let mut writer = Plain(io::writer(rt));
        let mut reader = Plain(rt.reader());
        return run(rt.alloc(), content_type, handler, &mut reader, &mut writer);
    }
    match Named::in_rounds(rt.alloc(), handler) {
        Some(handler) => play_handler(rt, arguments, &handler),
        None => RunEnd::Refused(Refusal::UnknownHandler),
    }
}

/// Plays rounds of the handler that the arguments name.
fn play(rt: &HostRuntime, arguments: &Arguments) -> RunEnd {
    if arguments.handler.as_str() != "plan" {
        return play_named(rt, arguments);
    }
    match plan_of(rt.alloc(), arguments.steps.as_slice()) {
        Ok(plan) => play_handler(rt, arguments, &plan),
        Err(Fault::Malformed) => RunEnd::Refused(Refusal::UnknownHandler),
        Err(Fault::Memory) => RunEnd::NoMemory,
    }
}

/// Says which line has no meaning, and what could stand there.
fn print_refused(rt: &HostRuntime, number: u64, line: &Option<Vec<u8>>) {
    let _ = rt.eprintln(format_args!("line {number} has no meaning"));
    if let Some(line) = line
        && let Some(note) = round_note(rt.alloc(), number, line.as_slice())
    {
        let _ = rt.eprintln(note.as_str());
    }
}

fn main(rt: HostRuntime) -> ExitCode {
    if asks_for_help(&rt) {
        let _ = rt.println(format_args!("{USAGE}\n{HELP}"));
        return ExitCode::SUCCESS;
    }
    let end = match read_arguments(&rt) {
        Ok(Some(arguments)) => play(&rt, &arguments),
        Ok(None) => RunEnd::Refused(Refusal::UnknownHandler),
        Err(error) => RunEnd::ReadFailed(error),
    };
    match &end {
        RunEnd::Refused(Refusal::UnknownHandler) => {
            let _ = rt.eprintln(USAGE);
        }
        RunEnd::Refused(Refusal::NoMeaning(number, line)) => print_refused(&rt, *number, line),
        RunEnd::Written(
            Ending {
                stopped_by: Some(Stop::Rounds(at)),
            },
        ) => {
            let _ = rt.eprintln(format_args!("{at}"));
        }
        _ => {}
    }
    ExitCode::from(end.code())
}
