//! `vmrun`: runs one attempt of a handler over the journal on standard input, and writes what the attempt sends.
#![tactic(auto)]

mod details;

use crate::details::explain;
use program_runs::command_line::asks_for_help;
use program_runs::exit_status::ExitStatus;
use program_runs::streams::{Plain, Source};
use program_vmrun::run::run;
use program_vmrun::run_end::{AttemptEnd, RunEnd};
use std::env::{self, Env};
use std::io;
use std::process::ExitCode;

/// The code of an error of the VM that found no memory.
const OUT_OF_MEMORY: u16 = 500;

const USAGE: &str =
    "usage: vmrun [--details] <content-type> <sleeper|race|parent|counter|deadline>";

/// What `--help` answers after the usage.
const HELP: &str = "
Runs one attempt of a handler over the journal on standard input, and writes what the attempt sends.
With --details standard error says what the error of a failed attempt is about.
Exit status: 0 the handler has ended, 3 it is suspended, 1 a failure, 2 other arguments than these.";

/// The arguments.
#[derive(Drop)]
struct Arguments {
    details: bool,
    content_type: String,
    handler: String,
}

/// The arguments, if there are just two, or three of which the first is `--details`.
fn read_arguments(rt: &(impl Env + AllocGlobal)) -> io::Result<Option<Arguments>> {
    let mut arguments = env::args(rt)?;
    let _program = arguments.next();
    let Some(first) = arguments.next() else {
        return Ok(None);
    };
    let Some(second) = arguments.next() else {
        return Ok(None);
    };
    let third = arguments.next();
    if arguments.next().is_some() {
        return Ok(None);
    }
    match third {
        None => Ok(Some(Arguments {
            details: false,
            content_type: first,
            handler: second,
        })),
        Some(handler) if first.as_str() == "--details" => Ok(Some(Arguments {
            details: true,
            content_type: second,
            handler,
        })),
        Some(_) => Ok(None),
    }
}

/// Whether the attempt has failed by an error that another run of it has too. An attempt that was out of memory has not.
fn has_failed(end: &RunEnd) -> bool {
    match end {
        RunEnd::Written(AttemptEnd::Failed(error)) => error.code() != OUT_OF_MEMORY,
        _ => false,
    }
}

/// Runs the handler, and says what its error is about.
fn run_with_details(rt: &HostRuntime, content_type: &str, handler: &str) -> ExitStatus {
    let mut input = Vec::new(rt.alloc());
    if Plain(rt.reader()).read_whole(&mut input).is_err() {
        return ExitStatus::Failed;
    }
    let mut writer = Plain(io::writer(rt));
    let mut reader = Plain(input.as_slice());
    let end = run(rt.alloc(), content_type, handler, &mut reader, &mut writer);
    if has_failed(&end)
        && let Ok(Some(told)) = explain(rt.alloc(), content_type, handler, input)
    {
        let _ = rt.eprintln(told.as_str());
    }
    end.status()
}

/// Runs the handler that the arguments name.
fn run_named(rt: &HostRuntime, arguments: &Arguments) -> ExitStatus {
    let content_type = arguments.content_type.as_str();
    let handler = arguments.handler.as_str();
    if arguments.details {
        return run_with_details(rt, content_type, handler);
    }
    let mut writer = Plain(io::writer(rt));
    let mut reader = Plain(rt.reader());
    run(rt.alloc(), content_type, handler, &mut reader, &mut writer).status()
}

fn main(rt: HostRuntime) -> ExitCode {
    if asks_for_help(&rt) {
        let _ = rt.println(format_args!("{USAGE}\n{HELP}"));
        return ExitCode::SUCCESS;
    }
    let status = match read_arguments(&rt) {
        Ok(Some(arguments)) => run_named(&rt, &arguments),
        Ok(None) => ExitStatus::Usage,
        Err(_) => ExitStatus::Failed,
    };
    if status == ExitStatus::Usage {
        let _ = rt.eprintln(USAGE);
    }
    ExitCode::from(status.code())
}
