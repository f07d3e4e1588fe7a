//! `vmengine`: plays a script of many invocations from standard input, and prints its report.
#![tactic(auto)]

use engine_lines::run_end::{Ending, Refusal, RunEnd};
use engine_scripts::run::run;
use program_runs::command_line::asks_for_help;
use program_runs::streams::Plain;
use std::env::{self, Env};
use std::io;
use std::process::ExitCode;

const USAGE: &str = "usage: vmengine <content-type> < script > report";

/// What `--help` answers after the usage.
const HELP: &str = "
Plays the events of the script on standard input over invocations that call each other, and prints a report.
Exit status: 0 all events have happened, 1 a fault or a failure, 2 other arguments than this or a line without a meaning.";

/// The argument, if it is the only one.
fn read_argument(rt: &(impl Env + AllocGlobal)) -> io::Result<Option<String>> {
    let mut arguments = env::args(rt)?;
    let _program = arguments.next();
    let Some(content_type) = arguments.next() else {
        return Ok(None);
    };
    if arguments.next().is_some() {
        return Ok(None);
    }
    Ok(Some(content_type))
}

/// Plays the script on standard input.
fn play(rt: &HostRuntime, content_type: String) -> RunEnd {
    let mut reader = Plain(rt.reader());
    let mut writer = Plain(io::writer(rt));
    run(rt.alloc(), content_type.as_str(), &mut reader, &mut writer)
}

fn main(rt: HostRuntime) -> ExitCode {
    if asks_for_help(&rt) {
        let _ = rt.println(format_args!("{USAGE}\n{HELP}"));
        return ExitCode::SUCCESS;
    }
    let end = match read_argument(&rt) {
        Ok(Some(content_type)) => play(&rt, content_type),
        Ok(None) => RunEnd::Refused(Refusal::OtherArguments),
        Err(error) => RunEnd::ReadFailed(error),
    };
    match &end {
        RunEnd::Refused(Refusal::OtherArguments) => {
            let _ = rt.eprintln(USAGE);
        }
        RunEnd::Refused(Refusal::NoMeaning(number, _)) => {
            let _ = rt.eprintln(format_args!("line {number} has no meaning"));
        }
        RunEnd::Written(
            Ending {
                stopped_by: Some(fault),
            },
        ) => {
            let _ = rt.eprintln(format_args!("{fault}"));
        }
        _ => {}
    }
    ExitCode::from(end.code())
}
