//! `vmscript`: drives one VM from a script on standard input, a call or some bytes a line, and prints an answer for each of its lines. It is for
//! trying a single call, and for the rows that test them; what a line does stands in `call_scripts`.
#![tactic(auto)]

mod details;

use crate::details::explain_script;
use call_scripts::run::run;
use program_runs::command_line::asks_for_help;
use program_runs::exit_status::ExitStatus;
use program_runs::streams::{Plain, Source};
use std::env::{self, Env};
use std::io;
use std::process::ExitCode;

const USAGE: &str = "usage: vmscript [--details] < script > transcript";

/// What `--help` answers after the usage.
const HELP: &str = "
Drives one VM from the script on standard input, and prints an answer for each line.
With --details standard error says after it what the errors by which a VM has failed are about, each with its line's number.
Exit status: 0 all lines are answered, 1 a failure, 2 another argument.";

/// Whether the arguments ask for details; none if they are others.
fn asks_for_details(rt: &(impl Env + AllocGlobal)) -> io::Result<Option<bool>> {
    let mut arguments = env::args(rt)?;
    let _program = arguments.next();
    let Some(argument) = arguments.next() else {
        return Ok(Some(false));
    };
    if arguments.next().is_none() && argument.as_str() == "--details" {
        Ok(Some(true))
    } else {
        Ok(None)
    }
}

/// Answers the script.
fn run_script(rt: &HostRuntime) -> ExitStatus {
    let mut writer = Plain(io::writer(rt));
    run(rt.alloc(), &mut Plain(rt.reader()), &mut writer).status()
}

/// Answers the script, and then says what its errors are about.
fn run_with_details(rt: &HostRuntime) -> ExitStatus {
    let mut script = Vec::new(rt.alloc());
    if Plain(rt.reader()).read_whole(&mut script).is_err() {
        return ExitStatus::Failed;
    }
    let mut writer = Plain(io::writer(rt));
    let status = run(rt.alloc(), &mut Plain(script.as_slice()), &mut writer).status();
    if let Ok(details) = explain_script(rt.alloc(), script.as_slice()) {
        let _ = rt.eprint(details.as_str());
    }
    status
}

fn main(rt: HostRuntime) -> ExitCode {
    if asks_for_help(&rt) {
        let _ = rt.println(format_args!("{USAGE}\n{HELP}"));
        return ExitCode::SUCCESS;
    }
    let status = match asks_for_details(&rt) {
        Ok(Some(false)) => run_script(&rt),
        Ok(Some(true)) => run_with_details(&rt),
        Ok(None) => ExitStatus::Usage,
        Err(_) => ExitStatus::Failed,
    };
    if status == ExitStatus::Usage {
        let _ = rt.eprintln(USAGE);
    }
    ExitCode::from(status.code())
}
