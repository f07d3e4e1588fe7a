//! `frames`: a stream of frames as lines that people read, and such lines as a stream of frames.
#![tactic(auto)]

use frame_runs::refusal::{Refusal, RunEnd};
use frame_runs::run::{decode, encode};
use lines::note::frame_note;
use program_runs::command_line::asks_for_help;
use program_runs::streams::Plain;
use std::env::{self, Env};
use std::io;
use std::process::ExitCode;

const USAGE: &str = "usage: frames [--encode]";

/// What `--help` answers after the usage.
const HELP: &str = "
Prints the stream of frames on standard input as lines; with --encode, writes such lines as frames.
Exit status: 0 all is written, 1 a failure or a line that is no frame, 2 other arguments than these.";

/// Whether lines are to be written as frames; nothing where the arguments make no sense.
fn arguments(rt: &(impl Env + AllocGlobal)) -> io::Result<Option<bool>> {
    let mut arguments = env::args(rt)?;
    let _program = arguments.next();
    let Some(argument) = arguments.next() else {
        return Ok(Some(false));
    };
    if argument.as_str() != "--encode" || arguments.next().is_some() {
        return Ok(None);
    }
    Ok(Some(true))
}

/// Writes what is read in the other form.
fn turn(rt: &HostRuntime, encodes: bool) -> RunEnd {
    let mut reader = Plain(rt.reader());
    let mut writer = Plain(io::writer(rt));
    if encodes {
        encode(rt.alloc(), &mut reader, &mut writer)
    } else {
        decode(rt.alloc(), &mut reader, &mut writer)
    }
}

/// Says which line is no frame, and what could stand there.
fn print_refused(rt: &HostRuntime, number: u64, line: &Option<Vec<u8>>) {
    let _ = rt.eprintln(format_args!("frames: line {number} is no frame"));
    if let Some(line) = line
        && let Some(note) = frame_note(rt.alloc(), number, line.as_slice())
    {
        let _ = rt.eprintln(note.as_str());
    }
}

fn main(rt: HostRuntime) -> ExitCode {
    if asks_for_help(&rt) {
        let _ = rt.println(format_args!("{USAGE}\n{HELP}"));
        return ExitCode::SUCCESS;
    }
    let end = match arguments(&rt) {
        Ok(Some(encodes)) => turn(&rt, encodes),
        Ok(None) => RunEnd::Refused(Refusal::Usage),
        Err(error) => RunEnd::ReadFailed(error),
    };
    match &end {
        RunEnd::Refused(Refusal::Usage) => {
            let _ = rt.eprintln(USAGE);
        }
        RunEnd::Refused(Refusal::BadLine(number, line)) => print_refused(&rt, *number, line),
        _ => {}
    }
    ExitCode::from(end.code())
}
