//! `vmbench`: plays one case of a given number of entries through the VM's calls and prints nothing, so that their cost can be counted. The
//! typed calls of C play the same cases in `tools/benchmarks/c/direct.c`.
#![tactic(auto)]

mod cases;
mod frames;
mod player;

use cases::play;
use std::env::{self, Env};
use std::io;
use std::process::ExitCode;

const USAGE: &str = "usage: vmbench <sleeps|replay|signals|state|calls|runs> ENTRIES";

/// The arguments: a case, and how many entries.
#[derive(Drop)]
struct Arguments {
    case: String,
    entries: u32,
}

/// The arguments, if they are a word and a number.
fn read_arguments(rt: &(impl Env + AllocGlobal)) -> io::Result<Option<Arguments>> {
    let mut arguments = env::args(rt)?;
    let _program = arguments.next();
    let Some(case) = arguments.next() else {
        return Ok(None);
    };
    let Some(number) = arguments.next() else {
        return Ok(None);
    };
    match number.as_str().parse::<u32>() {
        Ok(entries) => Ok(Some(Arguments { case, entries })),
        Err(_) => Ok(None),
    }
}

/// Plays the case that the arguments name. Returns 0; 1 if that fails; or 2 if they name none.
fn run(rt: &HostRuntime) -> u8 {
    match read_arguments(rt) {
        Ok(Some(arguments)) => {
            match play(rt.alloc(), arguments.case.as_str(), arguments.entries) {
                Ok(()) => 0,
                Err(_) => 1,
            }
        }
        Ok(None) => {
            let _ = rt.eprintln(USAGE);
            2
        }
        Err(_) => 1,
    }
}

fn main(rt: HostRuntime) -> ExitCode {
    ExitCode::from(run(&rt))
}
