//! What the command lines of the programs have in common: each answers `--help`. The arguments come from outside, so no contract says
//! what they are.
use std::env::{self, Env};

/// Whether the only argument is `--help` or `-h`. Arguments that can't be read ask for nothing.
pub fn asks_for_help(rt: &(impl Env + AllocGlobal)) -> bool {
    let Ok(mut arguments) = env::args(rt) else {
        return false;
    };
    let _program = arguments.next();
    let Some(argument) = arguments.next() else {
        return false;
    };
    arguments.next().is_none() && matches!(argument.as_str(), "--help" | "-h")
}
