//! What the errors of a script's rounds are about.
use call_details::attempt::explain_attempt;
use call_details::explain::shown_error;
use journal_protocol::{Error, Version};
use lines::line::Line;
use std::alloc::{AllocError, Global};
use vm_types::{Handler, VMOptions};
use world_scripts::handed::{FailedRound, failed_rounds};

/// Whether a line begins with this error.
fn is_about(alloc: Global, told: &Line, error: &Error) -> Result<bool, AllocError> {
    let line = shown_error(alloc, error)?;
    Ok(told.as_str().starts_with(line.as_str()))
}

/// What the error of a round is about: that of an attempt over the journal before the round, or else over the one after it.
fn explain_round<H: Handler>(
    alloc: Global,
    version: Version,
    options: VMOptions,
    handler: &H,
    round: &FailedRound,
) -> Result<Option<Line>, AllocError> {
    for input in [&round.before, &round.after] {
        let told = explain_attempt(alloc, version, options, handler, input.clone()?, false)?;
        if let Some(told) = told
            && is_about(alloc, &told, &round.error)?
        {
            return Ok(Some(told));
        }
    }
    Ok(None)
}

/// Writes the number of a round, and what its error is about.
fn add_round(number: u64, told: &Line, details: &mut Line) -> Result<(), AllocError> {
    details.word("round ")?;
    details.number(number)?;
    details.word(": ")?;
    details.word(told.as_str())?;
    details.word("\n")
}

/// A line for each round of a script that has an error, if more is known than the error says: its number, counted from 1, the error, and what
/// that is about.
pub fn explain_rounds<H: Handler>(
    alloc: Global,
    version: Version,
    handler: &H,
    text: &[u8],
) -> Result<Line, AllocError> {
    let mut details = Line::new(alloc);
    let (options, failed) = failed_rounds(alloc, version, handler, text)?;
    for round in failed.as_slice() {
        if let Some(told) = explain_round(alloc, version, options, handler, round)? {
            add_round(round.number, &told, &mut details)?;
        }
    }
    Ok(details)
}
