//! What no row can say of scripts: of `vmscript` and `vmrounds`, readers and writers that fail, arguments with which nothing is read, and
//! the forms that hints show; of what crash tests are written with, worlds that a test describes, and reports
//! that it asks; of the handlers of `examples`; and of the check of a stored journal.
#![tactic(auto)]

#[cfg(test)]
mod crash_reports;
#[cfg(test)]
mod crash_worlds;
#[cfg(test)]
mod example_crashes;
#[cfg(test)]
mod forms;
#[cfg(test)]
mod replay_checks;
#[cfg(test)]
mod reports;
#[cfg(test)]
mod transcripts;
