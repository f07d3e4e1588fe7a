//! Engines of plans: a parent that calls a child and sleeps, crashed at each point, and taken over by another attempt at each point; and the
//! check of its stored journal before a new version of it takes over.
#![tactic(auto)]

#[cfg(test)]
mod bench;
#[cfg(test)]
mod crashes;
#[cfg(test)]
mod replays;
