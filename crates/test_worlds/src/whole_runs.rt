//! Whole runs of handlers: the entries of the journal in order, the answers, and what stands at the end.
//! An attempt is given the first entries as known; notifications after these arrive, commands after these are written.

use crate::frames::{START_BACK, START_FRONT};
use crate::told::Told;
use std::alloc::{AllocError, Global};
use std::test::Fail;
use test_support::frames::END;

/// An entry of a journal.
#[derive(Clone, Copy)]
pub enum Entry {
    Command(&'static [u8]),
    Notification(&'static [u8]),
}

/// How a run is over, and the frame that says so.
#[derive(Clone, Copy)]
pub enum Ending {
    Ended,
    Suspended(&'static [u8]),
    /// The handler's call is refused with this code and text.
    Refused(u16, &'static str, &'static [u8]),
}

/// A run of a handler.
#[derive(Clone, Copy)]
pub struct Run {
    pub entries: &'static [Entry],
    pub answers: &'static [Told],
    pub ending: Ending,
}

/// What an attempt is fed, and what it has to write, if the first entries are known.
#[derive(Drop)]
pub struct Replay {
    /// Start and the known entries.
    pub recorded: Vec<u8>,
    /// The notifications after the known entries.
    pub arrivals: Vec<u8>,
    /// The commands after the known entries, and the last frame.
    pub written: Vec<u8>,
}

impl Ending {
    pub fn frame(self) -> &'static [u8] {
        match self {
            Ending::Ended => END,
            Ending::Suspended(frame) => frame,
            Ending::Refused(_, _, frame) => frame,
        }
    }
}

/// Adds a Start with this number of known entries.
fn put_start(bytes: &mut Vec<u8>, known: u32) -> Result<(), AllocError> {
    bytes.extend_from_slice(START_FRONT)?;
    bytes.extend_from_slice(&known.to_be_bytes())?;
    bytes.extend_from_slice(START_BACK)
}

fn put_all(bytes: &mut Vec<u8>, entries: &[Entry]) -> Result<(), AllocError> {
    for entry in entries {
        match entry {
            Entry::Command(frame) => bytes.extend_from_slice(*frame)?,
            Entry::Notification(frame) => bytes.extend_from_slice(*frame)?,
        }
    }
    Ok(())
}

fn put_notifications(bytes: &mut Vec<u8>, entries: &[Entry]) -> Result<(), AllocError> {
    for entry in entries {
        if let Entry::Notification(frame) = entry {
            bytes.extend_from_slice(*frame)?;
        }
    }
    Ok(())
}

fn put_commands(bytes: &mut Vec<u8>, entries: &[Entry]) -> Result<(), AllocError> {
    for entry in entries {
        if let Entry::Command(frame) = entry {
            bytes.extend_from_slice(*frame)?;
        }
    }
    Ok(())
}

impl Run {
    /// The attempt for which the first `known` entries are known.
    pub fn replay(&self, alloc: Global, known: usize) -> Result<Replay, Fail> {
        let (front, back) = self.entries.split_at_checked(known).ok_or("fewer entries")?;
        let mut recorded = Vec::new(alloc);
        put_start(&mut recorded, u32::try_from(known)?)?;
        put_all(&mut recorded, front)?;
        let mut arrivals = Vec::new(alloc);
        put_notifications(&mut arrivals, back)?;
        let mut written = Vec::new(alloc);
        put_commands(&mut written, back)?;
        written.extend_from_slice(self.ending.frame())?;
        Ok(Replay {
            recorded,
            arrivals,
            written,
        })
    }

    /// All that the attempt is fed.
    pub fn journal(&self, alloc: Global, known: usize) -> Result<Vec<u8>, Fail> {
        let replay = self.replay(alloc, known)?;
        let parts = [replay.recorded.as_slice(), replay.arrivals.as_slice()];
        Ok(parts.concat(alloc)?)
    }
}
