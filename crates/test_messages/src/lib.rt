//! The test bench of the protocol: names of versions, types and faults; bytes of messages and their bodies, written out by hand; and
//! frames whose bytes another program wrote, with their lines. The `journal_*` crates and `frame_lines` are held against them.
#![tactic(auto)]

#[cfg(test)]
mod changes;
#[cfg(test)]
mod deep_frames;
#[cfg(test)]
mod faults;
#[cfg(test)]
mod frame_rows;
#[cfg(test)]
mod lines_read_back;
#[cfg(test)]
mod messages;
#[cfg(test)]
mod printed_frames;
#[cfg(test)]
mod reading;
#[cfg(test)]
mod short_bodies;
