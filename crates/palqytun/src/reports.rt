//! Questions to a report: how its attempt ended, and which commands it has sent.
ghost use Rattle.std.specs.Prelude.{◌≡◌, ◌⊎◌, IfNone, IfOk, IfSome};
ghost use Rattle.journal_protocol.specs.Frames.{Malformed, Partial, Whole, next_of};
ghost use Rattle.palqytun.specs.Reports.{commands_sent, ending_of, frames_sent, is_sent_among};

use bytes::Bytes;
use journal_entries::entry::is_command_frame;
use journal_protocol::{Decoder, MessageType, RawMessage};
use plain::Fault;
use std::alloc::AllocError;
use world_rounds::Report;

/// How a round's attempt ended.
#[derive(Clone, Copy, Debug, PartialEq, Eq)]
pub enum Ending {
    /// An event answered an error, which the report has.
    Failed,
    /// The handler has ended.
    Ended,
    /// It is suspended: the next attempt goes on once a result is there.
    Suspended,
    /// None of these: its process died before.
    Crashed,
}

/// The next frame, if a whole one waits.
fn next_whole(decoder: &mut Decoder) -> Result<Option<RawMessage>, AllocError>
    ensures none { IfOk result (λ next. IfNone next
        ((next_of decoder.old ≡ Partial) ⊎ (next_of decoder.old ≡ Malformed))) }
    ensures some { IfOk result
        (λ next. IfSome next (λ raw. next_of decoder.old ≡ Whole raw decoder.new)) }
{
    match decoder.next_frame() {
        Ok(frame) => Ok(frame),
        Err(Fault::Malformed) => Ok(None),
        Err(Fault::Memory) => Err(AllocError),
    }
}

/// The frames that the attempt has sent.
#[tactic(auto, using(crate::proofs::Sending::all_seen))]
fn frames_sent(report: &Report) -> Result<Vec<RawMessage>, AllocError>
    ensures { IfOk result (λ frames. frames.items ≡ frames_sent report.now) }
{
    let alloc = *report.answers.allocator();
    let mut frames = Vec::new(alloc);
    let mut decoder = Decoder::new(alloc);
    decoder.push(report.output.clone()?)?;
    while let Some(raw) = next_whole(&mut decoder)? {
        frames.push(raw)?;
    }
    Ok(frames)
}

/// Whether a frame of this type is among these.
fn is_sent_among(frames: &[RawMessage], ty: MessageType) -> bool
    ensures { result ≡ is_sent_among frames.now ty }
{
    frames.iter().any(|raw| raw.has_type(ty))
}

/// How the report's attempt ended.
pub fn ending_of(report: &Report) -> Result<Ending, AllocError>
    ensures { IfOk result (λ ending. ending ≡ ending_of report.now) }
{
    if report.error.is_some() {
        return Ok(Ending::Failed);
    }
    let frames = frames_sent(report)?;
    if is_sent_among(&frames, MessageType::End) {
        return Ok(Ending::Ended);
    }
    if is_sent_among(&frames, MessageType::Suspension) {
        return Ok(Ending::Suspended);
    }
    Ok(Ending::Crashed)
}

/// The commands that the report's attempt has sent, one frame a command, in order. Those that it replayed aren't among them.
pub fn commands_sent(report: &Report) -> Result<Vec<Bytes>, AllocError>
    ensures { IfOk result (λ commands. commands.items ≡ commands_sent report.now) }
{
    let alloc = *report.answers.allocator();
    let frames = frames_sent(report)?;
    let mut commands = Vec::new(alloc);
    for raw in &frames {
        if is_command_frame(raw) {
            commands.push(raw.encode(alloc)?)?;
        }
    }
    Ok(commands)
}
