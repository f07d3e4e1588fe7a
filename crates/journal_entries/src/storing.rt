//! What is stored of what an attempt wrote: the commands and proposals among its frames, and what answers a proposal.
ghost use Rattle.std.specs.Prelude.{◌≡◌, true, IfOk, IfErr, OnOk, if◌then◌else◌};
ghost use Rattle.journal_protocol.specs.Frames.{encoding, IsWhole};
ghost use Rattle.journal_protocol.specs.Versions.{is_from_v7};
ghost use Rattle.journal_entries.specs.JournalFrames.{is_proposal};
ghost use Rattle.journal_entries.specs.NextFrames.{NextWritten};
ghost use Rattle.journal_entries.specs.Storing.{acknowledgement, proposal_of, written_as};
ghost use Rattle.journal_entries.specs.declared.fault.JournalFault.TheVariants as journal_fault;

use crate::entry::is_command_frame;
use crate::fault::JournalFault;
use bytes::Bytes;
use journal_protocol::{
    Decoder, Encoder, Message, ProposeRunCompletion, ProposeRunCompletionAck, RawMessage, Version,
};
use plain::Fault;
use std::alloc::{AllocError, Global};

/// What is stored of what an attempt writes.
#[derive(Drop)]
pub enum Written {
    /// A command, as it was written.
    Command(RawMessage),
    /// A run's result, as its completion.
    Proposal(ProposeRunCompletion),
}

/// Whether the frame is one of a proposal.
fn is_proposal(raw: &RawMessage) -> bool
    ensures { result ≡ is_proposal raw.now }
{
    raw.ty.number() == 5
}

/// The proposal that a frame is, if it is one and can be read.
fn proposal_of(alloc: Global, raw: &RawMessage) -> Result<Option<ProposeRunCompletion>, AllocError>
    ensures { IfOk result (λ proposal. proposal ≡ proposal_of raw.now) }
{
    if !is_proposal(raw) {
        return Ok(None);
    }
    match raw.read_proposal(alloc) {
        Ok(proposal) => Ok(Some(proposal)),
        Err(Fault::Memory) => Err(AllocError),
        Err(Fault::Malformed) => Ok(None),
    }
}

/// What is stored of a frame, if it is one of a command or of a proposal.
pub fn written_as(alloc: Global, raw: RawMessage) -> Result<Option<Written>, AllocError>
    ensures { IfOk result (λ written. written ≡ written_as raw) }
{
    if is_command_frame(&raw) {
        return Ok(Some(Written::Command(raw)));
    }
    match proposal_of(alloc, &raw) {
        Ok(Some(proposal)) => Ok(Some(Written::Proposal(proposal))),
        Ok(None) => Ok(None),
        Err(error) => Err(error),
    }
}

/// The frame that acknowledges the proposal for the run of this id.
fn acknowledgement_bytes(alloc: Global, id: u32) -> Result<Bytes, AllocError>
    ensures bytes { IfOk result (λ b. b ≡ encoding (acknowledgement id)) }
    ensures whole { OnOk result (IsWhole (acknowledgement id)) }
{
    let message = Message::ProposeRunCompletionAck(ProposeRunCompletionAck { id });
    Encoder::new(alloc).encode(&message)
}

/// The frame that answers a proposal: from version 7 on its acknowledgement, before it the completion that was stored.
pub fn answer_bytes(
    alloc: Global,
    version: Version,
    id: u32,
    completion: &Bytes,
) -> Result<Bytes, AllocError>
    ensures bytes { IfOk result (λ b. b
        ≡ (if is_from_v7 version then encoding (acknowledgement id) else completion.now)) }
    ensures whole { OnOk result (is_from_v7 version ≡ true → IsWhole (acknowledgement id)) }
{
    if version >= Version::V7 {
        acknowledgement_bytes(alloc, id)
    } else {
        completion.clone()
    }
}

/// The next frame that was written, if it is whole.
pub fn next_written(unstored: &mut Decoder) -> Result<Option<RawMessage>, JournalFault>
    ensures ok { IfOk result (λ o. NextWritten unstored.old o unstored.new) }
    ensures err { IfErr result (λ f. f ≡ journal_fault.Memory) }
{
    match unstored.next_frame() {
        Ok(raw) => Ok(raw),
        Err(Fault::Memory) => Err(JournalFault::Memory),
        Err(Fault::Malformed) => Ok(None),
    }
}
