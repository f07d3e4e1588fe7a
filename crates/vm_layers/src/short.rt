//! Messages in other bytes: lengths in four bytes, the type after the body, and a body that is encoded in one of two ways.
ghost use Rattle.std.specs.Prelude.{◌≡◌, ◌<◌, ◌≤◌, ◌+◌, ◌^◌, ◌++◌, drop, IfErr, IfOk, length, MatchOption, OnOk, take};
ghost use Rattle.std.specs.Option.{option_copied};
ghost use Rattle.std.specs.Int.{from_be_bytes, w16, w32};
ghost use Rattle.std.specs.List.{flat_map};
ghost use Rattle.journal_protocol.specs.FutureNode.{FutureNode};
ghost use Rattle.journal_protocol.specs.Frames.{IsWhole, body, type_of};
ghost use Rattle.vm_layers.specs.Kept.{kept_ids};
ghost use Rattle.journal_protocol.specs.Version.{Version};
ghost use Rattle.vm_layers.specs.Layers.{Partial};
ghost use Rattle.vm_layers.specs.declared.layer.LayerFault.TheVariants.{Memory};
ghost use Rattle.vm_layers.specs.Short.{Framed, body_in, cut_in, knows_type, short_front, suspension_of, type_in, sent_form};

use crate::layer::{Layer, LayerFault};
use bytes::Bytes;
use journal_protocol::{
    Decoder, Encoder, Future, FutureKind, FutureNode, Message, MessageType, RawMessage, Suspension,
    Version,
};
use plain::{Items, Text};
use std::alloc::{AllocError, Global};

/// A frame is a length (4 bytes, the most significant first), as many bytes, and the type's number (2 bytes). The first of those bytes is a
/// mark, 0 or 1, and the body follows; the frames with either mark encode the same message. Below version 7 a suspension is written without
/// its tree, and what is awaited isn't reported.
#[derive(Drop)]
pub struct Short {
    pub alloc: Global,
    /// The mark that is written. Each is read.
    pub mark: bool,
    pub version: Version,
}

/// The type and the body of a message, as the layer of the VM has them.
fn framed(alloc: Global, message: &Message) -> Result<RawMessage, LayerFault>
    ensures framed { IfOk result (λ raw. (raw.ty ≡ type_of message.now)
        × (raw.body ≡ body message.now) × IsWhole message.now) }
    ensures memory { IfErr result (λ e. e ≡ Memory) }
{
    let mut decoder = Decoder::new(alloc);
    decoder.push(Encoder::new(alloc).encode(message)?)?;
    match decoder.next_frame() {
        Ok(Some(raw)) => Ok(raw),
        Ok(None) => unreachable!(),
        Err(fault) => Err(LayerFault::from(fault)),
    }
}

/// The completions of all nodes.
fn completions_of(alloc: Global, nodes: &[FutureNode]) -> Result<Items<u32>, AllocError>
    ensures { IfOk result (λ ids. ids
        ≡ flat_map (λ (n : FutureNode). n.waiting_completions) nodes.now) }
{
    let mut ids = Vec::new(alloc);
    for node in nodes {
        ids.extend_from_slice(node.waiting_completions.as_slice())?;
    }
    Ok(Items::from_vec(ids))
}

/// The signals of all nodes.
fn signals_of(alloc: Global, nodes: &[FutureNode]) -> Result<Items<u32>, AllocError>
    ensures { IfOk result (λ ids. ids
        ≡ flat_map (λ (n : FutureNode). n.waiting_signals) nodes.now) }
{
    let mut ids = Vec::new(alloc);
    for node in nodes {
        ids.extend_from_slice(node.waiting_signals.as_slice())?;
    }
    Ok(Items::from_vec(ids))
}

/// Copies of these texts, added to others.
fn add_texts(names: &mut Items<Text>, more: &[Text]) -> Result<(), AllocError>
    ensures { OnOk result (names.new ≡ names.old ++ more.now) }
{
    for name in more {
        names.push(name.clone()?)?;
    }
    Ok(())
}

/// The named signals of all nodes.
fn names_of(alloc: Global, nodes: &[FutureNode]) -> Result<Items<Text>, AllocError>
    ensures { IfOk result (λ names. names
        ≡ flat_map (λ (n : FutureNode). n.waiting_named_signals) nodes.now) }
{
    let mut names = Items::new(alloc);
    for node in nodes {
        add_texts(&mut names, node.waiting_named_signals.as_slice())?;
    }
    Ok(names)
}

/// The ids of a future, without how they are combined.
fn kept_ids(alloc: Global, future: &Future) -> Result<Future, AllocError>
    ensures { IfOk result (λ ids. ids ≡ kept_ids future.now) }
{
    let completions = completions_of(alloc, future.nodes())?;
    let signals = signals_of(alloc, future.nodes())?;
    let names = names_of(alloc, future.nodes())?;
    Future::waiting(alloc, FutureKind::Unknown, completions, signals, names)
}

/// The suspension that a message is, if it is one.
fn suspension_of(message: &Message) -> Option<&Suspension>
    ensures { option_copied result ≡ suspension_of message.now }
{
    match message {
        Message::Suspension(suspension) => Some(suspension),
        _ => None,
    }
}

/// The suspension that is written without its tree.
fn cut_in(version: Version, message: &Message) -> Option<&Suspension>
    ensures { option_copied result ≡ cut_in version message.now }
{
    if version >= Version::V7 {
        return None;
    }
    suspension_of(message)
}

/// Whether the version has messages of this type.
fn knows_type(version: Version, ty: MessageType) -> bool
    ensures { result ≡ knows_type version ty }
{
    match ty {
        MessageType::AwaitingOn => version >= Version::V7,
        _ => true,
    }
}

impl Short {
    /// The type and the body of what is written of a message.
    fn sent_form(&self, message: &Message) -> Result<RawMessage, LayerFault>
        ensures framed { IfOk result (λ raw. (raw.ty ≡ type_of (sent_form self.now message.now))
            × (raw.body ≡ body (sent_form self.now message.now))
            × IsWhole (sent_form self.now message.now)) }
        ensures memory { IfErr result (λ e. e ≡ Memory) }
    {
        let Some(suspension) = cut_in(self.version, message) else {
            return framed(self.alloc, message);
        };
        let future = kept_ids(self.alloc, &suspension.future)?;
        framed(self.alloc, &Message::Suspension(Suspension { future }))
    }

    /// The frame of what is written of a message.
    fn frame(&self, message: &Message) -> Result<Vec<u8>, LayerFault>
        ensures { Framed self.now message.now result }
    {
        let raw = self.sent_form(message)?;
        if !knows_type(self.version, raw.ty) {
            return Err(LayerFault::NoSuchMessage);
        }
        let Ok(len) = u32::try_from(raw.body.len() + 1) else {
            return Err(LayerFault::TooLong);
        };
        let mut frame = Vec::new(self.alloc);
        frame.extend_from_slice(&len.to_be_bytes())?;
        frame.extend_from_slice(&[u8::from(self.mark)])?;
        frame.extend_from_slice(raw.body.as_slice())?;
        frame.extend_from_slice(&raw.ty.number().to_be_bytes())?;
        Ok(frame)
    }
}

/// The length at the front, if it is there.
fn length_at(bytes: &[u8]) -> Option<usize>
    ensures { MatchOption result (length bytes.now < 4) (λ n. (4 ≤ length bytes.now)
        × (n < 2 ^ 32) × (n ≡ from_be_bytes w32 (take 4 bytes.now))) }
{
    if bytes.len() < 4 {
        return None;
    }
    Some(u32::from_be_bytes([bytes[0], bytes[1], bytes[2], bytes[3]]) as usize)
}

/// How long the payload of the frame at the front is, if all of the frame is there.
fn payload_len(bytes: &[u8]) -> Option<usize>
    ensures { MatchOption result ((v : Version) → short_front v bytes.now ≡ Partial)
        (λ n. (n + 6 ≤ length bytes.now) × (n ≡ from_be_bytes w32 (take 4 bytes.now))) }
{
    let Some(len) = length_at(bytes) else {
        return None;
    };
    if bytes.len() < len + 6 {
        return None;
    }
    Some(len)
}

/// The type whose number stands after the first `len` bytes, if the version has it.
fn type_after(version: Version, bytes: &[u8], len: usize) -> Option<MessageType>
    requires { len + 2 ≤ length bytes.now }
    ensures { result ≡ type_in version (from_be_bytes w16 (take 2 (drop len bytes.now))) }
{
    let ty = MessageType::from_number(u16::from_be_bytes([bytes[len], bytes[len + 1]]))?;
    if !knows_type(version, ty) {
        return None;
    }
    Some(ty)
}

/// The body in the payload of the frame at the front, if its mark is 0 or 1.
fn body_at(stream: &Bytes, len: usize) -> Result<Option<Bytes>, AllocError>
    requires { len + 4 ≤ length stream.now }
    ensures { IfOk result (λ b. b ≡ body_in (take len (drop 4 stream.now))) }
{
    let mut rest = stream.clone()?;
    rest.advance(4);
    let mut payload = rest.split_to(len)?;
    match payload.as_slice() {
        [0 | 1, ..] => {
            payload.advance(1);
            Ok(Some(payload))
        }
        _ => Ok(None),
    }
}

impl Layer for Short {
    ghost use Rattle.vm_layers.specs.ShortLaws.{short_keeps, short_malformed_stays, short_read_back, short_rest_is_shorter, short_whole_stays};
    ghost use Rattle.vm_layers.specs.Short.{HasMessage, IsShort, short, short_front, sent_form};

    ghost frame = { short };

    ghost Has = { HasMessage };

    ghost Fits = { IsShort };

    ghost as_read = { sent_form };

    ghost front = { λ layer. short_front layer.version };

    ghost fits_has = { λ _ _ fits. fits.0 };

    ghost read_back = { short_read_back };

    ghost keeps = { short_keeps };

    ghost whole_stays = { λ layer. short_whole_stays layer.version };

    ghost malformed_stays = { λ layer. short_malformed_stays layer.version };

    ghost shorter = { λ layer. short_rest_is_shorter layer.version };

    fn encode(&self, message: &Message, out: &mut Vec<u8>) -> Result<(), LayerFault> {
        match self.frame(message) {
            Ok(frame) => {
                out.extend_from_slice(frame.as_slice())?;
                Ok(())
            }
            Err(fault) => Err(fault),
        }
    }

    fn decode(
        &self,
        alloc: Global,
        stream: &Bytes,
    ) -> Result<Option<(Message, usize)>, LayerFault> {
        let Some(len) = payload_len(stream.as_slice()) else {
            return Ok(None);
        };
        let Some(ty) = type_after(self.version, stream.as_slice(), len + 4) else {
            return Err(LayerFault::Malformed);
        };
        let Some(body) = body_at(stream, len)? else {
            return Err(LayerFault::Malformed);
        };
        match (RawMessage { ty, body }).read(alloc) {
            Ok(message) => Ok(Some((message, len + 6))),
            Err(fault) => Err(LayerFault::from(fault)),
        }
    }
}
