//! What C lends for a call, and copies of it.
ghost use Rattle.std.specs.Prelude.{◌≡◌, ◌/◌, ◌∷◌, [], map, IfOk, IfErr, string_bytes};
ghost use Rattle.std.specs.Duration.{as_nanos};
ghost use Rattle.std.specs.List.{flat_map};
ghost use Rattle.c_calls.specs.Given.{IsSpan, IsSpanIf, CannotCopy, header_of, optional_of, pair_of, lent_texts, texts_of_pair};

use bytes::Bytes;
use c_values::Status;
use journal_protocol::Header;
use plain::{Items, Text};
use std::alloc::Global;
use std::time::Duration;

/// Bytes that C lends.
#[repr(C)]
#[derive(Clone, Copy)]
pub struct Lent<'a> {
    pub bytes: &'a [u8],
}

/// Bytes that C lends, or none.
#[repr(C)]
#[derive(Clone, Copy)]
pub struct MayLend<'a> {
    pub is_given: bool,
    pub lent: Lent<'a>,
}

/// A key and its value.
#[repr(C)]
#[derive(Clone, Copy)]
pub struct Pair<'a> {
    pub key: Lent<'a>,
    pub value: Lent<'a>,
}

/// A text.
#[tactic(auto, using(crate::proofs::Refusing::no_text, crate::proofs::Refusing::no_memory))]
pub(crate) fn string_of(alloc: Global, bytes: &[u8]) -> Result<String, Status>
    ensures ok { IfOk result (λ text. string_bytes text ≡ bytes.now) }
    ensures err { IfErr result (CannotCopy (bytes.now ∷ [])) }
{
    if bytes.is_empty() {
        return Ok(String::new(alloc));
    }
    let Ok(text) = std::str::from_utf8(bytes) else {
        return Err(Status::BadText);
    };
    match String::from_str(alloc, text) {
        Ok(text) => Ok(text),
        Err(_) => Err(Status::NoMemory),
    }
}

/// A text, as a value.
pub(crate) fn text_of(alloc: Global, bytes: &[u8]) -> Result<Text, Status>
    ensures ok { IfOk result (λ text. text ≡ bytes.now) }
    ensures err { IfErr result (CannotCopy (bytes.now ∷ [])) }
{
    match string_of(alloc, bytes) {
        Ok(text) => Ok(Text::from_string(text)),
        Err(status) => Err(status),
    }
}

/// Two texts.
#[tactic(auto, using(crate::proofs::Refusing::front_refused, crate::proofs::Refusing::behind_refused))]
pub(crate) fn two_strings(
    alloc: Global,
    first: &[u8],
    second: &[u8],
) -> Result<(String, String), Status>
    ensures first { IfOk result (λ texts. string_bytes texts.0 ≡ first.now) }
    ensures second { IfOk result (λ texts. string_bytes texts.1 ≡ second.now) }
    ensures err { IfErr result (CannotCopy (first.now ∷ second.now ∷ [])) }
{
    let front = string_of(alloc, first)?;
    match string_of(alloc, second) {
        Ok(behind) => Ok((front, behind)),
        Err(status) => {
            drop(front);
            Err(status)
        }
    }
}

/// A text, if it is given.
pub(crate) fn optional_text(alloc: Global, may: &MayLend) -> Result<Option<Text>, Status>
    ensures ok { IfOk result (λ text. text ≡ optional_of may.now) }
    ensures err { IfErr result (CannotCopy (lent_texts may.now)) }
{
    if !may.is_given {
        return Ok(None);
    }
    match text_of(alloc, may.lent.bytes) {
        Ok(text) => Ok(Some(text)),
        Err(status) => Err(status),
    }
}

/// Bytes.
#[tactic(auto, using(crate::proofs::Refusing::no_memory))]
pub(crate) fn bytes_of(alloc: Global, bytes: &[u8]) -> Result<Bytes, Status>
    ensures ok { IfOk result (λ copy. copy ≡ bytes.now) }
    ensures err { IfErr result (CannotCopy []) }
{
    match Bytes::copy_from_slice(alloc, bytes) {
        Ok(copy) => Ok(copy),
        Err(_) => Err(Status::NoMemory),
    }
}

/// A key and its value.
#[tactic(auto, using(crate::proofs::Refusing::front_refused, crate::proofs::Refusing::behind_refused))]
fn key_and_value(alloc: Global, pair: &Pair) -> Result<(Text, Text), Status>
    ensures ok { IfOk result (λ texts. texts ≡ pair_of pair.now) }
    ensures err { IfErr result (CannotCopy (texts_of_pair pair.now)) }
{
    let key = text_of(alloc, pair.key.bytes)?;
    match text_of(alloc, pair.value.bytes) {
        Ok(value) => Ok((key, value)),
        Err(status) => {
            drop(key);
            Err(status)
        }
    }
}

/// Pairs, in order.
#[tactic(auto, using(crate::proofs::Refusing::no_memory))]
pub(crate) fn pairs_of(alloc: Global, pairs: &[Pair]) -> Result<Items<(Text, Text)>, Status>
    ensures ok { IfOk result (λ texts. texts ≡ map pair_of pairs.now) }
    ensures err { IfErr result (CannotCopy (flat_map texts_of_pair pairs.now)) }
{
    let mut texts = Items::new(alloc);
    for pair in pairs {
        let (key, value) = key_and_value(alloc, pair)?;
        if let Err(_) = texts.push((key, value)) {
            return Err(Status::NoMemory);
        }
    }
    Ok(texts)
}

/// Headers, in order.
#[tactic(auto, using(crate::proofs::Refusing::no_memory))]
pub(crate) fn headers_of(alloc: Global, pairs: &[Pair]) -> Result<Items<Header>, Status>
    ensures ok { IfOk result (λ headers. headers ≡ map header_of pairs.now) }
    ensures err { IfErr result (CannotCopy (flat_map texts_of_pair pairs.now)) }
{
    let mut headers = Items::new(alloc);
    for pair in pairs {
        let (key, value) = key_and_value(alloc, pair)?;
        if let Err(_) = headers.push(Header { key, value }) {
            return Err(Status::NoMemory);
        }
    }
    Ok(headers)
}

/// A time since the Unix epoch.
pub(crate) fn time_of(millis: u64) -> Duration
    ensures { as_nanos result / 1_000_000 ≡ millis }
{
    Duration::from_millis(millis)
}

/// A span of time.
pub(crate) fn span_of(millis: u64) -> Duration
    ensures { IsSpan millis result }
{
    Duration::from_millis(millis)
}

/// A span of time, if it is given.
pub(crate) fn optional_span(is_given: bool, millis: u64) -> Option<Duration>
    ensures { IsSpanIf is_given millis result }
{
    if is_given {
        Some(span_of(millis))
    } else {
        None
    }
}
