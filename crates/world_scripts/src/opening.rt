//! The line `round`: with what a round begins.
ghost use Rattle.std.specs.Prelude.{◌≡◌, IfErr, IfOk, codes};
ghost use Rattle.lines.specs.Readings.{Blames};
ghost use Rattle.lines.specs.Fields.{IsSet, are_named, texts_named};
ghost use Rattle.lines.specs.Words.{IsNumberOf};
ghost use Rattle.world_scripts.specs.Rounds.{AreKeys, IsWholeMilliseconds, SaysRound, round_names};

use line_parts::arguments::without_flag;
use lines::atoms::{text_of, u32_of};
use lines::durations::duration_of;
use lines::fields::{are_named, field_of, text_behind};
use plain::{Fault, Items, Text};
use std::alloc::Global;
use world_rounds::Round;

/// `[key=T]..`, among other words.
#[tactic(auto, using(crate::proofs::Beginning::keys_blamed))]
fn keys_in(alloc: Global, words: &[&[u8]]) -> Result<Items<Text>, Fault>
    ensures value { IfOk result (AreKeys (texts_named (codes "key=") words.now)) }
    ensures none { IfErr result (Blames (AreKeys (texts_named (codes "key=") words.now))) }
{
    let mut keys = Items::new(alloc);
    for word in words {
        if let Some(text) = text_behind(*word, "key=") {
            keys.push(text_of(alloc, text)?)?;
        }
    }
    Ok(keys)
}

/// `[retry=N]`, by default 0.
#[tactic(auto, using(lines::proofs::Missing::set_blamed, lines::proofs::Missing::twice_set))]
fn retry_count_in(words: &[&[u8]]) -> Result<u32, Fault>
    ensures value { IfOk result (IsSet (IsNumberOf 32) 0 (texts_named (codes "retry=") words.now)) }
    ensures none { IfErr result
        (Blames (IsSet (IsNumberOf 32) 0 (texts_named (codes "retry=") words.now))) }
{
    match field_of(words, "retry=")? {
        Some(text) => u32_of(text),
        None => Ok(0),
    }
}

/// A duration in whole milliseconds, rounded down.
#[tactic(auto, using(crate::proofs::Beginning::time_blamed, crate::proofs::Beginning::too_long))]
fn milliseconds_of(text: &[u8]) -> Result<u64, Fault>
    ensures value { IfOk result (IsWholeMilliseconds text.now) }
    ensures none { IfErr result (Blames (IsWholeMilliseconds text.now)) }
{
    let duration = duration_of(text)?;
    u64::try_from(duration.as_millis()).map_err(|_| Fault::Malformed)
}

/// `[duration=D]` in whole milliseconds, rounded down; by default 0.
#[tactic(auto, using(lines::proofs::Missing::set_blamed, lines::proofs::Missing::twice_set))]
fn milliseconds_in(words: &[&[u8]]) -> Result<u64, Fault>
    ensures value { IfOk result
        (IsSet IsWholeMilliseconds 0 (texts_named (codes "duration=") words.now)) }
    ensures none { IfErr result
        (Blames (IsSet IsWholeMilliseconds 0 (texts_named (codes "duration=") words.now))) }
{
    match field_of(words, "duration=")? {
        Some(text) => milliseconds_of(text),
        None => Ok(0),
    }
}

/// Whether the words name with what a round begins, and nothing else.
fn are_of_a_round(words: &[&[u8]]) -> bool
    ensures { result ≡ are_named round_names words.now }
{
    are_named(words, &["key=", "retry=", "duration="])
}

/// Parses the words after `round`. The new round has no events yet.
#[tactic(auto, using(crate::proofs::Beginning::flag_blamed, crate::proofs::Beginning::others_blamed, crate::proofs::Beginning::retry_blamed, crate::proofs::Beginning::duration_blamed, crate::proofs::Beginning::round_keys_blamed))]
pub fn round_of(alloc: Global, words: &[&[u8]]) -> Result<Round, Fault>
    ensures value { IfOk result (SaysRound words.now) }
    ensures none { IfErr result (Blames (SaysRound words.now)) }
{
    let (others, partial) = without_flag(alloc, words, "partial")?;
    if !are_of_a_round(others.as_slice()) {
        return Err(Fault::Malformed);
    }
    let retry_count = retry_count_in(others.as_slice())?;
    let duration = milliseconds_in(others.as_slice())?;
    let keys = keys_in(alloc, others.as_slice())?;
    Ok(Round {
        partial,
        keys,
        retry_count,
        duration,
        events: Items::new(alloc),
    })
}
