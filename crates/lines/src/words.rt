//! The words of a line by their places, the first at 0.
ghost use Rattle.std.specs.Prelude.{◌≡◌, drop, IfErr, IfOk, string_bytes};
ghost use Rattle.lines.specs.Atoms.{IsAtom, IsText};
ghost use Rattle.lines.specs.Readings.{Blames};
ghost use Rattle.lines.specs.Durations.{IsTime};
ghost use Rattle.lines.specs.Words.{IsNumberOf, words_after_first, text_at};

use crate::atoms::{shared_of, string_of, text_of, u16_of, u32_of};
use crate::durations::duration_of;
use bytes::Bytes;
use plain::{Fault, Text};
use std::alloc::Global;
use std::time::Duration;

/// `T` at this place.
#[tactic(auto, using(crate::proofs::Missing::text_blamed_at, crate::proofs::Missing::no_text_at))]
pub fn text_in(alloc: Global, words: &[&[u8]], place: usize) -> Result<Text, Fault>
    ensures value { IfOk result (IsText (text_at place words.now)) }
    ensures none { IfErr result (Blames (IsText (text_at place words.now))) }
{
    match words.get(place) {
        Some(word) => text_of(alloc, *word),
        None => Err(Fault::Malformed),
    }
}

/// `T` at this place, as a string.
#[tactic(auto, using(crate::proofs::Missing::text_blamed_at, crate::proofs::Missing::no_text_at))]
pub fn string_in(alloc: Global, words: &[&[u8]], place: usize) -> Result<String, Fault>
    ensures value { IfOk result (λ string. IsText (text_at place words.now) (string_bytes string)) }
    ensures none { IfErr result (Blames (IsText (text_at place words.now))) }
{
    match words.get(place) {
        Some(word) => string_of(alloc, *word),
        None => Err(Fault::Malformed),
    }
}

/// `N` of sixteen bits at this place.
#[tactic(auto, using(crate::proofs::Missing::number_blamed_at, crate::proofs::Missing::no_number_at))]
pub fn u16_in(words: &[&[u8]], place: usize) -> Result<u16, Fault>
    ensures value { IfOk result (IsNumberOf 16 (text_at place words.now)) }
    ensures none { IfErr result (Blames (IsNumberOf 16 (text_at place words.now))) }
{
    match words.get(place) {
        Some(word) => u16_of(*word),
        None => Err(Fault::Malformed),
    }
}

/// `N` of thirty-two bits at this place.
#[tactic(auto, using(crate::proofs::Missing::number_blamed_at, crate::proofs::Missing::no_number_at))]
pub fn u32_in(words: &[&[u8]], place: usize) -> Result<u32, Fault>
    ensures value { IfOk result (IsNumberOf 32 (text_at place words.now)) }
    ensures none { IfErr result (Blames (IsNumberOf 32 (text_at place words.now))) }
{
    match words.get(place) {
        Some(word) => u32_of(*word),
        None => Err(Fault::Malformed),
    }
}

/// `B` at this place.
#[tactic(auto, using(crate::proofs::Missing::atom_blamed_at, crate::proofs::Missing::no_atom_at))]
pub fn bytes_in(alloc: Global, words: &[&[u8]], place: usize) -> Result<Bytes, Fault>
    ensures value { IfOk result (IsAtom (text_at place words.now)) }
    ensures none { IfErr result (Blames (IsAtom (text_at place words.now))) }
{
    match words.get(place) {
        Some(word) => shared_of(alloc, *word),
        None => Err(Fault::Malformed),
    }
}

/// `D` at this place.
#[tactic(auto, using(crate::proofs::Missing::time_blamed_at, crate::proofs::Missing::no_time_at))]
pub fn time_in(words: &[&[u8]], place: usize) -> Result<Duration, Fault>
    ensures value { IfOk result (IsTime (text_at place words.now)) }
    ensures none { IfErr result (Blames (IsTime (text_at place words.now))) }
{
    match words.get(place) {
        Some(word) => duration_of(*word),
        None => Err(Fault::Malformed),
    }
}

/// The words after the first `count`.
pub fn behind<'w, 'a>(words: &'w [&'a [u8]], count: usize) -> &'w [&'a [u8]]
    ensures { result.now ≡ drop count words.now }
{
    words.get(count..).unwrap_or_default()
}

/// The words after the first.
#[tactic(auto, using(crate::proofs::Places::drop_first))]
pub fn but_first<'w, 'a>(words: &'w [&'a [u8]]) -> &'w [&'a [u8]]
    ensures { result.now ≡ words_after_first words.now }
{
    behind(words, 1)
}
