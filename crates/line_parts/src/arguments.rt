//! The arguments of a line: values, options and single atoms, in their places.
ghost use Rattle.std.specs.Prelude.{◌≡◌, codes, drop, IfErr, IfOk};
ghost use Rattle.lines.specs.Atoms.{IsText};
ghost use Rattle.lines.specs.Readings.{Blames};
ghost use Rattle.lines.specs.Fields.{IsOptional, texts_named};
ghost use Rattle.line_parts.specs.Values.{HasExtras, HasFlag, HasName, HasNow, words_without};
ghost use Rattle.lines.specs.Durations.{IsTime};
ghost use Rattle.lines.specs.Words.{AreThreeTexts, AreTwoTexts, IsOneAtom, IsOneText};

use bytes::Bytes;
use lines::atoms::{shared_of, text_of};
use lines::durations::duration_of;
use lines::fields::{are_named, field_of};
use lines::words::{behind, text_in};
use plain::{Fault, Text};
use std::alloc::{AllocError, Global};
use std::time::Duration;
use vm_types::PayloadOptions;

/// The options after a command's arguments.
#[derive(Drop)]
pub struct Extras {
    pub name: Option<Text>,
    pub payload: PayloadOptions,
}

/// Whether a word stands there, which may stand once.
#[tactic(auto, using(crate::proofs::Flags::twice_blamed))]
fn stands_once(words: &[&[u8]], flag: &str) -> Result<bool, Fault>
    ensures flag { IfOk result (HasFlag flag.now words.now) }
    ensures none { IfErr result (Blames (HasFlag flag.now words.now)) }
{
    let mut stands = false;
    for word in words {
        if *word == flag.as_bytes() {
            if stands {
                return Err(Fault::Malformed);
            }
            stands = true;
        }
    }
    Ok(stands)
}

/// The words but this one.
fn others<'a>(alloc: Global, words: &[&'a [u8]], flag: &str) -> Result<Vec<&'a [u8]>, AllocError>
    ensures { IfOk result (λ others. others.items ≡ words_without flag.now words.now) }
{
    let mut others = Vec::new(alloc);
    for word in words {
        if *word != flag.as_bytes() {
            others.push(*word)?;
        }
    }
    Ok(others)
}

/// The words but this one, which may stand once, and whether it stands there.
pub fn without_flag<'a>(
    alloc: Global,
    words: &[&'a [u8]],
    flag: &str,
) -> Result<(Vec<&'a [u8]>, bool), Fault>
    ensures others { IfOk result (λ found. found.0.items ≡ words_without flag.now words.now) }
    ensures flag { IfOk result (λ found. HasFlag flag.now words.now found.1) }
    ensures none { IfErr result (Blames (HasFlag flag.now words.now)) }
{
    let stands = stands_once(words, flag)?;
    let others = others(alloc, words, flag)?;
    Ok((others, stands))
}

/// The words but `unstable`, and what is said of the payload.
pub fn without_unstable<'a>(
    alloc: Global,
    words: &[&'a [u8]],
) -> Result<(Vec<&'a [u8]>, PayloadOptions), Fault>
    ensures others { IfOk result (λ found. found.0.items
        ≡ words_without (codes "unstable") words.now) }
    ensures flag { IfOk result
        (λ found. HasFlag (codes "unstable") words.now found.1.unstable_serialization) }
    ensures none { IfErr result (Blames (HasFlag (codes "unstable") words.now)) }
{
    let (others, unstable_serialization) = without_flag(alloc, words, "unstable")?;
    let payload = PayloadOptions {
        unstable_serialization,
    };
    Ok((others, payload))
}

/// `[NAME=T]`, among other words.
#[tactic(auto, using(lines::proofs::Missing::optional_blamed))]
pub fn optional_text(alloc: Global, words: &[&[u8]], name: &str) -> Result<Option<Text>, Fault>
    ensures value { IfOk result (IsOptional IsText (texts_named name.now words.now)) }
    ensures none { IfErr result (Blames (IsOptional IsText (texts_named name.now words.now))) }
{
    match field_of(words, name) {
        Ok(Some(text)) => match text_of(alloc, text) {
            Ok(text) => Ok(Some(text)),
            Err(fault) => Err(fault),
        },
        Ok(None) => Ok(None),
        Err(fault) => Err(fault),
    }
}

/// `[name=T]` alone.
pub fn name_of(alloc: Global, words: &[&[u8]]) -> Result<Option<Text>, Fault>
    ensures value { IfOk result (HasName words.now) }
    ensures none { IfErr result (Blames (HasName words.now)) }
{
    if !are_named(words, &["name="]) {
        return Err(Fault::Malformed);
    }
    optional_text(alloc, words, "name=")
}

/// `[name=T] [unstable]`.
pub fn extras_of(alloc: Global, words: &[&[u8]]) -> Result<Extras, Fault>
    ensures value { IfOk result (HasExtras words.now) }
    ensures none { IfErr result (Blames (HasExtras words.now)) }
{
    if words.is_empty() {
        return Ok(Extras {
            name: None,
            payload: PayloadOptions::stable_serialization(),
        });
    }
    let (others, payload) = without_unstable(alloc, words)?;
    let name = name_of(alloc, others.as_slice())?;
    Ok(Extras { name, payload })
}

/// `[NAME=D]`, among other words.
pub fn optional_duration(words: &[&[u8]], name: &str) -> Result<Option<Duration>, Fault>
    ensures value { IfOk result (IsOptional IsTime (texts_named name.now words.now)) }
    ensures none { IfErr result (Blames (IsOptional IsTime (texts_named name.now words.now))) }
{
    match field_of(words, name) {
        Ok(Some(text)) => match duration_of(text) {
            Ok(duration) => Ok(Some(duration)),
            Err(fault) => Err(fault),
        },
        Ok(None) => Ok(None),
        Err(fault) => Err(fault),
    }
}

/// `[now=D]` alone.
pub fn now_of(words: &[&[u8]]) -> Result<Option<Duration>, Fault>
    ensures value { IfOk result (HasNow words.now) }
    ensures none { IfErr result (Blames (HasNow words.now)) }
{
    if !are_named(words, &["now="]) {
        return Err(Fault::Malformed);
    }
    optional_duration(words, "now=")
}

/// `T` alone.
#[tactic(auto, using(lines::proofs::Missing::one_text_blamed))]
pub fn text_alone(alloc: Global, arguments: &[&[u8]]) -> Result<Text, Fault>
    ensures value { IfOk result (IsOneText arguments.now) }
    ensures none { IfErr result (Blames (IsOneText arguments.now)) }
{
    if arguments.len() != 1 {
        return Err(Fault::Malformed);
    }
    let text = text_in(alloc, arguments, 0)?;
    Ok(text)
}

/// `T T`, and the words after them.
#[tactic(auto, using(lines::proofs::Missing::first_of_two, lines::proofs::Missing::second_of_two))]
pub fn two_texts<'w, 'a>(
    alloc: Global,
    words: &'w [&'a [u8]],
) -> Result<(Text, Text, &'w [&'a [u8]]), Fault>
    ensures texts { IfOk result (λ found. AreTwoTexts words.now (found.0, found.1)) }
    ensures rest { IfOk result (λ found. found.2.now ≡ drop 2 words.now) }
    ensures none { IfErr result (Blames (AreTwoTexts words.now)) }
{
    let first = text_in(alloc, words, 0)?;
    match text_in(alloc, words, 1) {
        Ok(second) => Ok((first, second, behind(words, 2))),
        Err(fault) => {
            drop(first);
            Err(fault)
        }
    }
}

/// `T T T`, and the words after them.
#[tactic(auto, using(lines::proofs::Missing::first_of_three, lines::proofs::Missing::others_of_three, lines::proofs::Places::three_texts_are, lines::proofs::Places::drop_two_more))]
pub fn three_texts<'w, 'a>(
    alloc: Global,
    words: &'w [&'a [u8]],
) -> Result<(Text, Text, Text, &'w [&'a [u8]]), Fault>
    ensures texts { IfOk result (λ found. AreThreeTexts words.now (found.0, found.1, found.2)) }
    ensures rest { IfOk result (λ found. found.3.now ≡ drop 3 words.now) }
    ensures none { IfErr result (Blames (AreThreeTexts words.now)) }
{
    let first = text_in(alloc, words, 0)?;
    match two_texts(alloc, behind(words, 1)) {
        Ok((second, third, others)) => Ok((first, second, third, others)),
        Err(fault) => {
            drop(first);
            Err(fault)
        }
    }
}

/// `B` alone.
pub fn bytes_alone(alloc: Global, arguments: &[&[u8]]) -> Result<Bytes, Fault>
    ensures value { IfOk result (IsOneAtom arguments.now) }
    ensures none { IfErr result (Blames (IsOneAtom arguments.now)) }
{
    match arguments {
        [bytes] => shared_of(alloc, *bytes),
        _ => Err(Fault::Malformed),
    }
}
