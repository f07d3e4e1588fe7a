//! Values on a line: `success B`, or `failure N T` and pairs.
ghost use Rattle.std.specs.Prelude.{◌≡◌, IfErr, IfOk};
ghost use Rattle.lines.specs.Readings.{Blames};
ghost use Rattle.line_parts.specs.Values.{ArePairs, HasValue, IsFailure, IsPair, IsValue, IsValueBehind, but_last, is_unstable, last_is};

use crate::arguments::{bytes_alone, two_texts};
use lines::pieces::words_within;
use lines::words::{behind, text_in, u16_in};
use plain::{Fault, Items, Text};
use std::alloc::Global;
use vm_types::{NonEmptyValue, PayloadOptions, TerminalFailure};

/// `{T T}`.
#[tactic(auto, using(crate::proofs::Pairs::unbraced_blamed, crate::proofs::Pairs::count_blamed, crate::proofs::Pairs::texts_blamed))]
pub fn pair_of(alloc: Global, text: &[u8]) -> Result<(Text, Text), Fault>
    ensures value { IfOk result (IsPair text.now) }
    ensures none { IfErr result (Blames (IsPair text.now)) }
{
    let words = words_within(alloc, text, b'{', b'}')?;
    if words.len() != 2 {
        return Err(Fault::Malformed);
    }
    let (first, second, _) = two_texts(alloc, words.as_slice())?;
    Ok((first, second))
}

/// `{T T}..` alone.
#[tactic(auto, using(crate::proofs::Pairs::pairs_blamed))]
fn pairs_of(alloc: Global, words: &[&[u8]]) -> Result<Items<(Text, Text)>, Fault>
    ensures value { IfOk result (ArePairs words.now) }
    ensures none { IfErr result (Blames (ArePairs words.now)) }
{
    let mut pairs = Items::new(alloc);
    for word in words {
        pairs.push(pair_of(alloc, *word)?)?;
    }
    Ok(pairs)
}

/// `N T {T T}..` alone.
#[tactic(auto, using(crate::proofs::Failing::code_blamed, crate::proofs::Failing::message_blamed, crate::proofs::Failing::metadata_blamed))]
fn failure_of(alloc: Global, words: &[&[u8]]) -> Result<TerminalFailure, Fault>
    ensures value { IfOk result (IsFailure words.now) }
    ensures none { IfErr result (Blames (IsFailure words.now)) }
{
    let code = u16_in(words, 0)?;
    let message = text_in(alloc, words, 1)?;
    match pairs_of(alloc, behind(words, 2)) {
        Ok(metadata) => Ok(TerminalFailure {
            code,
            message,
            metadata,
        }),
        Err(fault) => {
            drop(message);
            Err(fault)
        }
    }
}

/// The value that this word and those after it are.
#[tactic(auto, using(crate::proofs::Failing::success_blamed, crate::proofs::Failing::failure_blamed))]
fn value_behind(alloc: Global, word: &[u8], others: &[&[u8]]) -> Result<NonEmptyValue, Fault>
    ensures value { IfOk result (IsValueBehind word.now others.now) }
    ensures none { IfErr result (Blames (IsValueBehind word.now others.now)) }
{
    if word == b"success".as_slice() {
        return match bytes_alone(alloc, others) {
            Ok(bytes) => Ok(NonEmptyValue::Success(bytes)),
            Err(fault) => Err(fault),
        };
    }
    if word == b"failure".as_slice() {
        return match failure_of(alloc, others) {
            Ok(failure) => Ok(NonEmptyValue::Failure(failure)),
            Err(fault) => Err(fault),
        };
    }
    Err(Fault::Malformed)
}

/// `V` alone.
pub fn value_of(alloc: Global, words: &[&[u8]]) -> Result<NonEmptyValue, Fault>
    ensures value { IfOk result (IsValue words.now) }
    ensures none { IfErr result (Blames (IsValue words.now)) }
{
    let [word, others @ ..] = words else {
        return Err(Fault::Malformed);
    };
    value_behind(alloc, *word, others)
}

/// The words in front of a last `unstable`, and what that says of the payload.
fn before_unstable<'w, 'a>(words: &'w [&'a [u8]]) -> (&'w [&'a [u8]], PayloadOptions)
    ensures front { result.0.now ≡ but_last is_unstable words.now }
    ensures unstable { result.1.unstable_serialization ≡ last_is is_unstable words.now }
{
    let Some((last, front)) = words.split_last() else {
        return (words, PayloadOptions::stable_serialization());
    };
    if *last == b"unstable".as_slice() {
        return (front, PayloadOptions::unstable_serialization());
    }
    (words, PayloadOptions::stable_serialization())
}

/// `V [unstable]`.
pub fn value_and_payload(
    alloc: Global,
    words: &[&[u8]],
) -> Result<(NonEmptyValue, PayloadOptions), Fault>
    ensures value { IfOk result (HasValue words.now) }
    ensures none { IfErr result (Blames (HasValue words.now)) }
{
    let (front, payload) = before_unstable(words);
    let value = value_of(alloc, front)?;
    Ok((value, payload))
}
