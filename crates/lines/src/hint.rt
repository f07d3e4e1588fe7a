//! A hint for a person whose line is refused.
ghost use Rattle.std.specs.Prelude.{◌≡◌, ◌==◌, ◌<◌, length, [], IfOk, IfSome, MatchOption, MatchResult, None, Some, drop, map};
ghost use Rattle.std.specs.List.{list_all, position};
ghost use Rattle.std.specs.Str.{IsUtf8};
ghost use Rattle.lines.specs.Pieces.{AreWords};
ghost use Rattle.lines.specs.Hints.{IsHint, IsHintAfterFirst, IsHintByForms, IsRoundHint, IsUnreadHint, IsWordsHint, form_word, first_form, frame_words, begins_with, has_field, is_field, is_in_name, may_be_frame, field_name, takes_frame, unknown_name};

use crate::forms::{FRAMES, ROUNDS};
use crate::pieces::words;
use plain::Fault;
use std::alloc::{AllocError, Global};

/// Which word of a line isn't understood, or why the line has no words.
#[derive(Clone, Copy, Debug, PartialEq, Eq)]
pub enum Hint<'a> {
    /// The line isn't UTF-8.
    NoText,
    /// A quote or a bracket isn't closed, or one is closed that wasn't opened.
    Unclosed,
    /// None of these forms begins with this word, which is the line's first.
    UnknownWord(&'a [u8], &'static [&'static str]),
    /// This form, which begins with the line's first word, has no field of this name. The name ends with its `=`.
    UnknownField(&'a [u8], &'static str),
    /// This form begins with the line's first word.
    Form(&'static str),
}

/// A form's first word.
pub fn form_word(form: &str) -> &str
    ensures { result.now ≡ form_word form.now }
{
    match form.split_once(' ') {
        Some((word, _)) => word,
        None => form,
    }
}

/// Whether a form begins with this word.
fn begins_with(form: &str, word: &[u8]) -> bool
    ensures { result ≡ begins_with form.now word.now }
{
    form_word(form).as_bytes() == word
}

/// The first of these forms that begins with this word.
fn first_form(forms: &'static [&'static str], word: &[u8]) -> Option<&'static str>
    ensures { result ≡ first_form word.now forms.now }
{
    forms.iter().copied().find(|form| begins_with(*form, word))
}

/// Whether a word of a form is a field of this name.
fn is_field(word: &[u8], name: &[u8]) -> bool
    ensures { result ≡ is_field word.now name.now }
{
    match word {
        [b'[', field @ ..] => field.starts_with(name),
        _ => word.starts_with(name),
    }
}

/// Whether one of a form's words is a field of this name.
fn has_field(form_words: &[&[u8]], name: &[u8]) -> bool
    ensures { result ≡ has_field form_words.now name.now }
{
    form_words.iter().any(|word| is_field(*word, name))
}

/// Whether a byte is a small letter or `_`.
fn is_in_name(byte: u8) -> bool
    ensures { result ≡ is_in_name byte }
{
    byte.is_ascii_lowercase() || byte == b'_'
}

/// Whether each byte is a small letter or `_`.
fn is_name(text: &[u8]) -> bool
    ensures { result ≡ list_all is_in_name text.now }
{
    text.iter().all(|byte| is_in_name(*byte))
}

/// The first `=` of a word.
fn equals_sign(word: &[u8]) -> Option<usize>
    ensures value { result ≡ position (λ b. b == 61) word.now }
    ensures within { IfSome result (λ at. at < length word.now) }
{
    word.iter().position(|byte| *byte == b'=')
}

/// The name that a word begins with, up to its first `=`, and with it.
#[tactic(auto, unfolding(crate::specs::Hints::field_name))]
fn field_name(word: &[u8]) -> Option<&[u8]>
    ensures { MatchOption result (field_name word.now ≡ None) (λ name. field_name word.now
        ≡ Some name.now) }
{
    match equals_sign(word) {
        Some(at) if is_name(&word[..at]) => Some(&word[..at + 1]),
        _ => None,
    }
}

/// The first name among the words that is no field of the form.
#[tactic(auto, using(crate::proofs::UnknownNames::no_name, crate::proofs::UnknownNames::known_name, crate::proofs::UnknownNames::first_unknown, crate::proofs::UnknownNames::none_unknown))]
fn unknown_name<'a>(form_words: &[&[u8]], words: &[&'a [u8]]) -> Option<&'a [u8]>
    ensures { MatchOption result (unknown_name form_words.now words.now ≡ None)
        (λ name. unknown_name form_words.now words.now ≡ Some name.now) }
{
    for word in words {
        if let Some(name) = field_name(*word)
            && !has_field(form_words, name)
        {
            return Some(name);
        }
    }
    None
}

/// The hint for the words after a line's first, which begins this form.
fn hint_after_first<'a>(
    alloc: Global,
    form: &'static str,
    others: &[&'a [u8]],
) -> Result<Hint<'a>, AllocError>
    ensures { IfOk result (λ hint. IsHintAfterFirst form.entry others.now hint) }
{
    let form_words = match words(alloc, form.as_bytes()) {
        Ok(form_words) => form_words,
        Err(Fault::Malformed) => return Ok(Hint::Form(form)),
        Err(Fault::Memory) => return Err(AllocError),
    };
    match unknown_name(form_words.as_slice(), others) {
        Some(name) => Ok(Hint::UnknownField(name, form)),
        None => Ok(Hint::Form(form)),
    }
}

/// The hint for words, by these forms. No words have none.
fn hint_of_words<'a>(
    alloc: Global,
    forms: &'static [&'static str],
    words: &[&'a [u8]],
) -> Result<Option<Hint<'a>>, AllocError>
    ensures { IfOk result (λ hint. MatchOption hint (words.now
        ≡ []) (IsWordsHint forms.now words.now)) }
{
    let [first, others @ ..] = words else {
        return Ok(None);
    };
    match first_form(forms, *first) {
        Some(form) => Ok(Some(hint_after_first(alloc, form, others)?)),
        None => Ok(Some(Hint::UnknownWord(*first, forms))),
    }
}

/// The words of a line without blanks around it, or the hint that says why it has none.
fn words_of(alloc: Global, line: &[u8]) -> Result<Result<Vec<&[u8]>, Hint<'_>>, AllocError>
    ensures { IfOk result (λ read. MatchResult read
        (λ words. IsUtf8 line.now × AreWords line.now words.items) (IsUnreadHint line.now)) }
{
    if std::str::from_utf8(line).is_err() {
        return Ok(Err(Hint::NoText));
    }
    match words(alloc, line) {
        Ok(words) => Ok(Ok(words)),
        Err(Fault::Malformed) => Ok(Err(Hint::Unclosed)),
        Err(Fault::Memory) => Err(AllocError),
    }
}

/// The forms of lines of `frames --encode`.
fn frame_forms() -> &'static [&'static str]
    ensures { map (λ form. form.now) result.now ≡ map (λ form. form.now) FRAMES }
{
    &FRAMES
}

/// The hint for a line of `frames --encode` that is refused. An empty line has none.
pub fn frame_hint(alloc: Global, line: &[u8]) -> Result<Option<Hint<'_>>, AllocError>
    ensures { IfOk result (IsHint (IsHintByForms (map (λ form. form.now) FRAMES)) line.now) }
{
    match words_of(alloc, line.trim_ascii())? {
        Ok(words) => hint_of_words(alloc, frame_forms(), words.as_slice()),
        Err(hint) => Ok(Some(hint)),
    }
}

/// Whether a frame may follow this word of a script of rounds.
fn takes_frame(word: &[u8]) -> bool
    ensures { result ≡ takes_frame word.now }
{
    word == b"arrive".as_slice() || word == b"entry".as_slice()
}

/// The words of the frame of an arrival or an entry.
fn frame_words<'a, 'b>(words: &'b [&'a [u8]]) -> Option<&'b [&'a [u8]]>
    ensures { MatchOption result (frame_words words.now ≡ None) (λ frame. frame_words words.now
        ≡ Some frame.now) }
{
    match words {
        [word, frame @ ..] if takes_frame(*word) && may_be_frame(frame) => Some(frame),
        _ => None,
    }
}

/// Whether the first of these words, if there is one, is no bytes as they are.
fn may_be_frame(words: &[&[u8]]) -> bool
    ensures { result ≡ may_be_frame words.now }
{
    match words {
        [first, ..] => !first.starts_with(b"0x"),
        [] => false,
    }
}

/// The forms of a frame in a script of rounds.
fn arrival_forms() -> &'static [&'static str]
    ensures { map (λ form. form.now) result.now ≡ drop 1 (map (λ form. form.now) FRAMES) }
{
    &FRAMES[1..]
}

/// The forms of lines of a script of rounds.
fn round_forms() -> &'static [&'static str]
    ensures { map (λ form. form.now) result.now ≡ map (λ form. form.now) ROUNDS }
{
    &ROUNDS
}

/// The hint for a line of a script of rounds that is refused. An empty line has none.
pub fn round_hint(alloc: Global, line: &[u8]) -> Result<Option<Hint<'_>>, AllocError>
    ensures { IfOk result (IsHint (IsRoundHint (map (λ form. form.now) ROUNDS)
        (drop 1 (map (λ form. form.now) FRAMES))) line.now) }
{
    let read = match words_of(alloc, line.trim_ascii())? {
        Ok(read) => read,
        Err(hint) => return Ok(Some(hint)),
    };
    let words = read.as_slice();
    match frame_words(words) {
        Some(frame) => hint_of_words(alloc, arrival_forms(), frame),
        None => hint_of_words(alloc, round_forms(), words),
    }
}
