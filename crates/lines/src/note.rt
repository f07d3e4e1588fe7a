//! A hint as a line for people.
ghost use Rattle.std.specs.Prelude.{◌≡◌, ◌++◌, IfOk, IfSome, OnOk, drop, map};
ghost use Rattle.lines.specs.Hints.{IsHintByForms, IsRoundHint};
ghost use Rattle.lines.specs.Notes.{IsNote, more_first_words, note_text, with_first_words, with_hint, with_quoted};

use crate::forms::{FRAMES, ROUNDS};
use crate::hint::{Hint, form_word, frame_hint, round_hint};
use crate::line::Line;
use std::alloc::{AllocError, Global};

/// How many bytes of a word are shown.
const SHOWN: usize = 60;

/// Writes a word in quotes, or its beginning.
fn show_word(word: &[u8], line: &mut Line) -> Result<(), AllocError>
    ensures { OnOk result (line.new ≡ with_quoted line.old word.now) }
{
    if word.len() <= SHOWN {
        return line.quoted(word);
    }
    let (shown, _) = word.split_at(SHOWN);
    line.quoted(shown)?;
    line.word("..")
}

/// Writes the first words of forms, each after a comma and a blank.
fn show_more_first_words(forms: &[&str], line: &mut Line) -> Result<(), AllocError>
    ensures { OnOk result (line.new ≡ line.old ++ more_first_words forms.now) }
{
    for form in forms {
        line.word(", ")?;
        line.word(form_word(*form))?;
    }
    Ok(())
}

/// Writes the first words of forms, with a comma and a blank between each two.
fn show_first_words(forms: &[&str], line: &mut Line) -> Result<(), AllocError>
    ensures { OnOk result (line.new ≡ with_first_words line.old forms.now) }
{
    let [first, others @ ..] = forms else {
        return Ok(());
    };
    line.word(form_word(*first))?;
    show_more_first_words(others, line)
}

/// Writes a hint.
fn show_hint(hint: Hint<'_>, line: &mut Line) -> Result<(), AllocError>
    ensures { OnOk result (line.new ≡ with_hint line.old hint.entry) }
{
    match hint {
        Hint::NoText => line.word("it isn't UTF-8"),
        Hint::Unclosed => {
            line.word("a quote or a bracket isn't closed, or one is closed that wasn't opened")
        }
        Hint::UnknownWord(word, forms) => {
            show_word(word, line)?;
            line.word(" is none of these: ")?;
            show_first_words(forms, line)
        }
        Hint::UnknownField(name, form) => {
            show_word(name, line)?;
            line.word(" is no field of this line: ")?;
            line.word(form)
        }
        Hint::Form(form) => {
            line.word("its form is: ")?;
            line.word(form)
        }
    }
}

/// The line's number, and its hint.
fn note_of(alloc: Global, number: u64, hint: Hint<'_>) -> Result<Line, AllocError>
    ensures { IfOk result (λ note. note ≡ note_text number hint.entry) }
{
    let mut line = Line::new(alloc);
    line.word("line ")?;
    line.number(number)?;
    line.word(": ")?;
    show_hint(hint, &mut line)?;
    Ok(line)
}

/// The note on the line of this number, which `frames --encode` refuses: its hint, if it has one and there is memory for it.
#[tactic(auto, using(crate::proofs::Noting::noted))]
pub fn frame_note(alloc: Global, number: u64, line: &[u8]) -> Option<Line>
    ensures { IfSome result (IsNote (IsHintByForms (map (λ form. form.now) FRAMES)) number
        line.now) }
{
    match frame_hint(alloc, line) {
        Ok(Some(hint)) => note_of(alloc, number, hint).ok(),
        _ => None,
    }
}

/// The same for a line of a script of rounds.
#[tactic(auto, using(crate::proofs::Noting::noted))]
pub fn round_note(alloc: Global, number: u64, line: &[u8]) -> Option<Line>
    ensures { IfSome result (IsNote (IsRoundHint (map (λ form. form.now) ROUNDS)
        (drop 1 (map (λ form. form.now) FRAMES))) number line.now) }
{
    match round_hint(alloc, line) {
        Ok(Some(hint)) => note_of(alloc, number, hint).ok(),
        _ => None,
    }
}
