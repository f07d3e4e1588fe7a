//! A text cut into pieces, none of them within quotes or brackets.
ghost use Rattle.std.specs.Prelude.{◌≡◌, ◌≢◌, ◌++◌, ◌<◌, ◌≤◌, ◌-◌, ◌^◌, ℕ, IfOk, IfErr, OnOk, IfSome, IfNone, IsAscii, IsTrue, ◌↔◌, Some, None, length};
ghost use Rattle.lines.specs.declared.pieces.Charset.TheVariants.{Ascii};
ghost use Rattle.lines.specs.declared.pieces.Quotes.TheVariants.{Escaped};
ghost use Rattle.plain.specs.declared.fault.Fault.TheVariants.{Malformed};
ghost use Rattle.lines.specs.Readings.{Blames};
ghost use Rattle.lines.specs.Pieces.{ArePieces, AreWords, AreWordsWithin, ArePlain, IsWithin, nesting_after, outside, place, with_word};

use plain::Fault;
use std::alloc::{AllocError, Global};

#[derive(Clone, Copy, PartialEq, Eq)]
enum Quotes {
    Outside,
    Inside,
    /// Inside, after a backslash.
    Escaped,
}

/// In how many brackets, and in which quotes, a place of a text is.
#[derive(Clone, Copy)]
struct Nesting {
    brackets: usize,
    quotes: Quotes,
}

impl Nesting {
    const NONE: Nesting = Nesting {
        brackets: 0,
        quotes: Quotes::Outside,
    };

    fn is_none(&self) -> bool
        ensures { IsTrue result ↔ (Some self.now ≡ outside) }
    {
        self.brackets == 0 && self.quotes == Quotes::Outside
    }

    /// The nesting after one byte more; `None` if it closes a bracket that wasn't opened.
    #[tactic(auto, unfolding(crate::specs::Pieces::nesting_after))]
    fn behind(self, byte: u8) -> Option<Nesting>
        ensures some { IfSome result (λ after. nesting_after (Some self) byte ≡ Some after) }
        ensures none { IfNone result (self.brackets < 2 ^ 64 - 1 → nesting_after (Some self) byte
            ≡ None) }
    {
        // Most bytes are letters and digits, which change nothing except after a backslash.
        if byte.is_ascii_alphanumeric() && self.quotes != Quotes::Escaped {
            return Some(self);
        }
        let Nesting {
            mut brackets,
            mut quotes,
        } = self;
        match (quotes, byte) {
            (Quotes::Inside, b'\\') => quotes = Quotes::Escaped,
            (Quotes::Escaped, _) | (Quotes::Outside, b'"') => quotes = Quotes::Inside,
            (Quotes::Inside, b'"') => quotes = Quotes::Outside,
            (Quotes::Outside, b'(' | b'[' | b'{') => brackets = brackets.checked_add(1)?,
            (Quotes::Outside, b')' | b']' | b'}') => brackets = brackets.checked_sub(1)?,
            _ => {}
        }
        Some(Nesting { brackets, quotes })
    }

    /// The end of the letters and digits that stand from a place on. They change nothing, except the one after a backslash: there the end
    /// is the place itself.
    fn plain_end(self, text: &[u8], from: usize) -> usize
        requires { from ≤ length text.now }
        ensures within { (from ≤ result) × (result ≤ length text.now) }
        ensures plain { ArePlain from result text.now }
        ensures free { from < result → self.quotes ≢ Escaped }
    {
        if self.quotes == Quotes::Escaped {
            return from;
        }
        for i in from..text.len() {
            if !text[i].is_ascii_alphanumeric() {
                return i;
            }
        }
        text.len()
    }
}

/// Which bytes a text has.
#[derive(Clone, Copy)]
pub enum Charset {
    Ascii,
    /// Some byte isn't ASCII.
    Other,
}

impl Charset {
    /// The text with one byte more.
    fn with(self, byte: u8) -> Charset
        ensures { result ≡ Ascii → (self ≡ Ascii) × (byte < 128) }
    {
        if byte.is_ascii() {
            self
        } else {
            Charset::Other
        }
    }
}

/// The pieces of a text between separators that stand in no quotes and no brackets. A text whose quotes or brackets
/// aren't closed has none.
#[tactic(auto, using(crate::proofs::Cutting::cut_none, crate::proofs::Cutting::cut_within, crate::proofs::Cutting::cut_here, crate::proofs::Cutting::cut_all))]
pub fn pieces<'a>(alloc: Global, text: &'a [u8], separator: u8) -> Result<Vec<&'a [u8]>, Fault>
    requires { nesting_after outside separator ≡ outside }
    ensures pieces { IfOk result (λ pieces. ArePieces separator text.now pieces.items) }
    ensures unclosed { IfErr result (λ fault. fault ≡ Malformed → place text.now ≢ outside) }
{
    let mut pieces = Vec::new(alloc);
    let mut start = 0;
    let mut nesting = Nesting::NONE;
    for i in 0..text.len() {
        if text[i] == separator && nesting.is_none() {
            pieces.push(&text[start..i])?;
            start = i + 1;
        } else {
            nesting = nesting.behind(text[i]).ok_or(Fault::Malformed)?;
        }
    }
    if !nesting.is_none() {
        return Err(Fault::Malformed);
    }
    pieces.push(&text[start..])?;
    Ok(pieces)
}

/// The text up to its first blank, or to the bracket that closes what the text stands in; and the rest from there.
pub fn first_word<'a>(text: &'a [u8]) -> Result<(&'a [u8], &'a [u8]), Fault>
    ensures { IfOk result (λ cut. text.now ≡ cut.0.now ++ cut.1.now) }
{
    let mut nesting = Nesting::NONE;
    for i in 0..text.len() {
        if text[i] == b' ' && nesting.is_none() {
            return Ok(text.split_at(i));
        }
        match nesting.behind(text[i]) {
            Some(behind) => nesting = behind,
            None => return Ok(text.split_at(i)),
        }
    }
    Err(Fault::Malformed)
}

/// How many words a line has room for at once.
const USUAL_WORDS: usize = 8;

/// Adds a piece that isn't empty.
#[tactic(auto, unfolding(crate::specs::Pieces::with_word))]
fn add_word<'a>(words: &mut Vec<&'a [u8]>, piece: &'a [u8]) -> Result<(), AllocError>
    ensures { OnOk result (words.new.items ≡ with_word words.old.items piece.entry) }
{
    if piece.is_empty() {
        return Ok(());
    }
    words.push(piece)?;
    Ok(())
}

/// As `words`, in the memory of others, which are dropped. It also says which bytes it has seen in the text.
#[tactic(auto, using(crate::proofs::Wording::words_none, crate::proofs::Wording::words_within, crate::proofs::Wording::words_here, crate::proofs::Wording::words_all))]
pub fn words_in<'a>(words: &mut Vec<&'a [u8]>, text: &'a [u8]) -> Result<Charset, Fault>
    ensures words { IfOk result (λ _. AreWords text.now words.new.items) }
    ensures ascii { IfOk result (λ charset. charset ≡ Ascii → IsAscii text.now) }
    ensures unclosed { IfErr result (λ fault. fault ≡ Malformed → place text.now ≢ outside) }
{
    words.clear();
    let mut charset = Charset::Ascii;
    let mut start = 0;
    let mut nesting = Nesting::NONE;
    let mut i = 0;
    while i < text.len() {
        if text[i] == b' ' && nesting.is_none() {
            add_word(words, &text[start..i])?;
            i += 1;
            start = i;
        } else {
            nesting = nesting.behind(text[i]).ok_or(Fault::Malformed)?;
            charset = charset.with(text[i]);
            i = nesting.plain_end(text, i + 1);
        }
    }
    if !nesting.is_none() {
        return Err(Fault::Malformed);
    }
    add_word(words, &text[start..])?;
    Ok(charset)
}

/// The pieces between blanks, without those that are empty.
pub fn words<'a>(alloc: Global, text: &'a [u8]) -> Result<Vec<&'a [u8]>, Fault>
    ensures words { IfOk result (λ words. AreWords text.now words.items) }
    ensures unclosed { IfErr result (λ fault. fault ≡ Malformed → place text.now ≢ outside) }
{
    let mut words = Vec::with_capacity(alloc, USUAL_WORDS)?;
    words_in(&mut words, text)?;
    Ok(words)
}

/// What stands between the brackets that the text begins and ends with.
pub fn between<'a>(text: &'a [u8], opening: u8, closing: u8) -> Result<&'a [u8], Fault>
    ensures inside { IfOk result (λ inside. IsWithin opening closing text.now inside.now) }
    ensures none { IfErr result (Blames (IsWithin opening closing text.now)) }
{
    match text {
        [first, inside @ .., last] if *first == opening && *last == closing => Ok(inside),
        _ => Err(Fault::Malformed),
    }
}

/// The words of what stands between the brackets that the text begins and ends with.
#[tactic(auto, using(crate::proofs::Once::unclosed_blamed, crate::proofs::Once::unbracketed_blamed))]
pub fn words_within<'a>(
    alloc: Global,
    text: &'a [u8],
    opening: u8,
    closing: u8,
) -> Result<Vec<&'a [u8]>, Fault>
    ensures words { IfOk result (λ words. AreWordsWithin opening closing text.now words.items) }
    ensures none { IfErr result (Blames (AreWordsWithin opening closing text.now)) }
{
    let inside = between(text, opening, closing)?;
    words(alloc, inside)
}

/// The items of a list, without the blanks around them.
pub fn items<'a>(alloc: Global, text: &'a [u8]) -> Result<Vec<&'a [u8]>, Fault> {
    let inside = between(text, b'[', b']')?.trim_ascii();
    let mut items = Vec::new(alloc);
    if inside.is_empty() {
        return Ok(items);
    }
    for piece in pieces(alloc, inside, b',')? {
        items.push(piece.trim_ascii())?;
    }
    Ok(items)
}
