//! The values of fields as they are written on a line.
ghost use Rattle.std.specs.Prelude.{◌≡◌, ◌<◌, ◌++◌, ℕ, List, [], length, IfErr, IfNone, IfOk, IfSome, OnOk, false, true};
ghost use Rattle.std.specs.List.{AllZip};
ghost use Rattle.lines.specs.Pieces.{ArePieces};
ghost use Rattle.lines.specs.Readings.{Blames};
ghost use Rattle.lines.specs.Words.{IsNumberOf, text_at};
ghost use Rattle.frame_values.specs.Notation.{Notation, SayItems, SaysInside, SaysPair, bytes_notation, flag_notation, header_notation, list_notation, items_text, number, optional, pair, string};

use crate::choices::value_in;
use bytes::Bytes;
use journal_protocol::Header;
use lines::atoms::{shared_of, text_of, u32_of, u64_of};
use lines::line::Line;
use lines::pieces::{between, pieces, words_within};
use plain::{Fault, Items, Text};
use std::alloc::{AllocError, Global};

/// A type that a field can have. Its values stand after the field's name and `=`.
pub trait Value: Drop {
    /// How the values are printed.
    ghost notation: { Notation Self };

    /// Whether the value is a default, whose field is left out.
    fn is_left_out(&self) -> bool
        ensures { result ≡ notation.is_left_out self.now };

    fn print(&self, line: &mut Line) -> Result<(), AllocError>
        ensures { OnOk result (line.new ≡ line.old ++ notation.text self.now) };

    fn parse(alloc: Global, text: &[u8]) -> Result<Self, Fault>
        ensures value { IfOk result (notation.Says text.now) }
        ensures none { IfErr result (λ fault. notation.IsExact
            → Blames (notation.Says text.now) fault) };

    /// The default, if there is one. Without one the field must always stand.
    fn missing(alloc: Global) -> Option<Self>
        ensures value { IfSome result (λ it. notation.is_left_out it ≡ true) }
        ensures none { IfNone result ((it : Self) → notation.is_left_out it ≡ false) };
}

impl Value for u32 {
    ghost notation = { number 32 };

    fn is_left_out(&self) -> bool {
        *self == 0
    }

    fn print(&self, line: &mut Line) -> Result<(), AllocError> {
        line.number(u64::from(*self))
    }

    fn parse(_alloc: Global, text: &[u8]) -> Result<u32, Fault> {
        u32_of(text)
    }

    fn missing(_alloc: Global) -> Option<u32> {
        Some(0)
    }
}

impl Value for u64 {
    ghost notation = { number 64 };

    fn is_left_out(&self) -> bool {
        *self == 0
    }

    fn print(&self, line: &mut Line) -> Result<(), AllocError> {
        line.number(*self)
    }

    fn parse(_alloc: Global, text: &[u8]) -> Result<u64, Fault> {
        u64_of(text)
    }

    fn missing(_alloc: Global) -> Option<u64> {
        Some(0)
    }
}

impl Value for bool {
    ghost notation = { flag_notation };

    fn is_left_out(&self) -> bool {
        !*self
    }

    fn print(&self, line: &mut Line) -> Result<(), AllocError> {
        line.word(if *self { "true" } else { "false" })
    }

    fn parse(_alloc: Global, text: &[u8]) -> Result<bool, Fault> {
        match text {
            b"true" => Ok(true),
            b"false" => Ok(false),
            _ => Err(Fault::Malformed),
        }
    }

    fn missing(_alloc: Global) -> Option<bool> {
        Some(false)
    }
}

impl Value for Bytes {
    ghost notation = { bytes_notation };

    fn is_left_out(&self) -> bool {
        self.is_empty()
    }

    fn print(&self, line: &mut Line) -> Result<(), AllocError> {
        line.quoted(self.as_slice())
    }

    fn parse(alloc: Global, text: &[u8]) -> Result<Bytes, Fault> {
        shared_of(alloc, text)
    }

    fn missing(_alloc: Global) -> Option<Bytes> {
        Some(Bytes::new())
    }
}

impl Value for Text {
    ghost notation = { string };

    fn is_left_out(&self) -> bool {
        self.as_str().is_empty()
    }

    fn print(&self, line: &mut Line) -> Result<(), AllocError> {
        line.quoted(self.as_str().as_bytes())
    }

    fn parse(alloc: Global, text: &[u8]) -> Result<Text, Fault> {
        text_of(alloc, text)
    }

    fn missing(alloc: Global) -> Option<Text> {
        Some(Text::from_string(String::new(alloc)))
    }
}

#[tactic(auto, using(crate::proofs::Refusing::some_blamed))]
impl<T: Value> Value for Option<T> {
    ghost notation = { optional T.notation };

    fn is_left_out(&self) -> bool {
        self.is_none()
    }

    fn print(&self, line: &mut Line) -> Result<(), AllocError> {
        match self {
            Some(value) => value.print(line),
            None => Ok(()),
        }
    }

    fn parse(alloc: Global, text: &[u8]) -> Result<Option<T>, Fault> {
        Ok(Some(T::parse(alloc, text)?))
    }

    fn missing(_alloc: Global) -> Option<Option<T>> {
        Some(None)
    }
}

/// Writes items with a comma and a blank between each two.
fn print_items<T: Value>(items: &[T], line: &mut Line) -> Result<(), AllocError>
    ensures { OnOk result (line.new ≡ line.old ++ items_text T.notation.text items.now) }
{
    let [first, others @ ..] = items else {
        return Ok(());
    };
    first.print(line)?;
    for item in others {
        line.word(", ")?;
        item.print(line)?;
    }
    Ok(())
}

/// Reads an item from each piece.
fn add_items<T: Value>(alloc: Global, pieces: &[&[u8]], items: &mut Items<T>) -> Result<(), Fault>
    requires { items.old ≡ [] }
    ensures items { OnOk result (AllZip
        (λ piece item. SaysInside T.notation.Says piece.now item) pieces.now items.new) }
    ensures none { IfErr result (λ fault. T.notation.IsExact → (text : List ℕ)
        → (length text ≡ 0 → ⊥) → ArePieces 44 text pieces.now
        → Blames (SayItems T.notation.Says text) fault) }
{
    for piece in pieces {
        let item = value_in(alloc, piece)?;
        items.push(item)?;
    }
    Ok(())
}

/// The items between commas.
#[tactic(auto, using(crate::proofs::Refusing::unclosed_items_blamed))]
fn items_of<T: Value>(alloc: Global, text: &[u8]) -> Result<Items<T>, Fault>
    ensures value { IfOk result (SayItems T.notation.Says text.now) }
    ensures none { IfErr result (λ fault. T.notation.IsExact
        → Blames (SayItems T.notation.Says text.now) fault) }
{
    if text.is_empty() {
        return Ok(Items::new(alloc));
    }
    let pieces = pieces(alloc, text, b',')?;
    let mut items = Items::new(alloc);
    match add_items(alloc, pieces.as_slice(), &mut items) {
        Ok(()) => Ok(items),
        Err(fault) => {
            drop(items);
            Err(fault)
        }
    }
}

#[tactic(auto, using(crate::proofs::Refusing::list_blamed, crate::proofs::Refusing::no_list_blamed))]
impl<T: Value> Value for Items<T> {
    ghost notation = { list_notation T.notation };

    fn is_left_out(&self) -> bool {
        self.is_empty()
    }

    fn print(&self, line: &mut Line) -> Result<(), AllocError> {
        line.word("[")?;
        print_items(self.as_slice(), line)?;
        line.word("]")
    }

    fn parse(alloc: Global, text: &[u8]) -> Result<Items<T>, Fault> {
        let inside = between(text, b'[', b']')?;
        items_of(alloc, inside.trim_ascii())
    }

    fn missing(alloc: Global) -> Option<Items<T>> {
        Some(Items::new(alloc))
    }
}

/// Writes two values in round brackets.
fn print_pair<A: Value, B: Value>(first: &A, second: &B, line: &mut Line) -> Result<(), AllocError>
    ensures { OnOk result (line.new ≡ line.old
        ++ (pair A.notation B.notation).text (first.now, second.now)) }
{
    line.word("(")?;
    first.print(line)?;
    line.word(" ")?;
    second.print(line)?;
    line.word(")")
}

/// The value of the word at this place.
#[tactic(auto, using(crate::proofs::Saying::said_at, crate::proofs::Refusing::word_blamed))]
fn value_at<T: Value>(alloc: Global, words: &[&[u8]], place: usize) -> Result<T, Fault>
    ensures value { IfOk result (T.notation.Says (text_at place words.now)) }
    ensures none { IfErr result (λ fault. T.notation.IsExact → place < length words.now
        → Blames (T.notation.Says (text_at place words.now)) fault) }
{
    match words.get(place) {
        Some(word) => T::parse(alloc, *word),
        None => Err(Fault::Malformed),
    }
}

/// The two values in round brackets.
#[tactic(auto, using(crate::proofs::Refusing::not_two_blamed, crate::proofs::Refusing::second_blamed))]
fn pair_of<A: Value, B: Value>(alloc: Global, text: &[u8]) -> Result<(A, B), Fault>
    ensures value { IfOk result (SaysPair A.notation.Says B.notation.Says text.now) }
    ensures none { IfErr result (λ fault. A.notation.IsExact → B.notation.IsExact
        → Blames (SaysPair A.notation.Says B.notation.Says text.now) fault) }
{
    let words = words_within(alloc, text, b'(', b')')?;
    if words.len() != 2 {
        return Err(Fault::Malformed);
    }
    let first = value_at(alloc, words.as_slice(), 0)?;
    match value_at(alloc, words.as_slice(), 1) {
        Ok(second) => Ok((first, second)),
        Err(fault) => {
            drop(first);
            Err(fault)
        }
    }
}

impl<A: Value, B: Value> Value for (A, B) {
    ghost notation = { pair A.notation B.notation };

    fn is_left_out(&self) -> bool {
        false
    }

    fn print(&self, line: &mut Line) -> Result<(), AllocError> {
        print_pair(&self.0, &self.1, line)
    }

    fn parse(alloc: Global, text: &[u8]) -> Result<(A, B), Fault> {
        pair_of(alloc, text)
    }

    fn missing(_alloc: Global) -> Option<(A, B)> {
        None
    }
}

impl Value for Header {
    ghost notation = { header_notation };

    fn is_left_out(&self) -> bool {
        false
    }

    fn print(&self, line: &mut Line) -> Result<(), AllocError> {
        print_pair(&self.key, &self.value, line)
    }

    fn parse(alloc: Global, text: &[u8]) -> Result<Header, Fault> {
        match pair_of(alloc, text) {
            Ok((key, value)) => Ok(Header { key, value }),
            Err(fault) => Err(fault),
        }
    }

    fn missing(_alloc: Global) -> Option<Header> {
        None
    }
}
