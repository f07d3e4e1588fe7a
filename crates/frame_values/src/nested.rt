//! The text of a future read as its nodes, in one pass: each is read where it stands, however deep.
ghost use Rattle.std.specs.Prelude.{◌≡◌, ◌≢◌, ◌++◌, ◌∷◌, ◌<◌, ℕ, List, [], IfErr, IfNone, IfOk, IfSome, codes, false, length, reverse, set, true};
ghost use Rattle.lines.specs.Pieces.{piece_texts};
ghost use Rattle.lines.specs.Readings.{Blames};
ghost use Rattle.plain.specs.declared.fault.Fault.TheVariants.{Malformed};
ghost use Rattle.frame_values.specs.FutureWords.{ends_part};
ghost use Rattle.frame_values.specs.Futures.{Node, SayWords, SaysFuture};
ghost use Rattle.frame_values.specs.OpenFutures.{ArePlaced, Denies, EndsRest, ReadsOn};
ghost use Rattle.frame_values.specs.declared.nested.Next.TheVariants.{More, Nested, Part};

use crate::bracketed::Bracketed;
use crate::words::first_word;
use journal_protocol::{FutureKind, FutureNode};
use lines::fields::text_behind;
use plain::{Fault, Items};
use std::alloc::{AllocError, Global};

/// A future whose closing bracket hasn't been read.
#[derive(Drop)]
struct OpenFuture<'a> {
    /// The place of its node.
    place: usize,
    words: Vec<&'a [u8]>,
    /// Whether its list of nested futures was read, or begun.
    has_list: bool,
    /// How many futures of that list were read, or begun.
    nested: u64,
}

/// What comes next in the innermost open future.
#[derive(Clone, Copy)]
enum Next {
    /// A word, the list of nested futures, or the bracket that closes the future.
    Part,
    /// A nested future, or the bracket that closes an empty list.
    Nested,
    /// After a nested future: a comma, or the bracket that closes the list.
    More,
}

/// What comes next, and the text from there.
type Place<'a> = (Next, &'a [u8]);

/// What stands after this byte, if the text begins with it.
fn behind(byte: u8, text: &[u8]) -> Option<&[u8]>
    ensures some { IfSome result (λ rest. text.now ≡ byte ∷ rest.now) }
    ensures none { IfNone result ((rest : List ℕ) → text.now ≢ byte ∷ rest) }
{
    match text {
        [first, rest @ ..] if *first == byte => Some(rest),
        _ => None,
    }
}

/// Whether a blank, or the bracket that closes a future, comes next.
fn ends_part(text: &[u8]) -> bool
    ensures { result ≡ ends_part text.now }
{
    match text {
        [first, ..] => *first == b' ' || *first == b')',
        [] => false,
    }
}

/// A future of which nothing but the opening bracket was read.
fn begun<'a>(alloc: Global, place: usize) -> OpenFuture<'a>
    ensures place { result.place ≡ place }
    ensures words { result.words.items ≡ [] }
    ensures list { result.has_list ≡ false }
    ensures nested { result.nested ≡ 0 }
{
    OpenFuture {
        place,
        words: Vec::new(alloc),
        has_list: false,
        nested: 0,
    }
}

/// Stands at a node's place until its future is read.
fn unread(alloc: Global) -> FutureNode {
    FutureNode {
        kind: FutureKind::Unknown,
        waiting_completions: Items::new(alloc),
        waiting_signals: Items::new(alloc),
        waiting_named_signals: Items::new(alloc),
        nested: 0,
    }
}

/// Puts the node of a future that is read at its place.
fn close(alloc: Global, read: &OpenFuture<'_>, nodes: &mut Vec<FutureNode>) -> Result<(), Fault>
    requires { read.now.place < length nodes.old.items }
    ensures node { IfOk result (λ _. (node : Node)
        × SayWords (piece_texts read.now.words.items) node
        × (node.nested ≡ read.now.nested)
        × (nodes.new.items ≡ set nodes.old.items read.now.place node)) }
    ensures none { IfErr result (Blames (SayWords (piece_texts read.now.words.items))) }
{
    let mut node = FutureNode::read(alloc, read.words.as_slice())?;
    node.nested = read.nested;
    nodes[read.place] = node;
    Ok(())
}

/// Goes on after a list of nested futures, where its future has a further part or ends.
fn end_list<'a>(
    current: OpenFuture<'a>,
    open: &mut Vec<OpenFuture<'a>>,
    rest: &'a [u8],
) -> Result<Place<'a>, Fault>
    ensures more { IfOk result (λ place. (text : List ℕ) (nodes : List Node) → text ≡ 93 ∷ rest.now
        → ArePlaced (current.entry ∷ reverse open.old.items) (length nodes)
        → ReadsOn More (current.entry ∷ reverse open.old.items) nodes text place.0
        (reverse open.new.items) nodes place.1.now) }
    ensures empty { IfOk result (λ place. (text : List ℕ) (nodes : List Node) → text ≡ 93 ∷ rest.now
        → current.entry.nested ≡ 0
        → ArePlaced (current.entry ∷ reverse open.old.items) (length nodes)
        → ReadsOn Nested (current.entry ∷ reverse open.old.items) nodes text place.0
        (reverse open.new.items) nodes place.1.now) }
    ensures none { IfErr result (Denies (ends_part rest.now ≡ true)) }
{
    if !ends_part(rest) {
        return Err(Fault::Malformed);
    }
    open.push(current)?;
    Ok((Next::Part, rest))
}

/// Goes on after the bracket that opens a nested future.
fn begin_nested<'a>(
    alloc: Global,
    current: OpenFuture<'a>,
    open: &mut Vec<OpenFuture<'a>>,
    nodes: &mut Vec<FutureNode>,
    rest: &'a [u8],
) -> Result<Place<'a>, Fault>
    requires { ArePlaced (current ∷ reverse open.old.items) (length nodes.old.items) }
    ensures reads { IfOk result (λ place. (text : List ℕ) → text ≡ 40 ∷ rest.now
        → ReadsOn Nested (current.entry ∷ reverse open.old.items) nodes.old.items text place.0
        (reverse open.new.items) nodes.new.items place.1.now) }
    ensures none { IfErr result (λ fault. fault ≡ Malformed → ⊥) }
{
    let OpenFuture {
        place,
        words,
        has_list,
        nested,
    } = current;
    // More don't fit into memory.
    let nested = nested.checked_add(1).ok_or(Fault::Memory)?;
    open.push(OpenFuture {
        place,
        words,
        has_list,
        nested,
    })?;
    open.push(begun(alloc, nodes.len()))?;
    nodes.push(unread(alloc))?;
    Ok((Next::Part, rest))
}

/// Reads the beginning of a nested future, or the end of an empty list of them.
#[tactic(auto, using(crate::proofs::Reading::empty_denied, crate::proofs::Reading::nested_denied, crate::proofs::Reading::nested_memory))]
fn read_nested<'a>(
    alloc: Global,
    current: OpenFuture<'a>,
    open: &mut Vec<OpenFuture<'a>>,
    nodes: &mut Vec<FutureNode>,
    text: &'a [u8],
) -> Result<Place<'a>, Fault>
    requires blank { (rest : List ℕ) → text.now ≢ 32 ∷ rest }
    requires placed { ArePlaced (current ∷ reverse open.old.items) (length nodes.old.items) }
    ensures reads { IfOk result (λ place. ReadsOn Nested
        (current.entry ∷ reverse open.old.items) nodes.old.items text.now place.0
        (reverse open.new.items) nodes.new.items place.1.now) }
    ensures none { IfErr result (Denies (EndsRest Nested
        (current.entry ∷ reverse open.old.items) text.now)) }
{
    if current.nested == 0 {
        if let Some(rest) = behind(b']', text) {
            return Ok(end_list(current, open, rest)?);
        }
    }
    let rest = behind(b'(', text).ok_or(Fault::Malformed)?;
    Ok(begin_nested(alloc, current, open, nodes, rest)?)
}

/// Reads the comma after a nested future, or the end of their list.
#[tactic(auto, using(crate::proofs::Reading::end_denied, crate::proofs::Reading::more_denied))]
fn read_more<'a>(
    current: OpenFuture<'a>,
    open: &mut Vec<OpenFuture<'a>>,
    text: &'a [u8],
) -> Result<Place<'a>, Fault>
    requires { (rest : List ℕ) → text.now ≢ 32 ∷ rest }
    ensures reads { IfOk result (λ place. (nodes : List Node)
        → ArePlaced (current.entry ∷ reverse open.old.items) (length nodes)
        → ReadsOn More (current.entry ∷ reverse open.old.items) nodes text.now place.0
        (reverse open.new.items) nodes place.1.now) }
    ensures none { IfErr result (Denies (EndsRest More
        (current.entry ∷ reverse open.old.items) text.now)) }
{
    if let Some(rest) = behind(b',', text) {
        open.push(current)?;
        return Ok((Next::Nested, rest));
    }
    let rest = behind(b']', text).ok_or(Fault::Malformed)?;
    Ok(end_list(current, open, rest)?)
}

/// Adds a word of a future.
#[tactic(auto, using(crate::proofs::Reading::word_denied))]
fn read_word<'a>(
    current: OpenFuture<'a>,
    open: &mut Vec<OpenFuture<'a>>,
    text: &'a [u8],
) -> Result<Place<'a>, Fault>
    requires blank { (rest : List ℕ) → text.now ≢ 32 ∷ rest }
    requires close { (rest : List ℕ) → text.now ≢ 41 ∷ rest }
    requires list { (rest : List ℕ) → text.now ≢ codes "nested=[" ++ rest }
    ensures reads { IfOk result (λ place. (nodes : List Node)
        → ArePlaced (current.entry ∷ reverse open.old.items) (length nodes)
        → ReadsOn Part (current.entry ∷ reverse open.old.items) nodes text.now place.0
        (reverse open.new.items) nodes place.1.now) }
    ensures none { IfErr result (Denies (EndsRest Part
        (current.entry ∷ reverse open.old.items) text.now)) }
{
    let (word, rest) = first_word(text);
    if word.is_empty() {
        return Err(Fault::Malformed);
    }
    if !ends_part(rest) {
        return Err(Fault::Malformed);
    }
    let OpenFuture {
        place,
        mut words,
        has_list,
        nested,
    } = current;
    words.push(word)?;
    open.push(OpenFuture {
        place,
        words,
        has_list,
        nested,
    })?;
    Ok((Next::Part, rest))
}

/// What stands after the front of a list of nested futures, if the text begins with it.
fn behind_list_front(text: &[u8]) -> Option<&[u8]>
    ensures some { IfSome result (λ list. text.now ≡ codes "nested=[" ++ list.now) }
    ensures none { IfNone result ((list : List ℕ) → text.now ≢ codes "nested=[" ++ list) }
{
    match text_behind(text, "nested=[") {
        Some(list) => Some(list),
        None => None,
    }
}

/// Begins the list of nested futures.
fn begin_list<'a>(
    current: OpenFuture<'a>,
    open: &mut Vec<OpenFuture<'a>>,
    list: &'a [u8],
) -> Result<Place<'a>, Fault>
    ensures reads { IfOk result (λ place. (text : List ℕ) (nodes : List Node)
        → text ≡ codes "nested=[" ++ list.now
        → ArePlaced (current.entry ∷ reverse open.old.items) (length nodes)
        → ReadsOn Part (current.entry ∷ reverse open.old.items) nodes text place.0
        (reverse open.new.items) nodes place.1.now) }
    ensures none { IfErr result (λ fault. (text : List ℕ) → text ≡ codes "nested=[" ++ list.now
        → Denies (EndsRest Part (current.entry ∷ reverse open.old.items) text) fault) }
{
    if current.has_list {
        return Err(Fault::Malformed);
    }
    let OpenFuture {
        place,
        words,
        nested,
        ..
    } = current;
    open.push(OpenFuture {
        place,
        words,
        has_list: true,
        nested,
    })?;
    Ok((Next::Nested, list))
}

/// Reads a word, the front of the list of nested futures, or the end of the innermost open future.
fn read_part<'a>(
    alloc: Global,
    current: OpenFuture<'a>,
    open: &mut Vec<OpenFuture<'a>>,
    nodes: &mut Vec<FutureNode>,
    text: &'a [u8],
) -> Result<Place<'a>, Fault>
    requires blank { (rest : List ℕ) → text.now ≢ 32 ∷ rest }
    requires placed { ArePlaced (current ∷ reverse open.old.items) (length nodes.old.items) }
    ensures reads { IfOk result (λ place. ReadsOn Part
        (current.entry ∷ reverse open.old.items) nodes.old.items text.now place.0
        (reverse open.new.items) nodes.new.items place.1.now) }
    ensures none { IfErr result (Denies (EndsRest Part
        (current.entry ∷ reverse open.old.items) text.now)) }
{
    if let Some(rest) = behind(b')', text) {
        close(alloc, &current, nodes)?;
        return Ok((Next::More, rest));
    }
    if let Some(list) = behind_list_front(text) {
        return Ok(begin_list(current, open, list)?);
    }
    Ok(read_word(current, open, text)?)
}

/// Reads a blank, or what comes next.
fn read_on<'a>(
    alloc: Global,
    current: OpenFuture<'a>,
    open: &mut Vec<OpenFuture<'a>>,
    nodes: &mut Vec<FutureNode>,
    next: Next,
    text: &'a [u8],
) -> Result<Place<'a>, Fault>
    requires { ArePlaced (current ∷ reverse open.old.items) (length nodes.old.items) }
    ensures reads { IfOk result (λ place. ReadsOn next
        (current.entry ∷ reverse open.old.items) nodes.old.items text.now place.0
        (reverse open.new.items) nodes.new.items place.1.now) }
    ensures none { IfErr result (Denies (EndsRest next
        (current.entry ∷ reverse open.old.items) text.now)) }
{
    if let Some(rest) = behind(b' ', text) {
        open.push(current)?;
        return Ok((next, rest));
    }
    match next {
        Next::Part => read_part(alloc, current, open, nodes, text),
        Next::Nested => read_nested(alloc, current, open, nodes, text),
        Next::More => Ok(read_more(current, open, text)?),
    }
}

/// The nodes of the future that a text says.
#[tactic(auto, using(crate::proofs::Reading::unopened_denied))]
pub fn nodes_of(alloc: Global, text: &[u8]) -> Result<Vec<FutureNode>, Fault>
    ensures value { IfOk result (λ nodes. SaysFuture text.now nodes.items) }
    ensures none { IfErr result (Blames (SaysFuture text.now)) }
{
    let Some(inside) = behind(b'(', text) else {
        return Err(Fault::Malformed);
    };
    let mut rest = inside;
    let mut next = Next::Part;
    let mut open = Vec::new(alloc);
    let mut nodes = Vec::new(alloc);
    open.push(begun(alloc, 0))?;
    nodes.push(unread(alloc))?;
    while let Some(current) = open.pop() {
        let place = read_on(alloc, current, &mut open, &mut nodes, next, rest)?;
        next = place.0;
        rest = place.1;
    }
    if rest.is_empty() {
        Ok(nodes)
    } else {
        Err(Fault::Malformed)
    }
}
