//! Trees of awaits, as a line writes them: `17`, or `fc(17, ac(18, 19), un())`.
ghost use Rattle.std.specs.Prelude.{◌≡◌, ◌≢◌, ◌++◌, ◌<◌, ℕ, List, None, Some, false, length, ◌∷◌, IfErr, IfNone, IfOk, IfSome};
ghost use Rattle.lines.specs.Readings.{Blames};
ghost use Rattle.line_parts.specs.OpenNodes.{GoesOn, StandsAt, behind_word, is_break, word_of};
ghost use Rattle.line_parts.specs.Trees.{IsKind, SpellsClosely, SpellsFuture, kind_name, without_blanks};
ghost use Rattle.plain.specs.declared.fault.Fault.TheVariants.{Malformed};

use crate::handles::handle_of;
use await_trees::{UnresolvedFuture, node_over};
use journal_protocol::FutureKind;
use plain::{Fault, Items};
use std::alloc::{AllocError, Global};

/// A node whose closing bracket hasn't been read, with its children so far.
#[derive(Drop)]
struct OpenNode {
    kind: FutureKind,
    children: Items<UnresolvedFuture>,
}

static KINDS: [FutureKind; 5] = [
    FutureKind::FirstCompleted,
    FutureKind::AllCompleted,
    FutureKind::FirstSucceededOrAllFailed,
    FutureKind::AllSucceededOrFirstFailed,
    FutureKind::Unknown,
];

/// The word for a kind.
#[tactic(auto, unfolding(crate::specs::Trees::kind_name))]
pub fn name_of_kind(kind: FutureKind) -> &'static str
    ensures { result.now ≡ kind_name kind }
{
    match kind {
        FutureKind::FirstCompleted => "fc",
        FutureKind::AllCompleted => "ac",
        FutureKind::FirstSucceededOrAllFailed => "fsaf",
        FutureKind::AllSucceededOrFirstFailed => "asff",
        FutureKind::Unknown => "un",
    }
}

/// The kind that a word is.
fn kind_of(word: &[u8]) -> Result<FutureKind, Fault>
    ensures value { IfOk result (IsKind word.now) }
    ensures none { IfErr result (Blames (IsKind word.now)) }
{
    for kind in &KINDS {
        if word == name_of_kind(*kind).as_bytes() {
            return Ok(*kind);
        }
    }
    Err(Fault::Malformed)
}

/// Whether a byte is a bracket or a comma.
fn is_break(byte: u8) -> bool
    ensures { result ≡ is_break byte }
{
    matches!(byte, b'(' | b')' | b',')
}

/// The text up to its first bracket or comma, and the rest from there.
fn cut(text: &[u8]) -> (&[u8], &[u8])
    ensures whole { text.now ≡ result.0.now ++ result.1.now }
    ensures word { result.0.now ≡ word_of text.now }
    ensures rest { result.1.now ≡ behind_word text.now }
{
    for i in 0..text.len() {
        if is_break(text[i]) {
            return text.split_at(i);
        }
    }
    text.split_at(text.len())
}

/// The rest of the text after this byte, if the text begins with it.
fn behind(byte: u8, text: &[u8]) -> Option<&[u8]>
    ensures some { IfSome result (λ rest. text.now ≡ byte ∷ rest.now) }
    ensures none { IfNone result ((rest : List ℕ) → text.now ≢ byte ∷ rest) }
{
    match text {
        [first, rest @ ..] if *first == byte => Some(rest),
        _ => None,
    }
}

/// What was read last, if it is a tree that is whole; and the rest of the text.
type Read<'a> = (Option<UnresolvedFuture>, &'a [u8]);

/// Reads a handle, an empty node, or the beginning of a node, which is then open; and the rest after it.
#[tactic(auto, using(crate::proofs::TreeEnding::handle_goes_on))]
fn begin<'a>(alloc: Global, nodes: &mut Vec<OpenNode>, text: &'a [u8]) -> Result<Read<'a>, Fault>
    ensures stands { IfOk result (λ read. (whole : List ℕ)
        → StandsAt whole nodes.old.items None text.now
        → StandsAt whole nodes.new.items read.0 read.1.now) }
    ensures goes_on { IfOk result (λ read. GoesOn (length nodes.old.items) None text.now
        → GoesOn (length nodes.new.items) read.0 read.1.now) }
    ensures none { IfErr result (λ fault. fault ≡ Malformed
        → GoesOn (length nodes.old.items) None text.now → ⊥) }
    ensures shorter { IfOk result (λ read. length read.1.now < length text.now) }
{
    let (word, rest) = cut(text);
    let Some(inside) = behind(b'(', rest) else {
        let handle = handle_of(word)?;
        return Ok((Some(UnresolvedFuture::Single(handle)), rest));
    };
    let kind = kind_of(word)?;
    let children = Items::new(alloc);
    if let Some(rest) = behind(b')', inside) {
        return Ok((Some(node_over(kind, children)), rest));
    }
    nodes.push(OpenNode { kind, children })?;
    Ok((None, inside))
}

/// Puts a tree into the innermost open node, and reads the comma or the bracket after it.
#[tactic(auto, using(crate::proofs::TreeEnding::over, crate::proofs::TreeEnding::closing_goes_on, crate::proofs::TreeEnding::neither))]
fn go_on<'a>(
    nodes: &mut Vec<OpenNode>,
    tree: UnresolvedFuture,
    text: &'a [u8],
) -> Result<Read<'a>, Fault>
    requires { 0 < length text.now }
    ensures stands { IfOk result (λ read. (whole : List ℕ)
        → StandsAt whole nodes.old.items (Some tree) text.now
        → StandsAt whole nodes.new.items read.0 read.1.now) }
    ensures goes_on { IfOk result (λ read. GoesOn (length nodes.old.items) (Some tree) text.now
        → GoesOn (length nodes.new.items) read.0 read.1.now) }
    ensures none { IfErr result (λ fault. fault ≡ Malformed
        → GoesOn (length nodes.old.items) (Some tree) text.now → ⊥) }
    ensures shorter { IfOk result (λ read. length read.1.now < length text.now) }
{
    let Some(OpenNode { kind, mut children }) = nodes.pop() else {
        return Err(Fault::Malformed);
    };
    children.push(tree)?;
    if let Some(rest) = behind(b')', text) {
        return Ok((Some(node_over(kind, children)), rest));
    }
    let rest = behind(b',', text).ok_or(Fault::Malformed)?;
    nodes.push(OpenNode { kind, children })?;
    Ok((None, rest))
}

/// Reads one piece more of the text. Returns the tree that was read whole last, if any, and the rest.
fn read_on<'a>(
    alloc: Global,
    nodes: &mut Vec<OpenNode>,
    last: Option<UnresolvedFuture>,
    text: &'a [u8],
) -> Result<Read<'a>, Fault>
    requires { 0 < length text.now }
    ensures stands { IfOk result (λ read. (whole : List ℕ)
        → StandsAt whole nodes.old.items last text.now
        → StandsAt whole nodes.new.items read.0 read.1.now) }
    ensures goes_on { IfOk result (λ read. GoesOn (length nodes.old.items) last text.now
        → GoesOn (length nodes.new.items) read.0 read.1.now) }
    ensures none { IfErr result (λ fault. fault ≡ Malformed
        → GoesOn (length nodes.old.items) last text.now → ⊥) }
    ensures shorter { IfOk result (λ read. length read.1.now < length text.now) }
{
    match last {
        None => begin(alloc, nodes, text),
        Some(tree) => go_on(nodes, tree, text),
    }
}

/// The tree that a text without blanks encodes.
#[tactic(auto, using(crate::proofs::TreeReading::stands_first, crate::proofs::TreeReading::stands_last))]
fn tree_without_blanks(alloc: Global, text: &[u8]) -> Result<UnresolvedFuture, Fault>
    ensures value { IfOk result (SpellsClosely text.now) }
    ensures none { IfErr result (Blames (SpellsClosely text.now)) }
{
    let mut nodes = Vec::new(alloc);
    let mut last = None;
    let mut rest = text;
    while !rest.is_empty() {
        let (tree, others) = read_on(alloc, &mut nodes, last, rest)?;
        last = tree;
        rest = others;
    }
    if !nodes.is_empty() {
        return Err(Fault::Malformed);
    }
    last.ok_or(Fault::Malformed)
}

/// Whether a blank stands in the text.
fn has_blank(text: &[u8]) -> bool
    ensures { result ≡ false → without_blanks false text.now ≡ text.now }
{
    for byte in text {
        if *byte == b' ' {
            return true;
        }
    }
    false
}

/// The text without blanks after its commas.
fn without_blanks(alloc: Global, text: &[u8]) -> Result<Vec<u8>, AllocError>
    ensures { IfOk result (λ tight. tight.items ≡ without_blanks false text.now) }
{
    let mut tight = Vec::with_capacity(alloc, text.len())?;
    let mut after_comma = false;
    for &byte in text {
        if after_comma && byte == b' ' {
            continue;
        }
        tight.push(byte)?;
        after_comma = byte == b',';
    }
    Ok(tight)
}

/// The tree that a word encodes. Blanks may stand after its commas.
pub fn tree_of_word(alloc: Global, text: &[u8]) -> Result<UnresolvedFuture, Fault>
    ensures value { IfOk result (SpellsFuture text.now) }
    ensures none { IfErr result (Blames (SpellsFuture text.now)) }
{
    if !has_blank(text) {
        return tree_without_blanks(alloc, text);
    }
    let tight = without_blanks(alloc, text)?;
    tree_without_blanks(alloc, tight.as_slice())
}
