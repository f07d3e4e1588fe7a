//! What rows expect, as it is written: what is left of a tree, its handles, and the future that is sent of it.
use await_trees::{Label, Node, UnresolvedFuture};
use await_tries::Residue;
use frame_values::value::Value;
use journal_protocol::{Future, NotificationResult};
use line_parts::trees::name_of_kind;
use lines::line::Line;
use std::alloc::{AllocError, Global};
use std::fmt::Write;
use std::test::Fail;

/// More pieces than the trees of rows have.
const MOST_PIECES: usize = 1000;

/// What is still to be written.
#[derive(Clone, Copy)]
enum Piece {
    Node(usize),
    Comma,
    End,
}

/// Puts children onto the stack, the first on top, with commas between them.
fn push_children(pieces: &mut Vec<Piece>, kids: &[usize]) -> Result<(), AllocError> {
    let mut is_last = true;
    for kid in kids.iter().rev() {
        if !is_last {
            pieces.push(Piece::Comma)?;
        }
        pieces.push(Piece::Node(*kid))?;
        is_last = false;
    }
    Ok(())
}

/// The numbers of a node's children.
fn kids_of<'a>(left: &'a Residue, node: &Node) -> Result<&'a [usize], Fail> {
    let end = node.first.wrapping_add(node.count);
    let kids = left.kids().get(node.first..end);
    Ok(kids.ok_or("no such children")?)
}

fn show_node(
    left: &Residue,
    text: &mut String,
    pieces: &mut Vec<Piece>,
    number: usize,
) -> Result<(), Fail> {
    let node = left.nodes().get(number).ok_or("no such node")?;
    match node.label {
        Label::Leaf(handle) => Ok(write!(text, "{handle}")?),
        Label::Inner(kind) => {
            write!(text, "{}(", name_of_kind(kind))?;
            pieces.push(Piece::End)?;
            Ok(push_children(pieces, kids_of(left, node)?)?)
        }
    }
}

/// What is left, as a tree is written.
pub fn left_shown(alloc: Global, left: &Residue) -> Result<String, Fail> {
    let mut text = String::new(alloc);
    let mut pieces = Vec::new(alloc);
    pieces.push(Piece::Node(0))?;
    for _ in 0..MOST_PIECES {
        match pieces.pop() {
            None => return Ok(text),
            Some(Piece::Comma) => text.push_str(", ")?,
            Some(Piece::End) => text.push_str(")")?,
            Some(Piece::Node(number)) => show_node(left, &mut text, &mut pieces, number)?,
        }
    }
    Err(Fail::from("too many pieces"))
}

/// What is sent, as frames are shown.
pub fn future_shown(alloc: Global, future: Future) -> Result<Line, AllocError> {
    let mut line = Line::new(alloc);
    future.print(&mut line)?;
    Ok(line)
}

/// A result as a row says it: `none`, `void`, `failure`, or the text of a value.
pub fn result_shown(found: Option<&NotificationResult>) -> &str {
    match found {
        None => "none",
        Some(NotificationResult::Void) => "void",
        Some(NotificationResult::Failure(_)) => "failure",
        Some(NotificationResult::Value(bytes)) => text_of(bytes.as_slice()),
        Some(NotificationResult::StateKeys(_)) => "keys",
        Some(NotificationResult::InvocationId(_)) => "invocation",
    }
}

fn text_of(bytes: &[u8]) -> &str {
    match str::from_utf8(bytes) {
        Ok(text) => text,
        Err(_) => "no text",
    }
}

/// Handles with blanks between them.
pub fn handles_shown(alloc: Global, handles: &[u32]) -> Result<String, Fail> {
    let mut text = String::new(alloc);
    for handle in handles {
        if !text.is_empty() {
            text.push_str(" ")?;
        }
        write!(text, "{handle}")?;
    }
    Ok(text)
}

/// The text of a tree.
pub fn tree_shown(alloc: Global, future: &UnresolvedFuture) -> Result<String, Fail> {
    let mut text = String::new(alloc);
    write!(text, "{future:?}")?;
    Ok(text)
}

/// The text of a tree's copy.
pub fn copy_shown(alloc: Global, future: &UnresolvedFuture) -> Result<String, Fail> {
    let copy = future.clone()?;
    let text = tree_shown(alloc, &copy);
    drop(copy);
    text
}
