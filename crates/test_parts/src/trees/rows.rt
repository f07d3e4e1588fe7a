//! Rows over awaits of trees, one a line, played over the notifications of an attempt.
use crate::trees::notation::{arrival, id, number};
use crate::trees::shown::{
    copy_shown, future_shown, handles_shown, left_shown, result_shown, tree_shown,
};
use await_trees::{NotificationHandle, UnresolvedFuture};
use await_tries::{Residue, Resolution, future_of, list_handles, try_future};
use journal_protocol::{NotificationResult, SignalDelivery};
use line_parts::trees::tree_of_word;
use lines::line::Line;
use std::alloc::Global;
use std::test::Fail;
use vm_parts::AsyncResults;

const TEN: &str = "1 2 3 4 5 6 7 8 9 10";

/// What is asked again.
#[derive(Clone, Copy)]
enum Again {
    Same,
    Rest,
}

/// What a try left, in words.
#[derive(Drop)]
struct Left {
    tree: String,
    handles: String,
    future: Line,
}

/// What a row has reached: the tree that was tried last, and what the try left, or none if it is awake.
#[derive(Drop)]
struct Bench<'a> {
    row: &'a str,
    again: Again,
    alloc: Global,
    delivery: SignalDelivery,
    results: AsyncResults,
    asked: &'a str,
    left: Option<Left>,
}

/// Fails unless the two are the same.
pub fn expect(row: &str, found: &str, wanted: &str) -> Result<(), Fail> {
    if found == wanted {
        Ok(())
    } else {
        Err(Fail::new(format_args!("{row}: {found} is not {wanted}")))
    }
}

fn expect_result(row: &str, found: Option<&NotificationResult>, wanted: &str) -> Result<(), Fail> {
    expect(row, result_shown(found), wanted)
}

/// Uses each result that arrived and wasn't used. Whether there were just `count` of these.
fn were_unused(results: &mut AsyncResults, count: u32) -> bool {
    for _ in 0..count {
        if !results.use_one() {
            return false;
        }
    }
    !results.use_one()
}

/// Puts what arrives after what waits.
pub fn arrive(alloc: Global, results: &mut AsyncResults, words: &str) -> Result<(), Fail> {
    for word in words.split_whitespace() {
        results.enqueue(arrival(alloc, word)?)?;
    }
    Ok(())
}

/// The handles from 11 on stand for these ids.
pub fn mapped(alloc: Global, ids: &str) -> Result<AsyncResults, Fail> {
    let mut results = AsyncResults::new(alloc)?;
    let mut last = 10u32;
    for word in ids.split_whitespace() {
        last = last.wrapping_add(1);
        results.map_handle(last, id(alloc, word)?)?;
    }
    Ok(results)
}

/// The handle and the word of an argument.
fn handle_and_word(argument: &str) -> Result<(NotificationHandle, &str), Fail> {
    match argument.split_once(" ") {
        Some((word, rest)) => Ok((NotificationHandle(number(word)?), rest)),
        None => Err(Fail::from("no second word")),
    }
}

/// Maps one more handle.
pub fn map(alloc: Global, results: &mut AsyncResults, argument: &str) -> Result<(), Fail> {
    let (handle, word) = handle_and_word(argument)?;
    Ok(results.map_handle(handle.0, id(alloc, word)?)?)
}

fn shown(alloc: Global, results: &AsyncResults, left: &Residue) -> Result<Left, Fail> {
    Ok(Left {
        tree: left_shown(alloc, left)?,
        handles: handles_shown(alloc, list_handles(alloc, left)?.as_slice())?,
        future: future_shown(alloc, future_of(alloc, results, left)?)?,
    })
}

/// What a try leaves of a tree; none if it is awake.
fn tried(
    alloc: Global,
    results: &mut AsyncResults,
    delivery: SignalDelivery,
    future: &UnresolvedFuture,
) -> Result<Option<Left>, Fail> {
    match try_future(alloc, results, delivery, future)? {
        Resolution::AnyCompleted => Ok(None),
        Resolution::Pending(left) => Ok(Some(shown(alloc, results, &left)?)),
    }
}

/// The texts of a tree and of its copy.
pub fn texts_of(alloc: Global, future: &UnresolvedFuture) -> Result<(String, String), Fail> {
    Ok((tree_shown(alloc, future)?, copy_shown(alloc, future)?))
}

impl<'a> Bench<'a> {
    fn ask(&mut self, text: &str) -> Result<(), Fail> {
        let future = tree_of_word(self.alloc, text.as_bytes())?;
        let left = tried(self.alloc, &mut self.results, self.delivery, &future);
        drop(future);
        self.left = left?;
        Ok(())
    }

    /// Tries the same tree, or what was left of it.
    fn ask_again(&mut self) -> Result<(), Fail> {
        let Some(left) = self.left.take() else {
            return Err(Fail::from("it is awake"));
        };
        let held = match self.again {
            Again::Same => self.ask(self.asked),
            Again::Rest => self.ask(left.tree.as_str()),
        };
        drop(left);
        held
    }

    fn expect_left(&self, verb: &str, wanted: &str) -> Result<(), Fail> {
        let Some(left) = &self.left else {
            return expect(self.row, "awake", verb);
        };
        match verb {
            "left" => expect(self.row, left.tree.as_str(), wanted),
            "handles" => expect(self.row, left.handles.as_str(), wanted),
            "send" => expect(self.row, left.future.as_str(), wanted),
            _ => expect(self.row, left.tree.as_str(), "awake"),
        }
    }

    fn expect_unused(&mut self, wanted: &str) -> Result<(), Fail> {
        let found = if were_unused(&mut self.results, number(wanted)?) {
            wanted
        } else {
            "more or fewer"
        };
        expect(self.row, found, wanted)
    }

    fn copy(&self, argument: &str) -> Result<(), Fail> {
        let (handle, wanted) = handle_and_word(argument)?;
        expect_result(
            self.row,
            self.results.present(self.delivery, handle.0),
            wanted,
        )
    }

    fn take(&mut self, argument: &str) -> Result<(), Fail> {
        let (handle, wanted) = handle_and_word(argument)?;
        let found = self.results.take(self.delivery, handle.0);
        let held = expect_result(self.row, found.as_ref(), wanted);
        drop(found);
        held
    }

    fn text(&self, wanted: &str) -> Result<(), Fail> {
        let future = tree_of_word(self.alloc, self.asked.as_bytes())?;
        let texts = texts_of(self.alloc, &future);
        drop(future);
        let (text, text_of_copy) = texts?;
        expect(self.row, text.as_str(), wanted)?;
        expect(self.row, text_of_copy.as_str(), wanted)
    }

    fn step(&mut self, verb: &str, argument: &'a str) -> Result<(), Fail> {
        match verb {
            "arrive" => arrive(self.alloc, &mut self.results, argument),
            "map" => map(self.alloc, &mut self.results, argument),
            "overwrite" => {
                self.delivery = SignalDelivery::Overwrite;
                Ok(())
            }
            "await" => {
                self.asked = argument;
                self.ask(argument)
            }
            "same" => self.ask(self.asked),
            "again" => self.ask_again(),
            "awake" | "left" | "handles" | "send" => self.expect_left(verb, argument),
            "unused" => self.expect_unused(argument),
            "copy" => self.copy(argument),
            "take" => self.take(argument),
            "text" => self.text(argument),
            _ => Err(Fail::new(format_args!("no step is {verb}"))),
        }
    }

    fn play(&mut self, steps: &'a str) -> Result<(), Fail> {
        for step in steps.split("; ") {
            let (verb, argument) = step.split_once(" ").unwrap_or((step, ""));
            self.step(verb, argument)?;
        }
        Ok(())
    }
}

/// Plays one row.
fn play_row(alloc: Global, row: &str, again: Again) -> Result<(), Fail> {
    let (ids, steps) = match row.strip_prefix("ids ") {
        None => (TEN, row),
        Some(rest) => rest.split_once("; ").ok_or("no steps")?,
    };
    let mut bench = Bench {
        row,
        again,
        alloc,
        delivery: SignalDelivery::Queued,
        results: mapped(alloc, ids)?,
        asked: "",
        left: None,
    };
    let held = bench.play(steps);
    drop(bench);
    held
}

/// Plays rows, one a line; the first that doesn't hold is the error.
///
/// A row is steps with semicolons between them, each a word and its argument. The handles 11 to 20 stand for the completions 1 to
/// 10, unless the row begins with the ids of the handles from 11 on, as `ids 1 #5 "foo"`.
///
///     arrive s1 f3      these wait, in this order
///     overwrite         from now on a signal's newest delivery counts
///     await TREE        a try of the tree
///     same              a try of the same tree
///     again             a try of the same tree, or of what was left of it: each row is played for both
///     awake             the try found it awake
///     left TREE         the try left this
///     handles 13 12     of these leaves, in this order
///     send FUTURE       and sends this
///     unused N          N that arrived weren't used; now they are
///     map H ID          the handle stands for this id
///     copy H VALUE      the handle's present result
///     take H VALUE      it is taken
///     text TEXT         the text of the tree, and of its copy
pub fn play(alloc: Global, rows: &str) -> Result<(), Fail> {
    for row in rows.lines() {
        play_row(alloc, row, Again::Same)?;
        play_row(alloc, row, Again::Rest)?;
    }
    Ok(())
}
