//! A line of a script, read as a whole: one row a kind of line.
ghost use Rattle.std.specs.Prelude.{◌≡◌, false, codes, IfErr, IfOk};
ghost use Rattle.lines.specs.Readings.{Blames};
ghost use Rattle.lines.specs.Text.{says_nothing};
ghost use Rattle.plain.specs.declared.fault.Fault.TheVariants.{Malformed};
ghost use Rattle.world_scripts.specs.Said.{AreSteps, IsCount, IsOneCount, IsUnread, SaysLine, SayNothing, IsScriptLine, SaysBehind, SaysEvent, SaysNothing, SaysWords, ShowsBytes, are_bytes, are_rest};

use crate::given::given_of;
use crate::opening::round_of;
use crate::script_line::ScriptLine;
use bytes::Bytes;
use frame_lines::entry::frame_of_words;
use line_parts::results::{Proposal, proposal_of};
use lines::atoms::u64_of;
use lines::pieces::words;
use lines::text::is_silent;
use lines::words::bytes_in;
use plain::Fault;
use std::alloc::Global;
use world_rounds::Event;

/// A number, or the greatest one where it is `all`.
#[tactic(auto, using(crate::proofs::Nothing::count_blamed))]
fn count_of(text: &[u8]) -> Result<usize, Fault>
    ensures value { IfOk result (IsCount text.now) }
    ensures none { IfErr result (Blames (IsCount text.now)) }
{
    if text == b"all".as_slice() {
        return Ok(usize::MAX);
    }
    Ok(u64_of(text)? as usize)
}

/// Whether the words after `arrive` or `entry` are the rest of a stream.
fn are_rest(words: &[&[u8]]) -> bool
    ensures { result ≡ are_rest words.now }
{
    match words {
        [word, ..] => *word == b"rest".as_slice(),
        [] => false,
    }
}

/// Whether they are bytes as they are.
fn are_bytes(words: &[&[u8]]) -> bool
    ensures { result ≡ are_bytes words.now }
{
    match words {
        [word] => word.starts_with(b"0x"),
        _ => false,
    }
}

/// The words after `arrive` or `entry`: bytes as they are, or a frame as a line. The rest of a stream is no frame.
#[tactic(auto, using(crate::proofs::Nothing::rest_blamed, crate::proofs::Nothing::bytes_blamed, crate::proofs::Nothing::frame_blamed))]
fn shown_by(alloc: Global, words: &[&[u8]]) -> Result<Bytes, Fault>
    ensures value { IfOk result (ShowsBytes words.now) }
    ensures none { IfErr result (Blames (ShowsBytes words.now)) }
{
    if are_rest(words) {
        return Err(Fault::Malformed);
    }
    if are_bytes(words) {
        return bytes_in(alloc, words, 0);
    }
    let bytes = frame_of_words(alloc, words)?;
    Ok(bytes)
}

/// Parses the words after `run_result`.
#[tactic(auto, using(crate::proofs::Nothing::proposal_blamed))]
fn run_result_of(alloc: Global, words: &[&[u8]]) -> Result<Event, Fault>
    ensures value { IfOk result (SaysEvent (codes "run_result") words.now) }
    ensures none { IfErr result (Blames (SaysEvent (codes "run_result") words.now)) }
{
    let Proposal {
        handle,
        result,
        policy,
    } = proposal_of(alloc, words)?;
    Ok(Event::RunResult(handle, result, policy))
}

/// A count alone.
#[tactic(auto, using(crate::proofs::Nothing::one_count_blamed))]
fn count_alone(words: &[&[u8]]) -> Result<usize, Fault>
    ensures value { IfOk result (IsOneCount words.now) }
    ensures none { IfErr result (Blames (IsOneCount words.now)) }
{
    match words {
        [count] => count_of(*count),
        _ => Err(Fault::Malformed),
    }
}

/// A number alone, or nothing, which stands for 1.
#[tactic(auto, using(crate::proofs::Nothing::steps_blamed, crate::proofs::Nothing::many_steps_blamed))]
fn steps_of(words: &[&[u8]]) -> Result<u64, Fault>
    ensures value { IfOk result (AreSteps words.now) }
    ensures none { IfErr result (Blames (AreSteps words.now)) }
{
    match words {
        [] => Ok(1),
        [steps] => u64_of(*steps),
        _ => Err(Fault::Malformed),
    }
}

/// Parses the words after `close`: there must be none.
#[tactic(auto, using(crate::proofs::Nothing::close_blamed))]
fn close_of(words: &[&[u8]]) -> Result<Event, Fault>
    ensures value { IfOk result (SaysEvent (codes "close") words.now) }
    ensures none { IfErr result (Blames (SaysEvent (codes "close") words.now)) }
{
    if words.is_empty() {
        Ok(Event::Close)
    } else {
        Err(Fault::Malformed)
    }
}

/// Parses a line of an event: its first word, and those after it.
#[tactic(auto, using(crate::proofs::Nothing::piece_row, crate::proofs::Nothing::close_row, crate::proofs::Nothing::step_row, crate::proofs::Nothing::arrive_row, crate::proofs::Nothing::store_row, crate::proofs::Nothing::run_result_row, crate::proofs::Nothing::no_row))]
fn event_behind(alloc: Global, word: &[u8], others: &[&[u8]]) -> Result<Event, Fault>
    ensures value { IfOk result (SaysEvent word.now others.now) }
    ensures none { IfErr result (Blames (SaysEvent word.now others.now)) }
{
    if word == b"piece".as_slice() {
        let count = count_alone(others)?;
        return Ok(Event::Piece(count));
    }
    if word == b"close".as_slice() {
        let event = close_of(others)?;
        return Ok(event);
    }
    if word == b"step".as_slice() {
        let steps = steps_of(others)?;
        return Ok(Event::Steps(steps));
    }
    if word == b"arrive".as_slice() {
        let bytes = shown_by(alloc, others)?;
        return Ok(Event::Arrive(bytes));
    }
    if word == b"store".as_slice() {
        let count = count_alone(others)?;
        return Ok(Event::Store(count));
    }
    if word == b"run_result".as_slice() {
        let event = run_result_of(alloc, others)?;
        return Ok(event);
    }
    Err(Fault::Malformed)
}

/// Parses a line that is neither empty nor a comment: its first word, and those after it.
#[tactic(auto, using(crate::proofs::Nothing::world_row, crate::proofs::Nothing::entry_row, crate::proofs::Nothing::round_row, crate::proofs::Nothing::event_row))]
fn said_behind(alloc: Global, word: &[u8], others: &[&[u8]]) -> Result<ScriptLine, Fault>
    ensures value { IfOk result (SaysBehind word.now others.now) }
    ensures none { IfErr result (Blames (SaysBehind word.now others.now)) }
{
    if word == b"world".as_slice() {
        let given = given_of(alloc, others)?;
        return Ok(ScriptLine::World(given));
    }
    if word == b"entry".as_slice() {
        let bytes = shown_by(alloc, others)?;
        return Ok(ScriptLine::Entry(bytes));
    }
    if word == b"round".as_slice() {
        let round = round_of(alloc, others)?;
        return Ok(ScriptLine::Round(round));
    }
    let event = event_behind(alloc, word, others)?;
    Ok(ScriptLine::Event(event))
}

/// What the words of a line say that isn't empty.
#[tactic(auto, using(crate::proofs::Nothing::no_words, crate::proofs::Nothing::words_say_nothing))]
fn said_of(alloc: Global, words: &[&[u8]]) -> Result<ScriptLine, Fault>
    ensures value { IfOk result (SaysWords words.now) }
    ensures none { IfErr result (λ fault. fault ≡ Malformed → SayNothing words.now) }
{
    let [word, others @ ..] = words else {
        return Err(Fault::Malformed);
    };
    said_behind(alloc, *word, others)
}

/// What a line says that isn't empty and has no blanks at its ends.
#[tactic(auto, using(crate::proofs::Nothing::unclosed_says_nothing, crate::proofs::Nothing::line_says_nothing))]
fn row_of(alloc: Global, line: &[u8]) -> Result<ScriptLine, Fault>
    requires { says_nothing line.now ≡ false }
    ensures value { IfOk result (IsScriptLine line.now) }
    ensures none { IfErr result (λ fault. fault ≡ Malformed → SaysNothing line.now) }
{
    let words = words(alloc, line)?;
    said_of(alloc, words.as_slice())
}

/// What a line says; blanks at its ends don't count. `Malformed` where it has no meaning, as where it is no UTF-8.
pub fn line_of(alloc: Global, line: &[u8]) -> Result<ScriptLine, Fault>
    ensures value { IfOk result (SaysLine line.now) }
    ensures none { IfErr result (λ fault. fault ≡ Malformed → IsUnread line.now) }
{
    let line = line.trim_ascii();
    if std::str::from_utf8(line).is_err() {
        return Err(Fault::Malformed);
    }
    if is_silent(line) {
        return Ok(ScriptLine::Nothing);
    }
    row_of(alloc, line)
}
