//! A line of a script, read as a whole.
ghost use Rattle.std.specs.Prelude.{◌≡◌, [], codes, length, IfOk};
ghost use Rattle.lines.specs.Fields.{IsSet, are_named, texts_named};
ghost use Rattle.lines.specs.Words.{text_at};
ghost use Rattle.engine_lines.specs.Said.{AreStepsMade, AreStored, AsksFor, IsCountOrAll, IsCountAlone, IsExclusive, IsNumberAlone, IsTimeAlone, IsWholeTime, NamesHandler, SaysDeed, SaysHappening, SaysEngineLine, SaysRow, SaysOfEngine, SaysOfWords, asked_names};

use crate::said::{Asked, Deed, Event, Named, Said};
use call_lines::reading::step_of;
use line_parts::arguments::{optional_text, two_texts};
use line_parts::results::proposal_of;
use lines::atoms::{u32_of, u64_of};
use lines::durations::duration_of;
use lines::fields::{are_named, field_of};
use lines::pieces::words;
use lines::text::is_silent;
use lines::words::{behind, but_first, bytes_in, text_in, u32_in};
use plain::Fault;
use std::alloc::Global;

/// The only word.
fn one_word<'a>(words: &[&'a [u8]]) -> Result<&'a [u8], Fault>
    ensures { IfOk result (λ word. (length words.now ≡ 1) × (text_at 0 words.now ≡ word.now)) }
{
    match words {
        [word] => Ok(*word),
        _ => Err(Fault::Malformed),
    }
}

/// Whether the words after a handler's names say that it is exclusive.
fn exclusive_of(words: &[&[u8]]) -> Result<bool, Fault>
    ensures { IfOk result (IsExclusive words.now) }
{
    if words.is_empty() {
        return Ok(false);
    }
    let word = one_word(words)?;
    if word == b"exclusive".as_slice() {
        Ok(true)
    } else {
        Err(Fault::Malformed)
    }
}

/// Parses the words after `handler`: `T T [exclusive]`.
fn handler_of(alloc: Global, words: &[&[u8]]) -> Result<Named, Fault>
    ensures { IfOk result (NamesHandler words.now) }
{
    let (service, handler, rest) = two_texts(alloc, words)?;
    let exclusive = exclusive_of(rest)?;
    Ok(Named {
        service,
        handler,
        exclusive,
    })
}

/// A duration in whole milliseconds, rounded down.
fn milliseconds_of(text: &[u8]) -> Result<u64, Fault>
    ensures { IfOk result (IsWholeTime text.now) }
{
    let duration = duration_of(text)?;
    u64::try_from(duration.as_millis()).map_err(|_| Fault::Malformed)
}

/// `[at=D]`, by default 0.
fn time_in(words: &[&[u8]]) -> Result<u64, Fault>
    ensures { IfOk result (IsSet IsWholeTime 0 (texts_named (codes "at=") words.now)) }
{
    match field_of(words, "at=")? {
        Some(text) => milliseconds_of(text),
        None => Ok(0),
    }
}

/// Whether the words name options of a `submit` line alone.
fn are_of_submit(words: &[&[u8]]) -> bool
    ensures { result ≡ are_named asked_names words.now }
{
    are_named(words, &["key=", "idem=", "at="])
}

/// Parses the words after `submit`: `T T B [key=T] [idem=T] [at=D]`.
fn asked_of(alloc: Global, words: &[&[u8]]) -> Result<Asked, Fault>
    ensures { IfOk result (AsksFor words.now) }
{
    let rest = behind(words, 3);
    if !are_of_submit(rest) {
        return Err(Fault::Malformed);
    }
    let begins = time_in(rest)?;
    let service = text_in(alloc, words, 0)?;
    let handler = text_in(alloc, words, 1)?;
    let parameter = bytes_in(alloc, words, 2)?;
    let key = optional_text(alloc, rest, "key=")?;
    let idempotency_key = optional_text(alloc, rest, "idem=")?;
    Ok(Asked {
        service,
        handler,
        parameter,
        key,
        idempotency_key,
        begins,
    })
}

/// A number, or the greatest one where it is `all`.
fn count_of(text: &[u8]) -> Result<usize, Fault>
    ensures { IfOk result (IsCountOrAll text.now) }
{
    if text == b"all".as_slice() {
        return Ok(usize::MAX);
    }
    Ok(u64_of(text)? as usize)
}

/// A count alone.
fn count_alone(words: &[&[u8]]) -> Result<usize, Fault>
    ensures { IfOk result (IsCountAlone words.now) }
{
    match words {
        [count] => count_of(*count),
        _ => Err(Fault::Malformed),
    }
}

/// A count alone, or nothing, which stands for 1.
fn stores_of(words: &[&[u8]]) -> Result<usize, Fault>
    ensures { IfOk result (AreStored words.now) }
{
    match words {
        [] => Ok(1),
        [count] => count_of(*count),
        _ => Err(Fault::Malformed),
    }
}

/// A number alone, or nothing, which stands for 1.
fn steps_of(words: &[&[u8]]) -> Result<u64, Fault>
    ensures { IfOk result (AreStepsMade words.now) }
{
    match words {
        [] => Ok(1),
        [steps] => u64_of(*steps),
        _ => Err(Fault::Malformed),
    }
}

/// A place of the inbox alone, or `all`.
fn delivered_of(words: &[&[u8]]) -> Result<Deed, Fault>
    ensures { IfOk result (SaysDeed (codes "deliver") words.now) }
{
    let word = one_word(words)?;
    if word == b"all".as_slice() {
        return Ok(Deed::DeliverAll);
    }
    let at = u32_of(word)?;
    Ok(Deed::Deliver(at as usize))
}

/// No further words.
fn no_words(words: &[&[u8]]) -> Result<(), Fault>
    ensures { IfOk result (λ _. words.now ≡ []) }
{
    if words.is_empty() {
        Ok(())
    } else {
        Err(Fault::Malformed)
    }
}

/// What happens to an invocation: a line's first word, and those after the invocation's number.
fn deed_behind(alloc: Global, word: &[u8], others: &[&[u8]]) -> Result<Deed, Fault>
    ensures { IfOk result (SaysDeed word.now others.now) }
{
    if word == b"begin".as_slice() {
        no_words(others)?;
        return Ok(Deed::Begin);
    }
    if word == b"piece".as_slice() {
        let count = count_alone(others)?;
        return Ok(Deed::Piece(count));
    }
    if word == b"close".as_slice() {
        no_words(others)?;
        return Ok(Deed::Close);
    }
    if word == b"step".as_slice() {
        let steps = steps_of(others)?;
        return Ok(Deed::Steps(steps));
    }
    if word == b"run_result".as_slice() {
        let proposal = proposal_of(alloc, others)?;
        return Ok(Deed::RunResult(proposal));
    }
    if word == b"deliver".as_slice() {
        return delivered_of(others);
    }
    if word == b"store".as_slice() {
        let count = stores_of(others)?;
        return Ok(Deed::Store(count));
    }
    if word == b"stop".as_slice() {
        no_words(others)?;
        return Ok(Deed::Stop);
    }
    Err(Fault::Malformed)
}

/// A duration alone, in whole milliseconds.
fn time_alone(words: &[&[u8]]) -> Result<u64, Fault>
    ensures { IfOk result (IsTimeAlone words.now) }
{
    match words {
        [time] => milliseconds_of(*time),
        _ => Err(Fault::Malformed),
    }
}

/// A number alone.
fn number_alone(words: &[&[u8]]) -> Result<u64, Fault>
    ensures { IfOk result (IsNumberAlone 64 words.now) }
{
    match words {
        [number] => u64_of(*number),
        _ => Err(Fault::Malformed),
    }
}

/// What happens to an invocation, whose number stands first.
fn deed_to(alloc: Global, word: &[u8], others: &[&[u8]]) -> Result<Event, Fault>
    ensures { IfOk result (SaysHappening word.now others.now) }
{
    let number = u32_in(others, 0)?;
    let deed = deed_behind(alloc, word, but_first(others))?;
    Ok(Event::To(number, deed))
}

/// Parses a line of an event: its first word, and those after it.
fn event_behind(alloc: Global, word: &[u8], others: &[&[u8]]) -> Result<Event, Fault>
    ensures { IfOk result (SaysHappening word.now others.now) }
{
    if word == b"submit".as_slice() {
        let asked = asked_of(alloc, others)?;
        return Ok(Event::Submit(asked));
    }
    if word == b"clock".as_slice() {
        let time = time_alone(others)?;
        return Ok(Event::Clock(time));
    }
    if word == b"settle".as_slice() {
        let times = number_alone(others)?;
        return Ok(Event::Settle(times));
    }
    if word == b"crash".as_slice() {
        no_words(others)?;
        return Ok(Event::Crash);
    }
    deed_to(alloc, word, others)
}

/// What a line says by its first word, and those after it.
fn said_behind(alloc: Global, word: &[u8], others: &[&[u8]]) -> Result<Said, Fault>
    ensures { IfOk result (SaysOfEngine word.now others.now) }
{
    if word == b"handler".as_slice() {
        let named = handler_of(alloc, others)?;
        return Ok(Said::Handler(named));
    }
    let event = event_behind(alloc, word, others)?;
    Ok(Said::Event(event))
}

/// What the words of a line say that isn't empty.
fn said_of(alloc: Global, words: &[&[u8]]) -> Result<Said, Fault>
    ensures { IfOk result (SaysOfWords words.now) }
{
    let [word, others @ ..] = words else {
        return Err(Fault::Malformed);
    };
    said_behind(alloc, *word, others)
}

/// What a line says that isn't empty, has no blanks at its ends, and is no step.
fn row_of(alloc: Global, line: &[u8]) -> Result<Said, Fault>
    ensures { IfOk result (SaysRow line.now) }
{
    let words = words(alloc, line)?;
    said_of(alloc, words.as_slice())
}

/// What a line says. It is a step if it begins with two blanks; other blanks at its ends don't count. `Malformed` where it has no meaning, as
/// where it is no UTF-8.
pub fn line_of(alloc: Global, line: &[u8]) -> Result<Said, Fault>
    ensures { IfOk result (SaysEngineLine line.now) }
{
    let is_step = line.starts_with(b"  ");
    let line = line.trim_ascii();
    let Ok(text) = std::str::from_utf8(line) else {
        return Err(Fault::Malformed);
    };
    if is_silent(line) {
        return Ok(Said::Nothing);
    }
    if is_step {
        let step = step_of(alloc, text)?;
        return Ok(Said::Step(step));
    }
    row_of(alloc, line)
}
