//! A recorded command, and another that a call makes in its place: in what they differ.
use crate::moment::Moment;
use frame_lines::message::print_message;
use frame_lines::type_names::name_of;
use journal_protocol::{Message, MessageType, RawMessage};
use journal_replay::{Field, difference};
use lines::line::Line;
use lines::pieces::words;
use plain::Fault;
use std::alloc::{AllocError, Global};
use vm_asks::request::{give_ids, ids_of};
use vm_asks::{Command, StateRead};
use vm_state::{StateCoverage, StateMap};

/// How many bytes of a value are shown.
const SHOWN: usize = 120;

/// Writes a text of a line, or its beginning.
fn show_text(text: &[u8], line: &mut Line) -> Result<(), AllocError> {
    let (shown, rest) = text.split_at(text.len().min(SHOWN));
    if let Ok(shown) = std::str::from_utf8(shown) {
        line.word(shown)?;
    }
    if rest.is_empty() {
        return Ok(());
    }
    line.word("..")
}

/// The value of a field, if one of these words has it.
fn value_in<'a>(words: &[&'a [u8]], field: &str) -> Option<&'a [u8]> {
    for word in words {
        if let Some(rest) = word.strip_prefix(field.as_bytes()) {
            if let [b'=', value @ ..] = rest {
                return Some(value);
            }
        }
    }
    None
}

/// Writes the value that a field of a message has on its line.
fn show_value(
    alloc: Global,
    message: &Message,
    field: &str,
    line: &mut Line,
) -> Result<(), AllocError> {
    let mut whole = Line::new(alloc);
    print_message(message, &mut whole)?;
    match words(alloc, whole.as_str().as_bytes()) {
        Ok(words) => match value_in(words.as_slice(), field) {
            Some(value) => show_text(value, line),
            None => line.word("nothing"),
        },
        Err(Fault::Malformed) => Ok(()),
        Err(Fault::Memory) => Err(AllocError),
    }
}

/// Writes which command is recorded where a call makes one of another type.
pub fn show_types(
    index: u32,
    recorded: MessageType,
    asked: MessageType,
    line: &mut Line,
) -> Result<bool, AllocError> {
    line.word("command ")?;
    line.number(u64::from(index))?;
    line.word(" is recorded as ")?;
    line.word(name_of(recorded))?;
    line.word(", and the call makes ")?;
    line.word(name_of(asked))?;
    Ok(true)
}

/// Writes the field in which a call's command isn't as the recorded one, with both values.
fn show_field(
    alloc: Global,
    index: u32,
    recorded: &Message,
    asked: &Message,
    field: Field,
    line: &mut Line,
) -> Result<bool, AllocError> {
    line.word("command ")?;
    line.number(u64::from(index))?;
    line.word(", ")?;
    line.word(name_of(recorded.ty()))?;
    line.word(", is recorded with ")?;
    line.word(field.name())?;
    line.word(" ")?;
    show_value(alloc, recorded, field.name(), line)?;
    line.word(", and the call gives ")?;
    show_value(alloc, asked, field.name(), line)?;
    Ok(true)
}

/// Writes that no command is recorded where a call makes one of this type.
fn show_missing(index: u32, asked: MessageType, line: &mut Line) -> Result<bool, AllocError> {
    line.word("no command is recorded at ")?;
    line.number(u64::from(index))?;
    line.word(", and the call makes ")?;
    line.word(name_of(asked))?;
    Ok(true)
}

/// Writes in what a command differs from the recorded one, if replay doesn't take the two for one.
fn show_difference(
    alloc: Global,
    index: u32,
    raw: &RawMessage,
    asked: &Message,
    ignore_payloads: bool,
    line: &mut Line,
) -> Result<bool, AllocError> {
    if !raw.has_type(asked.ty()) {
        return show_types(index, raw.ty, asked.ty(), line);
    }
    match raw.read(alloc) {
        Ok(recorded) => match difference(&recorded, asked, ignore_payloads) {
            Some(field) => show_field(alloc, index, &recorded, asked, field, line),
            None => Ok(false),
        },
        Err(Fault::Malformed) => Ok(false),
        Err(Fault::Memory) => Err(AllocError),
    }
}

/// Writes in what a command differs from what is recorded at its index, where `id` is its first completion id.
fn explain_at(
    alloc: Global,
    index: u32,
    raw: &Option<RawMessage>,
    id: u32,
    command: &mut Command,
    checks_are_off: bool,
    line: &mut Line,
) -> Result<bool, AllocError> {
    let Some(raw) = raw else {
        return show_missing(index, command.message.ty(), line);
    };
    if u32::MAX - id < ids_of(&command.message) {
        return Ok(false);
    }
    give_ids(&mut command.message, id);
    let ignore_payloads = checks_are_off || command.unstable;
    show_difference(alloc, index, raw, &command.message, ignore_payloads, line)
}

/// Writes in what a call's command isn't as the recorded one.
pub fn explain_command(
    alloc: Global,
    moment: &Moment,
    command: &mut Command,
    checks_are_off: bool,
    line: &mut Line,
) -> Result<bool, AllocError> {
    explain_at(
        alloc,
        moment.index,
        &moment.next,
        moment.completion,
        command,
        checks_are_off,
        line,
    )
}

/// Writes the same of the second command of a call, whose first one is as recorded.
pub fn explain_second(
    alloc: Global,
    moment: &Moment,
    first: &Message,
    second: &mut Command,
    checks_are_off: bool,
    line: &mut Line,
) -> Result<bool, AllocError> {
    explain_at(
        alloc,
        moment.index.saturating_add(1),
        &moment.after,
        moment.completion.saturating_add(ids_of(first)),
        second,
        checks_are_off,
        line,
    )
}

/// The command of a read of the state, in the form in which it is recorded; none if another command is.
fn form_recorded(
    alloc: Global,
    read: &StateRead,
    id: u32,
    raw: &RawMessage,
) -> Result<Option<Message>, AllocError> {
    let coverage = if raw.has_type(read.lazy_type()) {
        StateCoverage::Partial
    } else if raw.has_type(read.eager_type()) {
        StateCoverage::Complete
    } else {
        return Ok(None);
    };
    let nothing = StateMap::new(alloc, coverage);
    Ok(Some(read.own_form(alloc, id, &nothing)?))
}

/// Writes in what a read of the state isn't as the recorded command.
pub fn explain_read(
    alloc: Global,
    moment: &Moment,
    read: &StateRead,
    line: &mut Line,
) -> Result<bool, AllocError> {
    let Some(raw) = &moment.next else {
        return show_missing(moment.index, read.lazy_type(), line);
    };
    match form_recorded(alloc, read, moment.completion, raw)? {
        Some(form) => show_difference(alloc, moment.index, raw, &form, true, line),
        None => show_types(moment.index, raw.ty, read.lazy_type(), line),
    }
}

/// Writes in what a journal doesn't begin with an input.
pub fn explain_input(moment: &Moment, line: &mut Line) -> Result<bool, AllocError> {
    let input = MessageType::InputCommand;
    match &moment.next {
        None => show_missing(moment.index, input, line),
        Some(raw) if raw.has_type(input) => Ok(false),
        Some(raw) => show_types(moment.index, raw.ty, input, line),
    }
}
