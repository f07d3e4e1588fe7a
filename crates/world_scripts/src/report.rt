//! Prints the report of a run: a text for each round, then the journal after the last round.
ghost use Rattle.std.specs.Prelude.{◌≡◌, ◌++◌, IfOk, IfSome, OnOk};
ghost use Rattle.journal_protocol.specs.Frames.{frame};
ghost use Rattle.world_rounds.specs.Inside.{report_view};
ghost use Rattle.world_scripts.specs.Printed.{AddsSuch, AddsSome, AreRoundTexts, IsJournalText, IsPrinted, IsRoundText, answer_line, answer_lines, answer_value, answer_word, count_text, error_line, fault_name, fault_text};

use bytes::Bytes;
use call_lines::Shown;
use frame_lines::entry::{print_frame, print_rest};
use journal_entries::JournalFault;
use journal_protocol::{Decoder, Error, RawMessage};
use lines::line::Line;
use plain::Fault;
use std::alloc::{AllocError, Global};
use vm_types::Answer;
use world_rounds::{Report, World};

/// The word by which an answer is called.
#[tactic(auto, unfolding(crate::specs::Printed::answer_word))]
fn answer_word(answer: &Answer) -> &'static str
    ensures { result.now ≡ answer_word answer.now }
{
    match answer {
        Answer::Input(_) => "input",
        Answer::Handle(_) | Answer::Send(_) => "handle",
        Answer::Call(_) => "handles",
        Answer::CallWithDeadline(_) => "deadline",
        Answer::Awakeable(_) => "awakeable",
        Answer::Unit => "unit",
        Answer::Awake => "awake",
        Answer::Cancelled => "cancelled",
        Answer::Taken(_) => "taken",
        Answer::Completed(_) => "completed",
    }
}

/// The value that is printed after that word; empty if the answer has none.
fn answer_value(alloc: Global, answer: &Answer) -> Result<Line, AllocError>
    ensures { IfOk result (λ value. value ≡ answer_value answer.now) }
{
    let mut value = Line::new(alloc);
    match answer {
        Answer::Unit | Answer::Awake | Answer::Cancelled => {}
        _ => {
            value.word(" ")?;
            answer.show(&mut value)?;
        }
    }
    Ok(value)
}

/// The line of an answer.
fn answer_line(alloc: Global, answer: &Answer) -> Result<Line, AllocError>
    ensures { IfOk result (λ line. line ≡ answer_line answer.now) }
{
    let value = answer_value(alloc, answer)?;
    let mut line = Line::new(alloc);
    line.word("answer ")?;
    line.word(answer_word(answer))?;
    line.word(value.as_str())?;
    line.word("\n")?;
    Ok(line)
}

/// A line for each answer.
fn print_answers(alloc: Global, answers: &[Answer], report: &mut Line) -> Result<(), AllocError>
    ensures { OnOk result (report.new ≡ report.old ++ answer_lines answers.now) }
{
    for answer in answers {
        let line = answer_line(alloc, answer)?;
        report.word(line.as_str())?;
    }
    Ok(())
}

/// The line of a frame: this word, then the frame.
fn frame_line(alloc: Global, word: &str, raw: &RawMessage) -> Result<Line, AllocError> {
    let mut line = Line::new(alloc);
    line.word(word)?;
    print_frame(alloc, raw, &mut line)?;
    line.word("\n")?;
    Ok(line)
}

/// The line of bytes that are no frame: this word, then the bytes.
fn rest_line(alloc: Global, word: &str, rest: &[u8]) -> Result<Line, AllocError> {
    let mut line = Line::new(alloc);
    line.word(word)?;
    print_rest(rest, &mut line)?;
    line.word("\n")?;
    Ok(line)
}

/// The next frame, if a whole one waits.
fn next_whole(decoder: &mut Decoder) -> Result<Option<RawMessage>, AllocError>
    ensures { IfOk result (λ next. IfSome next (λ raw. decoder.old ≡ frame raw.ty raw.body
        ++ decoder.new)) }
{
    match decoder.next_frame() {
        Ok(frame) => Ok(frame),
        Err(Fault::Malformed) => Ok(None),
        Err(Fault::Memory) => Err(AllocError),
    }
}

/// A line for each frame. Each line begins with this word.
fn print_frames(
    alloc: Global,
    word: &str,
    decoder: &mut Decoder,
    report: &mut Line,
) -> Result<(), AllocError>
    ensures { OnOk result (AddsSome report.old report.new) }
{
    while let Some(raw) = next_whole(decoder)? {
        let line = frame_line(alloc, word, &raw)?;
        report.word(line.as_str())?;
    }
    Ok(())
}

/// A line for each frame of these bytes, and one for bytes at the end that are no frame. Each line begins with this word.
fn print_bytes(
    alloc: Global,
    word: &str,
    bytes: &Bytes,
    report: &mut Line,
) -> Result<(), AllocError>
    ensures { OnOk result (AddsSome report.old report.new) }
{
    let mut decoder = Decoder::new(alloc);
    decoder.push(bytes.clone()?)?;
    print_frames(alloc, word, &mut decoder, report)?;
    if !decoder.waiting().is_empty() {
        let line = rest_line(alloc, word, decoder.waiting())?;
        report.word(line.as_str())?;
    }
    Ok(())
}

/// The line of an error, if there is one.
fn print_error(error: &Option<Error>, report: &mut Line) -> Result<(), AllocError>
    ensures { OnOk result (report.new ≡ report.old ++ error_line error.now) }
{
    if let Some(error) = error {
        report.word("error ")?;
        report.number(u64::from(error.code()))?;
        report.word(" ")?;
        report.quoted(error.message().as_bytes())?;
        report.word("\n")?;
    }
    Ok(())
}

/// A line of a word and a number.
fn print_count(word: &str, count: u64, report: &mut Line) -> Result<(), AllocError>
    ensures { OnOk result (report.new ≡ report.old ++ count_text word.now count) }
{
    report.word(word)?;
    report.number(count)?;
    report.word("\n")
}

/// What a round tells.
fn print_round(
    alloc: Global,
    number: u64,
    round: &Report,
    report: &mut Line,
) -> Result<(), AllocError>
    ensures { OnOk result (AddsSuch (IsRoundText number (report_view round.now)) report.old
        report.new) }
{
    print_count("round ", number, report)?;
    print_answers(alloc, round.answers.as_slice(), report)?;
    print_bytes(alloc, "output ", &round.output, report)?;
    print_error(&round.error, report)?;
    print_count("entries ", u64::from(round.entries), report)?;
    Ok(())
}

/// A line for each entry of a journal.
fn print_entries(alloc: Global, journal: &[Bytes], report: &mut Line) -> Result<(), AllocError>
    ensures { OnOk result (AddsSome report.old report.new) }
{
    for entry in journal {
        print_bytes(alloc, "", entry, report)?;
    }
    Ok(())
}

/// The journal.
fn print_journal(alloc: Global, journal: &[Bytes], report: &mut Line) -> Result<(), AllocError>
    ensures { OnOk result (AddsSuch IsJournalText report.old report.new) }
{
    report.word("journal\n")?;
    print_entries(alloc, journal, report)?;
    Ok(())
}

/// What all rounds tell.
fn print_rounds(alloc: Global, rounds: &[Report], report: &mut Line) -> Result<(), AllocError>
    ensures { OnOk result (AddsSuch (AreRoundTexts rounds.now) report.old report.new) }
{
    let mut number = 0u64;
    for round in rounds {
        number += 1;
        print_round(alloc, number, round, report)?;
    }
    Ok(())
}

/// What all rounds tell, and the journal that they leave.
pub fn report_of(alloc: Global, world: &World, rounds: &[Report]) -> Result<Line, AllocError>
    ensures { IfOk result (λ report. IsPrinted rounds.now report) }
{
    let mut report = Line::new(alloc);
    print_rounds(alloc, rounds, &mut report)?;
    print_journal(alloc, world.journal(), &mut report)?;
    Ok(report)
}

/// The name of a fault.
#[tactic(auto, unfolding(crate::specs::Printed::fault_name))]
fn fault_name(fault: JournalFault) -> &'static str
    ensures { result.now ≡ fault_name fault }
{
    match fault {
        JournalFault::NotANotification => "NotANotification",
        JournalFault::NoSuchId => "NoSuchId",
        JournalFault::SecondCompletion => "SecondCompletion",
        JournalFault::WrongKind => "WrongKind",
        JournalFault::RunIsProposed => "RunIsProposed",
        JournalFault::Memory => "Memory",
        JournalFault::JournalFull => "JournalFull",
        JournalFault::BadJournal => "BadJournal",
    }
}

/// The report of rounds that were stopped by a fault.
pub fn report_of_fault(alloc: Global, fault: JournalFault) -> Result<Line, AllocError>
    ensures { IfOk result (λ report. report ≡ fault_text fault) }
{
    let mut report = Line::new(alloc);
    report.word("fault ")?;
    report.word(fault_name(fault))?;
    report.word("\n")?;
    Ok(report)
}
