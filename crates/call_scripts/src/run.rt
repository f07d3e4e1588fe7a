//! A run of the program: what a reader gives is a script, and its answers go to a writer.
ghost use Rattle.std.specs.Prelude.{◌≡◌, ◌++◌, ◌∷◌, [], ℕ, List, IfOk, OnErr, None};
ghost use Rattle.std.specs.Io.KnownBytes.{IsAtEnd};
ghost use Rattle.call_scripts.specs.Runs.{EndsScript, IsRun, IsRunEnd};
ghost use Rattle.call_scripts.specs.Transcripts.{IsUnanswered, Transcribes};

use crate::perform::perform;
use crate::run_end::RunEnd;
use call_lines::Shown;
use call_lines::parse::parse;
use invocation_vm::CoreVM;
use lines::line::Line;
use lines::text::first_line;
use program_runs::streams::{Sink, Source};
use std::alloc::{AllocError, Global};

/// How many words a line has room for at once.
const USUAL_WORDS: usize = 8;
/// How many bytes of an answer are written without taking memory again.
const USUAL_ANSWER: usize = 32;

/// What one line after another is read and answered in, so that most take no memory for it.
#[derive(Drop)]
struct Room<'a> {
    words: Vec<&'a [u8]>,
    answer: Line,
}

impl<'a> Room<'a> {
    /// It has no memory yet.
    fn new(alloc: Global) -> Room<'a> {
        Room {
            words: Vec::new(alloc),
            answer: Line::new(alloc),
        }
    }

    /// It has the memory that a usual line takes.
    fn usual(alloc: Global) -> Result<Room<'a>, AllocError> {
        Ok(Room {
            words: Vec::with_capacity(alloc, USUAL_WORDS)?,
            answer: Line::with_capacity(alloc, USUAL_ANSWER)?,
        })
    }

    /// Writes the answer to a line, both without their ends.
    #[tactic(auto, using(crate::proofs::Told::transcribes, crate::proofs::Told::unanswered))]
    fn answer(
        &mut self,
        alloc: Global,
        vm: &mut Option<CoreVM>,
        line: &'a [u8],
    ) -> Result<(), AllocError>
        ensures answered { IfOk result
            (λ _. Transcribes alloc vm.old vm.new line.now self.new.answer) }
        ensures unanswered { OnErr result (IsUnanswered alloc vm.old vm.new line.now) }
    {
        self.answer.clear();
        let request = parse(alloc, &mut self.words, line)?;
        let reply = perform(alloc, vm, request);
        let shown = reply.show(&mut self.answer);
        drop(reply);
        shown
    }

    /// The same, with an end of its own.
    fn answer_line(
        &mut self,
        alloc: Global,
        vm: &mut Option<CoreVM>,
        line: &'a [u8],
    ) -> Result<(), AllocError>
        ensures { IfOk result (λ _. (told : List ℕ) × Transcribes alloc vm.old vm.new line.now told
            × (self.new.answer ≡ told ++ 10 ∷ [])) }
    {
        self.answer(alloc, vm, line)?;
        self.answer.word("\n")
    }
}

/// The answer to a line, both without their ends.
pub fn answer(alloc: Global, vm: &mut Option<CoreVM>, line: &[u8]) -> Result<Line, AllocError>
    ensures answered { IfOk result (λ answer. Transcribes alloc vm.old vm.new line.now answer) }
    ensures unanswered { OnErr result (IsUnanswered alloc vm.old vm.new line.now) }
{
    let mut room = Room::usual(alloc)?;
    room.answer(alloc, vm, line)?;
    let Room { answer, .. } = room;
    Ok(answer)
}

/// Answers the lines one after another, and writes each answer at once. The last line may have no end.
fn answer_all<W: Sink>(
    alloc: Global,
    vm: &mut Option<CoreVM>,
    script: &[u8],
    writer: &mut W,
) -> RunEnd
    ensures { EndsScript alloc script.now vm.old (W.contents writer.old) (W.contents writer.new)
        (W.fails writer.old) result }
{
    let mut room = Room::new(alloc);
    let mut rest = script;
    while !rest.is_empty() {
        let (line, behind) = first_line(rest);
        let Ok(()) = room.answer_line(alloc, vm, line) else {
            return RunEnd::NoMemory;
        };
        if let Err(error) = writer.write_whole(room.answer.as_str().as_bytes()) {
            return RunEnd::WriteFailed(error);
        }
        rest = behind;
    }
    RunEnd::Done
}

/// Answers a script. There is no VM at first.
fn drive<W: Sink>(alloc: Global, script: &[u8], writer: &mut W) -> RunEnd
    ensures { EndsScript alloc script.now None (W.contents writer.old) (W.contents writer.new)
        (W.fails writer.old) result }
{
    let mut vm = None;
    let end = answer_all(alloc, &mut vm, script, writer);
    drop(vm);
    end
}

/// Reads a script to its end, and writes its transcript: for each line one line of answer.
pub fn run<R: Source, W: Sink>(alloc: Global, reader: &mut R, writer: &mut W) -> RunEnd
    // Reading has failed, and nothing is written. Each other run has read all that there was as a script, and has answered its first lines,
    // whose answers are written: all of them; or those before a line at which memory ran out; or those before an answer whose writing has
    // failed, and a beginning of it.
    ensures { IsRunEnd (IsRun alloc (R.remaining reader.old) (W.contents writer.old)
        (W.contents writer.new) (W.fails writer.old)) (R.fails reader.old)
        (IsAtEnd (R.remaining reader.new)) (writer.new ≡ writer.old) result }
{
    let mut script = Vec::new(alloc);
    if let Err(error) = reader.read_whole(&mut script) {
        return RunEnd::ReadFailed(error);
    }
    drive(alloc, script.as_slice(), writer)
}
