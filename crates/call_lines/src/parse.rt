//! A line of the script, read as a whole: one row a call.
ghost use Rattle.std.specs.Prelude.{◌≡◌, IfErr, IfOk, Ok, true, false, length};
ghost use Rattle.vm_types.specs.declared.call.Call.{Call};
ghost use Rattle.call_lines.specs.declared.verb.Verb.TheVariants as verb;
ghost use Rattle.call_lines.specs.Lines.{MakesRequest, AsksCall, AskNothing, AsksNothing, HasNoWords, HasWords, IsContentType, IsMade, MakesNothing, MakesWith, IsRequestLine, begins_with_vm};
ghost use Rattle.lines.specs.Text.{says_nothing};
ghost use Rattle.lines.specs.Readings.{Blames};
ghost use Rattle.plain.specs.declared.fault.Fault.TheVariants.{Malformed};
ghost use Rattle.call_lines.specs.Verbs.{IsAsked, IsAwaited, IsBare, IsLine};

use crate::alone::{ephemeral_id_alone, handle_alone};
use crate::callees::{call_line, call_with_deadline_line, send_line};
use crate::request::Request;
use crate::verb::{Verb, verb_of_word};
use await_trees::UnresolvedFuture;
use bytes::Bytes;
use line_parts::arguments::{Extras, bytes_alone, extras_of, name_of, now_of, text_alone};
use line_parts::options::options_of;
use line_parts::report::report_of;
use line_parts::results::{Proposal, proposal_of};
use line_parts::targets::target_of;
use line_parts::trees::tree_of_word;
use line_parts::values::{value_and_payload, value_of};
use lines::atoms::string_of;
use lines::pieces::{Charset, words_in};
use lines::text::is_silent;
use lines::words::{behind, bytes_in, text_in, time_in};
use plain::{Fault, Text};
use std::alloc::{AllocError, Global};
use vm_types::{Boxed, Call, ContentType, Step, VMOptions};

#[tactic(auto, using(lines::proofs::Blaming::first_blamed, lines::proofs::Blaming::second_blamed))]
fn get_of(alloc: Global, arguments: &[&[u8]]) -> Result<Call, Fault>
    ensures value { IfOk result (IsLine verb.Get arguments.now) }
    ensures none { IfErr result (Blames (IsLine verb.Get arguments.now)) }
{
    let key = text_in(alloc, arguments, 0)?;
    let Extras { name, payload } = extras_of(alloc, behind(arguments, 1))?;
    Ok(Call::Step(Step::StateGet {
        key,
        name,
        options: payload,
    }))
}

#[tactic(auto, using(lines::proofs::Blaming::one_blamed))]
fn keys_of(alloc: Global, arguments: &[&[u8]]) -> Result<Call, Fault>
    ensures value { IfOk result (IsLine verb.Keys arguments.now) }
    ensures none { IfErr result (Blames (IsLine verb.Keys arguments.now)) }
{
    let name = name_of(alloc, arguments)?;
    Ok(Call::Step(Step::StateGetKeys { name }))
}

#[tactic(auto, using(lines::proofs::Blaming::first_of_three_blamed, lines::proofs::Blaming::second_of_three_blamed, lines::proofs::Blaming::third_of_three_blamed))]
fn set_of(alloc: Global, arguments: &[&[u8]]) -> Result<Call, Fault>
    ensures value { IfOk result (IsLine verb.Set arguments.now) }
    ensures none { IfErr result (Blames (IsLine verb.Set arguments.now)) }
{
    let key = text_in(alloc, arguments, 0)?;
    let value = bytes_in(alloc, arguments, 1)?;
    let Extras { name, payload } = extras_of(alloc, behind(arguments, 2))?;
    Ok(Call::Step(Step::StateSet {
        key,
        value,
        name,
        options: payload,
    }))
}

#[tactic(auto, using(lines::proofs::Blaming::first_blamed, lines::proofs::Blaming::second_blamed))]
fn clear_of(alloc: Global, arguments: &[&[u8]]) -> Result<Call, Fault>
    ensures value { IfOk result (IsLine verb.Clear arguments.now) }
    ensures none { IfErr result (Blames (IsLine verb.Clear arguments.now)) }
{
    let key = text_in(alloc, arguments, 0)?;
    let name = name_of(alloc, behind(arguments, 1))?;
    Ok(Call::Step(Step::StateClear { key, name }))
}

#[tactic(auto, using(lines::proofs::Blaming::first_of_three_blamed, lines::proofs::Blaming::second_of_three_blamed, lines::proofs::Blaming::third_of_three_blamed))]
fn sleep_of(alloc: Global, arguments: &[&[u8]]) -> Result<Call, Fault>
    ensures value { IfOk result (IsLine verb.Sleep arguments.now) }
    ensures none { IfErr result (Blames (IsLine verb.Sleep arguments.now)) }
{
    let name = text_in(alloc, arguments, 0)?;
    let until = time_in(arguments, 1)?;
    let now = now_of(behind(arguments, 2))?;
    Ok(Call::Step(Step::Sleep {
        name,
        wake_up_time_since_unix_epoch: until,
        now_since_unix_epoch: now,
    }))
}

#[tactic(auto, using(lines::proofs::Blaming::first_blamed, lines::proofs::Blaming::second_blamed))]
fn complete_awakeable_of(alloc: Global, arguments: &[&[u8]]) -> Result<Call, Fault>
    ensures value { IfOk result (IsLine verb.CompleteAwakeable arguments.now) }
    ensures none { IfErr result (Blames (IsLine verb.CompleteAwakeable arguments.now)) }
{
    let id = text_in(alloc, arguments, 0)?;
    let (value, options) = value_and_payload(alloc, behind(arguments, 1))?;
    Ok(Call::Step(Step::CompleteAwakeable { id, value, options }))
}

#[tactic(auto, using(lines::proofs::Blaming::first_of_three_blamed, lines::proofs::Blaming::second_of_three_blamed, lines::proofs::Blaming::third_of_three_blamed))]
fn complete_signal_of(alloc: Global, arguments: &[&[u8]]) -> Result<Call, Fault>
    ensures value { IfOk result (IsLine verb.CompleteSignal arguments.now) }
    ensures none { IfErr result (Blames (IsLine verb.CompleteSignal arguments.now)) }
{
    let target_invocation_id = text_in(alloc, arguments, 0)?;
    let signal_name = text_in(alloc, arguments, 1)?;
    let value = value_of(alloc, behind(arguments, 2))?;
    Ok(Call::Step(Step::CompleteSignal {
        target_invocation_id,
        signal_name,
        value,
    }))
}

#[tactic(auto, using(lines::proofs::Blaming::one_blamed))]
fn cancel_of(alloc: Global, arguments: &[&[u8]]) -> Result<Call, Fault>
    ensures value { IfOk result (IsLine verb.Cancel arguments.now) }
    ensures none { IfErr result (Blames (IsLine verb.Cancel arguments.now)) }
{
    let target_invocation_id = text_alone(alloc, arguments)?;
    Ok(Call::Step(Step::CancelInvocation {
        target_invocation_id,
    }))
}

#[tactic(auto, using(lines::proofs::Blaming::one_blamed))]
fn signal_of(alloc: Global, arguments: &[&[u8]]) -> Result<Call, Fault>
    ensures value { IfOk result (IsLine verb.Signal arguments.now) }
    ensures none { IfErr result (Blames (IsLine verb.Signal arguments.now)) }
{
    let name = text_alone(alloc, arguments)?;
    Ok(Call::Step(Step::Signal { name }))
}

#[tactic(auto, using(lines::proofs::Blaming::one_blamed))]
fn get_promise_of(alloc: Global, arguments: &[&[u8]]) -> Result<Call, Fault>
    ensures value { IfOk result (IsLine verb.GetPromise arguments.now) }
    ensures none { IfErr result (Blames (IsLine verb.GetPromise arguments.now)) }
{
    let key = text_alone(alloc, arguments)?;
    Ok(Call::Step(Step::GetPromise { key }))
}

#[tactic(auto, using(lines::proofs::Blaming::one_blamed))]
fn peek_promise_of(alloc: Global, arguments: &[&[u8]]) -> Result<Call, Fault>
    ensures value { IfOk result (IsLine verb.PeekPromise arguments.now) }
    ensures none { IfErr result (Blames (IsLine verb.PeekPromise arguments.now)) }
{
    let key = text_alone(alloc, arguments)?;
    Ok(Call::Step(Step::PeekPromise { key }))
}

#[tactic(auto, using(lines::proofs::Blaming::first_blamed, lines::proofs::Blaming::second_blamed))]
fn complete_promise_of(alloc: Global, arguments: &[&[u8]]) -> Result<Call, Fault>
    ensures value { IfOk result (IsLine verb.CompletePromise arguments.now) }
    ensures none { IfErr result (Blames (IsLine verb.CompletePromise arguments.now)) }
{
    let key = text_in(alloc, arguments, 0)?;
    let (value, options) = value_and_payload(alloc, behind(arguments, 1))?;
    Ok(Call::Step(Step::CompletePromise {
        key,
        value,
        options,
    }))
}

#[tactic(auto, using(lines::proofs::Blaming::one_blamed))]
fn run_of(alloc: Global, arguments: &[&[u8]]) -> Result<Call, Fault>
    ensures value { IfOk result (IsLine verb.Run arguments.now) }
    ensures none { IfErr result (Blames (IsLine verb.Run arguments.now)) }
{
    let name = text_alone(alloc, arguments)?;
    Ok(Call::Run(name))
}

#[tactic(auto, using(lines::proofs::Blaming::one_blamed))]
fn propose_of(alloc: Global, arguments: &[&[u8]]) -> Result<Call, Fault>
    ensures value { IfOk result (IsLine verb.Propose arguments.now) }
    ensures none { IfErr result (Blames (IsLine verb.Propose arguments.now)) }
{
    let Proposal {
        handle,
        result,
        policy,
    } = proposal_of(alloc, arguments)?;
    Ok(Call::Propose {
        handle,
        result: Boxed::new(alloc, result)?,
        policy,
    })
}

#[tactic(auto, using(lines::proofs::Blaming::one_blamed))]
fn attach_of(alloc: Global, arguments: &[&[u8]]) -> Result<Call, Fault>
    ensures value { IfOk result (IsLine verb.Attach arguments.now) }
    ensures none { IfErr result (Blames (IsLine verb.Attach arguments.now)) }
{
    let target = target_of(alloc, arguments)?;
    Ok(Call::Step(Step::AttachInvocation(Boxed::new(alloc, target)?)))
}

#[tactic(auto, using(lines::proofs::Blaming::one_blamed))]
fn get_output_of(alloc: Global, arguments: &[&[u8]]) -> Result<Call, Fault>
    ensures value { IfOk result (IsLine verb.GetOutput arguments.now) }
    ensures none { IfErr result (Blames (IsLine verb.GetOutput arguments.now)) }
{
    let target = target_of(alloc, arguments)?;
    Ok(Call::Step(Step::GetInvocationOutput(Boxed::new(alloc, target)?)))
}

#[tactic(auto, using(lines::proofs::Blaming::one_blamed))]
fn write_output_of(alloc: Global, arguments: &[&[u8]]) -> Result<Call, Fault>
    ensures value { IfOk result (IsLine verb.WriteOutput arguments.now) }
    ensures none { IfErr result (Blames (IsLine verb.WriteOutput arguments.now)) }
{
    let (value, options) = value_and_payload(alloc, arguments)?;
    Ok(Call::Step(Step::WriteOutput(value, options)))
}

/// What is awaited: `TREE` alone.
#[tactic(auto, using(crate::proofs::Asking::one_tree_blamed))]
fn awaited(alloc: Global, arguments: &[&[u8]]) -> Result<UnresolvedFuture, Fault>
    ensures value { IfOk result (IsAwaited arguments.now) }
    ensures none { IfErr result (Blames (IsAwaited arguments.now)) }
{
    match arguments {
        [tree] => tree_of_word(alloc, *tree),
        _ => Err(Fault::Malformed),
    }
}

#[tactic(auto, using(lines::proofs::Blaming::one_blamed))]
fn await_of(alloc: Global, arguments: &[&[u8]]) -> Result<Call, Fault>
    ensures value { IfOk result (IsLine verb.Await arguments.now) }
    ensures none { IfErr result (Blames (IsLine verb.Await arguments.now)) }
{
    let future = awaited(alloc, arguments)?;
    Ok(Call::Step(Step::Await(future)))
}

/// Checks that nothing stands after the name of a call that takes no arguments.
fn nothing_in(arguments: &[&[u8]]) -> Result<(), Fault>
    ensures value { IfOk result (λ _. length arguments.now ≡ 0) }
    ensures none { (bare : Call) → IfErr result (Blames (IsBare arguments.now bare)) }
{
    if arguments.is_empty() {
        Ok(())
    } else {
        Err(Fault::Malformed)
    }
}

#[tactic(auto, using(lines::proofs::Blaming::one_blamed))]
fn input_of(alloc: Global, arguments: &[&[u8]]) -> Result<Call, Fault>
    ensures value { IfOk result (IsLine verb.Input arguments.now) }
    ensures none { IfErr result (Blames (IsLine verb.Input arguments.now)) }
{
    let bytes = bytes_alone(alloc, arguments)?;
    Ok(Call::Input(bytes))
}

#[tactic(auto, using(lines::proofs::Blaming::one_blamed))]
fn completed_of(arguments: &[&[u8]]) -> Result<Call, Fault>
    ensures value { IfOk result (IsLine verb.Completed arguments.now) }
    ensures none { IfErr result (Blames (IsLine verb.Completed arguments.now)) }
{
    let handle = handle_alone(arguments)?;
    Ok(Call::Step(Step::Completed(handle)))
}

#[tactic(auto, using(lines::proofs::Blaming::one_blamed))]
fn take_of(arguments: &[&[u8]]) -> Result<Call, Fault>
    ensures value { IfOk result (IsLine verb.Take arguments.now) }
    ensures none { IfErr result (Blames (IsLine verb.Take arguments.now)) }
{
    let handle = handle_alone(arguments)?;
    Ok(Call::Step(Step::Take(handle)))
}

#[tactic(auto, using(lines::proofs::Blaming::one_blamed))]
fn clear_all_of(alloc: Global, arguments: &[&[u8]]) -> Result<Call, Fault>
    ensures value { IfOk result (IsLine verb.ClearAll arguments.now) }
    ensures none { IfErr result (Blames (IsLine verb.ClearAll arguments.now)) }
{
    let name = name_of(alloc, arguments)?;
    Ok(Call::Step(Step::StateClearAll { name }))
}

#[tactic(auto, using(lines::proofs::Blaming::one_blamed))]
fn error_of(alloc: Global, arguments: &[&[u8]]) -> Result<Call, Fault>
    ensures value { IfOk result (IsLine verb.Error arguments.now) }
    ensures none { IfErr result (Blames (IsLine verb.Error arguments.now)) }
{
    let (error, relationship) = report_of(alloc, arguments)?;
    Ok(Call::Error(Boxed::new(alloc, error)?, relationship))
}

#[tactic(auto, using(lines::proofs::Blaming::one_blamed))]
fn ephemeral_get_of(alloc: Global, arguments: &[&[u8]]) -> Result<Call, Fault>
    ensures value { IfOk result (IsLine verb.EphemeralGet arguments.now) }
    ensures none { IfErr result (Blames (IsLine verb.EphemeralGet arguments.now)) }
{
    let key = text_alone(alloc, arguments)?;
    Ok(Call::EphemeralGet(key))
}

#[tactic(auto, using(lines::proofs::Blaming::one_blamed))]
fn take_ephemeral_of(arguments: &[&[u8]]) -> Result<Call, Fault>
    ensures value { IfOk result (IsLine verb.TakeEphemeral arguments.now) }
    ensures none { IfErr result (Blames (IsLine verb.TakeEphemeral arguments.now)) }
{
    let id = ephemeral_id_alone(arguments)?;
    Ok(Call::TakeEphemeral(id))
}

/// The call of this name, with the arguments after it.
#[inline(always)]
fn call_named(alloc: Global, verb: Verb, arguments: &[&[u8]]) -> Result<Call, Fault>
    ensures value { IfOk result (IsLine verb arguments.now) }
    ensures none { IfErr result (Blames (IsLine verb arguments.now)) }
{
    match verb {
        Verb::Head => {
            nothing_in(arguments)?;
            Ok(Call::Head)
        }
        Verb::Close => {
            nothing_in(arguments)?;
            Ok(Call::Close)
        }
        Verb::Output => {
            nothing_in(arguments)?;
            Ok(Call::Output)
        }
        Verb::Ready => {
            nothing_in(arguments)?;
            Ok(Call::Ready)
        }
        Verb::State => {
            nothing_in(arguments)?;
            Ok(Call::State)
        }
        Verb::Index => {
            nothing_in(arguments)?;
            Ok(Call::Index)
        }
        Verb::SysInput => {
            nothing_in(arguments)?;
            Ok(Call::SysInput)
        }
        Verb::Awakeable => {
            nothing_in(arguments)?;
            Ok(Call::Step(Step::Awakeable))
        }
        Verb::End => {
            nothing_in(arguments)?;
            Ok(Call::Step(Step::End))
        }
        Verb::Input => input_of(alloc, arguments),
        Verb::Error => error_of(alloc, arguments),
        Verb::Await => await_of(alloc, arguments),
        Verb::Completed => completed_of(arguments),
        Verb::Take => take_of(arguments),
        Verb::Get => get_of(alloc, arguments),
        Verb::Keys => keys_of(alloc, arguments),
        Verb::Set => set_of(alloc, arguments),
        Verb::Clear => clear_of(alloc, arguments),
        Verb::ClearAll => clear_all_of(alloc, arguments),
        Verb::Sleep => sleep_of(alloc, arguments),
        Verb::Call => call_line(alloc, arguments),
        Verb::CallWithDeadline => call_with_deadline_line(alloc, arguments),
        Verb::Send => send_line(alloc, arguments),
        Verb::Signal => signal_of(alloc, arguments),
        Verb::CompleteAwakeable => complete_awakeable_of(alloc, arguments),
        Verb::CompleteSignal => complete_signal_of(alloc, arguments),
        Verb::Cancel => cancel_of(alloc, arguments),
        Verb::GetPromise => get_promise_of(alloc, arguments),
        Verb::PeekPromise => peek_promise_of(alloc, arguments),
        Verb::CompletePromise => complete_promise_of(alloc, arguments),
        Verb::Run => run_of(alloc, arguments),
        Verb::Propose => propose_of(alloc, arguments),
        Verb::Attach => attach_of(alloc, arguments),
        Verb::GetOutput => get_output_of(alloc, arguments),
        Verb::WriteOutput => write_output_of(alloc, arguments),
        Verb::EphemeralGet => ephemeral_get_of(alloc, arguments),
        Verb::TakeEphemeral => take_ephemeral_of(arguments),
    }
}

/// The call that the words of a line ask for.
#[tactic(auto, using(crate::proofs::Asking::none_ask, crate::proofs::Asking::unnamed_ask, crate::proofs::Asking::blamed_ask))]
fn call_of(alloc: Global, words: &[&[u8]]) -> Result<Call, Fault>
    ensures value { IfOk result (IsAsked words.now) }
    ensures none { IfErr result (λ fault. fault ≡ Malformed → AskNothing words.now) }
{
    let [word, arguments @ ..] = words else {
        return Err(Fault::Malformed);
    };
    call_named(alloc, verb_of_word(*word)?, arguments)
}

#[tactic(auto, using(crate::proofs::Making::unnamed_blamed))]
fn content_type_of(alloc: Global, text: &[u8]) -> Result<ContentType, Fault>
    ensures value { IfOk result (IsContentType text.now) }
    ensures none { IfErr result (Blames (IsContentType text.now)) }
{
    if text == b"-".as_slice() {
        return Ok(ContentType::Absent);
    }
    if text == b"!".as_slice() {
        return Ok(ContentType::Unreadable);
    }
    Ok(ContentType::Named(string_of(alloc, text)?))
}

/// The content type and the options that the words of a `vm` line name.
#[tactic(auto, using(crate::proofs::Making::few_make, crate::proofs::Making::name_blamed, crate::proofs::Making::options_blamed, crate::proofs::Making::content_type_blamed))]
fn make_of_words(alloc: Global, words: &[&[u8]]) -> Result<(ContentType, VMOptions), Fault>
    ensures value { IfOk result (IsMade words.now) }
    ensures none { IfErr result (Blames (IsMade words.now)) }
{
    let [name, content_type, options @ ..] = words else {
        return Err(Fault::Malformed);
    };
    if *name != b"vm".as_slice() {
        return Err(Fault::Malformed);
    }
    let options = options_of(options)?;
    let content_type = content_type_of(alloc, *content_type)?;
    Ok((content_type, options))
}

/// The words of a line, which is UTF-8.
fn words_of_line<'a>(words: &mut Vec<&'a [u8]>, line: &'a [u8]) -> Result<(), Fault>
    ensures words { IfOk result (λ _. HasWords line.now words.new.items) }
    ensures none { IfErr result (λ fault. fault ≡ Malformed → HasNoWords line.now) }
{
    match words_in(words, line)? {
        Charset::Ascii => Ok(()),
        Charset::Other => match std::str::from_utf8(line) {
            Ok(_) => Ok(()),
            Err(_) => Err(Fault::Malformed),
        },
    }
}

/// The row `vm`.
#[tactic(auto, using(crate::proofs::Making::wordless_makes, crate::proofs::Making::words_make))]
fn make_of<'a>(
    alloc: Global,
    words: &mut Vec<&'a [u8]>,
    line: &'a [u8],
) -> Result<(ContentType, VMOptions), Fault>
    ensures value { IfOk result (λ made. MakesWith line.now made.0 made.1) }
    ensures none { IfErr result (λ fault. fault ≡ Malformed → MakesNothing line.now) }
{
    words_of_line(words, line)?;
    make_of_words(alloc, words.as_slice())
}

/// Any other row that isn't empty.
#[tactic(auto, using(crate::proofs::Asking::wordless_asks, crate::proofs::Asking::words_ask))]
fn row_of<'a>(alloc: Global, words: &mut Vec<&'a [u8]>, line: &'a [u8]) -> Result<Call, Fault>
    ensures value { IfOk result (AsksCall line.now) }
    ensures none { IfErr result (λ fault. fault ≡ Malformed → AsksNothing line.now) }
{
    words_of_line(words, line)?;
    call_of(alloc, words.as_slice())
}

/// Whether the first word of the line is `vm`.
#[tactic(auto, unfolding(crate::specs::Lines::begins_with_vm))]
fn makes(line: &[u8]) -> bool
    ensures { result ≡ begins_with_vm line.now }
{
    line == b"vm".as_slice() || line.starts_with(b"vm ")
}

/// What a line that begins with `vm` asks for. An `Err` is out of memory.
fn parse_make<'a>(
    alloc: Global,
    words: &mut Vec<&'a [u8]>,
    line: &'a [u8],
) -> Result<Request, AllocError>
    requires silent { says_nothing line.now ≡ false }
    requires makes { begins_with_vm line.now ≡ true }
    ensures value { IfOk result (MakesRequest line.now) }
{
    match make_of(alloc, words, line) {
        Ok((content_type, options)) => Ok(Request::Make(content_type, options)),
        Err(Fault::Malformed) => Ok(Request::BadMake),
        Err(Fault::Memory) => Err(AllocError),
    }
}

/// What any other line that isn't empty asks for. An `Err` is out of memory.
fn parse_call<'a>(
    alloc: Global,
    words: &mut Vec<&'a [u8]>,
    line: &'a [u8],
) -> Result<Request, AllocError>
    requires silent { says_nothing line.now ≡ false }
    requires makes { begins_with_vm line.now ≡ false }
    ensures value { IfOk result (MakesRequest line.now) }
{
    match row_of(alloc, words, line) {
        Ok(call) => Ok(Request::Call(call)),
        Err(Fault::Malformed) => Ok(Request::Bad),
        Err(Fault::Memory) => Err(AllocError),
    }
}

/// What a line asks for. Its words take the place of others, whose memory is used again.
pub fn parse<'a>(
    alloc: Global,
    words: &mut Vec<&'a [u8]>,
    line: &'a [u8],
) -> Result<Request, AllocError>
    ensures value { IfOk result (IsRequestLine line.now) }
{
    let line = line.trim_ascii();
    if is_silent(line) {
        return Ok(Request::Nothing);
    }
    if makes(line) {
        return parse_make(alloc, words, line);
    }
    parse_call(alloc, words, line)
}
