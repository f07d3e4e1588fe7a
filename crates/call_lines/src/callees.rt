//! The lines that call another handler: which one, with what, and how.
ghost use Rattle.std.specs.Prelude.{◌≡◌, ◌∷◌, IfErr, IfOk, codes, drop};
ghost use Rattle.lines.specs.Readings.{Blames};
ghost use Rattle.call_lines.specs.declared.verb.Verb.TheVariants as verb;
ghost use Rattle.lines.specs.Fields.{are_named, texts_named};
ghost use Rattle.line_parts.specs.Targets.{AreCallOptions, AreHeaders, HasCallOptions, call_names};
ghost use Rattle.call_lines.specs.Verbs.{HasCallee, IsLine, NamesTarget};

use bytes::Bytes;
use journal_protocol::Header;
use line_parts::arguments::{optional_duration, optional_text, without_unstable};
use line_parts::values::pair_of;
use lines::fields::{are_named, text_behind};
use lines::words::{behind, bytes_in, text_in, time_in};
use plain::{Fault, Items, Text};
use std::alloc::Global;
use vm_types::{Boxed, Call, PayloadOptions, Step, Target};

/// What is called, and with what.
#[derive(Drop)]
struct Callee {
    service: Text,
    handler: Text,
    input: Bytes,
}

/// `[header={T T}]..`, among other words.
#[tactic(auto, using(line_parts::proofs::Pairs::headers_blamed))]
fn headers_of(alloc: Global, words: &[&[u8]]) -> Result<Items<Header>, Fault>
    ensures value { IfOk result (AreHeaders (texts_named (codes "header=") words.now)) }
    ensures none { IfErr result (Blames (AreHeaders (texts_named (codes "header=") words.now))) }
{
    let mut headers = Items::new(alloc);
    for word in words {
        if let Some(text) = text_behind(*word, "header=") {
            let (key, value) = pair_of(alloc, text)?;
            headers.push(Header { key, value })?;
        }
    }
    Ok(headers)
}

/// The target with these options, and the call's name:
/// `[key=T] [idem=T] [scope=T] [limit=T] [header={T T}].. [name=T]`, among other words.
fn target_with(
    alloc: Global,
    service: Text,
    handler: Text,
    words: &[&[u8]],
) -> Result<(Target, Option<Text>), Fault>
    ensures service { IfOk result (λ found. found.0.service ≡ service) }
    ensures handler { IfOk result (λ found. found.0.handler ≡ handler) }
    ensures options { IfOk result (HasCallOptions words.now) }
    ensures none { IfErr result (Blames (HasCallOptions words.now)) }
{
    let key = optional_text(alloc, words, "key=")?;
    let idempotency_key = optional_text(alloc, words, "idem=")?;
    let scope = optional_text(alloc, words, "scope=")?;
    let limit_key = optional_text(alloc, words, "limit=")?;
    let headers = headers_of(alloc, words)?;
    let name = optional_text(alloc, words, "name=")?;
    let target = Target {
        service,
        handler,
        key,
        idempotency_key,
        scope,
        limit_key,
        headers,
    };
    Ok((target, name))
}

/// `T T B`, and the words after them.
#[tactic(auto, using(crate::proofs::Calling::service_blamed, crate::proofs::Calling::handler_blamed, crate::proofs::Calling::input_blamed))]
fn callee_of<'w, 'a>(
    alloc: Global,
    words: &'w [&'a [u8]],
) -> Result<(Callee, &'w [&'a [u8]]), Fault>
    ensures callee { IfOk result
        (λ found. HasCallee words.now (found.0.service, found.0.handler, found.0.input)) }
    ensures rest { IfOk result (λ found. found.1.now ≡ drop 3 words.now) }
    ensures none { IfErr result (Blames (HasCallee words.now)) }
{
    let service = text_in(alloc, words, 0)?;
    let handler = text_in(alloc, words, 1)?;
    let input = bytes_in(alloc, words, 2)?;
    let callee = Callee {
        service,
        handler,
        input,
    };
    Ok((callee, behind(words, 3)))
}

/// Whether the words name options of a `call` line alone.
fn are_call_options(words: &[&[u8]]) -> bool
    ensures { result ≡ are_named call_names words.now }
{
    are_named(
        words,
        &["key=", "idem=", "scope=", "limit=", "header=", "name="],
    )
}

/// Whether the words name options of a `send` line alone.
fn are_send_options(words: &[&[u8]]) -> bool
    ensures { result ≡ are_named (codes "at=" ∷ call_names) words.now }
{
    are_named(
        words,
        &[
            "at=", "key=", "idem=", "scope=", "limit=", "header=", "name=",
        ],
    )
}

/// The target, the call's name, and what is said of its payload:
/// `[key=T] [idem=T] [scope=T] [limit=T] [header={T T}].. [name=T] [unstable]` alone.
#[tactic(auto, using(crate::proofs::Calling::flag_blamed, crate::proofs::Calling::others_blamed, crate::proofs::Calling::options_blamed))]
fn called_with(
    alloc: Global,
    service: Text,
    handler: Text,
    words: &[&[u8]],
) -> Result<(Target, Option<Text>, PayloadOptions), Fault>
    ensures service { IfOk result (λ found. found.0.service ≡ service) }
    ensures handler { IfOk result (λ found. found.0.handler ≡ handler) }
    ensures options { IfOk result (λ found. AreCallOptions words.now found.0 found.1 found.2) }
    ensures none { IfErr result (Blames (NamesTarget words.now)) }
{
    let (others, options) = without_unstable(alloc, words)?;
    if !are_call_options(others.as_slice()) {
        return Err(Fault::Malformed);
    }
    let (target, name) = target_with(alloc, service, handler, others.as_slice())?;
    Ok((target, name, options))
}

/// The row `call`: `T T B [CALL]`.
#[tactic(auto, using(lines::proofs::Blaming::one_blamed, crate::proofs::Calling::callee_blamed, crate::proofs::Calling::named_blamed))]
pub fn call_line(alloc: Global, arguments: &[&[u8]]) -> Result<Call, Fault>
    ensures value { IfOk result (IsLine verb.Call arguments.now) }
    ensures none { IfErr result (Blames (IsLine verb.Call arguments.now)) }
{
    let (callee, rest) = callee_of(alloc, arguments)?;
    let Callee {
        service,
        handler,
        input,
    } = callee;
    let (target, name, options) = called_with(alloc, service, handler, rest)?;
    Ok(Call::Step(Step::Call {
        target: Boxed::new(alloc, target)?,
        input,
        name,
        options,
    }))
}

/// The row `call_with_deadline`: `T T B D [CALL]`.
#[tactic(auto, using(lines::proofs::Blaming::one_blamed, crate::proofs::Calling::deadline_callee_blamed, crate::proofs::Calling::until_blamed, crate::proofs::Calling::deadline_named_blamed))]
pub fn call_with_deadline_line(alloc: Global, arguments: &[&[u8]]) -> Result<Call, Fault>
    ensures value { IfOk result (IsLine verb.CallWithDeadline arguments.now) }
    ensures none { IfErr result (Blames (IsLine verb.CallWithDeadline arguments.now)) }
{
    let wake_up_time_since_unix_epoch = time_in(arguments, 3)?;
    let (callee, _) = callee_of(alloc, arguments)?;
    let Callee {
        service,
        handler,
        input,
    } = callee;
    let (target, name, options) = called_with(alloc, service, handler, behind(arguments, 4))?;
    Ok(Call::Step(Step::CallWithDeadline {
        target: Boxed::new(alloc, target)?,
        input,
        wake_up_time_since_unix_epoch,
        name,
        options,
    }))
}

/// The row `send`, which may have a time too, `[at=D]`.
#[tactic(auto, using(lines::proofs::Blaming::one_blamed, crate::proofs::Calling::send_callee_blamed, crate::proofs::Calling::send_flag_blamed, crate::proofs::Calling::send_others_blamed, crate::proofs::Calling::time_blamed, crate::proofs::Calling::send_options_blamed))]
pub fn send_line(alloc: Global, arguments: &[&[u8]]) -> Result<Call, Fault>
    ensures value { IfOk result (IsLine verb.Send arguments.now) }
    ensures none { IfErr result (Blames (IsLine verb.Send arguments.now)) }
{
    let (callee, rest) = callee_of(alloc, arguments)?;
    let (words, options) = without_unstable(alloc, rest)?;
    if !are_send_options(words.as_slice()) {
        return Err(Fault::Malformed);
    }
    let execution_time_since_unix_epoch = optional_duration(words.as_slice(), "at=")?;
    let Callee {
        service,
        handler,
        input,
    } = callee;
    let (target, name) = target_with(alloc, service, handler, words.as_slice())?;
    Ok(Call::Step(Step::Send {
        target: Boxed::new(alloc, target)?,
        input,
        execution_time_since_unix_epoch,
        name,
        options,
    }))
}
