// The forms that hints show, held against the readers of lines: of each form a line with all its fields. The readers read it, and its
// hint is the form.
use frame_lines::entry::frame_of;
use frame_lines::type_names::{name_of, type_named};
use journal_protocol::MessageType;
use lines::forms::{FRAMES, ROUNDS};
use lines::hint::{Hint, form_word, frame_hint, round_hint};
use lines::pieces::words;
use plain::Fault;
use std::alloc::Global;
use std::test::Fail;
use world_scripts::parse::line_of;

/// A line of each form of `FRAMES`, in their order.
const FRAME_LINES: &str = r#"rest 0x00
raw 18 0x00
Start id="i" debug_id="d" key="k" known_entries=1 state=[("k" "v")] partial=true retry_count=1 duration=1 random_seed=1 scope="s" limit_key="l" idempotency_key="i"
Suspension future=(kind=FirstCompleted completions=[1])
Error code=500 message="m" stacktrace="s" behaviour=Pause index=1 type=18 name="n" delay=1
End
ProposeRunCompletion id=1 result=value("v")
ProposeRunCompletionAck id=1
AwaitingOn future=(kind=FirstCompleted completions=[1]) executing_side_effects=true
GetStateEphemeralCommand id=1 key="k"
GetStateEphemeralNotification id=1 result=value("v")
Input headers=[("k" "v")] value="v"
GetEagerState name="n" key="k" result=value("v")
GetLazyState name="n" key="k" result_completion_id=1
GetEagerStateKeys value=["k"] name="n"
GetLazyStateKeys result_completion_id=1 name="n"
SetState name="n" key="k" value="v"
ClearState name="n" key="k"
ClearAllState name="n"
Sleep wake_up_time=1 result_completion_id=1 name="n"
Call service_name="s" handler_name="h" key="k" idempotency_key="i" scope="s" limit_key="l" headers=[("k" "v")] parameter="p" invocation_id_notification_idx=1 name="n" result_completion_id=2
OneWayCall service_name="s" handler_name="h" key="k" idempotency_key="i" scope="s" limit_key="l" headers=[("k" "v")] parameter="p" invocation_id_notification_idx=1 name="n" invoke_time=1
CompleteAwakeable awakeable_id="a" result=value("v")
SendSignal target_invocation_id="t" signal=index(1) result=void
GetPromise key="k" result_completion_id=1
PeekPromise key="k" result_completion_id=1
CompletePromise key="k" completion=value("v") result_completion_id=1
Run name="n" result_completion_id=1
AttachInvocation target=InvocationId("t") result_completion_id=1
GetInvocationOutput target=InvocationId("t") result_completion_id=1
Output result=value("v")
Notification id=completion(1) result=void"#;

/// A line of each form of `ROUNDS`, in their order.
const ROUND_LINES: &str =
    r#"world id="i" debug_id="d" key="k" seed=1 scope="s" limit="l" idem="i" input="x" state={"k" "v"} cancel=calls checks=on awaiting=always mismatch=follow replay=on delivery=queued
entry 0x00
round partial key="k" retry=1 duration=1
piece 1
close
step 2
arrive 0x00
run_result 17 retryable 500 503 "m" stack="s" behaviour=pause delay=1 policy=fixed(interval=1000 attempts=2)
store all"#;

fn expect(line: &str, holds: bool) -> Result<(), Fail> {
    if holds {
        Ok(())
    } else {
        Err(Fail::new(format_args!("it doesn't hold: {line}")))
    }
}

/// How many words of a line have a name.
fn count_names(alloc: Global, line: &str) -> Result<usize, Fault> {
    let words = words(alloc, line.as_bytes())?;
    Ok(words.iter().filter(|word| word.contains(&b'=')).count())
}

/// Whether the hint is this form, and the line has as many fields.
fn has_fields_of(
    alloc: Global,
    line: &str,
    form: &str,
    hint: Option<Hint<'_>>,
) -> Result<bool, Fault> {
    let is_form = matches!(hint, Some(Hint::Form(found)) if found == form);
    Ok(is_form && count_names(alloc, line)? == count_names(alloc, form)?)
}

#[test]
fn frames_have_the_fields_of_their_forms(rt: HostRuntime) -> Result<(), Fail> {
    let alloc = rt.alloc();
    let mut lines = FRAME_LINES.lines();
    for form in &FRAMES {
        let line = lines.next().ok_or("a form without a line")?;
        let hint = frame_hint(alloc, line.as_bytes())?;
        expect(line, has_fields_of(alloc, line, *form, hint)?)?;
        expect(line, frame_of(alloc, line.as_bytes()).is_ok())?;
    }
    expect("no more lines", lines.next().is_none())
}

#[test]
fn lines_of_rounds_have_the_fields_of_their_forms(rt: HostRuntime) -> Result<(), Fail> {
    let alloc = rt.alloc();
    let mut lines = ROUND_LINES.lines();
    for form in &ROUNDS {
        let line = lines.next().ok_or("a form without a line")?;
        let hint = round_hint(alloc, line.as_bytes())?;
        expect(line, has_fields_of(alloc, line, *form, hint)?)?;
        expect(line, line_of(alloc, line.as_bytes()).is_ok())?;
    }
    expect("no more lines", lines.next().is_none())
}

/// Whether a form begins with this word.
fn has_form(word: &str) -> bool {
    FRAMES.iter().any(|form| form_word(*form) == word)
}

#[test]
fn each_type_has_a_form(_rt: HostRuntime) -> Result<(), Fail> {
    for number in 0..=30 {
        if let Some(ty) = MessageType::from_number(number) {
            expect(name_of(ty), has_form(name_of(ty)))?;
        }
    }
    for form in &FRAMES[2..] {
        expect(*form, type_named(form_word(*form).as_bytes()).is_some())?;
    }
    Ok(())
}
