//! Choices as they are written on a line: the case, and in round brackets what it holds.
ghost use Rattle.std.specs.Prelude.{◌≡◌, ◌++◌, IfErr, IfNone, IfOk, IfSome, List, ℕ, OnOk, true};
ghost use Rattle.lines.specs.Pieces.{IsWithin};
ghost use Rattle.lines.specs.Readings.{Blames};
ghost use Rattle.frame_values.specs.Choices.{behavior_notation, kind_notation, notification_id_notation, notification_result_notation, signal_notation, signal_result_notation, target_notation, value_or_failure_notation, void_or_value_notation};
ghost use Rattle.frame_values.specs.Notation.{AreInside, IsBehind, SaysInside, closed, holding, put_all};

use crate::bracketed::Bracketed;
use crate::value::Value;
use bytes::Bytes;
use journal_protocol::{
    ErrorBehavior, FutureKind, InvocationTarget, NotificationId, NotificationResult, Signal,
    SignalResult, ValueOrFailure, VoidOrValue,
};
use lines::fields::text_behind;
use lines::line::Line;
use lines::pieces::words;
use plain::Fault;
use std::alloc::{AllocError, Global};

/// Writes a case with a value in its brackets.
fn print_holding<T: Value>(word: &str, value: &T, line: &mut Line) -> Result<(), AllocError>
    ensures { OnOk result (line.new ≡ line.old ++ holding word.now T.notation value.now) }
{
    line.word(word)?;
    line.word("(")?;
    value.print(line)?;
    line.word(")")
}

/// Writes a case with fields in its brackets. The word has the bracket at its end.
fn print_bracketed<T: Bracketed>(word: &str, form: &T, line: &mut Line) -> Result<(), AllocError>
    ensures { OnOk result (line.new ≡ line.old
        ++ closed (put_all (word.now, true) (T.fields.printed form.now))) }
{
    line.word(word)?;
    form.print(line, true)?;
    line.word(")")?;
    Ok(())
}

/// What stands in the round brackets that the text begins and ends with.
fn in_brackets(text: &[u8]) -> Option<&[u8]>
    ensures inside { IfSome result (λ inside. IsWithin 40 41 text.now inside.now) }
    ensures none { IfNone result ((inside : List ℕ) → IsWithin 40 41 text.now inside → ⊥) }
{
    match text {
        [first, inside @ .., last] if *first == b'(' && *last == b')' => Some(inside),
        _ => None,
    }
}

/// The content of the round brackets after this word, if the text is the word and the brackets.
#[tactic(auto, using(crate::proofs::Bracketing::within_behind, crate::proofs::Bracketing::not_behind, crate::proofs::Bracketing::not_within))]
fn held<'a>(text: &'a [u8], word: &str) -> Option<&'a [u8]>
    ensures inside { IfSome result (λ inside. IsBehind word.now text.now inside.now) }
    ensures none { IfNone result ((inside : List ℕ) → IsBehind word.now text.now inside → ⊥) }
{
    let Some(behind) = text_behind(text, word) else {
        return None;
    };
    in_brackets(behind)
}

/// The value in brackets.
#[tactic(auto, using(crate::proofs::Refusing::inside_blamed))]
pub fn value_in<T: Value>(alloc: Global, inside: &[u8]) -> Result<T, Fault>
    ensures value { IfOk result (SaysInside T.notation.Says inside.now) }
    ensures none { IfErr result (λ fault. T.notation.IsExact
        → Blames (SaysInside T.notation.Says inside.now) fault) }
{
    T::parse(alloc, inside.trim_ascii())
}

/// What the fields in brackets are.
#[tactic(auto, using(crate::proofs::Bracketing::words_blamed, crate::proofs::Bracketing::unclosed_words_blamed))]
fn form_in<T: Bracketed>(alloc: Global, inside: &[u8]) -> Result<T, Fault>
    ensures value { IfOk result (AreInside T.fields inside.now) }
    ensures none { IfErr result (λ fault. T.fields.IsExact
        → Blames (AreInside T.fields inside.now) fault) }
{
    let words = words(alloc, inside)?;
    T::read(alloc, words.as_slice())
}

impl Value for ErrorBehavior {
    ghost notation = { behavior_notation };

    fn is_left_out(&self) -> bool {
        false
    }

    fn print(&self, line: &mut Line) -> Result<(), AllocError> {
        line.word(match self {
            ErrorBehavior::Retry => "Retry",
            ErrorBehavior::Pause => "Pause",
            ErrorBehavior::Fail => "Fail",
        })
    }

    fn parse(_alloc: Global, text: &[u8]) -> Result<ErrorBehavior, Fault> {
        if text == b"Retry".as_slice() {
            return Ok(ErrorBehavior::Retry);
        }
        if text == b"Pause".as_slice() {
            return Ok(ErrorBehavior::Pause);
        }
        if text == b"Fail".as_slice() {
            return Ok(ErrorBehavior::Fail);
        }
        Err(Fault::Malformed)
    }

    fn missing(_alloc: Global) -> Option<ErrorBehavior> {
        None
    }
}

impl Value for FutureKind {
    ghost notation = { kind_notation };

    fn is_left_out(&self) -> bool {
        false
    }

    fn print(&self, line: &mut Line) -> Result<(), AllocError> {
        line.word(match self {
            FutureKind::FirstCompleted => "FirstCompleted",
            FutureKind::AllCompleted => "AllCompleted",
            FutureKind::FirstSucceededOrAllFailed => "FirstSucceededOrAllFailed",
            FutureKind::AllSucceededOrFirstFailed => "AllSucceededOrFirstFailed",
            FutureKind::Unknown => "Unknown",
        })
    }

    fn parse(_alloc: Global, text: &[u8]) -> Result<FutureKind, Fault> {
        if text == b"FirstCompleted".as_slice() {
            return Ok(FutureKind::FirstCompleted);
        }
        if text == b"AllCompleted".as_slice() {
            return Ok(FutureKind::AllCompleted);
        }
        if text == b"FirstSucceededOrAllFailed".as_slice() {
            return Ok(FutureKind::FirstSucceededOrAllFailed);
        }
        if text == b"AllSucceededOrFirstFailed".as_slice() {
            return Ok(FutureKind::AllSucceededOrFirstFailed);
        }
        if text == b"Unknown".as_slice() {
            return Ok(FutureKind::Unknown);
        }
        Err(Fault::Malformed)
    }

    fn missing(_alloc: Global) -> Option<FutureKind> {
        None
    }
}

impl Value for VoidOrValue {
    ghost notation = { void_or_value_notation };

    fn is_left_out(&self) -> bool {
        false
    }

    fn print(&self, line: &mut Line) -> Result<(), AllocError> {
        match self {
            VoidOrValue::Void => line.word("void"),
            VoidOrValue::Value(it) => print_holding("value", it, line),
        }
    }

    fn parse(alloc: Global, text: &[u8]) -> Result<VoidOrValue, Fault> {
        if text == b"void".as_slice() {
            return Ok(VoidOrValue::Void);
        }
        if let Some(inside) = held(text, "value") {
            return Ok(VoidOrValue::Value(value_in(alloc, inside)?));
        }
        Err(Fault::Malformed)
    }

    fn missing(_alloc: Global) -> Option<VoidOrValue> {
        None
    }
}

impl Value for ValueOrFailure {
    ghost notation = { value_or_failure_notation };

    fn is_left_out(&self) -> bool {
        false
    }

    fn print(&self, line: &mut Line) -> Result<(), AllocError> {
        match self {
            ValueOrFailure::Value(it) => print_holding("value", it, line),
            ValueOrFailure::Failure(it) => print_bracketed("failure(", it, line),
        }
    }

    fn parse(alloc: Global, text: &[u8]) -> Result<ValueOrFailure, Fault> {
        if let Some(inside) = held(text, "value") {
            return Ok(ValueOrFailure::Value(value_in(alloc, inside)?));
        }
        if let Some(inside) = held(text, "failure") {
            return Ok(ValueOrFailure::Failure(form_in(alloc, inside)?));
        }
        Err(Fault::Malformed)
    }

    fn missing(_alloc: Global) -> Option<ValueOrFailure> {
        None
    }
}

impl Value for SignalResult {
    ghost notation = { signal_result_notation };

    fn is_left_out(&self) -> bool {
        false
    }

    fn print(&self, line: &mut Line) -> Result<(), AllocError> {
        match self {
            SignalResult::Void => line.word("void"),
            SignalResult::Value(it) => print_holding("value", it, line),
            SignalResult::Failure(it) => print_bracketed("failure(", it, line),
        }
    }

    fn parse(alloc: Global, text: &[u8]) -> Result<SignalResult, Fault> {
        if text == b"void".as_slice() {
            return Ok(SignalResult::Void);
        }
        if let Some(inside) = held(text, "value") {
            return Ok(SignalResult::Value(value_in(alloc, inside)?));
        }
        if let Some(inside) = held(text, "failure") {
            return Ok(SignalResult::Failure(form_in(alloc, inside)?));
        }
        Err(Fault::Malformed)
    }

    fn missing(_alloc: Global) -> Option<SignalResult> {
        None
    }
}

impl Value for NotificationResult {
    ghost notation = { notification_result_notation };

    fn is_left_out(&self) -> bool {
        false
    }

    fn print(&self, line: &mut Line) -> Result<(), AllocError> {
        match self {
            NotificationResult::Void => line.word("void"),
            NotificationResult::Value(it) => print_holding("value", it, line),
            NotificationResult::Failure(it) => print_bracketed("failure(", it, line),
            NotificationResult::StateKeys(it) => print_holding("state_keys", it, line),
            NotificationResult::InvocationId(it) => print_holding("invocation_id", it, line),
        }
    }

    fn parse(alloc: Global, text: &[u8]) -> Result<NotificationResult, Fault> {
        if text == b"void".as_slice() {
            return Ok(NotificationResult::Void);
        }
        if let Some(inside) = held(text, "value") {
            return Ok(NotificationResult::Value(value_in(alloc, inside)?));
        }
        if let Some(inside) = held(text, "failure") {
            return Ok(NotificationResult::Failure(form_in(alloc, inside)?));
        }
        if let Some(inside) = held(text, "state_keys") {
            return Ok(NotificationResult::StateKeys(value_in(alloc, inside)?));
        }
        if let Some(inside) = held(text, "invocation_id") {
            return Ok(NotificationResult::InvocationId(value_in(alloc, inside)?));
        }
        Err(Fault::Malformed)
    }

    fn missing(_alloc: Global) -> Option<NotificationResult> {
        None
    }
}

impl Value for NotificationId {
    ghost notation = { notification_id_notation };

    fn is_left_out(&self) -> bool {
        false
    }

    fn print(&self, line: &mut Line) -> Result<(), AllocError> {
        match self {
            NotificationId::CompletionId(it) => print_holding("completion", it, line),
            NotificationId::SignalId(it) => print_holding("signal", it, line),
            NotificationId::SignalName(it) => print_holding("name", it, line),
        }
    }

    fn parse(alloc: Global, text: &[u8]) -> Result<NotificationId, Fault> {
        if let Some(inside) = held(text, "completion") {
            return Ok(NotificationId::CompletionId(value_in(alloc, inside)?));
        }
        if let Some(inside) = held(text, "signal") {
            return Ok(NotificationId::SignalId(value_in(alloc, inside)?));
        }
        if let Some(inside) = held(text, "name") {
            return Ok(NotificationId::SignalName(value_in(alloc, inside)?));
        }
        Err(Fault::Malformed)
    }

    fn missing(_alloc: Global) -> Option<NotificationId> {
        None
    }
}

impl Value for Signal {
    ghost notation = { signal_notation };

    fn is_left_out(&self) -> bool {
        false
    }

    fn print(&self, line: &mut Line) -> Result<(), AllocError> {
        match self {
            Signal::Index(it) => print_holding("index", it, line),
            Signal::Name(it) => print_holding("name", it, line),
        }
    }

    fn parse(alloc: Global, text: &[u8]) -> Result<Signal, Fault> {
        if let Some(inside) = held(text, "index") {
            return Ok(Signal::Index(value_in(alloc, inside)?));
        }
        if let Some(inside) = held(text, "name") {
            return Ok(Signal::Name(value_in(alloc, inside)?));
        }
        Err(Fault::Malformed)
    }

    fn missing(_alloc: Global) -> Option<Signal> {
        None
    }
}

impl Value for InvocationTarget {
    ghost notation = { target_notation };

    fn is_left_out(&self) -> bool {
        false
    }

    fn print(&self, line: &mut Line) -> Result<(), AllocError> {
        match self {
            InvocationTarget::InvocationId(it) => print_holding("InvocationId", it, line),
            InvocationTarget::WorkflowId(it) => print_bracketed("WorkflowId(", it, line),
            InvocationTarget::IdempotencyId(it) => print_bracketed("IdempotencyId(", it, line),
        }
    }

    fn parse(alloc: Global, text: &[u8]) -> Result<InvocationTarget, Fault> {
        if let Some(inside) = held(text, "InvocationId") {
            return Ok(InvocationTarget::InvocationId(value_in(alloc, inside)?));
        }
        if let Some(inside) = held(text, "WorkflowId") {
            return Ok(InvocationTarget::WorkflowId(form_in(alloc, inside)?));
        }
        if let Some(inside) = held(text, "IdempotencyId") {
            return Ok(InvocationTarget::IdempotencyId(form_in(alloc, inside)?));
        }
        Err(Fault::Malformed)
    }

    fn missing(_alloc: Global) -> Option<InvocationTarget> {
        None
    }
}
