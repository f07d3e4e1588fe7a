//! What a stored row asks for, as numbers: those of the effect that the engine has for its command, and else those of the command itself,
//! as one on a state, a promise or another invocation's result.
ghost use Rattle.std.specs.Prelude.{◌≡◌, IfOk};
ghost use Rattle.c_journals.specs.Effects.{asked_of, asked_row, asking_row, effect_row, engine_row, is_asking, kind_number, no_effect, own_row};

use bytes::Bytes;
use c_values::{FrameRow, Status, message_at, message_row};
use journal_protocol::Message;
use journal_store::{Effect, effect_of};
use std::alloc::{AllocError, Global};

/// What a row asks for.
#[derive(Clone, Copy, Debug, PartialEq, Eq)]
pub enum EffectKind {
    Nothing,
    /// An invocation is to begin.
    Begin,
    /// A completion id is to be completed at a time.
    Wait,
    /// A signal goes to another invocation.
    Send,
    /// The invocation's result.
    Result,
    /// What the command says: the engine has nothing for it.
    Command,
}

impl EffectKind {
    /// The number that C sees.
    pub fn code(self) -> u32
        ensures { result ≡ kind_number self }
    {
        match self {
            EffectKind::Nothing => 0,
            EffectKind::Begin => 1,
            EffectKind::Wait => 2,
            EffectKind::Send => 3,
            EffectKind::Result => 4,
            EffectKind::Command => 5,
        }
    }
}

/// What C is given at once of what a row asks for: how the call ended, what is asked for, and the numbers of it.
#[repr(C)]
#[derive(Clone, Copy, Debug)]
pub struct EffectRow {
    pub status: u32,
    /// The number of an `EffectKind`.
    pub kind: u32,
    /// Whether the result of a call is awaited.
    pub is_awaited: bool,
    /// The completion id that is completed by what comes of it.
    pub completes: u32,
    /// The completion id that the id of a call's invocation completes.
    pub id_completes: u32,
    /// By what a command names another invocation: 0 its id, 1 a workflow, 2 an idempotency key.
    pub target: u32,
    /// When a call begins or a sleep ends, in ms since the Unix epoch. A call with 0 begins at once.
    pub time: u64,
    /// How many headers a call has.
    pub headers: usize,
}

/// Why it isn't known what a row asks for.
pub(crate) fn no_effect(why: Status) -> EffectRow
    ensures { result ≡ no_effect why }
{
    EffectRow {
        status: why.code(),
        kind: 0,
        is_awaited: false,
        completes: 0,
        id_completes: 0,
        target: 0,
        time: 0,
        headers: 0,
    }
}

/// What asks for this.
fn asking_row(asks: EffectKind, completes: u32) -> EffectRow
    ensures { result ≡ asking_row asks completes }
{
    EffectRow {
        status: 0,
        kind: asks.code(),
        is_awaited: false,
        completes,
        id_completes: 0,
        target: 0,
        time: 0,
        headers: 0,
    }
}

/// An effect that the engine has, with the number of headers of a call.
fn engine_row(effect: &Effect, headers: usize) -> EffectRow
    ensures { result ≡ engine_row effect.now headers }
{
    match effect {
        Effect::Begin(begun) => EffectRow {
            status: 0,
            kind: EffectKind::Begin.code(),
            is_awaited: begun.result_completes.is_some(),
            completes: begun.result_completes.unwrap_or(0),
            id_completes: begun.id_completes,
            target: 0,
            time: begun.begins,
            headers,
        },
        Effect::Wait(timer) => {
            let mut row = asking_row(EffectKind::Wait, timer.completes);
            row.time = timer.due;
            row
        }
        Effect::Send(_) => asking_row(EffectKind::Send, 0),
        Effect::Result(_) => asking_row(EffectKind::Result, 0),
    }
}

/// Whether a message for which the engine has no effect asks for something: all but these do.
pub(crate) fn is_asking(message: &Message) -> bool
    ensures { result ≡ is_asking message.now }
{
    match message {
        Message::Input(_) => false,
        Message::GetEagerState(_) => false,
        Message::GetEagerStateKeys(_) => false,
        Message::CompleteAwakeable(_) => false,
        Message::Run(_) => false,
        Message::Notification(_) => false,
        _ => true,
    }
}

/// What a message with these numbers asks for itself.
fn own_row(message: &Message, numbers: FrameRow) -> EffectRow
    ensures { result ≡ own_row message.now numbers }
{
    if !is_asking(message) {
        return asking_row(EffectKind::Nothing, 0);
    }
    let mut row = asking_row(EffectKind::Command, numbers.id);
    row.target = numbers.kind;
    row
}

/// What a message with these numbers asks for, if this is the effect that the engine has for it.
fn asked_row(effect: &Option<Effect>, message: &Message, numbers: FrameRow) -> EffectRow
    ensures { result ≡ asked_row effect.now message.now numbers }
{
    match effect {
        Some(effect) => engine_row(effect, numbers.rows),
        None => own_row(message, numbers),
    }
}

/// What a message asks for, if there is one.
fn asked_of(alloc: Global, read: &Option<Message>) -> Result<EffectRow, AllocError>
    ensures { IfOk result (λ row. row ≡ asked_of read.now) }
{
    match read {
        None => Ok(no_effect(Status::NotAFrame)),
        Some(message) => match effect_of(alloc, message) {
            Ok(effect) => Ok(asked_row(&effect, message, message_row(read))),
            Err(error) => Err(error),
        },
    }
}

/// What an entry asks for.
pub(crate) fn effect_row(alloc: Global, entry: &Bytes) -> Result<EffectRow, AllocError>
    ensures { IfOk result (λ row. row ≡ effect_row entry.now) }
{
    match message_at(alloc, entry.as_slice()) {
        Ok(read) => asked_of(alloc, &read),
        Err(error) => Err(error),
    }
}
