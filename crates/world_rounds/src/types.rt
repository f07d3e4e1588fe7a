//! What a world and its rounds are made of, and what rounds tell.
ghost use Rattle.std.specs.Prelude.{◌≡◌};
ghost use Rattle.world_rounds.specs.Worlds.{start_of};

use await_trees::NotificationHandle;
use bytes::Bytes;
use journal_protocol::{Error, Start, Version};
use plain::{Items, Text};
use vm_retries::RetryPolicy;
use vm_types::{Answer, RunExitResult, VMOptions};

/// What stays the same over all attempts of an invocation.
#[derive(Debug, Clone)]
pub struct Identity {
    pub id: Bytes,
    pub debug_id: Text,
    pub key: Text,
    pub random_seed: u64,
    pub scope: Option<Text>,
    pub limit_key: Option<Text>,
    pub idempotency_key: Option<Text>,
}

impl Identity {
    /// The Start of an attempt.
    pub(crate) fn into_start(
        self,
        state: Items<(Bytes, Bytes)>,
        round: &Round,
        known_entries: u32,
    ) -> Start
        ensures { result ≡ start_of self state round.now known_entries }
    {
        let Self {
            id,
            debug_id,
            key,
            random_seed,
            scope,
            limit_key,
            idempotency_key,
        } = self;
        Start {
            id,
            debug_id,
            key,
            known_entries,
            state,
            partial: round.partial,
            retry_count: round.retry_count,
            duration: round.duration,
            random_seed,
            scope,
            limit_key,
            idempotency_key,
        }
    }
}

/// Written out, so that dropping an identity calls this: a derived drop is taken apart at each way out of a function.
impl Drop for Identity {
    fn drop(self) {
        let Self {
            id,
            debug_id,
            key,
            random_seed: _,
            scope,
            limit_key,
            idempotency_key,
        } = self;
        drop(id);
        drop(debug_id);
        drop(key);
        drop(scope);
        drop(limit_key);
        drop(idempotency_key);
    }
}

/// What all attempts of a world are made with.
pub struct Setting {
    pub identity: Identity,
    pub options: VMOptions,
    pub version: Version,
    /// The state before any command, as keys with their values; of several pairs of one key the last counts.
    pub base: Items<(Text, Bytes)>,
}

/// Written out, as the drop of an identity is.
impl Drop for Setting {
    fn drop(self) {
        let Self {
            identity,
            options: _,
            version: _,
            base,
        } = self;
        drop(identity);
        drop(base);
    }
}

/// What happens in a round.
#[derive(Debug, Drop)]
pub enum Event {
    /// This number of bytes that wait is fed, or all if there are fewer; none once the input was closed.
    Piece(usize),
    /// The input is closed.
    Close,
    /// The attempt makes a step.
    Step,
    /// The attempt makes this many steps, one after another. Those that would change nothing aren't made.
    Steps(u64),
    /// The attempt gets the result of executing the run of this handle.
    RunResult(NotificationHandle, RunExitResult, RetryPolicy),
    /// A notification, as one frame, is stored and waits.
    Arrive(Bytes),
    /// This number of written commands and proposals is stored, or all if there are fewer. A proposal is stored as its run's
    /// completion, and its acknowledgement waits; before version 7 that completion waits.
    Store(usize),
}

/// One attempt, and what happens to it.
#[derive(Debug, Drop)]
pub struct Round {
    /// Only the values of `keys` are handed out.
    pub partial: bool,
    pub keys: Items<Text>,
    pub retry_count: u32,
    /// In ms, since the invocation's first attempt.
    pub duration: u64,
    pub events: Items<Event>,
}

/// What a round tells.
#[derive(Debug)]
pub struct Report {
    pub answers: Vec<Answer>,
    /// All that the attempt has sent.
    pub output: Bytes,
    /// The first error that an event answered, or that of an attempt that was not made.
    pub error: Option<Error>,
    /// The journal's length after the round.
    pub entries: u32,
}

/// Written out, as for a setting.
impl Drop for Report {
    fn drop(self) {
        let Self {
            answers,
            output,
            error,
            entries: _,
        } = self;
        drop(answers);
        drop(output);
        drop(error);
    }
}
