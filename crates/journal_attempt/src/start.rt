//! The first message of an attempt, and its bytes.
ghost use Rattle.std.specs.Prelude.{◌≡◌};

use bytes::Bytes;
use std::alloc::{AllocError, Global};
use wire::{Fault, Items, Text, Wire};

#[derive(Drop, PartialEq, Eq)]
pub struct Start {
    pub id: Bytes,
    pub debug_id: Text,
    pub key: Text,
    pub known_entries: u32,
    pub state: Items<(Bytes, Bytes)>,
    pub partial: bool,
    pub retry_count: u32,
    pub duration: u64,
    pub random_seed: u64,
    pub scope: Option<Text>,
    pub limit_key: Option<Text>,
    pub idempotency_key: Option<Text>,
}

type Parts = (
    Bytes,
    (
        Text,
        (Text, (u32, (Items<(Bytes, Bytes)>, (bool, (u32, Rest))))),
    ),
);

type Rest = (u64, (u64, (Option<Text>, (Option<Text>, Option<Text>))));

#[tactic(auto, unfolding(crate::specs::Encoding::start_body))]
impl Wire for Start {
    ghost use Rattle.journal_attempt.specs.Bodies.{start_format};

    ghost format = { start_format };

    fn put(&self, out: &mut Vec<u8>) -> Result<(), AllocError> {
        self.id.put(out)?;
        self.debug_id.put(out)?;
        self.key.put(out)?;
        self.known_entries.put(out)?;
        self.state.put(out)?;
        self.partial.put(out)?;
        self.retry_count.put(out)?;
        self.duration.put(out)?;
        self.random_seed.put(out)?;
        self.scope.put(out)?;
        self.limit_key.put(out)?;
        self.idempotency_key.put(out)
    }

    fn get(alloc: Global, input: &mut Bytes) -> Result<Start, Fault> {
        let (id, (debug_id, (key, (known_entries, (state, (partial, (retry_count, rest))))))) =
            Parts::get(alloc, input)?;
        let (duration, (random_seed, (scope, (limit_key, idempotency_key)))) = rest;
        Ok(Start {
            id,
            debug_id,
            key,
            known_entries,
            state,
            partial,
            retry_count,
            duration,
            random_seed,
            scope,
            limit_key,
            idempotency_key,
        })
    }
}
