//! The messages that begin and end an attempt, and what it tells of itself.
ghost use Rattle.frame_lines.specs.Forms.{awaiting_on_fields, error_fields, propose_run_completion_fields, propose_run_completion_ack_fields, start_fields, suspension_fields};

use crate::forms::Form;
use bytes::Bytes;
use frame_values::fields::{print_field, values_of};
use journal_protocol::{
    AwaitingOn, ErrorBehavior, ErrorMessage, Future, ProposeRunCompletion, ProposeRunCompletionAck,
    Start, Suspension, ValueOrFailure,
};
use lines::line::Line;
use plain::{Fault, Items, Text};
use std::alloc::{AllocError, Global};

impl Form for Start {
    ghost fields = { start_fields };

    fn print(&self, line: &mut Line, is_first: bool) -> Result<bool, AllocError> {
        let is_first = print_field(line, is_first, "id", &self.id)?;
        let is_first = print_field(line, is_first, "debug_id", &self.debug_id)?;
        let is_first = print_field(line, is_first, "key", &self.key)?;
        let is_first = print_field(line, is_first, "known_entries", &self.known_entries)?;
        let is_first = print_field(line, is_first, "state", &self.state)?;
        let is_first = print_field(line, is_first, "partial", &self.partial)?;
        let is_first = print_field(line, is_first, "retry_count", &self.retry_count)?;
        let is_first = print_field(line, is_first, "duration", &self.duration)?;
        let is_first = print_field(line, is_first, "random_seed", &self.random_seed)?;
        let is_first = print_field(line, is_first, "scope", &self.scope)?;
        let is_first = print_field(line, is_first, "limit_key", &self.limit_key)?;
        print_field(line, is_first, "idempotency_key", &self.idempotency_key)
    }

    fn read(alloc: Global, words: &[&[u8]]) -> Result<Start, Fault> {
        let names = [
            "id=",
            "debug_id=",
            "key=",
            "known_entries=",
            "state=",
            "partial=",
            "retry_count=",
            "duration=",
            "random_seed=",
            "scope=",
            "limit_key=",
            "idempotency_key=",
        ];
        let (
            id,
            (
                debug_id,
                (
                    key,
                    (
                        known_entries,
                        (
                            state,
                            (
                                partial,
                                (
                                    retry_count,
                                    (
                                        duration,
                                        (random_seed, (scope, (limit_key, (idempotency_key, ())))),
                                    ),
                                ),
                            ),
                        ),
                    ),
                ),
            ),
        ) = values_of::<
            (
                Bytes,
                (
                    Text,
                    (
                        Text,
                        (
                            u32,
                            (
                                Items<(Bytes, Bytes)>,
                                (
                                    bool,
                                    (
                                        u32,
                                        (
                                            u64,
                                            (
                                                u64,
                                                (Option<Text>, (Option<Text>, (Option<Text>, ()))),
                                            ),
                                        ),
                                    ),
                                ),
                            ),
                        ),
                    ),
                ),
            ),
        >(alloc, words, &names)?;
        Ok(Start {
            id,
            debug_id,
            key,
            known_entries,
            state,
            partial,
            retry_count,
            duration,
            random_seed,
            scope,
            limit_key,
            idempotency_key,
        })
    }
}

impl Form for Suspension {
    ghost fields = { suspension_fields };

    fn print(&self, line: &mut Line, is_first: bool) -> Result<bool, AllocError> {
        print_field(line, is_first, "future", &self.future)
    }

    fn read(alloc: Global, words: &[&[u8]]) -> Result<Suspension, Fault> {
        let names = ["future="];
        let (future, ()) = values_of::<(Future, ())>(alloc, words, &names)?;
        Ok(Suspension { future })
    }
}

impl Form for AwaitingOn {
    ghost fields = { awaiting_on_fields };

    fn print(&self, line: &mut Line, is_first: bool) -> Result<bool, AllocError> {
        let is_first = print_field(line, is_first, "future", &self.future)?;
        print_field(
            line,
            is_first,
            "executing_side_effects",
            &self.executing_side_effects,
        )
    }

    fn read(alloc: Global, words: &[&[u8]]) -> Result<AwaitingOn, Fault> {
        let names = ["future=", "executing_side_effects="];
        let (future, (executing_side_effects, ())) = values_of::<(Future, (bool, ()))>(
            alloc, words, &names,
        )?;
        Ok(AwaitingOn {
            future,
            executing_side_effects,
        })
    }
}

impl Form for ErrorMessage {
    ghost fields = { error_fields };

    fn print(&self, line: &mut Line, is_first: bool) -> Result<bool, AllocError> {
        let is_first = print_field(line, is_first, "code", &self.code)?;
        let is_first = print_field(line, is_first, "message", &self.message)?;
        let is_first = print_field(line, is_first, "stacktrace", &self.stacktrace)?;
        let is_first = print_field(line, is_first, "behaviour", &self.behavior)?;
        let is_first = print_field(line, is_first, "index", &self.index)?;
        let is_first = print_field(line, is_first, "type", &self.ty)?;
        let is_first = print_field(line, is_first, "name", &self.name)?;
        print_field(line, is_first, "delay", &self.delay)
    }

    fn read(alloc: Global, words: &[&[u8]]) -> Result<ErrorMessage, Fault> {
        let names = [
            "code=",
            "message=",
            "stacktrace=",
            "behaviour=",
            "index=",
            "type=",
            "name=",
            "delay=",
        ];
        let (code, (message, (stacktrace, (behavior, (index, (ty, (name, (delay, ())))))))) =
            values_of::<
                (
                    u32,
                    (
                        Text,
                        (
                            Text,
                            (
                                ErrorBehavior,
                                (
                                    Option<u32>,
                                    (Option<u32>, (Option<Text>, (Option<u64>, ()))),
                                ),
                            ),
                        ),
                    ),
                ),
            >(alloc, words, &names)?;
        Ok(ErrorMessage {
            code,
            message,
            stacktrace,
            behavior,
            index,
            ty,
            name,
            delay,
        })
    }
}

impl Form for ProposeRunCompletion {
    ghost fields = { propose_run_completion_fields };

    fn print(&self, line: &mut Line, is_first: bool) -> Result<bool, AllocError> {
        let is_first = print_field(line, is_first, "id", &self.id)?;
        print_field(line, is_first, "result", &self.result)
    }

    fn read(alloc: Global, words: &[&[u8]]) -> Result<ProposeRunCompletion, Fault> {
        let names = ["id=", "result="];
        let (id, (result, ())) = values_of::<(u32, (ValueOrFailure, ()))>(alloc, words, &names)?;
        Ok(ProposeRunCompletion { id, result })
    }
}

impl Form for ProposeRunCompletionAck {
    ghost fields = { propose_run_completion_ack_fields };

    fn print(&self, line: &mut Line, is_first: bool) -> Result<bool, AllocError> {
        print_field(line, is_first, "id", &self.id)
    }

    fn read(alloc: Global, words: &[&[u8]]) -> Result<ProposeRunCompletionAck, Fault> {
        let names = ["id="];
        let (id, ()) = values_of::<(u32, ())>(alloc, words, &names)?;
        Ok(ProposeRunCompletionAck { id })
    }
}
