//! What stands as fields in round brackets.
ghost use Rattle.std.specs.Prelude.{◌≡◌, IfErr, IfOk};
ghost use Rattle.lines.specs.Readings.{Blames};
ghost use Rattle.frame_values.specs.Choices.{failure_fields, idempotency_id_fields, workflow_id_fields};
ghost use Rattle.frame_values.specs.Notation.{AreFields, Fields, put_all};

use crate::fields::{print_field, values_of};
use journal_protocol::{Failure, IdempotencyId, WorkflowId};
use lines::line::Line;
use plain::{Fault, Items, Text};
use std::alloc::{AllocError, Global};

/// A type whose values are written as fields in round brackets.
pub trait Bracketed: Drop {
    /// The fields.
    ghost fields: { Fields Self };

    /// Writes the fields in their order, as `print_field` does each.
    fn print(&self, line: &mut Line, is_first: bool) -> Result<bool, AllocError>
        ensures { IfOk result (λ then. put_all (line.old, is_first) (fields.printed self.now)
            ≡ (line.new, then)) };

    /// What these words are the fields of.
    fn read(alloc: Global, words: &[&[u8]]) -> Result<Self, Fault>
        ensures value { IfOk result (AreFields fields words.now) }
        ensures none { IfErr result (λ fault. fields.IsExact
            → Blames (AreFields fields words.now) fault) };
}

impl Bracketed for Failure {
    ghost fields = { failure_fields };

    fn print(&self, line: &mut Line, is_first: bool) -> Result<bool, AllocError> {
        let is_first = print_field(line, is_first, "code", &self.code)?;
        let is_first = print_field(line, is_first, "message", &self.message)?;
        print_field(line, is_first, "metadata", &self.metadata)
    }

    fn read(alloc: Global, words: &[&[u8]]) -> Result<Failure, Fault> {
        let names = ["code=", "message=", "metadata="];
        let (code, (message, (metadata, ()))) = values_of::<
            (u32, (Text, (Items<(Text, Text)>, ()))),
        >(alloc, words, &names)?;
        Ok(Failure {
            code,
            message,
            metadata,
        })
    }
}

impl Bracketed for WorkflowId {
    ghost fields = { workflow_id_fields };

    fn print(&self, line: &mut Line, is_first: bool) -> Result<bool, AllocError> {
        let is_first = print_field(line, is_first, "name", &self.name)?;
        let is_first = print_field(line, is_first, "key", &self.key)?;
        print_field(line, is_first, "scope", &self.scope)
    }

    fn read(alloc: Global, words: &[&[u8]]) -> Result<WorkflowId, Fault> {
        let names = ["name=", "key=", "scope="];
        let (name, (key, (scope, ()))) = values_of::<(Text, (Text, (Option<Text>, ())))>(
            alloc, words, &names,
        )?;
        Ok(WorkflowId { name, key, scope })
    }
}

impl Bracketed for IdempotencyId {
    ghost fields = { idempotency_id_fields };

    fn print(&self, line: &mut Line, is_first: bool) -> Result<bool, AllocError> {
        let is_first = print_field(line, is_first, "service_name", &self.service_name)?;
        let is_first = print_field(line, is_first, "service_key", &self.service_key)?;
        let is_first = print_field(line, is_first, "handler_name", &self.handler_name)?;
        let is_first = print_field(line, is_first, "idempotency_key", &self.idempotency_key)?;
        print_field(line, is_first, "scope", &self.scope)
    }

    fn read(alloc: Global, words: &[&[u8]]) -> Result<IdempotencyId, Fault> {
        let names = [
            "service_name=",
            "service_key=",
            "handler_name=",
            "idempotency_key=",
            "scope=",
        ];
        let (service_name, (service_key, (handler_name, (idempotency_key, (scope, ()))))) =
            values_of::<(Text, (Option<Text>, (Text, (Text, (Option<Text>, ())))))>(
                alloc, words, &names,
            )?;
        Ok(IdempotencyId {
            service_name,
            service_key,
            handler_name,
            idempotency_key,
            scope,
        })
    }
}
