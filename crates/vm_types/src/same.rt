//! Whose `==` says whether two values are the same.
ghost use Rattle.vm_types.specs.Same.{awakeable_exact, terminal_failure_exact, input_exact, relationship_exact, run_exact, target_exact, type_exact, answer_value_exact};

use crate::{
    AwakeableHandle, CommandRelationship, CommandType, Input, RunHandle, Target, TerminalFailure,
    Value,
};
use plain::Exact;

impl Exact for AwakeableHandle {
    ghost compares = { awakeable_exact };
}

impl Exact for CommandRelationship {
    ghost compares = { relationship_exact };
}

impl Exact for CommandType {
    ghost compares = { type_exact };
}

impl Exact for Input {
    ghost compares = { input_exact };
}

impl Exact for RunHandle {
    ghost compares = { run_exact };
}

impl Exact for Target {
    ghost compares = { target_exact };
}

impl Exact for TerminalFailure {
    ghost compares = { terminal_failure_exact };
}

impl Exact for Value {
    ghost compares = { answer_value_exact };
}
