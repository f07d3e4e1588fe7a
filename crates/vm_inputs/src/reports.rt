//! Errors that the handler's runner reports.
ghost use Rattle.std.specs.Prelude.{◌≡◌, [], unwrap_or, IfOk};
ghost use Rattle.vm_machine.specs.Outcomes.{Gives};
ghost use Rattle.vm_machine.specs.Reports.{related_by, related_to, is_retry, report_step};

use journal_protocol::{Error, ErrorBehavior, NamedFault, RelatedCommand, Version};
use plain::Text;
use std::alloc::{AllocError, Global};
use vm_machine::{Fault, Machine, refuse};
use vm_types::CommandRelationship;

/// An absent name is empty.
fn name_text(alloc: Global, name: Option<Text>) -> Text
    ensures { result ≡ unwrap_or name [] }
{
    match name {
        Some(name) => name,
        None => Text::empty(alloc),
    }
}

fn is_retry(behavior: ErrorBehavior) -> bool
    ensures { result ≡ is_retry behavior }
{
    matches!(behavior, ErrorBehavior::Retry)
}

/// The command that an error relates to.
fn related_by(
    machine: &Machine,
    relationship: CommandRelationship,
) -> Result<RelatedCommand, AllocError>
    ensures { IfOk result (λ related. related ≡ related_by relationship machine.now) }
{
    match relationship {
        CommandRelationship::Last => machine.last_related(),
        CommandRelationship::Next { ty, name } => Ok(RelatedCommand {
            index: machine.counters.next_index(),
            ty: ty.message_type(),
            name: name_text(machine.alloc, name),
        }),
        CommandRelationship::Specific {
            command_index,
            ty,
            name,
        } => Ok(RelatedCommand {
            index: command_index,
            ty: ty.message_type(),
            name: name_text(machine.alloc, name),
        }),
    }
}

fn relate(
    machine: &Machine,
    mut error: Error,
    relationship: Option<CommandRelationship>,
) -> Result<Error, AllocError>
    ensures { IfOk result (λ e. e ≡ related_to relationship error machine.now) }
{
    if let Some(relationship) = relationship {
        error.related_command = Some(related_by(machine, relationship)?);
    }
    Ok(error)
}

/// The handler's runner reports an error.
pub fn report(
    machine: &mut Machine,
    error: Error,
    relationship: Option<CommandRelationship>,
) -> Result<(), Fault>
    ensures { Gives (report_step error relationship machine.old) result machine.old machine.new }
{
    if !is_retry(error.behavior) && machine.version < Version::V7 {
        return Err(refuse(NamedFault::UnsupportedFeatureForNegotiatedVersion));
    }
    Err(Fault::Refused(relate(machine, error, relationship)?))
}
