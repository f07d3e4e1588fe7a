//! A number that is all that a line has after its name.
ghost use Rattle.std.specs.Prelude.{IfErr, IfOk};
ghost use Rattle.lines.specs.Readings.{Blames};
ghost use Rattle.line_parts.specs.Handles.{IsEphemeralId, IsHandle};

use await_trees::NotificationHandle;
use line_parts::handles::{ephemeral_id_of, handle_of};
use plain::Fault;
use vm_types::EphemeralCompletionId;

/// `H` alone.
pub fn handle_alone(arguments: &[&[u8]]) -> Result<NotificationHandle, Fault>
    ensures value { IfOk result (IsHandle arguments.now) }
    ensures none { IfErr result (Blames (IsHandle arguments.now)) }
{
    match arguments {
        [handle] => handle_of(*handle),
        _ => Err(Fault::Malformed),
    }
}

/// `I` alone.
pub fn ephemeral_id_alone(arguments: &[&[u8]]) -> Result<EphemeralCompletionId, Fault>
    ensures value { IfOk result (IsEphemeralId arguments.now) }
    ensures none { IfErr result (Blames (IsEphemeralId arguments.now)) }
{
    match arguments {
        [id] => ephemeral_id_of(*id),
        _ => Err(Fault::Malformed),
    }
}
