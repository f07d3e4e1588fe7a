//! The handles and the ids of ephemeral reads of a script, by their numbers.
ghost use Rattle.std.specs.Prelude.{IfOk, IfErr};
ghost use Rattle.await_trees.specs.declared.handle.NotificationHandle.{NotificationHandle};
ghost use Rattle.vm_types.specs.declared.types.EphemeralCompletionId.{EphemeralCompletionId};
ghost use Rattle.lines.specs.Readings.{Blames};
ghost use Rattle.lines.specs.Words.{IsNumberOf};

use await_trees::NotificationHandle;
use lines::atoms::u32_of;
use plain::Fault;
use vm_types::EphemeralCompletionId;

/// The handle of this number.
pub fn handle_of(text: &[u8]) -> Result<NotificationHandle, Fault>
    ensures value { IfOk result (λ handle. IsNumberOf 32 text.now handle.0) }
    ensures none { IfErr result
        (Blames (λ (handle : NotificationHandle). IsNumberOf 32 text.now handle.0)) }
{
    let number = u32_of(text)?;
    Ok(NotificationHandle(number))
}

/// The id of an ephemeral read, of this number.
pub fn ephemeral_id_of(text: &[u8]) -> Result<EphemeralCompletionId, Fault>
    ensures value { IfOk result (λ id. IsNumberOf 32 text.now id.0) }
    ensures none { IfErr result
        (Blames (λ (id : EphemeralCompletionId). IsNumberOf 32 text.now id.0)) }
{
    let number = u32_of(text)?;
    Ok(EphemeralCompletionId(number))
}
