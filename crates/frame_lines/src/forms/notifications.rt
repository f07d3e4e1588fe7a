//! What comes in for an attempt, and the read whose result the journal doesn't keep.
ghost use Rattle.frame_lines.specs.Forms.{get_state_ephemeral_command_fields, get_state_ephemeral_notification_fields, notification_fields};

use crate::forms::Form;
use frame_values::fields::{print_field, values_of};
use journal_protocol::{
    GetStateEphemeralCommand, GetStateEphemeralNotification, Notification, NotificationId,
    NotificationResult, VoidOrValue,
};
use lines::line::Line;
use plain::{Fault, Text};
use std::alloc::{AllocError, Global};

impl Form for GetStateEphemeralCommand {
    ghost fields = { get_state_ephemeral_command_fields };

    fn print(&self, line: &mut Line, is_first: bool) -> Result<bool, AllocError> {
        let is_first = print_field(line, is_first, "id", &self.id)?;
        print_field(line, is_first, "key", &self.key)
    }

    fn read(alloc: Global, words: &[&[u8]]) -> Result<GetStateEphemeralCommand, Fault> {
        let names = ["id=", "key="];
        let (id, (key, ())) = values_of::<(u32, (Text, ()))>(alloc, words, &names)?;
        Ok(GetStateEphemeralCommand { id, key })
    }
}

impl Form for GetStateEphemeralNotification {
    ghost fields = { get_state_ephemeral_notification_fields };

    fn print(&self, line: &mut Line, is_first: bool) -> Result<bool, AllocError> {
        let is_first = print_field(line, is_first, "id", &self.id)?;
        print_field(line, is_first, "result", &self.result)
    }

    fn read(alloc: Global, words: &[&[u8]]) -> Result<GetStateEphemeralNotification, Fault> {
        let names = ["id=", "result="];
        let (id, (result, ())) = values_of::<(u32, (Option<VoidOrValue>, ()))>(
            alloc, words, &names,
        )?;
        Ok(GetStateEphemeralNotification { id, result })
    }
}

impl Form for Notification {
    ghost fields = { notification_fields };

    fn print(&self, line: &mut Line, is_first: bool) -> Result<bool, AllocError> {
        let is_first = print_field(line, is_first, "id", &self.id)?;
        print_field(line, is_first, "result", &self.result)
    }

    fn read(alloc: Global, words: &[&[u8]]) -> Result<Notification, Fault> {
        let names = ["id=", "result="];
        let (id, (result, ())) = values_of::<(NotificationId, (NotificationResult, ()))>(
            alloc, words, &names,
        )?;
        Ok(Notification { id, result })
    }
}
