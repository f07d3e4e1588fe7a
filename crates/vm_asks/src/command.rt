//! The command of a call, without its numbers.
ghost use Rattle.journal_protocol.specs.Commands.{IsCommand};

use journal_protocol::{Message, NamedFault};

/// A command that a call asks for.
pub struct Command {
    /// Why its arguments refuse the call, if they do.
    pub refusal: Option<NamedFault>,
    /// The command without its numbers.
    pub message: Message,
    /// Whether its payload may differ from one attempt to the next.
    pub unstable: bool,
    pub ghost is_command: { IsCommand message },
}

/// Written out, so that dropping a command calls this: a derived drop is proved once more in each crate above.
impl Drop for Command {
    fn drop(self) {
        let Self {
            refusal: _,
            message,
            unstable: _,
        } = self;
        drop(message);
    }
}
