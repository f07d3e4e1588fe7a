//! The law of a call with a deadline.
ghost use Rattle.std.specs.Prelude.{◌≡◌, ℕ};
ghost use Rattle.journal_protocol.specs.CallCommand.{CallCommand};
ghost use Rattle.journal_protocol.specs.Message.TheVariants as message;
ghost use Rattle.vm_asks.specs.declared.command.Command.{Command};
ghost use Rattle.vm_laws.specs.Deadlines.{MakesBoth};

/// A call with a deadline that is answered made a call with the next two completion ids and after it a sleep with the third, in replay as
/// in Processing. Its three handles stand for these ids, in this order.
pub fn deadlines_follow_their_calls()
    ensures { (c : Command) (call : CallCommand) (millis : ℕ) → c.message ≡ message.Call call
        → MakesBoth c millis }
{}
