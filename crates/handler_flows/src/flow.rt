//! `Flow`: a handler's code, written from top to bottom.
use crate::context::Context;
use crate::exit::Exit;
use bytes::Bytes;
use vm_types::Input;

/// A handler as ordinary code. It is run from its start at each step; its calls are answered from the answers so far, and the
/// first one without an answer leaves it by `?`. So it may depend on nothing but its input and those answers.
pub trait Flow {
    ghost use Rattle.std.specs.Prelude.{List, ℕ};
    ghost use Rattle.vm_types.specs.declared.values.Input.{Input};
    ghost use Rattle.handler_flows.specs.Code.{Code};
    ghost use Rattle.handler_flows.specs.Follows.{Follows};

    /// The code as a tree, by the handler's input. For code that is only run, not proved: `ghost code = { ? };`.
    ghost code: { Self → Input → Code (List ℕ) };

    /// The bytes of the handler's output. A call's exit is handed on.
    fn run(&self, ctx: &mut Context<'_>, input: &Input) -> Result<Bytes, Exit>
        ensures { Follows (code self.now input.now) ctx.old result ctx.new };
}
