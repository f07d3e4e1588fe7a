//! It asks a person by mail, waits for the answer however long it takes, and gives what the person said.
ghost use Rattle.std.specs.Prelude.{◌≡◌, IfOk};

use bytes::Bytes;
use palqytun::handler::{Context, Exit, Flow};
use palqytun::vm::Input;

#[derive(Drop)]
pub struct Approval;

impl Flow for Approval {
    ghost use Rattle.examples.specs.Approval.{approval};

    ghost code = { λ _ _. approval };

    #[tactic(auto, using(handler_flows::specs::Code::goes_on))]
    fn run(&self, ctx: &mut Context<'_>, _input: &Input) -> Result<Bytes, Exit> {
        let approval = ctx.awakeable()?;
        let id = Bytes::copy_from_slice(ctx.alloc(), approval.id.as_str().as_bytes())?;
        ctx.send("Mail", "ask", &id)?;
        ctx.value(approval.handle)
    }
}
