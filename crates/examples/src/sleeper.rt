//! It sleeps to one second after the Unix epoch, and ends with an empty output.
use bytes::Bytes;
use palqytun::handler::{Context, Exit, Flow};
use palqytun::vm::Input;
use std::time::Duration;

#[derive(Drop)]
pub struct Sleeper;

impl Flow for Sleeper {
    ghost use Rattle.examples.specs.Sleeper.{sleeper};

    ghost code = { λ _ _. sleeper };

    #[tactic(auto, using(handler_flows::specs::Code::goes_on))]
    fn run(&self, ctx: &mut Context<'_>, _input: &Input) -> Result<Bytes, Exit> {
        ctx.sleep(Duration::from_secs(1))?;
        Ok(Bytes::new())
    }
}
