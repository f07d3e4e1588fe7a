//! It books a flight and a hotel. If there is no hotel, or the handler is cancelled meanwhile, it gives the flight back.
use bytes::Bytes;
use palqytun::handler::{Context, Exit, Flow};
use palqytun::vm::Input;

#[derive(Drop)]
pub struct Saga;

impl Flow for Saga {
    ghost use Rattle.examples.specs.Saga.{saga};

    ghost code = { λ _ input. saga input.input };

    #[tactic(auto, using(handler_flows::specs::Code::goes_on, handler_flows::specs::Code::is_rescued))]
    fn run(&self, ctx: &mut Context<'_>, input: &Input) -> Result<Bytes, Exit> {
        let flight = ctx.call("Flights", "book", &input.input)?;
        match ctx.call("Hotels", "book", &input.input) {
            Ok(hotel) => Ok(hotel),
            Err(Exit::Fault(fault)) => {
                ctx.send("Flights", "cancel", &flight)?;
                Err(Exit::Fault(fault))
            }
            Err(exit) => Err(exit),
        }
    }
}
