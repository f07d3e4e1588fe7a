//! It charges a card, up to three times, after sleeps until the seconds 1, 2 and 3 since the Unix epoch, and keeps the receipt.
ghost use Rattle.examples.specs.Retry.{kept, turn};
ghost use Rattle.handler_flows.specs.Follows.{Follows};

use bytes::Bytes;
use palqytun::handler::{Context, Exit, Flow};
use palqytun::vm::Input;
use std::time::Duration;

#[derive(Drop)]
pub struct Retry;

/// What a receipt gives: it is kept, except "busy", which is none.
#[tactic(auto, using(handler_flows::specs::Code::goes_on), unfolding(crate::specs::Retry::kept))]
fn kept(ctx: &mut Context<'_>, receipt: Bytes) -> Result<Option<Bytes>, Exit>
    ensures { Follows (kept receipt) ctx.old result ctx.new }
{
    if receipt.as_slice() == b"busy".as_slice() {
        return Ok(None);
    }
    ctx.set("receipt", &receipt)?;
    Ok(Some(receipt))
}

/// One try at this second: the receipt, or nothing if the service is busy.
#[tactic(auto, using(handler_flows::specs::Code::goes_on), unfolding(crate::specs::Retry::turn))]
fn turn(ctx: &mut Context<'_>, order: &Bytes, second: u64) -> Result<Option<Bytes>, Exit>
    ensures { Follows (turn order.now second) ctx.old result ctx.new }
{
    ctx.sleep(Duration::from_secs(second))?;
    let receipt = ctx.call("Payments", "charge", order)?;
    let kept = kept(ctx, receipt)?;
    Ok(kept)
}

impl Flow for Retry {
    ghost use Rattle.examples.specs.Retry.{tries};

    ghost code = { λ _ input. tries input.input 3 1 };

    #[tactic(auto, using(handler_flows::specs::Code::goes_on))]
    fn run(&self, ctx: &mut Context<'_>, input: &Input) -> Result<Bytes, Exit> {
        for second in 1..4 {
            if let Some(receipt) = turn(ctx, &input.input, second)? {
                return Ok(receipt);
            }
        }
        Ok(Bytes::from_static(b"given up"))
    }
}
