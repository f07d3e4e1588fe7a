//! It calls another handler, and waits for its answer until one second after the Unix epoch.
ghost use Rattle.examples.specs.Race.{answer_or_timeout, in_time};
ghost use Rattle.handler_flows.specs.Follows.{Follows};

use bytes::Bytes;
use palqytun::handler::{Context, Exit, Flow};
use palqytun::vm::{Input, NotificationHandle};
use std::time::Duration;

#[derive(Drop)]
pub struct Race;

/// The call's answer if it came first, and else that the time is over.
#[tactic(auto, using(handler_flows::specs::Code::goes_on), unfolding(crate::specs::Race::answer_or_timeout))]
fn first(ctx: &mut Context<'_>, is: bool, answer: NotificationHandle) -> Result<Bytes, Exit>
    ensures { Follows (answer_or_timeout is answer) ctx.old result ctx.new }
{
    if is {
        return ctx.value(answer);
    }
    Ok(Bytes::from_static(b"timeout"))
}

/// What comes first counts.
#[tactic(auto, using(handler_flows::specs::Code::goes_on), unfolding(crate::specs::Race::in_time))]
fn in_time(
    ctx: &mut Context<'_>,
    answer: NotificationHandle,
    deadline: NotificationHandle,
) -> Result<Bytes, Exit>
    ensures { Follows (in_time answer deadline) ctx.old result ctx.new }
{
    let is = ctx.select(answer, deadline)?;
    let given = first(ctx, is, answer)?;
    Ok(given)
}

impl Flow for Race {
    ghost use Rattle.examples.specs.Race.{race};

    ghost code = { λ _ input. race input.input };

    #[tactic(auto, using(handler_flows::specs::Code::goes_on))]
    fn run(&self, ctx: &mut Context<'_>, input: &Input) -> Result<Bytes, Exit> {
        let answer = ctx.start_call("Greeter", "greet", &input.input)?;
        let deadline = ctx.start_sleep(Duration::from_secs(1))?;
        let given = in_time(ctx, answer, deadline)?;
        Ok(given)
    }
}
