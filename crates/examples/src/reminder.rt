//! It asks what time it is, sleeps until an hour later, and sends a reminder. A handler may look at no clock itself: the time is the
//! result of a run, which is stored, so each attempt goes on from the same time.
ghost use Rattle.std.specs.Prelude.{◌≡◌};
ghost use Rattle.examples.specs.Reminder.{second_in};

use bytes::Bytes;
use palqytun::handler::{Context, Exit, Flow};
use palqytun::vm::Input;
use std::time::Duration;

#[derive(Drop)]
pub struct Reminder;

/// The second since the Unix epoch that a run has given: eight bytes, the most significant first; 0 for any other bytes.
fn second_in(bytes: &Bytes) -> u64
    ensures { result ≡ second_in bytes.now }
{
    let given = bytes.as_slice();
    if given.len() != 8 {
        return 0;
    }
    u64::from_be_bytes([
        given[0], given[1], given[2], given[3], given[4], given[5], given[6], given[7],
    ])
}

impl Flow for Reminder {
    ghost use Rattle.examples.specs.Reminder.{reminder};

    ghost code = { λ _ input. reminder input.input };

    #[tactic(auto, using(handler_flows::specs::Code::goes_on))]
    fn run(&self, ctx: &mut Context<'_>, input: &Input) -> Result<Bytes, Exit> {
        let now = ctx.run("now")?;
        ctx.sleep(Duration::from_secs(second_in(&now).saturating_add(3600)))?;
        ctx.send("Mail", "remind", &input.input)?;
        Ok(Bytes::new())
    }
}
