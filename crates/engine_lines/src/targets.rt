//! The handlers of a script, as an engine's.
ghost use Rattle.std.specs.Prelude.{IfOk};
ghost use Rattle.std.specs.List.{AllZip};
ghost use Rattle.engine_lines.specs.Targets.{IsTarget};

use crate::said::Named;
use crate::script::Planned;
use call_lines::plan::Plan;
use engine_inboxes::Target;
use std::alloc::{AllocError, Global};

/// A handler of the script, as a target.
fn target_of(alloc: Global, planned: Planned) -> Target<Plan>
    ensures { IsTarget planned result }
{
    let Planned { named, steps } = planned;
    let Named {
        service,
        handler,
        exclusive,
    } = named;
    Target {
        service,
        handler,
        exclusive,
        code: Plan {
            alloc,
            steps: steps.into_vec(),
        },
    }
}

/// All handlers.
#[tactic(auto, using(crate::proofs::Handlers::targets_none, crate::proofs::Handlers::targets_more, crate::proofs::Handlers::targets_all))]
pub fn targets_of(alloc: Global, handlers: Vec<Planned>) -> Result<Vec<Target<Plan>>, AllocError>
    ensures { IfOk result (λ targets. AllZip IsTarget handlers.items targets.items) }
{
    let mut targets = Vec::new(alloc);
    for planned in handlers {
        targets.push(target_of(alloc, planned))?;
    }
    Ok(targets)
}

/// How many steps bring a handler as far as it can go: each run takes one more.
pub fn steps_of(target: Option<&Target<Plan>>) -> u64 {
    match target {
        Some(target) => (target.code.steps.len() as u64)
            .saturating_mul(2)
            .saturating_add(2),
        None => 0,
    }
}
