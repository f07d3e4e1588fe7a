//! The lines that say a plan, one a step: those lines of `vmscript` that a handler's calls are.
ghost use Rattle.std.specs.Prelude.{IfErr, IfOk};
ghost use Rattle.call_lines.specs.Said.{AreSaid, SaysStep};

use crate::parse::parse;
use crate::plan::Plan;
use crate::request::Request;
use plain::Fault;
use std::alloc::Global;
use vm_types::{Call, Step};

/// The step that a line says. `Malformed` if it says none.
pub fn step_of(alloc: Global, line: &str) -> Result<Step, Fault>
    ensures { IfOk result (SaysStep line.now) }
{
    let mut words = Vec::new(alloc);
    match parse(alloc, &mut words, line.as_bytes())? {
        Request::Call(Call::Step(step)) => Ok(step),
        Request::Call(Call::Run(name)) => Ok(Step::Run { name }),
        _ => Err(Fault::Malformed),
    }
}

/// The plan that these lines say. `Malformed` if one of them says no step.
#[tactic(auto, using(crate::proofs::Saying::said_more))]
pub fn plan_of(alloc: Global, lines: &[String]) -> Result<Plan, Fault>
    ensures { IfOk result (λ plan. AreSaid lines.now plan.steps.items) }
{
    let mut steps = Vec::new(alloc);
    for line in lines {
        let step = step_of(alloc, line.as_str())?;
        steps.push(step)?;
    }
    Ok(Plan { alloc, steps })
}
