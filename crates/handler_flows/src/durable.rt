//! A flow as a handler of the driver. What a flow's tree says, its handler does at every step, so all that is proved of
//! handlers holds of it.
ghost use Rattle.std.specs.Prelude.{◌≡◌, IfOk};
ghost use Rattle.handler_flows.specs.Meaning.{fault_failure, output_written};

use crate::context::Context;
use crate::exit::{Exit, Fault};
use crate::flow::Flow;
use plain::{Items, Text};
use std::alloc::{AllocError, Global};
use vm_types::{Answer, Handler, NonEmptyValue, PayloadOptions, Step, TerminalFailure};

/// The handler that a flow is. Its code runs again from its start at each step, over the answers so far.
#[derive(Drop)]
pub struct Durable<F> {
    pub alloc: Global,
    pub flow: F,
}

/// The failure that a handler ends with by a fault.
fn fault_failure(alloc: Global, fault: Fault) -> Result<TerminalFailure, AllocError>
    ensures { IfOk result (λ failure. failure ≡ fault_failure fault) }
{
    match fault {
        Fault::Failed(failure) => Ok(failure),
        Fault::Cancelled => Ok(TerminalFailure {
            code: 409,
            message: Text::from_str(alloc, "cancelled")?,
            metadata: Items::new(alloc),
        }),
    }
}

/// The output is written once.
fn output_written(ctx: &Context<'_>, output: NonEmptyValue) -> Step
    ensures { result ≡ output_written output ctx.now }
{
    if ctx.is_empty() {
        return Step::WriteOutput(output, PayloadOptions::stable_serialization());
    }
    drop(output);
    Step::End
}

impl<F: Flow> Handler for Durable<F> {
    ghost use Rattle.handler_flows.specs.Meaning.{meaning_of};

    ghost meaning = { λ h. meaning_of (F.code h.flow) };

    fn next(&self, answers: &[Answer]) -> Result<Step, AllocError> {
        let Some((Answer::Input(input), rest)) = answers.split_first() else {
            return Ok(Step::End);
        };
        let mut ctx = Context::new(self.alloc, rest);
        match self.flow.run(&mut ctx, input) {
            Ok(output) => Ok(output_written(&ctx, NonEmptyValue::Success(output))),
            Err(Exit::Next(step)) => Ok(step),
            Err(Exit::Fault(fault)) => {
                let failure = fault_failure(self.alloc, fault)?;
                Ok(output_written(&ctx, NonEmptyValue::Failure(failure)))
            }
            Err(Exit::Memory) => Err(AllocError),
        }
    }
}
