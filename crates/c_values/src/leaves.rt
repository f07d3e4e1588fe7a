//! The outcomes of the ids that a node lists.
ghost use Rattle.std.specs.Prelude.{◌≡◌, ◌++◌, map, IfOk, OnOk};
ghost use Rattle.std.specs.Option.{option_copied};
ghost use Rattle.journal_protocol.specs.NotificationId.TheVariants.{CompletionId, SignalId, SignalName};
ghost use Rattle.await_tries.specs.Leaves.{result_outcome};
ghost use Rattle.c_values.specs.Children.{listed_outcomes};
ghost use Rattle.c_values.specs.Waking.{outcome_in};

use await_arrivals::Arrivals;
use await_trees::Outcome;
use journal_protocol::{FutureNode, NotificationId, NotificationResult};
use plain::Text;
use std::alloc::{AllocError, Global};

/// The outcome of a leaf by the result of its id.
fn outcome_with(given: Option<&NotificationResult>) -> Outcome
    ensures { result ≡ result_outcome (option_copied given.entry) }
{
    match given {
        None => Outcome::Pending,
        Some(NotificationResult::Failure(_)) => Outcome::Failed,
        Some(
            NotificationResult::Void
            | NotificationResult::Value(_)
            | NotificationResult::StateKeys(_)
            | NotificationResult::InvocationId(_),
        ) => Outcome::Succeeded,
    }
}

/// The outcome of an id.
fn outcome_in(came: &Arrivals, id: &NotificationId) -> Outcome
    ensures { result ≡ outcome_in came.now id.now }
{
    outcome_with(came.first_known(id))
}

/// Adds the outcomes of these completions.
fn add_completions(
    came: &Arrivals,
    ids: &[u32],
    outcomes: &mut Vec<Outcome>,
) -> Result<(), AllocError>
    ensures { OnOk result (outcomes.new.items ≡ outcomes.old.items
        ++ map (λ i. outcome_in came.now (CompletionId i)) ids.now) }
{
    for id in ids {
        outcomes.push(outcome_in(came, &NotificationId::CompletionId(*id)))?;
    }
    Ok(())
}

/// Adds the outcomes of the signals of these numbers.
fn add_signals(came: &Arrivals, ids: &[u32], outcomes: &mut Vec<Outcome>) -> Result<(), AllocError>
    ensures { OnOk result (outcomes.new.items ≡ outcomes.old.items
        ++ map (λ i. outcome_in came.now (SignalId i)) ids.now) }
{
    for id in ids {
        outcomes.push(outcome_in(came, &NotificationId::SignalId(*id)))?;
    }
    Ok(())
}

/// Adds the outcomes of the signals of these names.
fn add_names(came: &Arrivals, names: &[Text], outcomes: &mut Vec<Outcome>) -> Result<(), AllocError>
    ensures { OnOk result (outcomes.new.items ≡ outcomes.old.items
        ++ map (λ i. outcome_in came.now (SignalName i)) names.now) }
{
    for name in names {
        let id = NotificationId::SignalName(name.clone()?);
        outcomes.push(outcome_in(came, &id))?;
    }
    Ok(())
}

/// The outcome of each id that a node lists.
pub fn listed_outcomes(
    alloc: Global,
    came: &Arrivals,
    node: &FutureNode,
) -> Result<Vec<Outcome>, AllocError>
    ensures { IfOk result (λ outcomes. outcomes.items
        ≡ listed_outcomes (outcome_in came.now) node.now) }
{
    let mut outcomes = Vec::new(alloc);
    add_completions(came, node.waiting_completions.as_slice(), &mut outcomes)?;
    add_signals(came, node.waiting_signals.as_slice(), &mut outcomes)?;
    add_names(came, node.waiting_named_signals.as_slice(), &mut outcomes)?;
    Ok(outcomes)
}
