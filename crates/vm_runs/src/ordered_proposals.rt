//! Proposals in the order in which they were made, each found by its completion id.
ghost use Rattle.std.specs.Prelude.{◌≡◌, ◌<◌, [], ◌∷◌, ◌++◌, OnErr, IfOk, IfNone, IfSome, false, find};
ghost use Rattle.std.specs.List.{AllByRecursion};
ghost use Rattle.std.specs.Ordering.{nat_cmp};
ghost use Rattle.std.specs.BTreeMap.{is_at};
ghost use Rattle.std.specs.Option.{option_map};
ghost use Rattle.vm_runs.specs.Firsts.{without_first};
ghost use Rattle.vm_runs.specs.Kept.{AtNumbers, is_for, result_of};

use journal_attempt::ProposeRunCompletion;
use journal_values::ValueOrFailure;
use std::alloc::{AllocError, Global};
use std::collections::BTreeMap;
use std::marker::Model;

/// Contracts see the list of the proposals. A call takes a time that grows with the logarithm of their number.
#[derive(Drop)]
pub struct OrderedProposals {
    /// Each by its number: they were made in the order of their numbers.
    kept: BTreeMap<u64, ProposeRunCompletion>,
    /// The number of each by its completion id. A proposal that found no memory may leave a number here that none has.
    numbers: BTreeMap<u32, u64>,
}

impl Model for OrderedProposals {
    ghost use Rattle.std.specs.Prelude.{List};
    ghost use Rattle.std.specs.List.Sorted.{IsStrictlySortedBy};
    ghost use Rattle.std.specs.Map.{keys_of, values_of};
    ghost use Rattle.std.specs.Ordering.{nat_cmp};
    ghost use Rattle.journal_attempt.specs.declared.runs.ProposeRunCompletion.{ProposeRunCompletion};
    ghost use Rattle.vm_runs.specs.Kept.{AtNumbers};

    ghost Value = { List ProposeRunCompletion };

    ghost view = { λ proposals. values_of proposals.kept.entries };

    ghost invariant = { λ proposals. AtNumbers proposals.numbers.entries proposals.kept.entries
        × IsStrictlySortedBy nat_cmp (keys_of proposals.kept.entries) };
}

/// A number above those of all proposals, if there is one.
fn next_number(kept: &BTreeMap<u64, ProposeRunCompletion>) -> Option<u64>
    ensures { IfSome result (λ n. AllByRecursion (λ e. e.0 < n) kept.now.entries) }
{
    match kept.last_key_value() {
        Some((last, _)) => {
            if *last == u64::MAX {
                return None;
            }
            Some(*last + 1)
        }
        None => Some(0),
    }
}

/// The number of the proposal with this id.
fn number_of(
    kept: &BTreeMap<u64, ProposeRunCompletion>,
    numbers: &BTreeMap<u32, u64>,
    completion_id: u32,
) -> Option<u64>
    requires { AtNumbers numbers.now.entries kept.now.entries }
    ensures some { IfSome result (λ n. AllByRecursion
        (λ e. is_for completion_id e.1 ≡ is_at (nat_cmp n) e.0) kept.now.entries) }
    ensures none { IfNone result (AllByRecursion (λ e. is_for completion_id e.1 ≡ false)
        kept.now.entries) }
{
    let _ = kept.len();
    let number = *numbers.get(&completion_id)?;
    let found = kept.get(&number)?;
    if found.id == completion_id {
        Some(number)
    } else {
        None
    }
}

impl OrderedProposals {
    /// No proposals.
    pub fn new(alloc: Global) -> OrderedProposals
        ensures { result ≡ [] }
    {
        OrderedProposals {
            kept: BTreeMap::new(alloc),
            numbers: BTreeMap::new(alloc),
        }
    }

    /// The result is kept until its id is acknowledged. It comes back if a result of this id is kept already, or no number is
    /// left for it.
    pub fn keep(
        &mut self,
        completion_id: u32,
        proposed: ValueOrFailure,
    ) -> Result<Option<ValueOrFailure>, AllocError>
        ensures kept { IfOk result (λ back. IfNone back (self.new ≡ self.old
            ++ record { id = completion_id; result = proposed } ∷ [])) }
        ensures back { IfOk result (λ back. IfSome back (λ p. (p ≡ proposed)
            × (self.new ≡ self.old))) }
        ensures err { OnErr result (self.new ≡ self.old) }
    {
        if number_of(&self.kept, &self.numbers, completion_id).is_some() {
            return Ok(Some(proposed));
        }
        let Some(number) = next_number(&self.kept) else {
            return Ok(Some(proposed));
        };
        self.numbers.insert(completion_id, number)?;
        self.kept.insert(
            number,
            ProposeRunCompletion {
                id: completion_id,
                result: proposed,
            },
        )?;
        Ok(None)
    }

    /// The result of this id, which isn't kept any more.
    pub fn acknowledge(&mut self, completion_id: u32) -> Option<ValueOrFailure>
        ensures found { result ≡ option_map result_of (find (is_for completion_id) self.old) }
        ensures rest { self.new ≡ without_first (is_for completion_id) self.old }
    {
        let number = number_of(&self.kept, &self.numbers, completion_id)?;
        self.numbers.remove(&completion_id);
        match self.kept.remove(&number) {
            Some(kept) => Some(kept.result),
            None => None,
        }
    }
}
