//! Results that were proposed and wait for their acknowledgement, in the order of the proposals.
ghost use Rattle.std.specs.Prelude.{◌≡◌, [], ◌∷◌, ◌++◌, OnOk, OnErr, find, position, true};
ghost use Rattle.std.specs.Option.{option_map};
ghost use Rattle.vm_runs.specs.Firsts.{without_first};
ghost use Rattle.vm_runs.specs.Kept.{is_for, result_of};

use crate::ordered_proposals::OrderedProposals;
use journal_attempt::ProposeRunCompletion;
use journal_values::ValueOrFailure;
use std::alloc::{AllocError, Global};
use std::marker::Model;

/// The proposals that were made after one whose id was kept already: in a machine there are none. Contracts see their list.
#[derive(Drop)]
struct LateProposals {
    kept: Vec<ProposeRunCompletion>,
}

impl Model for LateProposals {
    ghost use Rattle.std.specs.Prelude.{List};
    ghost use Rattle.journal_attempt.specs.declared.runs.ProposeRunCompletion.{ProposeRunCompletion};

    ghost Value = { List ProposeRunCompletion };

    ghost view = { λ proposals. proposals.kept.items };
}

impl LateProposals {
    /// No proposals.
    fn new(alloc: Global) -> LateProposals
        ensures { result ≡ [] }
    {
        LateProposals {
            kept: Vec::new(alloc),
        }
    }

    fn keep(&mut self, completion_id: u32, proposed: ValueOrFailure) -> Result<(), AllocError>
        ensures ok { OnOk result (self.new ≡ self.old
            ++ record { id = completion_id; result = proposed } ∷ []) }
        ensures err { OnErr result (self.new ≡ self.old) }
    {
        self.kept.push(ProposeRunCompletion {
            id: completion_id,
            result: proposed,
        })?;
        Ok(())
    }

    fn is_empty(&self) -> bool
        ensures { result ≡ true → self.now ≡ [] }
    {
        self.kept.is_empty()
    }

    /// The place of the first result of this id.
    fn place_of(&self, completion_id: u32) -> Option<usize>
        ensures { result ≡ position (is_for completion_id) self.now }
    {
        self.kept.iter().position(|kept| kept.id == completion_id)
    }

    fn acknowledge(&mut self, completion_id: u32) -> Option<ValueOrFailure>
        ensures found { result ≡ option_map result_of (find (is_for completion_id) self.old) }
        ensures rest { self.new ≡ without_first (is_for completion_id) self.old }
    {
        let at = self.place_of(completion_id)?;
        Some(self.kept.remove(at).result)
    }
}

/// Contracts see the list of the proposals.
#[derive(Drop)]
pub struct KeptProposals {
    ordered: OrderedProposals,
    late: LateProposals,
}

impl Model for KeptProposals {
    ghost use Rattle.std.specs.Prelude.{◌++◌, List};
    ghost use Rattle.journal_attempt.specs.declared.runs.ProposeRunCompletion.{ProposeRunCompletion};

    ghost Value = { List ProposeRunCompletion };

    ghost view = { λ proposals. proposals.ordered ++ proposals.late };
}

impl KeptProposals {
    /// No proposals.
    pub fn new(alloc: Global) -> KeptProposals
        ensures { result ≡ [] }
    {
        KeptProposals {
            ordered: OrderedProposals::new(alloc),
            late: LateProposals::new(alloc),
        }
    }

    /// The result is kept until its id is acknowledged.
    pub fn keep(&mut self, completion_id: u32, proposed: ValueOrFailure) -> Result<(), AllocError>
        ensures ok { OnOk result (self.new ≡ self.old
            ++ record { id = completion_id; result = proposed } ∷ []) }
        ensures err { OnErr result (self.new ≡ self.old) }
    {
        if !self.late.is_empty() {
            return self.late.keep(completion_id, proposed);
        }
        match self.ordered.keep(completion_id, proposed)? {
            None => Ok(()),
            Some(proposed) => self.late.keep(completion_id, proposed),
        }
    }

    /// The result of this id, which isn't kept any more; none if none was.
    pub fn acknowledge(&mut self, completion_id: u32) -> Option<ValueOrFailure>
        ensures found { result ≡ option_map result_of (find (is_for completion_id) self.old) }
        ensures rest { self.new ≡ without_first (is_for completion_id) self.old }
    {
        match self.ordered.acknowledge(completion_id) {
            Some(proposed) => Some(proposed),
            None => self.late.acknowledge(completion_id),
        }
    }
}
