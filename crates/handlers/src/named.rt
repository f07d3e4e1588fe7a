//! The handlers that programs know by their names.
ghost use Rattle.std.specs.Prelude.{◌≡◌, MatchOption, Some, None};
ghost use Rattle.handlers.specs.Named.{step_of, step_named, step_in_rounds};

use crate::charge::Charge;
use crate::counter::Counter;
use crate::deadline::Deadline;
use crate::parent::Parent;
use crate::race::Race;
use crate::sleeper::Sleeper;
use std::alloc::{AllocError, Global};
use vm_types::{Answer, Handler, Step};

/// A handler that has a name.
#[derive(Debug, Drop)]
pub enum Named {
    Sleeper(Sleeper),
    Race(Race),
    Parent(Parent),
    Counter(Counter),
    Deadline(Deadline),
    Charge(Charge),
}

impl Named {
    /// The handler of this name, if there is one whose attempts execute nothing outside.
    pub fn of_name(alloc: Global, name: &str) -> Option<Named>
        ensures { MatchOption result (step_named name.now ≡ None) (λ handler. step_named name.now
            ≡ Some (step_of handler)) }
    {
        match name {
            "sleeper" => Some(Named::Sleeper(Sleeper { alloc })),
            "race" => Some(Named::Race(Race { alloc })),
            "parent" => Some(Named::Parent(Parent { alloc })),
            "counter" => Some(Named::Counter(Counter { alloc })),
            "deadline" => Some(Named::Deadline(Deadline { alloc })),
            _ => None,
        }
    }

    /// The handler of this name, if there is one: `charge` too, whose run a round executes.
    pub fn in_rounds(alloc: Global, name: &str) -> Option<Named>
        ensures { MatchOption result (step_in_rounds name.now
            ≡ None) (λ handler. step_in_rounds name.now ≡ Some (step_of handler)) }
    {
        match name {
            "charge" => Some(Named::Charge(Charge { alloc })),
            _ => Named::of_name(alloc, name),
        }
    }
}

impl Handler for Named {
    ghost meaning = { λ h. step_of h };

    fn next(&self, answers: &[Answer]) -> Result<Step, AllocError> {
        match self {
            Named::Sleeper(sleeper) => sleeper.next(answers),
            Named::Race(race) => race.next(answers),
            Named::Parent(parent) => parent.next(answers),
            Named::Counter(counter) => counter.next(answers),
            Named::Deadline(deadline) => deadline.next(answers),
            Named::Charge(charge) => charge.next(answers),
        }
    }
}
