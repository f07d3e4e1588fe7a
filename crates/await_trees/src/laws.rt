//! Laws of trees, as functions that do nothing.
ghost use Rattle.std.specs.Prelude.{◌≡◌, ℕ, IsTrue, Option};
ghost use Rattle.journal_values.specs.declared.notification.NotificationId.{NotificationId};
ghost use Rattle.journal_attempt.specs.Futures.{IsFuture};
ghost use Rattle.await_trees.specs.declared.outcome.Outcome.{Outcome};
ghost use Rattle.await_trees.specs.Outcomes.{outcome, awake};
ghost use Rattle.await_trees.specs.Same.{Same};
ghost use Rattle.await_trees.specs.Tree.{Tree};
ghost use Rattle.await_trees.specs.Wires.{sent, tree_of_nodes, outcome_of_leaf, Mapped};

/// What is sent of a tree is one whole future. If each handle stands for an id, it is awake exactly if the tree is, for all
/// outcomes of the ids.
pub fn wire_futures_wake_as_trees()
    ensures whole { (id : ℕ → Option NotificationId) (t : Tree) → IsFuture (sent id t) }
    ensures alike { (id : ℕ → Option NotificationId) (at : NotificationId → Outcome) (t : Tree)
        → Mapped id t → awake at (tree_of_nodes (sent id t))
        ≡ awake (λ h. outcome_of_leaf at (id h)) t }
{}

/// In which order the children of a node stand, and how often, is of no account: neither for the tree's outcome, nor for
/// whether it is awake.
pub fn order_and_repetition_change_nothing()
    ensures outcome { (at : ℕ → Outcome) (t u : Tree) → Same t u → outcome at t ≡ outcome at u }
    ensures awake { (at : ℕ → Outcome) (t u : Tree) → Same t u → awake at t ≡ awake at u }
{}
