//! Laws of tries, as functions that do nothing.
ghost use Rattle.std.specs.Prelude.{◌≡◌, ℕ, length};
ghost use Rattle.journal_values.specs.declared.delivery.SignalDelivery.{SignalDelivery as Delivery};
ghost use Rattle.vm_parts.specs.Arrived.{Arrived};
ghost use Rattle.await_trees.specs.Same.{Same};
ghost use Rattle.await_trees.specs.Tree.{Tree};
ghost use Rattle.await_tries.specs.Await.{LeastAwake, LeftPending, NeverAwake};
ghost use Rattle.await_tries.specs.Later.{WakesAlike, EachOnce, EachLeaf, IsAbsent, PlainlyLeast, Stays};
ghost use Rattle.await_tries.specs.Message.{MessageWakes};
ghost use Rattle.await_tries.specs.Used.{used};

/// What is left of a pending tree wakes as the tree does, for all later notifications, as long as no present result is
/// replaced; and none is, if signals are queued and each completion comes once. So does what is sent of it, if each handle
/// stands for an id.
pub fn residuals_wake_as_trees()
    ensures alike { (delivery : Delivery) (v : Arrived) (t r : Tree) → LeftPending delivery v t r
        → WakesAlike delivery v t r }
    ensures sent { (delivery : Delivery) (v : Arrived) (t r : Tree) → LeftPending delivery v t r
        → MessageWakes delivery v t r }
    ensures stays { (delivery : Delivery) (v : Arrived) → EachOnce delivery v → Stays delivery v }
{}

/// No leaf of what is left has a present result.
pub fn residuals_have_no_result()
    ensures { (delivery : Delivery) (v : Arrived) (t r : Tree) → LeftPending delivery v t r
        → EachLeaf (IsAbsent delivery (used v (length v.queued))) r }
{}

/// If no present result is replaced, a try ends at the least number by what the leaves are at each number.
pub fn tries_are_plainly_least()
    ensures { (delivery : Delivery) (v : Arrived) → Stays delivery v → (t : Tree) (n : ℕ)
        → LeastAwake delivery v t n → PlainlyLeast delivery v t n }
{}

/// In which order the children of a node stand, and how often, changes neither whether an await wakes, nor after how many
/// notifications.
pub fn order_and_repetition_wake_alike()
    ensures least { (delivery : Delivery) (v : Arrived) (t u : Tree) (n : ℕ) → Same t u
        → LeastAwake delivery v t n → LeastAwake delivery v u n }
    ensures never { (delivery : Delivery) (v : Arrived) (t u : Tree) → Same t u
        → NeverAwake delivery v t → NeverAwake delivery v u }
{}
